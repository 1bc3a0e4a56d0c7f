ghost use Rattle.std.specs.Prelude.{◌≡◌, ◌∷◌, IfOk, option_map};
ghost use Rattle.std.specs.Result.{result_map_both};
ghost use Rattle.sve_scope.specs.Lookup.{meaning_of};
ghost use Rattle.sve_fault.specs.Faults.{fault_at};
ghost use Rattle.sve_known.specs.Wrongs.{fault_of};
ghost use Rattle.sve_known.specs.Naming.{name_at, named_fault, of_known, of_meaning, of_name, of_plain, of_scoped, text_at};

use crate::Known;
use sve_bytes::{Name, NoMemory};
use sve_diag::Code;
use sve_fault::{Fault, Said};
use sve_scope::{Enclosing, Found, Scope, What, lookup};
use sve_table::Table;
use sve_tree::{ScopedName, Word};

/// What is wrong with a name.
#[derive(Clone, Copy)]
pub struct Wrong<'a> {
    /// The token at which it is said.
    pub token: u32,
    /// What is said.
    pub code: Code,
    /// The name that it is said of.
    pub name: Option<&'a Name>,
}

/// What is wrong with a name at a token.
fn fault_about<'a>(token: u32, code: Code, name: &'a Name) -> Wrong<'a>
    ensures { fault_of result ≡ named_fault token code name.now }
{
    Wrong {
        token,
        code,
        name: Some(name),
    }
}

/// What is wrong where there is no name.
fn nameless<'a>(token: u32, code: Code) -> Wrong<'a>
    ensures { fault_of result ≡ fault_at token code }
{
    Wrong {
        token,
        code,
        name: None,
    }
}

impl<'a> Wrong<'a> {
    /// The fault that says it.
    ///
    /// # Errors
    /// For want of memory alone.
    pub fn fault(&self) -> Result<Fault, NoMemory>
        ensures { IfOk result (λ f. f ≡ fault_of self.now) }
    {
        let arg = match self.name {
            Some(name) => Some(name.copy()?),
            None => None,
        };
        Ok(Fault {
            token: self.token,
            said: Said::Here {
                code: self.code,
                arg,
            },
        })
    }
}

/// The name at a token of a chunk, where that is an identifier. It takes no memory.
pub fn name_at(words: &[Word], token: u32) -> Option<&Name>
    ensures { option_map (λ n. n.now) result ≡ name_at words.now token }
{
    match words.get(token as usize) {
        Some(word) => word.name(),
        None => None,
    }
}

/// The bytes of a token of a chunk: of an identifier its name, of a literal all of them; none behind the last token. It takes no
/// memory.
pub fn text_at(words: &[Word], token: u32) -> &[u8]
    ensures { result.now ≡ text_at words.now token }
{
    match words.get(token as usize) {
        Some(word) => word.bytes(),
        None => &[],
    }
}

/// What a name of a package stands for, or what is wrong: there is no such package (N04, at the token of the package), or it declares
/// no such name (N05, at the token of the name; IEEE 1800-2017, 26.3). It takes no memory.
pub fn package_member<'a>(
    packages: &'a Table<Known>,
    at: u32,
    from: &'a Name,
    token: u32,
    name: &'a Name,
) -> Result<&'a What, Wrong<'a>>
    ensures { result_map_both (λ w. w.now) fault_of result ≡ of_known packages.now at from.now token name.now }
{
    match packages.get(from) {
        Some(known) => match known.member(name) {
            Some(declared) => Ok(&declared.what),
            None => Err(fault_about(token, Code::N05, name)),
        },
        None => Err(fault_about(at, Code::N04, from)),
    }
}

/// What a plain name stands for, by what lookup finds.
fn of_found<'a>(
    packages: &'a Table<Known>,
    token: u32,
    name: &'a Name,
    found: Found<'a>,
) -> Result<&'a What, Wrong<'a>>
    ensures { result_map_both (λ w. w.now) fault_of result ≡ of_meaning packages.now token name.now (meaning_of found.entry) }
{
    match found {
        Found::Local(declared) => Ok(&declared.what),
        Found::Imported(from, name, _) => package_member(packages, token, from, token, name),
        Found::Two(_, _) => Err(fault_about(token, Code::N06, name)),
        Found::None => Err(fault_about(token, Code::N01, name)),
    }
}

/// What a name without a package stands for.
fn of_plain<'a>(
    packages: &'a Table<Known>,
    words: &'a [Word],
    scope: &'a Scope,
    around: &'a Enclosing<Scope>,
    token: u32,
) -> Result<&'a What, Wrong<'a>>
    ensures { result_map_both (λ w. w.now) fault_of result ≡ of_plain packages.now (scope.now ∷ around.now) token (name_at words.now token) }
{
    match name_at(words, token) {
        Some(name) => of_found(packages, token, name, lookup(scope, around, name, token)),
        None => Err(nameless(token, Code::N01)),
    }
}

/// What a name behind a package stands for.
fn of_scoped<'a>(
    packages: &'a Table<Known>,
    words: &'a [Word],
    at: u32,
    token: u32,
) -> Result<&'a What, Wrong<'a>>
    ensures { result_map_both (λ w. w.now) fault_of result ≡ of_scoped packages.now at (name_at words.now at) token (name_at words.now token) }
{
    match name_at(words, at) {
        Some(from) => match name_at(words, token) {
            Some(name) => package_member(packages, at, from, token, name),
            None => Err(nameless(token, Code::N05)),
        },
        None => Err(nameless(at, Code::N04)),
    }
}

/// What a name stands for where these packages are known, by the words of its chunk, the scope in whose text it stands, and those
/// around that scope; or what is wrong with it (IEEE 1800-2017, 6.5, 23.9 and 26.3): a name that stands for nothing (N01), a package that is
/// not known (N04), a name that it does not declare (N05), a name of two packages (N06). It takes no memory.
pub fn named<'a>(
    packages: &'a Table<Known>,
    words: &'a [Word],
    here: &'a Scope,
    around: &'a Enclosing<Scope>,
    name: ScopedName,
) -> Result<&'a What, Wrong<'a>>
    ensures { result_map_both (λ w. w.now) fault_of result ≡ of_name packages.now words.now (here.now ∷ around.now) name }
{
    match name.scope {
        Some(scope) => of_scoped(packages, words, scope.name, name.name),
        None => of_plain(packages, words, here, around, name.name),
    }
}

//! Names with members behind them.
ghost use Rattle.std.specs.Prelude.{◌≡◌, IfOk};
ghost use Rattle.sve_use.specs.Use.{applied};
ghost use Rattle.sve_known.specs.Naming.{name_at};
ghost use Rattle.sve_known.specs.Wrongs.{fault_of};
ghost use Rattle.sve_scoped.specs.Known.{told_in};
ghost use Rattle.sve_used.specs.Used.{dotted_use, dotted_where, first_found, hierarchical, hierarchical_code, is_hierarchical, is_scope, is_unknown_code, member_by, member_named, unseen_member, used_as, with_dotted_if, wrong_dotted};

use crate::steps::Reading;
use std::alloc::Global;
use sve_bytes::{Name, NoMemory};
use sve_contents::{Contents, DottedName};
use sve_diag::Code;
use sve_fault::Fault;
use sve_known::{Wrong, name_at, named};
use sve_scope::{Face, SharedInterface, What};
use sve_scoped::Text;
use sve_tree::{Postfix, ScopedName, Select, Word};
use sve_use::{first_member, first_selected};

/// The code for the first of several names that stands for nothing.
fn hierarchical_code(code: Code) -> Code
    ensures { result ≡ hierarchical_code code }
{
    match code {
        Code::N01 => Code::N10,
        _ => code,
    }
}

/// What is wrong with the first of several names.
fn hierarchical(wrong: Wrong<'_>) -> Wrong<'_>
    ensures { fault_of result ≡ hierarchical (fault_of wrong.entry) }
{
    Wrong {
        token: wrong.token,
        code: hierarchical_code(wrong.code),
        name: wrong.name,
    }
}

/// A member that an interface does not give through this modport, or by itself where there is none.
fn member_by(
    names: &Option<SharedInterface>,
    modport: &Option<Name>,
    token: u32,
    member: &Name,
) -> Result<Option<Fault>, NoMemory>
    ensures { IfOk result (λ f. f ≡ member_by names.now modport.now token member.now) }
{
    let Some(names) = names else {
        return Ok(None);
    };
    if names.names().gives(modport, member) {
        return Ok(None);
    }
    let unseen = Wrong {
        token,
        code: Code::E12,
        name: Some(member),
    };
    Ok(Some(unseen.fault()?))
}

/// The member at a token, where an interface port does not give it.
fn member_named(words: &[Word], face: &Face, token: u32) -> Result<Option<Fault>, NoMemory>
    ensures { IfOk result (λ f. f ≡ member_named face.now token (name_at words.now token)) }
{
    match name_at(words, token) {
        Some(member) => member_by(&face.names, &face.name.modport, token, member),
        None => Ok(None),
    }
}

/// What is to be said of the member at a token behind a name that stands for this, where there is one (E12; IEEE 1800-2017, 25.3 and 25.5): an
/// interface port does not give it. Nothing is said of a port that is connected to nothing that fits.
///
/// # Errors
/// For want of memory alone.
pub fn unseen_member(
    words: &[Word],
    what: &What,
    member: Option<u32>,
) -> Result<Option<Fault>, NoMemory>
    ensures { IfOk result (λ f. f ≡ unseen_member words.now what.now member) }
{
    let Some(token) = member else {
        return Ok(None);
    };
    match what {
        What::InterfacePort(face) => member_named(words, face, token),
        _ => Ok(None),
    }
}

/// A name that stands for nothing, and not for the names of two packages.
fn is_unknown(code: Code) -> bool
    ensures { result ≡ is_unknown_code code }
{
    match code {
        Code::N01 => true,
        _ => false,
    }
}

/// What stands for a scope in which members are sought.
fn is_scope(what: &What) -> bool
    ensures { result ≡ is_scope what.now }
{
    match what {
        What::Instance | What::Block => true,
        _ => false,
    }
}

/// What is found of the first of several names.
#[derive(Drop)]
struct FirstName {
    /// What is to be said of it, or of the member behind it.
    fault: Option<Fault>,
    /// Whether it begins a hierarchical name.
    is_hierarchical: bool,
}

/// The first of several names, which stands at a token, and the member behind it.
fn first_name(
    text: Text<'_>,
    contents: &Contents,
    token: u32,
    member: Option<u32>,
) -> Result<FirstName, NoMemory>
    ensures fault { IfOk result (λ f. f.fault ≡ wrong_dotted text.entry.words.now member (first_found text.entry.packages.now text.entry.words.now contents.now token)) }
    ensures hierarchical { IfOk result (λ f. f.is_hierarchical ≡ is_hierarchical (first_found text.entry.packages.now text.entry.words.now contents.now token)) }
{
    let name = ScopedName {
        scope: None,
        name: token,
    };
    let found = named(
        text.packages,
        text.words,
        &contents.scope,
        &contents.around,
        name,
    );
    match found {
        Ok(what) => Ok(FirstName {
            fault: unseen_member(text.words, what, member)?,
            is_hierarchical: is_scope(what),
        }),
        Err(wrong) => {
            let is_hierarchical = is_unknown(wrong.code);
            Ok(FirstName {
                fault: Some(hierarchical(wrong).fault()?),
                is_hierarchical,
            })
        }
    }
}

/// The hierarchical name that begins at a token, to which these are applied, where it is to be kept.
fn applied_name(
    alloc: Global,
    text: Text<'_>,
    contents: &Contents,
    kept: bool,
    token: u32,
    postfixes: &[Postfix],
) -> Result<Option<DottedName>, NoMemory>
    ensures { IfOk result (λ n. n ≡ dotted_where kept (told_in text.entry.packages.now text.entry.words.now contents.now) text.entry.words.now token postfixes.now) }
{
    if !kept {
        return Ok(None);
    }
    let Some(name) = name_at(text.words, token) else {
        return Ok(None);
    };
    let begun = Reading::begun(alloc, name.copy()?);
    let name = begun
        .after_postfixes(alloc, text, contents, postfixes)?
        .into_path()?;
    Ok(Some(DottedName { token, name }))
}

/// The same, where these selects are applied.
#[tactic(auto, using(crate::proofs::Selects::after_applied))]
fn selected_name(
    alloc: Global,
    text: Text<'_>,
    contents: &Contents,
    kept: bool,
    token: u32,
    selects: &[Select],
) -> Result<Option<DottedName>, NoMemory>
    ensures { IfOk result (λ n. n ≡ dotted_where kept (told_in text.entry.packages.now text.entry.words.now contents.now) text.entry.words.now token (applied selects.now)) }
{
    if !kept {
        return Ok(None);
    }
    let Some(name) = name_at(text.words, token) else {
        return Ok(None);
    };
    let begun = Reading::begun(alloc, name.copy()?);
    let name = begun
        .after_selects(alloc, text, contents, selects)?
        .into_path()?;
    Ok(Some(DottedName { token, name }))
}

/// Keeps a hierarchical name, where there is one.
fn with_dotted_if(contents: Contents, name: Option<DottedName>) -> Result<Contents, NoMemory>
    ensures { IfOk result (λ c. c ≡ with_dotted_if contents name) }
{
    match name {
        Some(name) => contents.with_dotted(name),
        None => Ok(contents),
    }
}

/// The scope behind a use of a name at a token, of which this is to be said, and which is this hierarchical name.
fn used_as(
    words: &[Word],
    contents: Contents,
    token: u32,
    fault: Option<Fault>,
    name: Option<DottedName>,
) -> Result<Contents, NoMemory>
    ensures { IfOk result (λ c. c ≡ used_as words.now contents token fault name) }
{
    let contents = with_dotted_if(contents, name)?;
    let contents = contents.said_if(fault)?;
    contents.with_use(words, token)
}

/// The scope behind a use of a plain name at a token, to which these are applied, with a member among them: a part of what is declared by
/// that name, or else a hierarchical name (IEEE 1800-2017, 7.2 and 23.6). That is kept, and said where its first name stands for nothing
/// (N10): around packages and compilation units there is nothing in which it could be found. A name of two packages is said (N06), and so is
/// a member right behind the name of an interface port that does not give it (E12; 25.3 and 25.5). Where the name is found through an import
/// of all names of a package, that import has taken effect for it (26.3).
///
/// # Errors
/// For want of memory alone.
pub fn dotted_use(
    alloc: Global,
    text: Text<'_>,
    contents: Contents,
    token: u32,
    postfixes: &[Postfix],
) -> Result<Contents, NoMemory>
    ensures { IfOk result (λ c. c ≡ dotted_use text.entry.packages.now text.entry.words.now contents token postfixes.now) }
{
    let first = first_name(text, &contents, token, first_member(postfixes))?;
    let kept = first.is_hierarchical;
    let name = applied_name(alloc, text, &contents, kept, token, postfixes)?;
    used_as(text.words, contents, token, first.fault, name)
}

/// The same, where these selects are applied, as on the left of an assignment.
///
/// # Errors
/// For want of memory alone.
pub fn selected_use(
    alloc: Global,
    text: Text<'_>,
    contents: Contents,
    token: u32,
    selects: &[Select],
) -> Result<Contents, NoMemory>
    ensures { IfOk result (λ c. c ≡ dotted_use text.entry.packages.now text.entry.words.now contents token (applied selects.now)) }
{
    let first = first_name(text, &contents, token, first_selected(selects))?;
    let kept = first.is_hierarchical;
    let name = selected_name(alloc, text, &contents, kept, token, selects)?;
    used_as(text.words, contents, token, first.fault, name)
}

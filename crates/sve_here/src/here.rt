ghost use Rattle.std.specs.Prelude.{◌≡◌};
ghost use Rattle.sve_here.specs.Told.{is_type_name};

use std::alloc::Global;
use sve_bytes::{Name, NoMemory};
use sve_diag::Code;
use sve_env::Env;
use sve_fault::{Fault, Fuel, Halted};
use sve_known::{Known, first_token, name_at, named, text_at, type_of, value_of};
use sve_scope::{Enclosing, Scope, What};
use sve_table::Table;
use sve_tree::{ArgumentList, ScopedName, Word};
use sve_types::{Ty, Value};

/// What is known where an expression stands. It says what names mean at the place of their use, and changes nothing: that a use takes
/// an import of all names of a package into effect is for whoever reads the text of the scope. A call is no constant (C01), and
/// counts its name alone.
#[derive(Clone, Copy)]
pub struct Here<'a> {
    /// The allocator.
    pub alloc: Global,
    /// The file of the expression.
    pub file: &'a Name,
    /// The chunk of the expression in its file, from 0.
    pub chunk: u32,
    /// The words of the chunk.
    pub words: &'a [Word],
    /// The innermost scope that sees the expression, which stands in its text.
    pub scope: &'a Scope,
    /// The scopes around that one.
    pub around: &'a Enclosing<Scope>,
    /// The packages that are known.
    pub packages: &'a Table<Known>,
}

impl Env for Here<'_> {
    ghost use Rattle.std.specs.Prelude.{◌∷◌};
    ghost use Rattle.sve_here.specs.Told.{known_here};

    ghost told = { λ h. known_here h.file.now h.chunk h.words.now (h.scope.now ∷ h.around.now) h.packages.now };

    fn file(&self) -> &Name {
        self.file
    }

    fn chunk(&self) -> u32 {
        self.chunk
    }

    fn text(&self, token: u32) -> &[u8] {
        text_at(self.words, token)
    }

    fn declared_before(&self, token: u32) -> Result<bool, NoMemory> {
        let Some(name) = name_at(self.words, token) else {
            return Ok(false);
        };
        match self.scope.declared.get(name) {
            Some(declared) => Ok(declared.at.is_before(self.file, self.chunk, token)),
            None => Ok(false),
        }
    }

    fn constant(&self, name: ScopedName) -> Result<Result<Value, Fault>, NoMemory> {
        match named(self.packages, self.words, self.scope, self.around, name) {
            Ok(what) => {
                let word = name_at(self.words, name.name);
                value_of(self.alloc, first_token(name), name.name, word, what)
            }
            Err(wrong) => Ok(Err(wrong.fault()?)),
        }
    }

    fn is_type(&self, name: ScopedName) -> bool {
        match named(self.packages, self.words, self.scope, self.around, name) {
            Ok(what) => is_type_name(what),
            Err(_) => false,
        }
    }

    fn ty(&self, name: ScopedName) -> Result<Result<&Ty, Fault>, NoMemory> {
        match named(self.packages, self.words, self.scope, self.around, name) {
            Ok(what) => Ok(type_of(first_token(name), what)),
            Err(wrong) => Ok(Err(wrong.fault()?)),
        }
    }

    fn call(
        &self,
        name: ScopedName,
        _arguments: &ArgumentList,
        _fuel: &mut Fuel,
    ) -> Result<Result<Value, Fault>, Halted> {
        match named(self.packages, self.words, self.scope, self.around, name) {
            Ok(_) => Ok(Err(Fault::at(first_token(name), Code::C01))),
            Err(wrong) => Ok(Err(wrong.fault()?)),
        }
    }
}

/// Whether what a name stands for is a type (IEEE 1800-2017, 6.18).
fn is_type_name(what: &What) -> bool
    ensures { result ≡ is_type_name what.now }
{
    matches!(what, What::TypeName(_))
}

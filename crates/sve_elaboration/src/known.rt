//! What is known in the innermost scope of a body.
use crate::elaboration::Elaboration;
use sve_bytes::{Name, NoMemory};
use sve_env::Env;
use sve_fault::{Fault, Fuel, Halted};
use sve_known::{first_token, named, text_at, type_of};
use sve_scoped::around;
use sve_tree::{ArgumentList, ScopedName};
use sve_types::{Ty, Value};

impl<'a> Env for Elaboration<'a> {
    ghost use Rattle.sve_elaboration.specs.Scopes.{known_in};

    ghost told = { known_in };

    fn file(&self) -> &Name {
        &self.nested.contents.scope.file
    }

    fn chunk(&self) -> u32 {
        self.nested.contents.scope.chunk
    }

    fn text(&self, token: u32) -> &[u8] {
        text_at(self.text.words, token)
    }

    fn declared_before(&self, token: u32) -> Result<bool, NoMemory> {
        around(self.alloc, self.text, &self.nested.contents).declared_before(token)
    }

    fn constant(&self, name: ScopedName) -> Result<Result<Value, Fault>, NoMemory> {
        around(self.alloc, self.text, &self.nested.contents).constant(name)
    }

    fn is_type(&self, name: ScopedName) -> bool {
        around(self.alloc, self.text, &self.nested.contents).is_type(name)
    }

    fn ty(&self, name: ScopedName) -> Result<Result<&Ty, Fault>, NoMemory> {
        let contents = &self.nested.contents;
        let scope = &contents.scope;
        match named(
            self.text.packages,
            self.text.words,
            scope,
            &contents.around,
            name,
        ) {
            Ok(what) => Ok(type_of(first_token(name), what)),
            Err(wrong) => Ok(Err(wrong.fault()?)),
        }
    }

    fn call(
        &self,
        name: ScopedName,
        arguments: &ArgumentList,
        fuel: &mut Fuel,
    ) -> Result<Result<Value, Fault>, Halted> {
        around(self.alloc, self.text, &self.nested.contents).call(name, arguments, fuel)
    }
}

ghost use Rattle.std.specs.Prelude.{◌≡◌, IfOk};
ghost use Rattle.sve_fault.specs.Counts.{IsFuel, Counts};
ghost use Rattle.std.specs.Result.{result_map_both};
ghost use Rattle.sve_env.specs.Told.{Told};

use sve_bytes::{Name, NoMemory};
use sve_fault::{Fault, Fuel, Halted};
use sve_tree::{ArgumentList, ScopedName};
use sve_types::{Ty, Value};

/// What is known where an expression stands: the words of its tokens, and what its names are. A fault that it answers stands
/// at a token of the name.
pub trait Env {
    // All that it answers.
    ghost told: { Self → Told };

    /// The file of the expression.
    fn file(&self) -> &Name
        ensures { result.now ≡ (told self.now).file };

    /// The chunk of the expression in its file, from 0.
    fn chunk(&self) -> u32
        ensures { result ≡ (told self.now).chunk };

    /// The bytes of a token of the chunk, by its number from 0: of an identifier its name, of a literal and of the name of a
    /// system function all of them.
    fn text(&self, token: u32) -> &[u8]
        ensures { result.now ≡ (told self.now).text token };

    /// Whether the scope in whose text the expression stands declares the name at a token before that token. Of two declarations of
    /// a name the first stays, so a declaration at the token is none.
    fn declared_before(&self, token: u32) -> Result<bool, NoMemory>
        ensures { IfOk result (λ r. r ≡ (told self.now).declared_before token) };

    /// The value of a constant (IEEE 1800-2017, 6.20), or what is wrong with its name.
    fn constant(&self, name: ScopedName) -> Result<Result<Value, Fault>, NoMemory>
        ensures { IfOk result (λ r. r ≡ (told self.now).constant name) };

    /// Whether a name is that of a type (6.18).
    fn is_type(&self, name: ScopedName) -> bool
        ensures { result ≡ (told self.now).is_type name };

    /// The type that a name stands for, or the type of a constant, or of a function's result; or what is wrong with the name.
    fn ty(&self, name: ScopedName) -> Result<Result<&Ty, Fault>, NoMemory>
        ensures { IfOk result (λ r. result_map_both (λ t. t.now) (λ f. f) r ≡ (told self.now).ty name) };

    /// The value of a call (13.4.3), or what is wrong with it. It counts the nodes of its arguments, and its steps.
    fn call(
        &self,
        name: ScopedName,
        arguments: &ArgumentList,
        fuel: &mut Fuel,
    ) -> Result<Result<Value, Fault>, Halted>
        requires { IsFuel fuel.old }
        ensures value { IfOk result (λ r. r ≡ (told self.now).call name arguments.now.arguments.items.items) }
        ensures count { Counts result fuel.old fuel.new ((told self.now).steps name arguments.now.arguments.items.items) };
}

ghost use Rattle.std.specs.Prelude.{◌≡◌};
ghost use Rattle.sve_genvar.specs.Genvar.{genvar_value, index_of, integer_type};

use sve_bytes::{Name, NoMemory};
use sve_env::Env;
use sve_fault::{Fault, Fuel, Halted};
use sve_tree::{ArgumentList, ScopedName};
use sve_types::{Ty, Value};
use sve_value::Bits;

/// A genvar's value, of type `integer`.
pub(crate) fn genvar_value(value: i32) -> Bits
    ensures { result ≡ genvar_value value }
{
    let digits = (value as i64).rem_euclid(4_294_967_296).unsigned_abs();
    Bits::number(32, true, digits as u128)
}

/// The number that a value of type `integer` stands for, where none of its bits is x or z.
pub(crate) fn index_of(value: Bits) -> Option<i32>
    ensures { result ≡ index_of value }
{
    match value.integer() {
        None => None,
        Some(number) => {
            if -2_147_483_648 <= number && number < 2_147_483_648 {
                return Some(number as i32);
            }
            None
        }
    }
}

/// What is known in a generate loop: all that is known around it, and the value of its genvar, which is a constant of type
/// `integer` (IEEE 1800-2017, 27.4).
#[derive(Drop)]
pub struct InLoop<'a, E> {
    /// What is known around the loop.
    pub env: &'a E,
    /// The name of the genvar.
    pub genvar: &'a [u8],
    /// Its value.
    pub value: i32,
    /// The type `integer`.
    pub integer: &'a Ty,

    ghost is_integer: { integer.now ≡ integer_type },
}

impl<'a, E: Env> InLoop<'a, E> {
    ghost use Rattle.sve_genvar.specs.Genvar.{is_genvar};

    /// Whether a name is the genvar's.
    fn is_genvar(&self, name: ScopedName) -> bool
        ensures { result ≡ is_genvar self.now.genvar.now (E.told self.now.env.now) name }
    {
        match name.scope {
            Some(_) => false,
            None => self.env.text(name.name) == self.genvar,
        }
    }
}

impl<'a, E: Env> Env for InLoop<'a, E> {
    ghost use Rattle.sve_genvar.specs.Genvar.{with_genvar};

    ghost told = { λ s. with_genvar s.genvar.now s.value (E.told s.env.now) };

    fn file(&self) -> &Name {
        self.env.file()
    }

    fn chunk(&self) -> u32 {
        self.env.chunk()
    }

    fn text(&self, token: u32) -> &[u8] {
        self.env.text(token)
    }

    fn declared_before(&self, token: u32) -> Result<bool, NoMemory> {
        self.env.declared_before(token)
    }

    fn constant(&self, name: ScopedName) -> Result<Result<Value, Fault>, NoMemory> {
        if self.is_genvar(name) {
            return Ok(Ok(Value::Bits(genvar_value(self.value))));
        }
        self.env.constant(name)
    }

    fn is_type(&self, name: ScopedName) -> bool {
        if self.is_genvar(name) {
            return false;
        }
        self.env.is_type(name)
    }

    fn ty(&self, name: ScopedName) -> Result<Result<&Ty, Fault>, NoMemory> {
        if self.is_genvar(name) {
            return Ok(Ok(self.integer));
        }
        self.env.ty(name)
    }

    fn call(
        &self,
        name: ScopedName,
        arguments: &ArgumentList,
        fuel: &mut Fuel,
    ) -> Result<Result<Value, Fault>, Halted> {
        self.env.call(name, arguments, fuel)
    }
}

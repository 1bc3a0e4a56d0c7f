ghost use Rattle.std.specs.Prelude.{◌≡◌, IfOk, option_map};
ghost use Rattle.sve_fault.specs.Faults.{argument_of};
ghost use Rattle.sve_enum_type.specs.Earlier.{last_value, with_new, earlier_of};

use std::alloc::Global;
use sve_bytes::{Name, NoMemory};
use sve_env::Env;
use sve_fault::{Fault, Fuel, Halted, Said, argument};
use sve_table::{Named, Table};
use sve_tree::{ArgumentList, ScopedName};
use sve_type_rule::Last;
use sve_types::{Ty, Value};
use sve_value::Bits;

/// A name of an enumeration, and its value, where it has one.
#[derive(Drop)]
pub(crate) struct Earlier {
    /// The name.
    pub(crate) name: Name,
    /// Its value.
    pub(crate) value: Option<Bits>,
}

impl Named for Earlier {
    ghost called = { λ e. e.name };

    fn name(&self) -> &Name {
        &self.name
    }
}

/// The value of the name that was read last, where it has one.
fn last_value(last: &Last) -> Option<Bits>
    ensures { result ≡ last_value last.now }
{
    match last {
        Last::First => None,
        Last::Value(value) => Some(*value),
        Last::Missing => None,
    }
}

/// The names so far, and behind them one more, unless there is one of its name, or the scope around has declared it before.
pub(crate) fn with_new(
    alloc: Global,
    earlier: Table<Earlier>,
    is_declared: bool,
    name: &[u8],
    last: &Last,
) -> Result<Table<Earlier>, NoMemory>
    ensures { IfOk result (λ t. t ≡ with_new is_declared earlier (argument_of name.now) (last_value last.now)) }
{
    if is_declared {
        return Ok(earlier);
    }
    let Some(name) = argument(alloc, name)? else {
        return Ok(earlier);
    };
    let mut earlier = earlier;
    earlier.add(Earlier {
        name,
        value: last_value(last),
    })?;
    Ok(earlier)
}

/// What is known where the value of a name of an enumeration stands: what is known around the enumeration, and the names before it that
/// are declared by it.
#[derive(Drop)]
pub(crate) struct Among<'a, E> {
    /// The allocator.
    pub(crate) alloc: Global,
    /// What is known around the enumeration.
    pub(crate) env: &'a E,
    /// The base.
    pub(crate) base: &'a Ty,
    /// The names before it.
    pub(crate) earlier: &'a Table<Earlier>,
}

/// The earlier name that a name stands for.
fn found<'a, E: Env>(
    among: &Among<'a, E>,
    name: ScopedName,
) -> Result<Option<&'a Earlier>, NoMemory>
    ensures { IfOk result (λ e. option_map (λ x. x.now) e ≡ earlier_of (E.told among.now.env.now) among.now.earlier.now name) }
{
    if name.scope.is_some() {
        return Ok(None);
    }
    match argument(among.alloc, among.env.text(name.name))? {
        None => Ok(None),
        Some(name) => Ok(among.earlier.get(&name)),
    }
}

impl<E: Env> Env for Among<'_, E> {
    ghost use Rattle.sve_enum_type.specs.Earlier.{told_among};

    ghost told = { λ s. told_among (E.told s.env.now) s.base.now s.earlier.now };

    fn file(&self) -> &Name {
        self.env.file()
    }

    fn chunk(&self) -> u32 {
        self.env.chunk()
    }

    fn text(&self, token: u32) -> &[u8] {
        self.env.text(token)
    }

    fn declared_before(&self, token: u32) -> Result<bool, NoMemory> {
        self.env.declared_before(token)
    }

    fn constant(&self, name: ScopedName) -> Result<Result<Value, Fault>, NoMemory> {
        match found(self, name)? {
            None => self.env.constant(name),
            Some(earlier) => match earlier.value {
                Some(value) => Ok(Ok(Value::Bits(value))),
                None => Ok(Err(Fault {
                    token: name.name,
                    said: Said::Nothing,
                })),
            },
        }
    }

    fn is_type(&self, name: ScopedName) -> bool {
        self.env.is_type(name)
    }

    fn ty(&self, name: ScopedName) -> Result<Result<&Ty, Fault>, NoMemory> {
        match found(self, name)? {
            None => self.env.ty(name),
            Some(_) => Ok(Ok(self.base)),
        }
    }

    fn call(
        &self,
        name: ScopedName,
        arguments: &ArgumentList,
        fuel: &mut Fuel,
    ) -> Result<Result<Value, Fault>, Halted> {
        self.env.call(name, arguments, fuel)
    }
}

//! Types that begin with a keyword, where no name can stand in their place.
ghost use Rattle.std.specs.Prelude.{◌≡◌, [], IfErr, IfOk};
ghost use Rattle.sve_fault.specs.Counts.{IsFuel, Counts};
ghost use Rattle.sve_type_of.specs.TypeOf.{IsTyped, written};
ghost use Rattle.sve_type_of.specs.Nodes.{written_nodes};

use crate::calls::said;
use crate::said::Typed;
use crate::written::written;
use std::alloc::Global;
use sve_env::Env;
use sve_fault::{Fuel, Halted};
use sve_tree::DataType;

/// The type of a type by its keyword, which leaves any count behind where it is halted.
fn keyword_by_itself<E: Env>(
    alloc: Global,
    data_type: &DataType,
    env: &E,
    fuel: &mut Fuel,
) -> Result<Typed, Halted>
    requires { IsFuel fuel.old }
    ensures meaning { IfOk result (λ t. IsTyped t (E.told env.now) (written (E.told env.now) data_type.now [])) }
    ensures count { Counts result fuel.old fuel.new (written_nodes (E.told env.now) data_type.now) }
{
    let typed = written(alloc, data_type, Vec::new(alloc), env, fuel)?;
    Ok(said(alloc, typed, env)?)
}

/// The type of a type that begins with a keyword (IEEE 1800-2017, A.2.2.1), as a variable of a `for` has one (12.7.1). It counts as
/// [`crate::type_of`] does.
pub fn keyword_type<E: Env>(
    alloc: Global,
    data_type: &DataType,
    env: &E,
    fuel: &mut Fuel,
) -> Result<Typed, Halted>
    requires { IsFuel fuel.old }
    ensures meaning { IfOk result (λ t. IsTyped t (E.told env.now) (written (E.told env.now) data_type.now [])) }
    ensures count { Counts result fuel.old fuel.new (written_nodes (E.told env.now) data_type.now) }
    ensures stays { IfErr result (λ _. fuel.new ≡ fuel.old) }
{
    let before = *fuel;
    match keyword_by_itself(alloc, data_type, env, fuel) {
        Ok(typed) => Ok(typed),
        Err(halted) => {
            *fuel = before;
            Err(halted)
        }
    }
}

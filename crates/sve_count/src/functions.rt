ghost use Rattle.std.specs.Prelude.{sum_by};
ghost use Rattle.sve_fault.specs.Counts.{IsFuel, Counts};
ghost use Rattle.sve_count.specs.Functions.{formal_nodes, formals_nodes, function_nodes, result_nodes};

use crate::statements::count_block_items;
use sve_env::Env;
use sve_fault::{Fuel, Halted};
use sve_tree::{Formal, Formals, Func, FunctionResult};
use sve_type_count::{count_declared_type, count_dimensions};

/// The nodes of the type of a function's result.
fn count_result<E: Env>(
    result_type: &FunctionResult,
    env: &E,
    fuel: &mut Fuel,
) -> Result<(), Halted>
    requires { IsFuel fuel.old }
    ensures { Counts result fuel.old fuel.new (result_nodes (E.told env.now) result_type.now) }
{
    match result_type {
        FunctionResult::Void { .. } => Ok(()),
        FunctionResult::Typed { result: typed } => count_declared_type(&typed.data_type, env, fuel),
    }
}

/// The nodes of a formal argument.
fn count_formal<E: Env>(formal: &Formal, env: &E, fuel: &mut Fuel) -> Result<(), Halted>
    requires { IsFuel fuel.old }
    ensures { Counts result fuel.old fuel.new (formal_nodes (E.told env.now) formal.now) }
{
    count_declared_type(&formal.parameter.data_type, env, fuel)?;
    count_dimensions(&formal.parameter.declarator.dimensions, env, fuel)
}

/// The nodes of formal arguments, in order.
#[tactic(auto, using(crate::proofs::Rows::formal_step, crate::proofs::Rows::formal_end))]
fn count_listed<E: Env>(formals: &[Formal], env: &E, fuel: &mut Fuel) -> Result<(), Halted>
    requires { IsFuel fuel.old }
    ensures { Counts result fuel.old fuel.new (sum_by (formal_nodes (E.told env.now)) formals.now) }
{
    'formals: for formal in formals {
        count_formal(formal, env, fuel)?;
    }
    Ok(())
}

/// The nodes of the formal arguments of a function, where a list of them is written.
fn count_formals<E: Env>(written: &Option<Formals>, env: &E, fuel: &mut Fuel) -> Result<(), Halted>
    requires { IsFuel fuel.old }
    ensures { Counts result fuel.old fuel.new (formals_nodes (E.told env.now) written.now) }
{
    match written {
        None => Ok(()),
        Some(written) => count_listed(written.formals.as_slice(), env, fuel),
    }
}

/// Counts the nodes of a function (IEEE 1800-2017, 13.4): those of its result, of its formal arguments, and of the declarations in its body.
/// It counts as [`crate::count_data`] does.
pub fn count_function<E: Env>(function: &Func, env: &E, fuel: &mut Fuel) -> Result<(), Halted>
    requires { IsFuel fuel.old }
    ensures { Counts result fuel.old fuel.new (function_nodes (E.told env.now) function.now) }
{
    count_result(&function.result_type, env, fuel)?;
    count_formals(&function.formals, env, fuel)?;
    count_block_items(&function.items, env, fuel)
}

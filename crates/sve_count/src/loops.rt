//! The variables of loops.
ghost use Rattle.sve_fault.specs.Counts.{IsFuel, Counts};
ghost use Rattle.sve_count.specs.Declarations.{loop_nodes, loop_type_nodes, named_loop_nodes, variable_nodes};

use sve_env::Env;
use sve_fault::{Fuel, Halted};
use sve_tree::{DataType, Declarator, ForVariable, Select};
use sve_type_count::{count_dimensions, count_keyword_type, count_selected_type};

/// The nodes of the type of a variable of a `for`, where one is written.
fn count_loop_type<E: Env>(
    data_type: &Option<DataType>,
    env: &E,
    fuel: &mut Fuel,
) -> Result<(), Halted>
    requires { IsFuel fuel.old }
    ensures { Counts result fuel.old fuel.new (loop_type_nodes (E.told env.now) data_type.now) }
{
    match data_type {
        Some(data_type) => count_keyword_type(data_type, env, fuel),
        None => Ok(()),
    }
}

/// The nodes of a variable of a `for`.
fn count_variable<E: Env>(variable: &ForVariable, env: &E, fuel: &mut Fuel) -> Result<(), Halted>
    requires { IsFuel fuel.old }
    ensures { Counts result fuel.old fuel.new (variable_nodes (E.told env.now) variable.now) }
{
    count_loop_type(&variable.data_type, env, fuel)?;
    count_dimensions(&variable.declarator.dimensions, env, fuel)
}

/// The nodes of the variables of a `for` (IEEE 1800-2017, 12.7.1).
#[tactic(auto, using(crate::proofs::Rows::variable_step, crate::proofs::Rows::variable_end))]
pub(crate) fn count_loop<E: Env>(
    variables: &[ForVariable],
    env: &E,
    fuel: &mut Fuel,
) -> Result<(), Halted>
    requires { IsFuel fuel.old }
    ensures { Counts result fuel.old fuel.new (loop_nodes (E.told env.now) variables.now) }
{
    'variables: for variable in variables {
        count_variable(variable, env, fuel)?;
    }
    Ok(())
}

/// The nodes of the variable of a `for` whose type is told by its name (12.7.1).
pub(crate) fn count_named_loop<E: Env>(
    selects: &[Select],
    declarator: &Declarator,
    env: &E,
    fuel: &mut Fuel,
) -> Result<(), Halted>
    requires { IsFuel fuel.old }
    ensures { Counts result fuel.old fuel.new (named_loop_nodes (E.told env.now) selects.now declarator.now) }
{
    count_selected_type(selects, env, fuel)?;
    count_dimensions(&declarator.dimensions, env, fuel)
}

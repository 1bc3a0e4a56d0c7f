ghost use Rattle.std.specs.Prelude.{sum_by};
ghost use Rattle.sve_fault.specs.Counts.{IsFuel, Counts};
ghost use Rattle.sve_count.specs.Declarations.{assignment_nodes, parameters_nodes};

use sve_env::{Env, visit};
use sve_fault::{Fuel, Halted};
use sve_tree::{ParameterAssignment, Parameters};
use sve_type_count::{count_declared_type, count_dimensions};

/// The nodes of a parameter: those of its dimensions and of its value.
fn count_assignment<E: Env>(
    written: &ParameterAssignment,
    env: &E,
    fuel: &mut Fuel,
) -> Result<(), Halted>
    requires { IsFuel fuel.old }
    ensures { Counts result fuel.old fuel.new (assignment_nodes (E.told env.now) written.now) }
{
    count_dimensions(&written.declarator.dimensions, env, fuel)?;
    visit(&written.value.value, env, fuel)
}

/// The nodes of parameters of one type, in order.
#[tactic(auto, using(crate::proofs::Rows::assignment_step, crate::proofs::Rows::assignment_end))]
fn count_assignments<E: Env>(
    assignments: &[ParameterAssignment],
    env: &E,
    fuel: &mut Fuel,
) -> Result<(), Halted>
    requires { IsFuel fuel.old }
    ensures { Counts result fuel.old fuel.new (sum_by (assignment_nodes (E.told env.now)) assignments.now) }
{
    'assignments: for assignment in assignments {
        count_assignment(assignment, env, fuel)?;
    }
    Ok(())
}

/// Counts the nodes of a declaration of parameters (IEEE 1800-2017, 6.20): those of the type, of the dimensions behind the names and of the
/// values. It counts as [`crate::count_data`] does.
pub fn count_parameters<E: Env>(
    written: &Parameters,
    env: &E,
    fuel: &mut Fuel,
) -> Result<(), Halted>
    requires { IsFuel fuel.old }
    ensures { Counts result fuel.old fuel.new (parameters_nodes (E.told env.now) written.now) }
{
    count_declared_type(&written.data_type, env, fuel)?;
    count_assignments(written.assignments.as_slice(), env, fuel)
}

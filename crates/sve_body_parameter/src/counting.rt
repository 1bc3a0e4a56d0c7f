//! The nodes of parameters of a body.
ghost use Rattle.std.specs.Prelude.{Some, option_map};
ghost use Rattle.sve_fault.specs.Counts.{Counts, IsFuel};
ghost use Rattle.sve_resolve.specs.Values.{given_nodes, given_or_default};
ghost use Rattle.sve_body_parameter.specs.Values.{given_at};
ghost use Rattle.sve_body_parameter.specs.Nodes.{assignment_nodes, assignments_nodes, overridable_nodes};

use crate::value::given_at;
use sve_env::{Env, visit};
use sve_fault::{Fuel, Halted};
use sve_spec::Given;
use sve_tree::{Initializer, ParameterAssignment, Parameters};
use sve_type_count::{count_declared_type, count_dimensions};

/// Counts the nodes of a default, which is evaluated where nothing overrides it.
fn count_default<E: Env>(
    given: Option<&Given>,
    written: &Initializer,
    env: &E,
    fuel: &mut Fuel,
) -> Result<(), Halted>
    requires { IsFuel fuel.old }
    ensures { Counts result fuel.old fuel.new (given_nodes (E.told env.now) (given_or_default (option_map (λ g. g.now) given.entry)) (Some written.now)) }
{
    match given {
        None => visit(&written.value, env, fuel),
        Some(given) => match given {
            Given::Default => visit(&written.value, env, fuel),
            Given::Value(_) => Ok(()),
            Given::Bad => Ok(()),
        },
    }
}

/// Counts the nodes of a parameter, by what is given at its place among those that can be overridden.
fn count_assignment<E: Env>(
    given: &[Given],
    place: usize,
    assignment: &ParameterAssignment,
    env: &E,
    fuel: &mut Fuel,
) -> Result<(), Halted>
    requires { IsFuel fuel.old }
    ensures { Counts result fuel.old fuel.new (assignment_nodes (E.told env.now) (given_at given.now place) assignment.now) }
{
    count_dimensions(&assignment.declarator.dimensions, env, fuel)?;
    count_default(given_at(given, place), &assignment.value, env, fuel)
}

/// Counts the nodes of parameters, one after another.
#[tactic(auto, using(crate::proofs::Loops::counts_step, crate::proofs::Loops::counts_end))]
fn count_assignments<E: Env>(
    given: &[Given],
    place: usize,
    assignments: &[ParameterAssignment],
    env: &E,
    fuel: &mut Fuel,
) -> Result<(), Halted>
    requires { IsFuel fuel.old }
    ensures { Counts result fuel.old fuel.new (assignments_nodes (E.told env.now) given.now place assignments.now) }
{
    let mut place = place;
    'assignments: for assignment in assignments {
        count_assignment(given, place, assignment, env, fuel)?;
        place = place.saturating_add(1);
    }
    Ok(())
}

/// Counts the nodes that a declaration of parameters evaluates in the scope of a module or an interface whose header has no list of
/// parameters, by what an instance gives those that can be overridden, the first of which stands at this place among them: those of
/// their type and of their dimensions, and those of the defaults that nothing overrides (IEEE 1800-2017, 6.20.1 and 23.10). It evaluates
/// nothing.
///
/// # Errors
/// `Over` exactly where they pass the most that may be evaluated, and `NoMemory`.
pub fn count_overridable<E: Env>(
    given: &[Given],
    place: usize,
    written: &Parameters,
    env: &E,
    fuel: &mut Fuel,
) -> Result<(), Halted>
    requires { IsFuel fuel.old }
    ensures { Counts result fuel.old fuel.new (overridable_nodes (E.told env.now) given.now place written.now) }
{
    count_declared_type(&written.data_type, env, fuel)?;
    count_assignments(given, place, &written.assignments.items, env, fuel)
}

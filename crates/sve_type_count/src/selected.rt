ghost use Rattle.sve_fault.specs.Counts.{IsFuel, Counts};
ghost use Rattle.sve_env.specs.Nodes.{range_nodes};
ghost use Rattle.sve_type_of.specs.Selected.{bound_count, bound_nodes};

use sve_env::{Env, visit};
use sve_fault::{Fuel, Halted};
use sve_tree::{Range, Select};

/// The nodes of the bounds of a packed dimension that was read as a select.
#[tactic(auto, unfolding(sve_env::specs::Nodes::range_nodes))]
fn count_bounds<E: Env>(bounds: &Range, env: &E, fuel: &mut Fuel) -> Result<(), Halted>
    requires { IsFuel fuel.old }
    ensures { Counts result fuel.old fuel.new (range_nodes (E.told env.now) bounds.now) }
{
    match bounds {
        Range::Index { index } => visit(index, env, fuel),
        Range::Between { left, right, .. } => {
            visit(left, env, fuel)?;
            visit(right, env, fuel)
        }
        Range::Upward { from, width, .. } => {
            visit(from, env, fuel)?;
            visit(width, env, fuel)
        }
        Range::Downward { from, width, .. } => {
            visit(from, env, fuel)?;
            visit(width, env, fuel)
        }
    }
}

/// The nodes of a packed dimension that was read as a select.
#[tactic(auto, unfolding(sve_type_of::specs::Selected::bound_nodes))]
fn count_select<E: Env>(select: &Select, env: &E, fuel: &mut Fuel) -> Result<(), Halted>
    requires { IsFuel fuel.old }
    ensures { Counts result fuel.old fuel.new (bound_nodes (E.told env.now) select.now) }
{
    match select {
        Select::Member { .. } => Ok(()),
        Select::Range { select } => count_bounds(&select.range, env, fuel),
    }
}

/// Counts the nodes of a type that is told by its name, with selects as its packed dimensions (IEEE 1800-2017, 6.18 and 7.4.1): those of
/// their bounds. It counts as [`crate::count_type`] does.
#[tactic(auto, using(sve_type_of::proofs::Selects::count_step, sve_type_of::proofs::Selects::count_end))]
pub fn count_selected_type<E: Env>(
    selects: &[Select],
    env: &E,
    fuel: &mut Fuel,
) -> Result<(), Halted>
    requires { IsFuel fuel.old }
    ensures { Counts result fuel.old fuel.new (bound_count (E.told env.now) selects.now) }
{
    'selects: for select in selects {
        count_select(select, env, fuel)?;
    }
    Ok(())
}

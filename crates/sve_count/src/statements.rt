ghost use Rattle.sve_fault.specs.Counts.{IsFuel, Counts};
ghost use Rattle.sve_count.specs.Statements.{block_items_nodes, statement_nodes};

use crate::counting::Counting;
use sve_env::Env;
use sve_fault::{Fuel, Halted};
use sve_plan::spend_many;
use sve_statement_use::{names_in_block_items, names_in_statement};
use sve_tree::{BlockItem, Stmt};

/// Counts the nodes of a statement with all within it (IEEE 1800-2017, clause 12): those of the declarations in it. It counts as
/// [`crate::count_data`] does.
#[tactic(auto, using(crate::proofs::Steps::counted_all))]
pub fn count_statement<E: Env>(statement: &Stmt, env: &E, fuel: &mut Fuel) -> Result<(), Halted>
    requires { IsFuel fuel.old }
    ensures { Counts result fuel.old fuel.new (statement_nodes (E.told env.now) statement.now) }
{
    let mut counting = Counting { env, used: 0 };
    names_in_statement(statement, &mut counting)?;
    spend_many(fuel, counting.used)
}

/// The nodes of the declarations and statements of a block or of a function.
#[tactic(auto, using(crate::proofs::Steps::counted_all))]
pub(crate) fn count_block_items<E: Env>(
    items: &[BlockItem],
    env: &E,
    fuel: &mut Fuel,
) -> Result<(), Halted>
    requires { IsFuel fuel.old }
    ensures { Counts result fuel.old fuel.new (block_items_nodes (E.told env.now) items.now) }
{
    let mut counting = Counting { env, used: 0 };
    names_in_block_items(items, &mut counting)?;
    spend_many(fuel, counting.used)
}

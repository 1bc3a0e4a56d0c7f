//! Items that assign or run, and those that begin with a name (IEEE 1800-2017, A.1.4, A.4.1, A.6.1 and A.6.2).

ghost use Rattle.std.specs.Prelude.{◌<◌, ◌≤◌, ◌^◌, length, IfOk};
ghost use Rattle.sve_grammar.specs.Reading.{at_depth};
ghost use Rattle.sve_grammar.specs.Gives.{Gives};
ghost use Rattle.sve_grammar.specs.Items.{item};
ghost use Rattle.sve_tree.specs.Items.{item_tree};
ghost use Rattle.sve_parse_flat_item.specs.Alternatives.{ProcessLeads};

use crate::begins::ProcessForm;
use std::alloc::Global;
use sve_grammar::Stop;
use sve_parse_procedure::{clocked_procedure, plain_procedure};
use sve_parse_simple_item::{continuous_assign, named_item};
use sve_parse_simple_stmt::system_task;
use sve_token::Token;
use sve_tree::Item;

/// The assignment, the procedure, the task, the instances or the variables of this form, which begin here, and the place behind
/// them.
#[inline(never)]
#[tactic(auto, using(sve_tree::proofs::ItemTrees::assign_item, sve_tree::proofs::ItemTrees::clocked_item, sve_tree::proofs::ItemTrees::plain_item, sve_tree::proofs::ItemTrees::system_task_item))]
pub fn process_item(
    alloc: Global,
    tokens: &[Token],
    from: u32,
    depth: u32,
    form: ProcessForm,
) -> Result<(Item, u32), Stop>
    requires few { length tokens.now < 2 ^ 32 }
    requires from { from ≤ length tokens.now }
    requires depth { depth ≤ 512 }
    requires form { ProcessLeads tokens.now from form }
    ensures tree { Gives (λ x. (item_tree x.0, x.1)) result (at_depth tokens.now depth item from) }
    ensures end { IfOk result (λ x. (from < x.1) × (x.1 ≤ length tokens.now)) }
{
    match form {
        ProcessForm::Assign => {
            let (assignments, end) = continuous_assign(alloc, tokens, from, depth)?;
            let assignments = Box::new(alloc, assignments)?;
            Ok((Item::Assign { assignments }, end))
        }
        ProcessForm::Clocked => {
            let (procedure, end) = clocked_procedure(alloc, tokens, from, depth)?;
            let procedure = Box::new(alloc, procedure)?;
            Ok((Item::Clocked { procedure }, end))
        }
        ProcessForm::Plain => {
            let (procedure, end) = plain_procedure(alloc, tokens, from, depth)?;
            let procedure = Box::new(alloc, procedure)?;
            Ok((Item::Plain { procedure }, end))
        }
        ProcessForm::SystemTask => {
            let (task, end) = system_task(alloc, tokens, from, depth)?;
            let task = Box::new(alloc, task)?;
            Ok((Item::SystemTask { task }, end))
        }
        ProcessForm::Named => named_item(alloc, tokens, from, depth),
    }
}

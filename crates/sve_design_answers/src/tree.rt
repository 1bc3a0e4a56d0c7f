//! The answer about all instances of a design.
ghost use Rattle.std.specs.Prelude.{◌≡◌, IfOk};
ghost use Rattle.sve_design.specs.Walk.{walk, walk_value};
ghost use Rattle.sve_named.specs.Replies.{design_of};
ghost use Rattle.sve_design_answers.specs.Answers.{tree_answer};

use crate::answers::answer_of;
use std::alloc::{AllocError, Global};
use sve_bytes::NoMemory;
use sve_design::{Walk, walk};
use sve_io::Halt;
use sve_named::{Elaborated, Project};
use sve_store::Answer;
use sve_tree_lines::tree_lines;

/// All instances of the design, where the budget is enough for them.
pub(crate) fn walked(alloc: Global, project: &Project, budget: u32) -> Result<Walk, NoMemory>
    ensures { IfOk result (λ w. walk_value w ≡ walk (design_of project.now) budget) }
{
    let mut bodies = Elaborated { project };
    match walk(alloc, &mut bodies, budget) {
        Ok(walked) => Ok(walked),
        Err(Halt::NoMemory) => Err(AllocError),
        Err(Halt::Stopped(_)) => unreachable!(),
    }
}

/// The answer about all instances of a design: the path and the module or the interface of each, an instance before those in its body, and these in
/// the order of the text (IEEE 1800-2017, 23.3). It is spent exactly where they cost more than the budget: each costs one, and what its
/// body costs.
///
/// # Errors
/// For want of memory alone.
pub fn tree_answer(alloc: Global, project: &Project, budget: u32) -> Result<Answer, NoMemory>
    ensures { IfOk result (λ answer. answer ≡ tree_answer project.now budget) }
{
    match walked(alloc, project, budget)? {
        Walk::Done(visits) => answer_of(alloc, tree_lines(alloc, visits.items())?),
        Walk::Spent => Ok(Answer::Spent),
    }
}

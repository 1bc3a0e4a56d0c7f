//! The answer about all that is wrong in a design.
ghost use Rattle.std.specs.Prelude.{◌≡◌, IfOk};
ghost use Rattle.sve_diagnostics.specs.Diagnostics.{diagnostics};
ghost use Rattle.sve_named.specs.Projects.{known_in};
ghost use Rattle.sve_named.specs.Replies.{design_of};
ghost use Rattle.sve_design_answers.specs.Diagnosing.{diagnostics_answer};

use crate::answers::answer_of;
use std::alloc::{AllocError, Global};
use sve_bytes::{List, NoMemory};
use sve_diag::Diag;
use sve_diagnostics::{Readings, diagnostics};
use sve_io::Halt;
use sve_listing::diags_lines;
use sve_named::{Elaborated, Project};
use sve_store::Answer;
use sve_text::Files;

/// All diagnostics of the design, where the budget is enough for its instances.
fn diagnosed(alloc: Global, project: &Project, budget: u32) -> Result<Option<List<Diag>>, NoMemory>
    ensures { IfOk result (λ diags. diags ≡ diagnostics project.now.units project.now.diags project.now.index.diags (known_in project.now) (design_of project.now) budget) }
{
    let read = Readings {
        units: project.units(),
        texts: project.unit_diags(),
        index: project.index().diags.items(),
        packages: project.packages(),
    };
    let mut bodies = Elaborated { project };
    match diagnostics(alloc, read, &mut bodies, budget) {
        Ok(diags) => Ok(diags),
        Err(Halt::NoMemory) => Err(AllocError),
        Err(Halt::Stopped(_)) => unreachable!(),
    }
}

/// The answer about all that is wrong in a design, one diagnostic a line: in the texts of its files, in its packages, and in the bodies of its
/// instances. It is spent exactly where the instances cost more than the budget: each costs one, and what its body costs.
///
/// # Errors
/// For want of memory alone.
pub fn diagnostics_answer(
    alloc: Global,
    files: &Files,
    project: &Project,
    budget: u32,
) -> Result<Answer, NoMemory>
    ensures { IfOk result (λ answer. answer ≡ diagnostics_answer files.now.rows project.now budget) }
{
    match diagnosed(alloc, project, budget)? {
        Some(diags) => answer_of(alloc, diags_lines(alloc, files, diags.items())?),
        None => Ok(Answer::Spent),
    }
}

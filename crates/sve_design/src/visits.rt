ghost use Rattle.std.specs.Prelude.{◌≡◌, IfOk};
ghost use Rattle.sve_design.specs.Walk.{inside, top_path};

use std::alloc::Global;
use sve_bytes::{List, NoMemory, Path, Step};
use sve_spec::Spec;

/// An instance of a design.
#[derive(Drop)]
pub struct Visit {
    /// Its path from the root (IEEE 1800-2017, 23.6).
    pub path: Path,
    /// What it is an instance of.
    pub spec: Spec,
    /// Its depth, which is 1 for a top and at most 64.
    pub depth: u32,
}

/// What a walk over all instances comes to.
#[derive(Drop)]
pub enum Walk {
    /// The instances, each before its children, and these in the order of the text.
    Done(List<Visit>),
    /// They cost more than the budget.
    Spent,
}

/// The path of what stands at a path in the instance at another.
///
/// # Errors
/// For want of memory alone.
pub fn inside(alloc: Global, parent: &Path, path: &Path) -> Result<Path, NoMemory>
    ensures { IfOk result (λ whole. whole ≡ inside parent.now path.now) }
{
    let mut steps = Vec::with_capacity(alloc, parent.steps.items().len())?;
    'parent: for step in parent.steps.items() {
        steps.push(step.copy()?)?;
    }
    'path: for step in path.steps.items() {
        steps.push(step.copy()?)?;
    }
    Ok(Path {
        steps: List::of(steps),
    })
}

/// The path of a top, whose one step is the name of its module.
///
/// # Errors
/// For want of memory alone.
pub fn top_path(alloc: Global, top: &Spec) -> Result<Path, NoMemory>
    ensures { IfOk result (λ path. path ≡ top_path top.now) }
{
    let mut steps = Vec::new(alloc);
    steps.push(Step {
        name: top.definition.copy()?,
        index: None,
    })?;
    Ok(Path {
        steps: List::of(steps),
    })
}

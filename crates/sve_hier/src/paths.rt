ghost use Rattle.std.specs.Prelude.{◌≡◌, ◌≤◌, length, IfOk};
ghost use Rattle.sve_hier.specs.Names.{below, front, is_block, is_module_name, is_own_name, outer, root};
ghost use Rattle.sve_hier.specs.Uses.{is_thing};

use std::alloc::Global;
use sve_bytes::{List, Name, NoMemory, Path, Step};
use sve_scope::What;

/// The first steps of a path.
pub(crate) fn front(alloc: Global, path: &Path, count: usize) -> Result<Path, NoMemory>
    requires { count ≤ length path.now.steps }
    ensures { IfOk result (λ p. p ≡ front path.now count) }
{
    let mut steps = Vec::with_capacity(alloc, count)?;
    'steps: for step in &path.steps.items()[..count] {
        steps.push(step.copy()?)?;
    }
    Ok(Path {
        steps: List::of(steps),
    })
}

/// The path one step further.
pub(crate) fn below(alloc: Global, path: &Path, step: &Step) -> Result<Path, NoMemory>
    ensures { IfOk result (λ p. p ≡ below path.now step.now) }
{
    let mut steps = path.copy(alloc)?.steps.into_vec();
    steps.push(step.copy()?)?;
    Ok(Path {
        steps: List::of(steps),
    })
}

/// The path one step less far.
pub(crate) fn outer(alloc: Global, path: &Path) -> Result<Path, NoMemory>
    ensures { IfOk result (λ p. p ≡ outer path.now) }
{
    front(alloc, path, path.steps.items().len().saturating_sub(1))
}

/// The path of the root, which has no step. It takes no memory.
pub(crate) fn root(alloc: Global) -> Path
    ensures { result ≡ root }
{
    Path {
        steps: List::of(Vec::new(alloc)),
    }
}

/// Whether a step is the name of a module.
pub(crate) fn is_module_name(step: &Step, name: &Name) -> bool
    ensures { result ≡ is_module_name step.now name.now }
{
    step.index.is_none() && step.name == *name
}

/// Whether a step is the last one of a path.
pub(crate) fn is_own_name(step: &Step, path: &Path) -> bool
    ensures { result ≡ is_own_name step.now path.now }
{
    match path.steps.items().last() {
        Some(last) => last == step,
        None => false,
    }
}

/// Whether what is declared is a generate block, which is found by its place alone.
pub(crate) fn is_block(what: &What) -> bool
    ensures { result ≡ is_block what.now }
{
    matches!(what, What::Block)
}

/// Whether what is declared is no scope.
pub(crate) fn is_thing(what: &What) -> bool
    ensures { result ≡ is_thing what.now }
{
    !matches!(what, What::Instance | What::Block)
}

//! The way along the path that a text spells.
ghost use Rattle.std.specs.Prelude.{◌≡◌, IfOk, option_map};
ghost use Rattle.sve_find.specs.Ends.{find_value};
ghost use Rattle.sve_find.specs.Along.{find};
ghost use Rattle.sve_named.specs.Replies.{design_of};
ghost use Rattle.sve_design_answers.specs.Paths.{IsPathOf, plain_name};
ghost use Rattle.sve_design_answers.specs.Answers.{found_on};

use std::alloc::{AllocError, Global};
use sve_bytes::{BadPath, Name, NoMemory, Path};
use sve_find::{Find, find};
use sve_io::Halt;
use sve_named::{Elaborated, Project};

/// The path that a text spells, where it spells one.
pub(crate) fn path_of(alloc: Global, text: &[u8]) -> Result<Option<Path>, NoMemory>
    ensures { IfOk result (λ path. IsPathOf text.now path) }
{
    match Path::read(alloc, text) {
        Ok(path) => Ok(Some(path)),
        Err(BadPath::At(_)) => Ok(None),
        Err(BadPath::NoMemory) => Err(AllocError),
    }
}

/// The plain name that a path is: its one step, where it has one and that has no index.
pub(crate) fn plain_name(path: &Option<Path>) -> Option<&Name>
    ensures { option_map (λ n. n.now) result ≡ plain_name path.now }
{
    let Some(path) = path else {
        return None;
    };
    match path.steps.items() {
        [step] => match step.index {
            None => Some(&step.name),
            Some(_) => None,
        },
        _ => None,
    }
}

/// Where the way along a path ends.
fn found_along(alloc: Global, project: &Project, path: &Path, budget: u32) -> Result<Find, NoMemory>
    ensures { IfOk result (λ found. find_value found ≡ find (design_of project.now) budget path.now) }
{
    let mut bodies = Elaborated { project };
    match find(alloc, &mut bodies, path, budget) {
        Ok(found) => Ok(found),
        Err(Halt::NoMemory) => Err(AllocError),
        Err(Halt::Stopped(_)) => unreachable!(),
    }
}

/// The same of what a text spells, which may be no path.
pub(crate) fn found_on(
    alloc: Global,
    project: &Project,
    path: &Option<Path>,
    budget: u32,
) -> Result<Find, NoMemory>
    ensures { IfOk result (λ found. find_value found ≡ found_on project.now path.now budget) }
{
    match path {
        Some(path) => found_along(alloc, project, path, budget),
        None => Ok(Find::None),
    }
}

//! The lines about what a name means.
ghost use Rattle.std.specs.Prelude.{◌≡◌, IfOk, take};
ghost use Rattle.sve_find.specs.Ends.{found_value};
ghost use Rattle.sve_design_answers.specs.Resolving.{lines_of_located, lines_of_resolved, lines_of_top, lines_where, scope_path, spelled_at};

use crate::lines::bytes_of;
use crate::places::{module_place, place_of};
use std::alloc::Global;
use sve_bytes::{List, Name, NoMemory, Path, Step};
use sve_design::inside;
use sve_diag::Place;
use sve_facts_lines::{append_name, package_text, resolve_lines, unit_text, within_text};
use sve_find::Found;
use sve_hier::Resolved;
use sve_listing::none_lines;
use sve_named::{Located, Project, Where};
use sve_report::Lines;
use sve_scope::What;
use sve_text::Files;

/// The first of some steps.
#[tactic(auto, using(crate::proofs::Fronts::all_in_front))]
fn in_front(steps: &[Step], count: usize) -> &[Step]
    ensures { result.now ≡ take count steps.now }
{
    if steps.len() <= count {
        steps
    } else {
        &steps[..count]
    }
}

/// The path of the first of some steps.
fn front_path(alloc: Global, steps: &[Step], count: usize) -> Result<Path, NoMemory>
    ensures { IfOk result (λ p. p ≡ record { steps = take count steps.now }) }
{
    let front = in_front(steps, count);
    let mut first = Vec::new(alloc);
    'steps: for step in front {
        first.push(step.copy()?)?;
    }
    Ok(Path {
        steps: List::of(first),
    })
}

/// The path from the root of the scope at so many steps of the way behind the innermost instance.
pub(crate) fn scope_path(alloc: Global, found: &Found, count: usize) -> Result<Path, NoMemory>
    ensures { IfOk result (λ p. p ≡ scope_path (found_value found.now) count) }
{
    let behind = front_path(alloc, found.rest.items(), count)?;
    inside(alloc, &found.visit.path, &behind)
}

/// How a declaration is spelled that is found at the end of a way.
fn spelled_at(alloc: Global, found: &Found, located: &Located) -> Result<Vec<u8>, NoMemory>
    ensures { IfOk result (λ text. text.items ≡ spelled_at (found_value found.now) located.now.declared.name located.now.place) }
{
    let name = &located.declared.name;
    match &located.place {
        Where::Within(count) => within_text(alloc, &scope_path(alloc, found, *count)?, name),
        Where::Package(from) => package_text(alloc, from, name),
        Where::CompilationUnit => unit_text(alloc, name),
    }
}

/// The lines of what is spelled so and stands at this place.
fn lines_where(
    alloc: Global,
    files: &Files,
    what: &What,
    spelled: &[u8],
    place: &Option<Place>,
) -> Result<Lines, NoMemory>
    ensures { IfOk result (λ lines. lines ≡ lines_where files.now.rows what.now spelled.now place.now) }
{
    let Some(place) = place else {
        return none_lines(alloc);
    };
    let text = files.shared_text(alloc, &place.file)?;
    resolve_lines(alloc, what, spelled, place, bytes_of(&text))
}

/// The lines of a declaration that is found at the end of a way.
pub(crate) fn lines_of_located(
    alloc: Global,
    files: &Files,
    project: &Project,
    found: &Found,
    located: &Located,
) -> Result<Lines, NoMemory>
    ensures { IfOk result (λ lines. lines ≡ lines_of_located files.now.rows project.now (found_value found.now) located.now) }
{
    let spelled = spelled_at(alloc, found, located)?;
    let place = place_of(project, &located.declared.at)?;
    lines_where(alloc, files, &located.declared.what, &spelled, &place)
}

/// The lines of a top.
fn lines_of_top(
    alloc: Global,
    files: &Files,
    project: &Project,
    module: &Name,
) -> Result<Lines, NoMemory>
    ensures { IfOk result (λ lines. lines ≡ lines_of_top files.now.rows project.now module.now) }
{
    let mut spelled = Vec::new(alloc);
    append_name(alloc, &mut spelled, module)?;
    let place = module_place(project, module)?;
    lines_where(alloc, files, &What::Instance, &spelled, &place)
}

/// The lines of what a hierarchical name means.
pub(crate) fn lines_of_resolved(
    alloc: Global,
    files: &Files,
    project: &Project,
    resolved: &Option<Resolved>,
) -> Result<Lines, NoMemory>
    ensures { IfOk result (λ lines. lines ≡ lines_of_resolved files.now.rows project.now resolved.now) }
{
    match resolved {
        Some(Resolved::Top(module)) => lines_of_top(alloc, files, project, module),
        Some(Resolved::Declared { path, declared }) => {
            let spelled = path.print(alloc)?;
            let place = place_of(project, &declared.at)?;
            lines_where(alloc, files, &declared.what, &spelled, &place)
        }
        None => none_lines(alloc),
    }
}

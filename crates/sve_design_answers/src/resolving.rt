//! The answer about what a name means.
ghost use Rattle.std.specs.Prelude.{◌≡◌, Some, IfOk, map, option_map};
ghost use Rattle.sve_design.specs.Walk.{walk};
ghost use Rattle.sve_find.specs.Ends.{found_value};
ghost use Rattle.sve_hier.specs.Instances.{instance_value, instances_within};
ghost use Rattle.sve_hier.specs.Places.{entry_at};
ghost use Rattle.sve_named.specs.Replies.{design_of};
ghost use Rattle.sve_design_answers.specs.Paths.{plain_unless};
ghost use Rattle.sve_design_answers.specs.Resolving.{IsResolveAnswer, hierarchy_of, lines_of_name, lines_of_resolve, resolve_answer, resolve_over, sought_of};

use crate::answers::answer_of;
use crate::finding::{found_on, path_of};
use crate::meant::{lines_of_located, lines_of_resolved, scope_path};
use crate::naming::{Called, name_called, plain};
use crate::tree::walked;
use std::alloc::{AllocError, Global};
use sve_bytes::{List, Name, NoMemory, Path};
use sve_design::{Visit, Walk};
use sve_find::{Find, Found};
use sve_hier::{Hierarchy, Instance, instances};
use sve_io::Halt;
use sve_listing::none_lines;
use sve_named::{Elaborated, Project, Sought, located_at};
use sve_report::Lines;
use sve_store::Answer;
use sve_text::Files;

/// The instances of these visits with what is found of their bodies, where none of the bodies costs more than this.
fn instances_of(
    alloc: Global,
    project: &Project,
    visits: &[Visit],
    budget: u32,
) -> Result<Option<List<Instance>>, NoMemory>
    ensures { IfOk result (λ is. option_map (map instance_value) is ≡ instances_within (design_of project.now) budget visits.now) }
{
    let mut bodies = Elaborated { project };
    match instances(alloc, &mut bodies, visits, budget) {
        Ok(opened) => Ok(opened),
        Err(Halt::NoMemory) => Err(AllocError),
        Err(Halt::Stopped(_)) => unreachable!(),
    }
}

/// The hierarchy of a design whose instances all together cost no more than this.
#[tactic(auto, using(crate::proofs::Paid::is_there, crate::proofs::Paid::are_there))]
fn hierarchy_of(
    alloc: Global,
    project: &Project,
    visits: &[Visit],
    budget: u32,
) -> Result<Hierarchy, NoMemory>
    requires { Some visits.now ≡ walk (design_of project.now) budget }
    ensures { IfOk result (λ h. entry_at h ≡ hierarchy_of project.now visits.now) }
{
    match instances_of(alloc, project, visits, budget)? {
        Some(opened) => Hierarchy::of(alloc, opened.items()),
        None => unreachable!(),
    }
}

/// The lines of what a hierarchical name means at the end of a way.
fn lines_of_name(
    alloc: Global,
    files: &Files,
    project: &Project,
    visits: &[Visit],
    budget: u32,
    found: &Found,
    called: &Called,
) -> Result<Lines, NoMemory>
    requires { Some visits.now ≡ walk (design_of project.now) budget }
    ensures { IfOk result (λ lines. lines ≡ lines_of_name files.now.rows project.now visits.now called.now.rooted called.now.path (found_value found.now)) }
{
    let Some(name) = &called.path else {
        return none_lines(alloc);
    };
    let hierarchy = hierarchy_of(alloc, project, visits, budget)?;
    let from = scope_path(alloc, found, found.rest.items().len())?;
    let resolved = hierarchy.resolve(alloc, &from, called.rooted, name)?;
    lines_of_resolved(alloc, files, project, &resolved)
}

/// What is found of a plain name at the end of a way.
fn sought_of(
    alloc: Global,
    project: &Project,
    name: Option<&Name>,
    found: &Found,
) -> Result<Sought, NoMemory>
    ensures { IfOk result (λ s. s ≡ sought_of project.now (option_map (λ n. n.now) name.entry) (found_value found.now)) }
{
    match name {
        Some(name) => located_at(alloc, project, found, name),
        None => Ok(Sought::Nothing),
    }
}

/// The lines of what a name means at the end of a way.
fn lines_of_resolve(
    alloc: Global,
    files: &Files,
    project: &Project,
    visits: &[Visit],
    budget: u32,
    found: &Found,
    called: &Called,
) -> Result<Lines, NoMemory>
    requires { Some visits.now ≡ walk (design_of project.now) budget }
    ensures { IfOk result (λ lines. lines ≡ lines_of_resolve files.now.rows project.now visits.now called.now.rooted called.now.path (found_value found.now)) }
{
    match sought_of(alloc, project, plain(called), found)? {
        Sought::At(located) => lines_of_located(alloc, files, project, found, &located),
        Sought::Unclear => none_lines(alloc),
        Sought::Nothing => lines_of_name(alloc, files, project, visits, budget, found, called),
    }
}

/// The answer about what a name means at a path, over all instances of the design.
fn resolve_over(
    alloc: Global,
    files: &Files,
    project: &Project,
    visits: &[Visit],
    budget: u32,
    path: &Option<Path>,
    called: &Called,
) -> Result<Answer, NoMemory>
    requires { Some visits.now ≡ walk (design_of project.now) budget }
    ensures { IfOk result (λ answer. answer ≡ resolve_over files.now.rows project.now path.now called.now.rooted called.now.path budget (Some visits.now)) }
{
    match found_on(alloc, project, path, budget)? {
        Find::Here(found) => {
            let lines = lines_of_resolve(alloc, files, project, visits, budget, &found, called)?;
            answer_of(alloc, lines)
        }
        Find::None => answer_of(alloc, none_lines(alloc)?),
        Find::Spent => Ok(Answer::Spent),
    }
}

/// The answer about what a name means at a path.
fn about_name(
    alloc: Global,
    files: &Files,
    project: &Project,
    path: &Option<Path>,
    called: &Called,
    budget: u32,
) -> Result<Answer, NoMemory>
    ensures { IfOk result (λ answer. answer ≡ resolve_answer files.now.rows project.now path.now called.now.rooted called.now.path budget) }
{
    match walked(alloc, project, budget)? {
        Walk::Done(visits) => {
            resolve_over(alloc, files, project, visits.items(), budget, path, called)
        }
        Walk::Spent => Ok(Answer::Spent),
    }
}

/// The answer about what a name means in the scope of an instance or of a generate block (IEEE 1800-2017, 23.6 to 23.9 and 26.3): its kind, its path
/// from the root, or its package, or that it is of the compilation unit, and where it is declared. A plain name is looked up first, as all of the
/// text of that scope sees it; where it stands for nothing, and of any other name, that is answered which it means as a hierarchical name. Where a
/// text spells nothing, the path names nothing, or the name means no one thing, it is answered as a thing that is not there. It is spent exactly
/// where all instances of the design cost more than the budget, whatever is asked.
///
/// # Errors
/// For want of memory alone.
pub fn resolve_answer(
    alloc: Global,
    files: &Files,
    project: &Project,
    path: &[u8],
    name: &[u8],
    budget: u32,
) -> Result<Answer, NoMemory>
    ensures { IfOk result (λ answer. IsResolveAnswer files.now.rows project.now path.now name.now budget answer) }
{
    let at = path_of(alloc, path)?;
    let called = name_called(alloc, name)?;
    Ok(about_name(alloc, files, project, &at, &called, budget)?)
}

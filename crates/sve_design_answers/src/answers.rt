//! The answers about an instance, and about what a name is declared as.
ghost use Rattle.std.specs.Prelude.{◌≡◌, IfOk, option_map};
ghost use Rattle.sve_design_answers.specs.Paths.{plain_name};
ghost use Rattle.sve_design_answers.specs.Answers.{IsInstanceAnswer, IsParamAnswer, IsTypeAnswer, instance_answer, param_answer, type_answer};

use crate::finding::{found_on, path_of, plain_name};
use crate::lines::{lines_of_instance, lines_of_param, lines_of_type};
use std::alloc::Global;
use sve_bytes::{NoMemory, Path};
use sve_find::Find;
use sve_listing::none_lines;
use sve_named::Project;
use sve_report::Lines;
use sve_store::Answer;
use sve_text::Files;

/// The answer that these lines are.
pub(crate) fn answer_of(alloc: Global, lines: Lines) -> Result<Answer, NoMemory>
    ensures { IfOk result (λ answer. answer ≡ Answer.Done lines) }
{
    Ok(Answer::Done(lines.into_list(alloc)?))
}

/// The answer about the instance on a path.
fn about_instance(
    alloc: Global,
    files: &Files,
    project: &Project,
    path: &Option<Path>,
    budget: u32,
) -> Result<Answer, NoMemory>
    ensures { IfOk result (λ answer. answer ≡ instance_answer files.now.rows project.now path.now budget) }
{
    match found_on(alloc, project, path, budget)? {
        Find::Here(found) => answer_of(alloc, lines_of_instance(alloc, files, project, &found)?),
        Find::None => answer_of(alloc, none_lines(alloc)?),
        Find::Spent => Ok(Answer::Spent),
    }
}

/// The answer about an instance: its module or interface, where its name stands, its parameters with their values, its ports, and the instances in
/// its body (IEEE 1800-2017, 23.3 and 23.6). A text that spells no path, and a path at whose end no instance stands, are answered as a thing that is
/// not there. It is spent exactly where the instances on the way cost more than the budget: each costs one, and what its body costs.
///
/// # Errors
/// For want of memory alone.
pub fn instance_answer(
    alloc: Global,
    files: &Files,
    project: &Project,
    path: &[u8],
    budget: u32,
) -> Result<Answer, NoMemory>
    ensures { IfOk result (λ answer. IsInstanceAnswer files.now.rows project.now path.now budget answer) }
{
    let at = path_of(alloc, path)?;
    Ok(about_instance(alloc, files, project, &at, budget)?)
}

/// The answer about the type of a name at a path.
fn about_type(
    alloc: Global,
    files: &Files,
    project: &Project,
    path: &Option<Path>,
    name: &Option<Path>,
    budget: u32,
) -> Result<Answer, NoMemory>
    ensures { IfOk result (λ answer. answer ≡ type_answer files.now.rows project.now path.now name.now budget) }
{
    match found_on(alloc, project, path, budget)? {
        Find::Here(found) => {
            let name = plain_name(name);
            answer_of(alloc, lines_of_type(alloc, files, project, name, &found)?)
        }
        Find::None => answer_of(alloc, none_lines(alloc)?),
        Find::Spent => Ok(Answer::Spent),
    }
}

/// The answer about what a plain name is declared as in the scope of an instance or of a generate block, as all of its text sees it: the kind, the
/// type with its width, states and sign, and where it is declared (6.5, 23.6 and 23.9). Where a text spells nothing, the path names nothing, or what
/// the name stands for has no type, it is answered as a thing that is not there. It is spent as the answer about an instance is.
///
/// # Errors
/// For want of memory alone.
pub fn type_answer(
    alloc: Global,
    files: &Files,
    project: &Project,
    path: &[u8],
    name: &[u8],
    budget: u32,
) -> Result<Answer, NoMemory>
    ensures { IfOk result (λ answer. IsTypeAnswer files.now.rows project.now path.now name.now budget answer) }
{
    let at = path_of(alloc, path)?;
    let called = path_of(alloc, name)?;
    Ok(about_type(alloc, files, project, &at, &called, budget)?)
}

/// The answer about the value of a name at a path.
fn about_param(
    alloc: Global,
    project: &Project,
    path: &Option<Path>,
    name: &Option<Path>,
    budget: u32,
) -> Result<Answer, NoMemory>
    ensures { IfOk result (λ answer. answer ≡ param_answer project.now path.now name.now budget) }
{
    match found_on(alloc, project, path, budget)? {
        Find::Here(found) => {
            let name = plain_name(name);
            answer_of(alloc, lines_of_param(alloc, project, name, &found)?)
        }
        Find::None => answer_of(alloc, none_lines(alloc)?),
        Find::Spent => Ok(Answer::Spent),
    }
}

/// The answer about the value and the type of a parameter that a plain name is in the scope of an instance or of a generate block (6.20 and 23.10).
/// Where a text spells nothing, the path names nothing, or the name is no parameter with a value, it is answered as a thing that is not there. It is
/// spent as the answer about an instance is.
///
/// # Errors
/// For want of memory alone.
pub fn param_answer(
    alloc: Global,
    project: &Project,
    path: &[u8],
    name: &[u8],
    budget: u32,
) -> Result<Answer, NoMemory>
    ensures { IfOk result (λ answer. IsParamAnswer project.now path.now name.now budget answer) }
{
    let at = path_of(alloc, path)?;
    let called = path_of(alloc, name)?;
    Ok(about_param(alloc, project, &at, &called, budget)?)
}

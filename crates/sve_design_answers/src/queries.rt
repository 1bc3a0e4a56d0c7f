//! The answers of queries about the design that some files are.
ghost use Rattle.std.specs.Prelude.{IfOk};
ghost use Rattle.sve_design_answers.specs.Queries.{IsDesignAnswer, OverProject};

use crate::answers::{answer_of, instance_answer, param_answer, type_answer};
use crate::diagnosing::diagnostics_answer;
use crate::resolving::resolve_answer;
use crate::tree::tree_answer;
use std::alloc::Global;
use sve_bytes::NoMemory;
use sve_command::Query;
use sve_listing::none_lines;
use sve_named::Project;
use sve_store::Answer;
use sve_text::Files;

/// The answer over the project of these files. Of a query that asks for nothing of it, it is that of a thing that is not there.
fn over_project(
    alloc: Global,
    files: &Files,
    project: &Project,
    query: &Query,
    budget: u32,
) -> Result<Answer, NoMemory>
    ensures { IfOk result (OverProject files.now.rows project.now query.now budget) }
{
    match query {
        Query::Instance { path } => instance_answer(alloc, files, project, path.items(), budget),
        Query::Tree => tree_answer(alloc, project, budget),
        Query::TypeOf { path, name } => {
            type_answer(alloc, files, project, path.items(), name.items(), budget)
        }
        Query::Param { path, name } => {
            param_answer(alloc, project, path.items(), name.items(), budget)
        }
        Query::Resolve { path, name } => {
            resolve_answer(alloc, files, project, path.items(), name.items(), budget)
        }
        Query::Diagnostics => diagnostics_answer(alloc, files, project, budget),
        Query::File { .. } | Query::Expand { .. } | Query::Tops => {
            answer_of(alloc, none_lines(alloc)?)
        }
    }
}

/// The answer of a query about the design that these files are: they are read, and what the query asks about is elaborated, within the
/// budget (IEEE 1800-2017, clauses 3, 23, 26 and 27).
///
/// # Errors
/// For want of memory alone.
pub fn design_answer(
    alloc: Global,
    files: &Files,
    query: &Query,
    budget: u32,
) -> Result<Answer, NoMemory>
    ensures { IfOk result (IsDesignAnswer files.now.rows query.now budget) }
{
    let project = Project::read(alloc, files)?;
    over_project(alloc, files, &project, query, budget)
}

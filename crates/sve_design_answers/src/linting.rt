//! What lint rules find in the instances of a design.
ghost use Rattle.std.specs.Prelude.{◌≡◌, IfOk, map};
ghost use Rattle.sve_named.specs.Replies.{design_of};
ghost use Rattle.sve_survey.specs.Lint.{lint_facts_of};
ghost use Rattle.sve_survey.specs.Visitors.{given_by_all};
ghost use Rattle.sve_design_answers.specs.Linting.{IsLintSection, lint_section};

use std::alloc::{AllocError, Global};
use sve_bytes::{List, NoMemory};
use sve_io::Halt;
use sve_lint::{InstanceFacts, Rule, lines_found};
use sve_named::{Elaborated, Project};
use sve_report::LintSection;
use sve_survey::instances_for_lint;
use sve_text::Files;

/// All instances of the design as lint sees them, where the budget is enough for them.
fn instances_seen(
    alloc: Global,
    project: &Project,
    budget: u32,
) -> Result<Option<List<InstanceFacts>>, NoMemory>
    ensures { IfOk result (λ instances. instances ≡ given_by_all lint_facts_of (design_of project.now) budget) }
{
    let mut bodies = Elaborated { project };
    match instances_for_lint(alloc, &mut bodies, budget) {
        Ok(instances) => Ok(instances),
        Err(Halt::NoMemory) => Err(AllocError),
        Err(Halt::Stopped(_)) => unreachable!(),
    }
}

/// What rules find in the design of a project.
fn section_over(
    alloc: Global,
    project: &Project,
    r: u64,
    budget: u32,
    rules: Vec<Box<dyn Rule>>,
) -> Result<LintSection, NoMemory>
    ensures { IfOk result (λ section. section ≡ lint_section project.now r budget (map (λ rule. state rule) rules.items)) }
{
    match instances_seen(alloc, project, budget)? {
        Some(instances) => Ok(LintSection::Found {
            r,
            lines: lines_found(alloc, rules, instances.items())?,
        }),
        None => Ok(LintSection::Spent { r, budget }),
    }
}

/// What lint rules find in the design that the files of this revision are, as a report tells it: the files are read, and each rule is
/// shown each instance, which is elaborated within the budget (IEEE 1800-2017, clauses 3, 23, 26 and 27). It is spent exactly where the
/// instances cost more than the budget: each costs one, and what its body costs; then no rule is shown any. The rules are dropped.
///
/// # Errors
/// For want of memory alone.
pub fn lint_section(
    alloc: Global,
    files: &Files,
    r: u64,
    budget: u32,
    rules: Vec<Box<dyn Rule>>,
) -> Result<LintSection, NoMemory>
    ensures { IfOk result (IsLintSection files.now.rows r budget (map (λ rule. state rule) rules.items)) }
{
    let project = Project::read(alloc, files)?;
    section_over(alloc, &project, r, budget, rules)
}

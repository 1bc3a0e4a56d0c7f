ghost use Rattle.std.specs.Prelude.{◌≡◌, IfOk, map};
ghost use Rattle.sve_lint.specs.Lines.{lint_lines};
ghost use Rattle.sve_lint.specs.Rules.{having_seen_all};

use crate::instance::InstanceFacts;
use crate::lines::lint_lines;
use crate::rule::Rule;
use crate::running::run;
use std::alloc::Global;
use sve_bytes::{List, NoMemory};

/// The lines of what rules hold once each of them has seen each instance of a design, behind what it held. The rules are dropped.
///
/// # Errors
/// For want of memory alone.
pub fn lines_found(
    alloc: Global,
    mut rules: Vec<Box<dyn Rule>>,
    design: &[InstanceFacts],
) -> Result<List<List<u8>>, NoMemory>
    ensures { IfOk result (λ lines. lines ≡ lint_lines (map (having_seen_all design.now) (map (λ rule. state rule) rules.items))) }
{
    run(alloc, &mut rules, design)?;
    lint_lines(alloc, &rules)
}

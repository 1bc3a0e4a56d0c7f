ghost use Rattle.std.specs.Prelude.{◌≡◌, ◌++◌, IfOk, OnOk, map};
ghost use Rattle.sve_bytes.specs.PathText.{name_text};
ghost use Rattle.sve_lint.specs.Lines.{finding_line, lint_lines, rule_lines};

use crate::instance::Finding;
use crate::rule::Rule;
use std::alloc::Global;
use sve_bytes::{List, Name, NoMemory, Path, Step};

/// The text of a name as paths have it.
fn name_text(alloc: Global, name: &Name) -> Result<Vec<u8>, NoMemory>
    ensures { IfOk result (λ text. text.items ≡ name_text name.now) }
{
    let step = Step {
        name: name.copy()?,
        index: None,
    };
    let path = Path {
        steps: List::of(vec![in alloc; step]?),
    };
    path.print(alloc)
}

/// `<rule> <path> <detail>`
fn finding_line(alloc: Global, rule: &[u8], finding: &Finding) -> Result<Vec<u8>, NoMemory>
    ensures { IfOk result (λ line. line.items ≡ finding_line rule.now finding.now) }
{
    let mut line = Vec::from_slice(alloc, rule)?;
    line.push(b' ')?;
    line.extend_from_slice(&finding.path.print(alloc)?)?;
    line.push(b' ')?;
    line.extend_from_slice(&name_text(alloc, &finding.detail)?)?;
    Ok(line)
}

/// Adds a line for each of these findings of a rule.
fn add_lines(
    alloc: Global,
    rule: &[u8],
    findings: &[Finding],
    lines: &mut Vec<List<u8>>,
) -> Result<(), NoMemory>
    ensures { OnOk result (lines.new.items ≡ lines.old.items ++ map (finding_line rule.now) findings.now) }
{
    'findings: for finding in findings {
        lines.push(List::of(finding_line(alloc, rule, finding)?))?;
    }
    Ok(())
}

/// Adds the lines of a rule.
fn add_rule_lines(
    alloc: Global,
    rule: &Box<dyn Rule>,
    lines: &mut Vec<List<u8>>,
) -> Result<(), NoMemory>
    ensures { OnOk result (lines.new.items ≡ lines.old.items ++ rule_lines (state rule.now)) }
{
    add_lines(alloc, rule.name(), rule.findings(), lines)
}

/// The lines of what rules found, `<rule> <path> <detail>`, rules in their order and each one's findings in theirs. Names are
/// spelled as paths have them (IEEE 1800-2017, 5.6.1). A line is without the line feed that ends it.
///
/// # Errors
/// For want of memory alone.
pub fn lint_lines(alloc: Global, rules: &[Box<dyn Rule>]) -> Result<List<List<u8>>, NoMemory>
    ensures { IfOk result (λ lines. lines ≡ lint_lines (map (λ rule. state rule) rules.now)) }
{
    let mut lines = Vec::new(alloc);
    'rules: for rule in rules {
        add_rule_lines(alloc, rule, &mut lines)?;
    }
    Ok(List::of(lines))
}

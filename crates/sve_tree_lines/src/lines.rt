ghost use Rattle.std.specs.Prelude.{◌≡◌, IfOk};
ghost use Rattle.sve_tree_lines.specs.Tree.{tree_lines, visit_text};

use std::alloc::Global;
use sve_bytes::NoMemory;
use sve_design::Visit;
use sve_facts_lines::append_name;
use sve_listing::{shown, with_more, with_text};
use sve_report::Lines;

/// `<path> <module>`
fn visit_text(alloc: Global, visit: &Visit) -> Result<Vec<u8>, NoMemory>
    ensures { IfOk result (λ text. text.items ≡ visit_text visit.now) }
{
    let mut text = visit.path.print(alloc)?;
    text.push(b' ')?;
    append_name(alloc, &mut text, &visit.spec.definition)?;
    Ok(text)
}

/// The lines of the instances of a design, in their order: of each its path and the name of its module or interface (IEEE
/// 1800-2017, 23.3 and 23.6). There are 1,000 at most; where there are more instances, one line more says how many are left out.
///
/// # Errors
/// For want of memory alone.
pub fn tree_lines(alloc: Global, visits: &[Visit]) -> Result<Lines, NoMemory>
    ensures { IfOk result (λ lines. lines ≡ tree_lines visits.now) }
{
    let mut lines = Lines::none(alloc);
    'visits: for visit in shown(visits) {
        lines = with_text(lines, visit_text(alloc, visit)?)?;
    }
    with_more(alloc, lines, visits.len())
}

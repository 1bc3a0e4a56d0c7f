//! The list of the tops.
ghost use Rattle.std.specs.Prelude.{◌≡◌, IfOk};
ghost use Rattle.sve_report.specs.Lines.{Lacks};
ghost use Rattle.sve_listing.specs.Lists.{top_line, tops_lines};

use crate::cut::{on_one_line, shown, with_more};
use std::alloc::Global;
use sve_bytes::{List, Name, NoMemory, Path, Step};
use sve_report::Lines;

/// The line of a top module: its name as the one step of a path.
fn top_line(alloc: Global, name: &Name) -> Result<Vec<u8>, NoMemory>
    ensures line { IfOk result (λ line. line.items ≡ top_line name.now) }
    ensures one_line { IfOk result (λ line. Lacks 10 line.items) }
{
    let step = Step {
        name: name.copy()?,
        index: None,
    };
    let path = Path {
        steps: List::of(vec![in alloc; step]?),
    };
    Ok(on_one_line(path.print(alloc)?))
}

/// The lines of tops, in their order: of each its name, as paths have it (IEEE 1800-2017, 23.3.1). There are 1,000 at most; where
/// there are more tops, one line more says how many are left out.
///
/// # Errors
/// For want of memory alone.
pub fn tops_lines(alloc: Global, tops: &[Name]) -> Result<Lines, NoMemory>
    ensures { IfOk result (λ lines. lines ≡ tops_lines tops.now) }
{
    let mut lines = Lines::none(alloc);
    'tops: for name in shown(tops) {
        lines = lines.with_line(&top_line(alloc, name)?)?;
    }
    with_more(alloc, lines, tops.len())
}

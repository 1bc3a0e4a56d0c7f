//! Lists of lines, cut behind the most that they may have.
ghost use Rattle.std.specs.Prelude.{◌≡◌, ◌++◌, ◌∷◌, [], IfOk, take};
ghost use Rattle.sve_report.specs.Lines.{Lacks};
ghost use Rattle.sve_listing.specs.Lists.{max_listed, more_line, on_one_line, with_more};

use itoa::Buffer;
use std::alloc::Global;
use sve_bytes::NoMemory;
use sve_report::Lines;

/// The most lines of a list. Where there are more, one line says how many are left out.
pub const MAX_LISTED: usize = 1000;

/// Those of a list that are shown: as many as there may be lines, 1,000 at most. It takes no memory.
#[tactic(auto, using(crate::proofs::Cuts::all_shown))]
pub fn shown<T>(items: &[T]) -> &[T]
    ensures { result.now ≡ take max_listed items.now }
{
    if items.len() <= MAX_LISTED {
        items
    } else {
        &items[..MAX_LISTED]
    }
}

/// The bytes without their line feeds.
pub(crate) fn on_one_line(bytes: Vec<u8>) -> Vec<u8>
    ensures bytes { result.items ≡ on_one_line bytes.items }
    ensures one_line { Lacks 10 result.items }
{
    let mut bytes = bytes;
    bytes.retain(|b| *b != b'\n');
    bytes
}

/// These lines and one more, which is this text without its line feeds.
///
/// # Errors
/// For want of memory alone.
pub fn with_text(lines: Lines, text: Vec<u8>) -> Result<Lines, NoMemory>
    ensures { IfOk result (λ all. all ≡ lines ++ on_one_line text.items ∷ []) }
{
    lines.with_line(&on_one_line(text))
}

/// `more <n>`
#[tactic(auto, using(crate::proofs::Cuts::more_line_lacks))]
fn more_line(alloc: Global, n: usize) -> Result<Vec<u8>, NoMemory>
    ensures line { IfOk result (λ line. line.items ≡ more_line n) }
    ensures one_line { IfOk result (λ line. Lacks 10 line.items) }
{
    let mut line = Vec::from_slice(alloc, b"more ")?;
    line.extend_from_slice(Buffer::new().format(n).as_bytes())?;
    Ok(line)
}

/// The lines of those that are shown of so many things, and where some are left out, one line that says how many.
///
/// # Errors
/// For want of memory alone.
pub fn with_more(alloc: Global, lines: Lines, count: usize) -> Result<Lines, NoMemory>
    ensures { IfOk result (λ all. all ≡ with_more count lines) }
{
    if count <= MAX_LISTED {
        return Ok(lines);
    }
    lines.with_line(&more_line(alloc, count - MAX_LISTED)?)
}

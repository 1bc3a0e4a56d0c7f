//! The lines of a file's text.
ghost use Rattle.std.specs.Prelude.{◌≡◌, Some, IfOk};
ghost use Rattle.sve_report.specs.Lines.{Lacks};
ghost use Rattle.sve_listing.specs.Files.{expanded_head, expanded_lines, none, text_head, text_lines};

use itoa::Buffer;
use std::alloc::Global;
use sve_bytes::NoMemory;
use sve_report::Lines;
use sve_text::Piece;

/// The one line for a thing that is not there.
///
/// # Errors
/// For want of memory alone.
pub fn none_lines(alloc: Global) -> Result<Lines, NoMemory>
    ensures { IfOk result (λ lines. lines ≡ none) }
{
    Lines::none(alloc).with_line(b"none")
}

/// `stamp <s> bytes <n>`
#[tactic(auto, using(crate::proofs::Heads::text_head_lacks))]
fn text_head_line(alloc: Global, stamp: u64, size: usize) -> Result<Vec<u8>, NoMemory>
    ensures line { IfOk result (λ line. line.items ≡ text_head stamp size) }
    ensures one_line { IfOk result (λ line. Lacks 10 line.items) }
{
    let mut line = Vec::from_slice(alloc, b"stamp ")?;
    line.extend_from_slice(Buffer::new().format(stamp).as_bytes())?;
    line.extend_from_slice(b" bytes ")?;
    line.extend_from_slice(Buffer::new().format(size).as_bytes())?;
    Ok(line)
}

/// `bytes <n>`
#[tactic(auto, using(crate::proofs::Heads::expanded_head_lacks))]
fn expanded_head_line(alloc: Global, size: usize) -> Result<Vec<u8>, NoMemory>
    ensures line { IfOk result (λ line. line.items ≡ expanded_head size) }
    ensures one_line { IfOk result (λ line. Lacks 10 line.items) }
{
    let mut line = Vec::from_slice(alloc, b"bytes ")?;
    line.extend_from_slice(Buffer::new().format(size).as_bytes())?;
    Ok(line)
}

/// The stamp, the size and the lines of a text that is there.
///
/// # Errors
/// For want of memory alone.
pub fn text_lines(alloc: Global, stamp: u64, text: &[u8]) -> Result<Lines, NoMemory>
    ensures { IfOk result (λ lines. lines ≡ text_lines stamp (Some text.now)) }
{
    let head = text_head_line(alloc, stamp, text.len())?;
    Lines::none(alloc)
        .with_line(&head)?
        .with_text(&Piece::of(text))
}

/// The size and the lines of an expanded text (IEEE 1800-2017, clause 22).
///
/// # Errors
/// For want of memory alone.
pub fn expanded_lines(alloc: Global, text: &[u8]) -> Result<Lines, NoMemory>
    ensures { IfOk result (λ lines. lines ≡ expanded_lines text.now) }
{
    let head = expanded_head_line(alloc, text.len())?;
    Lines::none(alloc)
        .with_line(&head)?
        .with_text(&Piece::of(text))
}

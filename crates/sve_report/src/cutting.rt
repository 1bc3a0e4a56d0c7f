//! A text cut into lines.
ghost use Rattle.std.specs.Prelude.{◌≡◌, ◌++◌, IfOk, OnOk};
ghost use Rattle.sve_report.specs.Lines.{barred, text_of_lines, PiecesMakeTheText};
ghost use Rattle.sve_report.specs.Cutting.{with_bars, line_feeds};

use memchr::memchr;
use sve_bytes::NoMemory;
use sve_text::Piece;

/// Adds the lines of a piece, each after a bar and with a line feed behind it, and gives how many line feeds the piece
/// has.
pub(crate) fn add_cut(text: &mut Vec<u8>, piece: &Piece<'_>) -> Result<usize, NoMemory>
    ensures text { OnOk result (text.new.items ≡ text.old.items ++ text_of_lines (barred piece.now)) }
    ensures count { IfOk result (λ count. count ≡ line_feeds piece.now) }
{
    text.push(b'|')?;
    let mut count = 0usize;
    let mut at = 0usize;
    'runs: while at < piece.len() {
        let run = piece.run(at);
        count += add_run(text, run)?;
        at += run.len();
    }
    text.push(b'\n')?;
    Ok(count)
}

/// Adds a run with a bar behind each line feed, and gives how many there are.
fn add_run(text: &mut Vec<u8>, run: &[u8]) -> Result<usize, NoMemory>
    ensures text { OnOk result (text.new.items ≡ text.old.items ++ with_bars run.now) }
    ensures count { IfOk result (λ count. count ≡ line_feeds run.now) }
{
    let mut count = 0usize;
    let mut at = 0usize;
    'lines: while let Some(length) = memchr(b'\n', &run[at..]) {
        let next = at + length + 1;
        text.extend_from_slice(&run[at..next])?;
        text.push(b'|')?;
        count += 1;
        at = next;
    }
    text.extend_from_slice(&run[at..])?;
    Ok(count)
}

/// The law of lines: the pieces of a text between its line feeds are the text again where line feeds join them, and none
/// of them holds a line feed.
pub fn pieces_make_the_text()
    ensures { PiecesMakeTheText }
{}

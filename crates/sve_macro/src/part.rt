ghost use Rattle.std.specs.Prelude.{◌≡◌, ◌+◌, ◌<◌, ◌≤◌, ◌^◌, length, IfSome, IfOk, OnOk};
ghost use Rattle.sve_macro.specs.Parts.{rest_of_piece, depths_of, depths_after, closed, ends_part, grown, part_of};

use crate::literal::{escaped_len, string_len};
use std::alloc::Global;
use sve_bytes::{NoMemory, Span, is_white_space};

/// A part of a list in parentheses: an actual, or a formal's default.
#[derive(Clone, Copy, PartialEq, Eq)]
pub struct Part {
    /// The part without white space at its ends. The white space byte that ends an escaped identifier
    /// belongs to the identifier.
    pub span: Span,
    /// The place of the `,` or `)` that ends the part, in bytes from 0.
    pub end: usize,
}

/// The brackets that are open.
#[derive(Drop)]
pub(crate) struct Brackets {
    square: usize,
    curly: usize,
    /// For each `(` that is open, the innermost last, how many `[` and `{` are open around it.
    parens: Vec<(usize, usize)>,
}

impl Brackets {
    /// Goes on behind this byte.
    fn pass(&mut self, byte: u8) -> Result<(), NoMemory>
        requires square { self.old.square + 1 < 2 ^ 64 }
        requires curly { self.old.curly + 1 < 2 ^ 64 }
        ensures { OnOk result (depths_of self.new ≡ depths_after (depths_of self.old) byte) }
    {
        match byte {
            b'(' => self.parens.push((self.square, self.curly))?,
            b')' => self.close(),
            b'[' => self.square += 1,
            b']' => self.square = self.square.saturating_sub(1),
            b'{' => self.curly += 1,
            b'}' => self.curly = self.curly.saturating_sub(1),
            _ => {}
        }
        Ok(())
    }

    /// Closes the nearest `(`, with all that was opened inside it.
    fn close(&mut self)
        ensures { depths_of self.new ≡ closed (depths_of self.old).parens (depths_of self.old) }
    {
        if let Some((square, curly)) = self.parens.pop() {
            self.square = square.min(self.square);
            self.curly = curly.min(self.curly);
        }
    }

    /// Whether a part ends before this byte.
    fn ends_before(&self, byte: u8) -> bool
        ensures { result ≡ ends_part (depths_of self.now) byte }
    {
        (byte == b')' && self.parens.len() == 0)
            || (byte == b',' && (self.parens.len() == 0 && (self.square == 0 && self.curly == 0)))
    }
}

/// How many bytes the string literal or escaped identifier has that begins the text, or 1.
pub(crate) fn piece_len(text: &[u8]) -> usize
    requires { 0 < length text.now }
    ensures len { result ≡ 1 + rest_of_piece text.now }
    ensures within { result ≤ length text.now }
{
    match text[0] {
        b'"' => 1 + string_len(&text[1..]),
        b'\\' => 1 + escaped_len(&text[1..]),
        _ => 1,
    }
}

/// What stands in a part, with one more piece of so many bytes, which may be a blank.
fn with_piece(span: Option<Span>, at: usize, len: usize, is_blank: bool) -> Option<Span>
    requires { at + len < 2 ^ 64 }
    ensures { result ≡ grown span at len is_blank }
{
    if is_blank {
        return span;
    }
    let from = match span {
        Some(span) => span.from,
        None => at,
    };
    Some(Span { from, to: at + len })
}

/// The part of a list that begins at `from`, up to the next `,` outside matched brackets, string
/// literals and escaped identifiers, or the next `)` outside them that closes no `(`; `None` where the
/// text has neither. Brackets are matched by their kind, and a `)` closes the nearest `(` with all that
/// was opened inside it (IEEE 1800-2017, 22.5.1).
///
/// # Errors
/// Only for want of memory.
pub fn part_at(alloc: Global, text: &[u8], from: usize) -> Result<Option<Part>, NoMemory>
    requires { from ≤ length text.now }
    ensures part { IfOk result (λ found. found ≡ part_of text.now from) }
    ensures behind { IfOk result (λ found. IfSome found (λ p. from ≤ p.end)) }
    ensures within { IfOk result (λ found. IfSome found (λ p. p.end < length text.now)) }
{
    let mut at = from;
    let mut brackets = Brackets {
        square: 0,
        curly: 0,
        parens: Vec::new(alloc),
    };
    let mut span = None;
    while at < text.len() {
        let byte = text[at];
        if brackets.ends_before(byte) {
            let span = span.unwrap_or(Span { from: at, to: at });
            return Ok(Some(Part { span, end: at }));
        }
        let len = piece_len(&text[at..]);
        span = with_piece(span, at, len, is_white_space(byte));
        brackets.pass(byte)?;
        at += len;
    }
    Ok(None)
}

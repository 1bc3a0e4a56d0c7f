ghost use Rattle.std.specs.Prelude.{◌≡◌, ◌<◌, ◌≤◌, length, take, drop, IsTrue, IfOk, false};
ghost use Rattle.std.specs.List.{prefix_len};
ghost use Rattle.sve_directive.specs.Pieces.{comment_rest, slash_rest, piece_length, plain_length, gap_length, is_plain, is_gap, ends_line, rest_of_line, is_one_line_comment, uncommented, is_at_backtick};

use crate::bytes::{begins, line_len, past};
use std::alloc::Global;
use sve_bytes::{NoMemory, is_white_space};
use sve_macro::{escaped_len, string_len};

/// How many bytes of a block comment follow its first two.
fn comment_rest_len(text: &[u8]) -> usize
    ensures value { result ≡ comment_rest false text.now }
    ensures within { result ≤ length text.now }
{
    let mut star = false;
    'bytes: for (i, b) in text.iter().enumerate() {
        if star && *b == b'/' {
            return i + 1;
        }
        star = *b == b'*';
    }
    text.len()
}

fn slash_rest_len(text: &[u8]) -> usize
    ensures value { result ≡ slash_rest text.now }
    ensures within { result ≤ length text.now }
{
    match text {
        [b'/', rest @ ..] => 1 + line_len(rest),
        [b'*', rest @ ..] => 1 + comment_rest_len(rest),
        _ => 0,
    }
}

/// How many bytes the first piece of a text has.
pub fn piece_len(text: &[u8]) -> usize
    ensures value { result ≡ piece_length text.now }
    ensures some { 0 < length text.now → 0 < result }
    ensures within { result ≤ length text.now }
{
    match text {
        [] => 0,
        [b'"', rest @ ..] => 1 + string_len(rest),
        [b'\\', rest @ ..] => 1 + escaped_len(rest),
        [b'/', rest @ ..] => 1 + slash_rest_len(rest),
        _ => 1,
    }
}

fn is_gap_at(text: &[u8]) -> bool
    ensures { result ≡ is_gap text.now }
{
    match text {
        [] => false,
        [first, rest @ ..] => is_white_space(*first) || (*first == b'/' && begins(rest, b'*')),
    }
}

fn is_one_line_comment_at(text: &[u8]) -> bool
    ensures { result ≡ is_one_line_comment text.now }
{
    match text {
        [] => false,
        [first, rest @ ..] => *first == b'/' && begins(rest, b'/'),
    }
}

/// The first piece of a text.
fn piece(text: &[u8]) -> &[u8]
    ensures value { result.now ≡ take (piece_length text.now) text.now }
    ensures whole { piece_length text.now ≤ length text.now }
    ensures some { 0 < length text.now → 0 < length result.now }
    ensures within { length result.now ≤ length text.now }
{
    &text[..piece_len(text)]
}

/// Whether the text ends here, or a backtick stands here.
fn is_stop(text: &[u8]) -> bool
    ensures { result ≡ is_at_backtick text.now }
{
    match text {
        [] => true,
        [first, ..] => *first == b'`',
    }
}

/// How many bytes at the head of a text are copied unread: those up to the first backtick outside
/// comments, string literals and escaped identifiers, or all of them (IEEE 1800-2017, 5.4, 5.6.1,
/// 5.9 and 22.1).
pub fn plain_len(text: &[u8]) -> usize
    ensures passed { result ≡ plain_length text.now }
    ensures within { result ≤ length text.now }
    ensures stops { IsTrue (is_at_backtick (drop result text.now)) }
{
    let mut n = 0;
    'pieces: while !is_stop(past(text, n)) {
        n += piece_len(past(text, n));
    }
    n
}

/// How many bytes of white space and block comments stand at the head of a text.
pub fn gap_len(text: &[u8]) -> usize
    ensures value { result ≡ gap_length text.now }
    ensures within { result ≤ length text.now }
{
    let mut n = 0;
    'pieces: loop {
        let next = piece(past(text, n));
        if !is_gap_at(next) {
            return n;
        }
        n += next.len();
    }
}

/// Whether a line ends in a piece.
fn is_end_of_line(piece: &[u8]) -> bool
    ensures { result ≡ ends_line piece.now }
{
    begins(piece, b'\n') || (begins(piece, b'\\') && line_len(piece) < piece.len())
}

/// How many bytes the pieces have that begin in the line at the head of a text.
pub fn rest_of_line_len(text: &[u8]) -> usize
    ensures value { result ≡ rest_of_line text.now }
    ensures within { result ≤ length text.now }
{
    let mut n = 0;
    'pieces: while n < text.len() {
        let next = piece(past(text, n));
        if is_end_of_line(next) {
            return n + line_len(next);
        }
        n += next.len();
    }
    n
}

/// The text without its one-line comments.
pub fn uncomment(alloc: Global, text: &[u8]) -> Result<Vec<u8>, NoMemory>
    ensures { IfOk result (λ v. v.items ≡ uncommented text.now) }
{
    let mut out = Vec::new(alloc);
    let mut n = 0;
    'pieces: while n < text.len() {
        let next = piece(past(text, n));
        n += next.len();
        if !is_one_line_comment_at(next) {
            out.extend_from_slice(next)?;
        }
    }
    Ok(out)
}

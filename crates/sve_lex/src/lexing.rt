ghost use Rattle.std.specs.Prelude.{◌≡◌, ℕ, ◌+◌, ◌<◌, ◌≤◌, ◌^◌, length, take, IfOk};
ghost use Rattle.std.specs.List.{All};
ghost use Rattle.sve_origin.specs.Origins.{cells, HasOffset};
ghost use Rattle.sve_lex.specs.Tokens.{tokens, token_at, long_text, starts, Rise};

use crate::Class;
use crate::cursor::{start, walk};
use crate::scan::{past, piece};
use std::alloc::{AllocError, Global};
use sve_bytes::{BadName, List, Name, NoMemory};
use sve_diag::Place;
use sve_origin::{Expanded, Segment};
use sve_token::{Kind, Token};

/// The name that the bytes are, of which there are as many as a name may have.
fn name_of(alloc: Global, bytes: &[u8]) -> Result<Name, NoMemory>
    requires filled { 0 < length bytes.now }
    requires short { length bytes.now ≤ 1024 }
    ensures { IfOk result (λ n. n ≡ bytes.now) }
{
    match Name::of(alloc, bytes) {
        Ok(name) => Ok(name),
        Err(BadName::NoMemory) => Err(AllocError),
        Err(BadName::Empty) => unreachable!(),
        Err(BadName::TooLong(_)) => unreachable!(),
    }
}

/// The name that the bytes are, or the first 1,024 of them.
fn spelling(alloc: Global, bytes: &[u8]) -> Result<Name, NoMemory>
    requires { 0 < length bytes.now }
    ensures { IfOk result (λ n. n ≡ take 1024 bytes.now) }
{
    if bytes.len() > 1024 {
        return name_of(alloc, &bytes[..1024]);
    }
    name_of(alloc, bytes)
}

/// The bytes again, where they are more than a name may have.
fn long_text(alloc: Global, bytes: &[u8]) -> Result<List<u8>, NoMemory>
    ensures { IfOk result (λ t. t ≡ long_text bytes.now) }
{
    if bytes.len() > 1024 {
        return Ok(List::of(Vec::from_slice(alloc, bytes)?));
    }
    Ok(List::of(Vec::new(alloc)))
}

/// The token of some bytes, of which the first comes from this offset of a segment's file.
fn token(
    alloc: Global,
    kind: Kind,
    bytes: &[u8],
    segment: &Segment,
    offset: u32,
    copied: bool,
) -> Result<Token, NoMemory>
    requires { 0 < length bytes.now }
    ensures { IfOk result (λ t. t ≡ token_at kind bytes.now (record { file = segment.now.place.file; offset = offset }) copied) }
{
    Ok(Token {
        kind,
        spelling: spelling(alloc, bytes)?,
        text: long_text(alloc, bytes)?,
        place: Place {
            file: segment.place.file.copy()?,
            offset,
        },
        copied,
    })
}

/// The tokens of an expanded text, and where they begin in it.
#[derive(Drop)]
pub struct Lexed {
    /// The tokens, in their order.
    pub tokens: List<Token>,
    /// How many bytes of the expanded text stand before each of them.
    pub starts: List<u32>,
}

/// The tokens of bytes whose origins the segments give, and where each begins.
fn tokens_of(alloc: Global, segments: &[Segment], bytes: &[u8]) -> Result<Lexed, NoMemory>
    requires small { length bytes.now < 2 ^ 32 }
    requires some { 0 < length bytes.now → 0 < length segments.now }
    requires offsets { All HasOffset (cells segments.now bytes.now) }
    ensures tokens { IfOk result (λ l. l.tokens ≡ tokens (cells segments.now bytes.now)) }
    ensures starts { IfOk result (λ l. l.starts ≡ starts (cells segments.now bytes.now)) }
{
    let mut out = Vec::new(alloc);
    let mut begins = Vec::new(alloc);
    let mut cursor = start(segments);
    'pieces: while cursor.at < bytes.len() {
        let rest = past(bytes, cursor.at);
        let (class, n) = piece(rest);
        let (next, copied) = walk(segments, cursor, n);
        if let Class::Lexeme(kind) = class {
            let segment = &segments[cursor.segment];
            let offset = cursor.offset as u32;
            out.push(token(alloc, kind, &rest[..n], segment, offset, copied)?)?;
            begins.push(cursor.at as u32)?;
        }
        cursor = next;
    }
    Ok(Lexed {
        tokens: List::of(out),
        starts: List::of(begins),
    })
}

/// The tokens of an expanded text as `lex` gives them, and of each of them how many bytes stand before it. It takes time in
/// proportion to the bytes.
///
/// # Errors
/// Only for want of memory.
pub fn lex_with_starts(alloc: Global, text: &Expanded) -> Result<Lexed, NoMemory>
    ensures tokens { IfOk result (λ l. l.tokens ≡ tokens text.now.cells) }
    ensures starts { IfOk result (λ l. l.starts ≡ starts text.now.cells) }
    ensures one_each { IfOk result (λ l. length l.starts ≡ length l.tokens) }
    ensures rise { IfOk result (λ l. Rise 0 l.starts) }
{
    let bytes = text.bytes();
    let segments = text.segments();
    tokens_of(alloc, segments, bytes)
}

/// The tokens of an expanded text, in their order (IEEE 1800-2017, clause 5): at each place the longest lexeme or
/// separator, and the separators left out. It takes time in proportion to the bytes.
///
/// # Errors
/// Only for want of memory: what is no token of the language is a token of the kind `Bad`.
pub fn lex(alloc: Global, text: &Expanded) -> Result<List<Token>, NoMemory>
    ensures { IfOk result (λ ts. ts ≡ tokens text.now.cells) }
{
    let Lexed { tokens, starts: _ } = lex_with_starts(alloc, text)?;
    Ok(tokens)
}

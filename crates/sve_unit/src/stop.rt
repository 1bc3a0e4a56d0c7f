ghost use Rattle.std.specs.Prelude.{◌≡◌, ◌<◌, ◌^◌, length, option_copied, IfOk};
ghost use Rattle.sve_unit.specs.Stops.{argument_of, code_of, end_mark, is_closed, place_at, stop_diag, what_stands};

use crate::chunk::ends_chunk;
use std::alloc::{AllocError, Global};
use sve_bytes::{BadName, Name, NoMemory};
use sve_diag::{Code, Diag, Place};
use sve_grammar::is_kind;
use sve_token::{Kind, Token};

/// Whether an end word stands in a chunk.
#[tactic(auto, using(crate::proofs::Closed::closed_here, crate::proofs::Closed::closed_further, crate::proofs::Closed::closed_nowhere))]
fn is_closed(tokens: &[Token]) -> bool
    requires { length tokens.now < 2 ^ 32 }
    ensures { result ≡ is_closed tokens.now }
{
    for at in 0..tokens.len() as u32 {
        if ends_chunk(tokens, at) {
            return true;
        }
    }
    false
}

/// Where the end of a chunk stands, behind its last token: that of a chunk with an end word at its last token, that of the last
/// rest of a file at the end of the file (own). It takes no memory.
pub fn end_mark<'a>(tokens: &'a [Token], file_end: &'a Place) -> &'a Place
    requires { length tokens.now < 2 ^ 32 }
    ensures { result.now ≡ end_mark tokens.now file_end.now }
{
    match tokens.last() {
        Some(token) => {
            if is_closed(tokens) {
                &token.place
            } else {
                file_end
            }
        }
        None => file_end,
    }
}

/// Where the token of this number stands, or behind the last token the end of the chunk. It takes no memory.
pub fn place_at<'a>(tokens: &'a [Token], index: u32, file_end: &'a Place) -> &'a Place
    requires { length tokens.now < 2 ^ 32 }
    ensures { result.now ≡ place_at tokens.now index file_end.now }
{
    match tokens.get(index as usize) {
        Some(token) => &token.place,
        None => end_mark(tokens, file_end),
    }
}

/// The code of a stop, by whether it stands at a token that is none and whether the nesting is too deep.
fn code_of(bad: bool, deep: bool) -> Code
    ensures { result ≡ code_of bad deep }
{
    if bad {
        Code::S01
    } else if deep {
        Code::S03
    } else {
        Code::S02
    }
}

/// A word of the report as a name.
fn word(alloc: Global, bytes: &[u8]) -> Result<Name, NoMemory>
    requires some { 0 < length bytes.now }
    requires short { length bytes.now < 1024 }
    ensures { IfOk result (λ n. n ≡ bytes.now) }
{
    match Name::of(alloc, bytes) {
        Ok(name) => Ok(name),
        Err(BadName::NoMemory) => Err(AllocError),
        Err(BadName::Empty) => unreachable!(),
        Err(BadName::TooLong(_)) => unreachable!(),
    }
}

/// What a diagnostic says of what stands where the grammar stops.
fn what_stands(alloc: Global, token: Option<&Token>) -> Result<Name, NoMemory>
    ensures { IfOk result (λ n. n ≡ what_stands (option_copied token.entry)) }
{
    match token {
        None => word(alloc, b"end"),
        Some(token) => match token.kind {
            Kind::Decimal | Kind::Based | Kind::Unbased => word(alloc, b"number"),
            Kind::Text => word(alloc, b"string"),
            _ => token.spelling.copy(),
        },
    }
}

/// What a diagnostic says of a stop, where its code does not say all.
fn argument_of(alloc: Global, told: bool, token: Option<&Token>) -> Result<Option<Name>, NoMemory>
    ensures { IfOk result (λ n. n ≡ argument_of told (option_copied token.entry)) }
{
    if told {
        return Ok(None);
    }
    Ok(Some(what_stands(alloc, token)?))
}

/// The diagnostic of a chunk that the grammar refuses (IEEE 1800-2017, Annex A): S01 at a token that is none, S03 where what the
/// token begins would be nested too deep, else S02 with what stands there: the token's spelling, `number`, `string` or `end`.
///
/// The tokens are those of the chunk, `index` and `deep` are the stop of the grammar's machine, and `file_end` is the end of the
/// file whose chunk it is.
///
/// # Errors
/// For want of memory alone.
pub fn stop_diag(
    alloc: Global,
    tokens: &[Token],
    index: u32,
    deep: bool,
    file_end: &Place,
) -> Result<Diag, NoMemory>
    requires { length tokens.now < 2 ^ 32 }
    ensures { IfOk result (λ d. d ≡ stop_diag tokens.now index deep file_end.now) }
{
    let bad = is_kind(tokens, index, Kind::Bad);
    Ok(Diag {
        place: place_at(tokens, index, file_end).copy()?,
        code: code_of(bad, deep),
        arg: argument_of(alloc, bad || deep, tokens.get(index as usize))?,
    })
}

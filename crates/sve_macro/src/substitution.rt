ghost use Rattle.std.specs.Prelude.{◌≡◌, ◌↔◌, ◌++◌, ◌<◌, ◌^◌, List, false, Option, None, IfOk, OnOk, IsErrOf};
ghost use Rattle.sve_macro.specs.Numbers.{Covers};
ghost use Rattle.sve_macro.specs.Substitution.{accepts, given, actual_at, substituted, below};
ghost use Rattle.sve_macro.specs.Template.{value_at, piece_value, filled};

use crate::definition::Macro;
use crate::template::{Piece, slice_between};
use std::alloc::{AllocError, Global};
use sve_bytes::{List, Name, NoMemory};
use thiserror::Error;

/// Why a use of a macro stands for nothing.
#[derive(Debug, Drop, Error)]
pub enum SubstFault {
    /// There are too many actuals, or one is missing whose formal has no default.
    #[error("a macro has another number of arguments")]
    Count,
    /// There was no memory for the text.
    #[error("no memory for the text of a macro")]
    NoMemory,
}

impl From<AllocError> for SubstFault {
    ghost use Rattle.std.specs.Prelude.{◌≡◌};
    ghost use Rattle.sve_macro.specs.declared.substitution.SubstFault.TheVariants.{NoMemory};

    ghost from_gives = { λ _ e. e ≡ NoMemory };

    fn from(_error: AllocError) -> SubstFault {
        SubstFault::NoMemory
    }
}

/// The text that stands for a formal with this default, whose actual is at this place, if at any.
fn text_given<'a>(default: &'a Option<List<u8>>, actuals: &'a [List<u8>], place: usize) -> &'a [u8]
    ensures { result.now ≡ given default.now (actual_at actuals.now place) }
{
    if place < actuals.len() {
        let actual = actuals[place].items();
        if !actual.is_empty() {
            return actual;
        }
    }
    match default {
        Some(text) => text.items(),
        None => b"",
    }
}

/// The text that stands for the formal at this place.
fn text_at<'a>(
    formals: &'a [(Name, Option<List<u8>>)],
    actuals: &'a [List<u8>],
    place: usize,
) -> &'a [u8]
    ensures { result.now ≡ value_at formals.now actuals.now place }
{
    if place < formals.len() {
        return text_given(&formals[place].1, actuals, place);
    }
    b""
}

/// Adds what a piece gives.
fn push_piece(
    out: &mut Vec<u8>,
    text: &[u8],
    formals: &[(Name, Option<List<u8>>)],
    actuals: &[List<u8>],
    piece: Piece,
) -> Result<(), NoMemory>
    ensures { OnOk result (out.new.items ≡ out.old.items ++ piece_value text.now (value_at formals.now actuals.now) piece) }
{
    match piece {
        Piece::Run(span) => out.extend_from_slice(slice_between(text, span.from, span.to)),
        Piece::Actual(place) => out.extend_from_slice(text_at(formals, actuals, place)),
        Piece::Quote => out.extend_from_slice(b"\""),
        Piece::EscapedQuote => out.extend_from_slice(b"\\\""),
    }
}

/// What the pieces give, where that has fewer bytes than there is room for. All pieces that give
/// something are among those of these numbers.
pub(crate) fn fill(
    alloc: Global,
    text: &[u8],
    formals: &[(Name, Option<List<u8>>)],
    actuals: &[List<u8>],
    pieces: &[Piece],
    numbers: &[usize],
    room: usize,
) -> Result<Option<List<u8>>, NoMemory>
    requires { Covers (piece_value text.now (value_at formals.now actuals.now)) pieces.now numbers.now }
    ensures text { IfOk result (λ found. found ≡ below room (filled text.now (value_at formals.now actuals.now) pieces.now)) }
    ensures none { IfOk result (λ found. found ≡ None → room < 2 ^ 63) }
{
    let mut out = Vec::new(alloc);
    let mut at = 0;
    'numbers: while at < numbers.len() && out.len() < room {
        push_piece(&mut out, text, formals, actuals, pieces[numbers[at]])?;
        at += 1;
    }
    if out.len() < room {
        return Ok(Some(List::of(out)));
    }
    Ok(None)
}

/// The text of a macro for these actuals: each formal that stands as a whole word outside string
/// literals and escaped identifiers becomes its actual, an empty or missing one its default or
/// nothing; then two backticks become nothing, a backtick and a quote a quote, and backtick,
/// backslash, backtick and quote a backslash and a quote (IEEE 1800-2017, 22.5.1). What the actuals
/// themselves hold is not looked at.
///
/// # Errors
/// `Count` exactly where there are too many actuals, or one is missing whose formal has no default. An
/// empty list of formals takes no actual or an empty one, and a macro without a list takes none.
pub fn substitute(alloc: Global, m: &Macro, actuals: &[List<u8>]) -> Result<List<u8>, SubstFault>
    ensures text { IfOk result (λ text. text ≡ substituted m.now actuals.now) }
    ensures count { IsErrOf result SubstFault.Count ↔ (accepts m.now actuals.now ≡ false) }
{
    if !m.takes(actuals) {
        return Err(SubstFault::Count);
    }
    match m.fill(alloc, actuals, usize::MAX)? {
        Some(text) => Ok(text),
        None => unreachable!(),
    }
}

/// The same text where it has fewer than `room` bytes, and `None` where it has as many or more. Of a
/// longer text no more is ever written than `room` bytes and one more piece of it: an actual, or
/// bytes of the macro's own text.
///
/// # Errors
/// `Count` as for [`substitute`].
pub fn substitute_below(
    alloc: Global,
    m: &Macro,
    actuals: &[List<u8>],
    room: usize,
) -> Result<Option<List<u8>>, SubstFault>
    ensures text { IfOk result (λ found. found ≡ below room (substituted m.now actuals.now)) }
    ensures count { IsErrOf result SubstFault.Count ↔ (accepts m.now actuals.now ≡ false) }
{
    if !m.takes(actuals) {
        return Err(SubstFault::Count);
    }
    Ok(m.fill(alloc, actuals, room)?)
}

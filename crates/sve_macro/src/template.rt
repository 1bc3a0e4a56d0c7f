ghost use Rattle.std.specs.Prelude.{◌≡◌, ℕ, ◌+◌, ◌<◌, ◌≤◌, ◌++◌, List, length, option_map, IfOk, OnOk};
ghost use Rattle.sve_macro.specs.Index.{place_in};
ghost use Rattle.sve_macro.specs.Lexemes.{lexemes};
ghost use Rattle.sve_macro.specs.Substitution.{actual_of, value_of, replaced};
ghost use Rattle.sve_macro.specs.Template.{value_at, bytes_between, piece_value, filled, AreCutFrom};

use crate::definition::Definition;
use crate::lexeme::{Kind, first_lexeme, is_between_after};
use std::alloc::Global;
use std::collections::BTreeMap;
use sve_bytes::{NoMemory, Span};

/// A piece of what a use of a macro stands for.
#[derive(Clone, Copy)]
pub(crate) enum Piece {
    /// Bytes of the macro's text, as they are.
    Run(Span),
    /// What stands for the formal at this place, from 0.
    Actual(usize),
    /// A quote, of a backtick and a quote.
    Quote,
    /// A backslash and a quote, of a backtick, a backslash, a backtick and a quote.
    EscapedQuote,
}

/// The bytes of a text between two places of it.
pub(crate) fn slice_between(text: &[u8], from: usize, to: usize) -> &[u8]
    ensures { result.now ≡ bytes_between from to text.now }
{
    let front = &text[..to.min(text.len())];
    &front[from.min(front.len())..]
}

/// The places of the formals, by their names.
type Index<'a> = BTreeMap<&'a [u8], usize>;

/// The places of the formals. Of two formals of one name the first counts.
fn index_of<'a>(alloc: Global, m: &'a Definition) -> Result<Index<'a>, NoMemory>
    ensures { IfOk result (λ index. (actuals : List (List ℕ)) (word : List ℕ) → option_map (value_at m.now.formals actuals) (place_in index word) ≡ actual_of m.now actuals word) }
{
    let formals = m.formals.items();
    let mut index = BTreeMap::new(alloc);
    let mut left = formals.len();
    while left > 0 {
        left -= 1;
        let (name, _default) = &formals[left];
        index.insert(name.bytes(), left)?;
    }
    Ok(index)
}

/// The place of the formal of this name.
fn place_of(index: &Index<'_>, word: &[u8]) -> Option<usize>
    ensures { result ≡ place_in index.now word.now }
{
    index.get(word).copied()
}

/// Adds the bytes of the text from a place to another, if there are any.
fn push_run(pieces: &mut Vec<Piece>, text: &[u8], from: usize, to: usize) -> Result<(), NoMemory>
    ensures { OnOk result ((value : ℕ → List ℕ) → filled text.now value pieces.new.items ≡ filled text.now value pieces.old.items ++ bytes_between from to text.now) }
{
    if from < to {
        pieces.push(Piece::Run(Span { from, to }))?;
    }
    Ok(())
}

/// Adds the piece of a lexeme that does not stand for itself, behind the bytes from a place to its own.
fn push_behind(
    pieces: &mut Vec<Piece>,
    text: &[u8],
    from: usize,
    to: usize,
    piece: Piece,
) -> Result<(), NoMemory>
    ensures { OnOk result ((value : ℕ → List ℕ) → filled text.now value pieces.new.items ≡ filled text.now value pieces.old.items ++ (bytes_between from to text.now ++ piece_value text.now value piece)) }
{
    push_run(pieces, text, from, to)?;
    pieces.push(piece)?;
    Ok(())
}

/// Adds a lexeme that stands between two places, where the bytes from a place to it are in no piece yet. The place from which on
/// the bytes up to the lexeme's end are in no piece then.
fn push_lexeme(
    pieces: &mut Vec<Piece>,
    index: &Index<'_>,
    text: &[u8],
    from: usize,
    at: usize,
    end: usize,
    kind: Kind,
) -> Result<usize, NoMemory>
    requires order { from ≤ at }
    requires some { at ≤ end }
    requires within { end ≤ length text.now }
    ensures from { IfOk result (λ n. n ≤ end) }
    ensures pieces { IfOk result (λ n. (value : ℕ → List ℕ) → filled text.now value pieces.new.items ++ bytes_between n end text.now ≡ filled text.now value pieces.old.items ++ (bytes_between from at text.now ++ value_of (λ word. option_map value (place_in index.now word)) kind (bytes_between at end text.now))) }
{
    match kind {
        Kind::Word => match place_of(index, slice_between(text, at, end)) {
            Some(place) => push_behind(pieces, text, from, at, Piece::Actual(place))?,
            None => return Ok(from),
        },
        Kind::Plain => return Ok(from),
        Kind::Joint => push_run(pieces, text, from, at)?,
        Kind::Quote => push_behind(pieces, text, from, at, Piece::Quote)?,
        Kind::EscapedQuote => push_behind(pieces, text, from, at, Piece::EscapedQuote)?,
    }
    Ok(end)
}

/// What the text is made of, given the places of the formals.
fn pieces_of(alloc: Global, index: &Index<'_>, text: &[u8]) -> Result<Vec<Piece>, NoMemory>
    ensures { IfOk result (λ ps. (value : ℕ → List ℕ) → filled text.now value ps.items ≡ replaced (λ word. option_map value (place_in index.now word)) (lexemes text.now)) }
{
    let mut pieces = Vec::new(alloc);
    let mut between = false;
    let mut from = 0;
    let mut at = 0;
    'lexemes: while at < text.len() {
        let first = first_lexeme(between, &text[at..]);
        let end = at + first.len;
        from = push_lexeme(&mut pieces, index, text, from, at, end, first.kind)?;
        between = is_between_after(between, first.kind);
        at = end;
    }
    push_run(&mut pieces, text, from, at)?;
    Ok(pieces)
}

/// What the text of a macro is made of.
pub(crate) fn cut(alloc: Global, m: &Definition) -> Result<Vec<Piece>, NoMemory>
    ensures { IfOk result (λ ps. AreCutFrom m.now ps.items) }
{
    let index = index_of(alloc, m)?;
    let pieces = pieces_of(alloc, &index, m.text.items())?;
    Ok(pieces)
}

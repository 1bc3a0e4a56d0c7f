ghost use Rattle.std.specs.Prelude.{◌≡◌, ℕ, ◌+◌, ◌<◌, [], ◌∷◌, ◌++◌, length, slice_index_or, unwrap_or, true, false, IsTrue, IfSome, IfOk, OnOk};
ghost use Rattle.std.specs.Global.{Vec};
ghost use Rattle.std.specs.List.{All, Contains};
ghost use Rattle.std.specs.List.Sorted.{IsStrictlyIncreasing};
ghost use Rattle.sve_macro.specs.Numbers.{WaitsFor, AreNumbered, Gathers};
ghost use Rattle.sve_macro.specs.Substitution.{actual_at};

use crate::template::Piece;
use std::alloc::Global;
use sve_bytes::{List, Name, NoMemory};

/// The numbers of a macro's pieces, from 0, by when they give something. Each piece stands once.
#[derive(Drop)]
pub(crate) struct PieceNumbers {
    /// The pieces that give something in every use.
    pub(crate) always: Vec<usize>,
    /// For each formal those that give something only where its actual does: its places, where it has
    /// no default but an empty one.
    pub(crate) by_formal: Vec<Vec<usize>>,
}

/// Whether a default, if there is one, has no byte.
fn gives_nothing(default: &Option<List<u8>>) -> bool
    ensures { IsTrue result → unwrap_or default.now [] ≡ [] }
{
    match default {
        Some(text) => text.items().is_empty(),
        None => true,
    }
}

/// The place of the formal without whose actual a piece gives nothing, if there is one.
fn waits_for(formals: &[(Name, Option<List<u8>>)], piece: &Piece) -> Option<usize>
    ensures known { IfSome result (λ place. place < length formals.now) }
    ensures waits { IfSome result (λ place. WaitsFor formals.now piece.now place) }
{
    match *piece {
        Piece::Actual(place) => {
            if place < formals.len() && gives_nothing(&formals[place].1) {
                return Some(place);
            }
            None
        }
        Piece::Run(_) | Piece::Quote | Piece::EscapedQuote => None,
    }
}

/// So many empty lists.
fn empty_lists(alloc: Global, count: usize) -> Result<Vec<Vec<usize>>, NoMemory>
    ensures count { IfOk result (λ lists. length lists.items ≡ count) }
    ensures empty { IfOk result (λ lists. All (λ list. list.items ≡ []) lists.items) }
{
    let mut lists = Vec::new(alloc);
    'lists: while lists.len() < count {
        lists.push(Vec::new(alloc))?;
    }
    Ok(lists)
}

/// Adds a number to a list.
fn push_at(lists: &mut Vec<Vec<usize>>, place: usize, number: usize) -> Result<(), NoMemory>
    requires { place < length lists.old.items }
    ensures count { OnOk result (length lists.new.items ≡ length lists.old.items) }
    ensures added { OnOk result ((d : Vec ℕ) → (slice_index_or lists.new.items place d).items ≡ (slice_index_or lists.old.items place d).items ++ number ∷ []) }
    ensures others { OnOk result ((other : ℕ) (d : Vec ℕ) → (other ≡ place → ⊥) → slice_index_or lists.new.items other d ≡ slice_index_or lists.old.items other d) }
{
    lists[place].push(number)?;
    Ok(())
}

/// Adds the number of a piece to the list where it belongs.
fn push_number(
    numbers: &mut PieceNumbers,
    formals: &[(Name, Option<List<u8>>)],
    pieces: &[Piece],
    number: usize,
) -> Result<(), NoMemory>
    requires within { number < length pieces.now }
    requires before { AreNumbered formals.now pieces.now number numbers.old }
    ensures { OnOk result (AreNumbered formals.now pieces.now (number + 1) numbers.new) }
{
    match waits_for(formals, &pieces[number]) {
        Some(place) => {
            push_at(&mut numbers.by_formal, place, number)?;
            Ok(())
        }
        None => {
            numbers.always.push(number)?;
            Ok(())
        }
    }
}

/// The numbers of the pieces of a macro with these formals.
pub(crate) fn number_pieces(
    alloc: Global,
    formals: &[(Name, Option<List<u8>>)],
    pieces: &[Piece],
) -> Result<PieceNumbers, NoMemory>
    ensures { IfOk result (λ numbers. AreNumbered formals.now pieces.now (length pieces.now) numbers) }
{
    let mut numbers = PieceNumbers {
        always: Vec::new(alloc),
        by_formal: empty_lists(alloc, formals.len())?,
    };
    for number in 0..pieces.len() {
        push_number(&mut numbers, formals, pieces, number)?;
    }
    Ok(numbers)
}

/// Whether the actual at a place gives something to a formal whose places are listed.
fn brings(numbers: &PieceNumbers, actuals: &[List<u8>], place: usize) -> bool
    requires { place < length actuals.now }
    ensures known { result ≡ true → place < length numbers.now.by_formal.items }
    ensures missing { result ≡ false → place < length numbers.now.by_formal.items → length (actual_at actuals.now place) ≡ 0 }
{
    place < numbers.by_formal.len() && !actuals[place].items().is_empty()
}

/// Adds the numbers that an actual brings.
fn push_given(
    gathered: &mut Vec<usize>,
    numbers: &PieceNumbers,
    actuals: &[List<u8>],
    place: usize,
) -> Result<(), NoMemory>
    requires within { place < length actuals.now }
    requires before { Gathers numbers.now actuals.now place gathered.old.items }
    ensures { OnOk result (Gathers numbers.now actuals.now (place + 1) gathered.new.items) }
{
    if brings(numbers, actuals, place) {
        gathered.extend_from_slice(numbers.by_formal[place].as_slice())?;
    }
    Ok(())
}

/// The numbers of the pieces that give something with these actuals.
fn gather(
    alloc: Global,
    numbers: &PieceNumbers,
    actuals: &[List<u8>],
) -> Result<Vec<usize>, NoMemory>
    ensures { IfOk result (λ gathered. Gathers numbers.now actuals.now (length actuals.now) gathered.items) }
{
    let mut gathered = Vec::from_slice(alloc, numbers.always.as_slice())?;
    for place in 0..actuals.len() {
        push_given(&mut gathered, numbers, actuals, place)?;
    }
    Ok(gathered)
}

/// Puts numbers in order, each once.
fn put_in_order(numbers: &mut Vec<usize>)
    ensures rise { IsStrictlyIncreasing numbers.new.items }
    ensures keeps { (n : ℕ) → Contains numbers.old.items n → Contains numbers.new.items n }
    ensures adds_none { (n : ℕ) → Contains numbers.new.items n → Contains numbers.old.items n }
{
    numbers.sort_unstable();
    numbers.dedup();
}

/// The numbers of the pieces that give something with these actuals, in order. It takes a step for each
/// of them and for each actual, and none for a formal whose actual is not given.
pub(crate) fn given_numbers(
    alloc: Global,
    numbers: &PieceNumbers,
    actuals: &[List<u8>],
) -> Result<Vec<usize>, NoMemory>
    ensures gathers { IfOk result (λ given. Gathers numbers.now actuals.now (length actuals.now) given.items) }
    ensures rise { IfOk result (λ given. IsStrictlyIncreasing given.items) }
{
    let mut gathered = gather(alloc, numbers, actuals)?;
    put_in_order(&mut gathered);
    Ok(gathered)
}

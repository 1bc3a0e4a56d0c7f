ghost use Rattle.std.specs.Prelude.{◌≡◌, ◌+◌, ◌<◌, ◌≤◌, ◌^◌, ◌==◌, ◌&&◌, if◌then◌else◌, List, ℕ, length, None, IfOk};
ghost use Rattle.sve_macro.specs.Substitution.{is_empty_list, accepts_each, accepts, substituted, below};
ghost use Rattle.sve_macro.specs.Template.{needed_of};

use crate::piece_numbers::{PieceNumbers, given_numbers, number_pieces};
use crate::substitution::fill;
use crate::template::{Piece, cut};
use std::alloc::Global;
use std::marker::Model;
use sve_bytes::{List, Name, NoMemory};

/// What a `` `define `` directive gives a name (IEEE 1800-2017, 22.5.1).
#[derive(Drop)]
pub struct Definition {
    /// The formal arguments in order, each with its default where it has one.
    pub formals: List<(Name, Option<List<u8>>)>,
    /// Whether a use has a list of actuals in parentheses. A macro without one has no formals.
    pub has_list: bool,
    /// The text, as it is before substitution.
    pub text: List<u8>,
}

/// A macro, which contracts see as its definition. Its text is read once, when the macro is made, so
/// that a use of it reads no more of the text than it gives.
#[derive(Drop)]
pub struct Macro {
    definition: Definition,
    /// What the text is made of.
    pieces: Vec<Piece>,
    /// Which pieces a use has to look at.
    numbers: PieceNumbers,
    /// How many actuals a use must give.
    needed: usize,
}

impl Model for Macro {
    ghost use Rattle.std.specs.Prelude.{◌≡◌, length};
    ghost use Rattle.sve_macro.specs.declared.definition.Definition.{Definition};
    ghost use Rattle.sve_macro.specs.Numbers.{AreNumbered};
    ghost use Rattle.sve_macro.specs.Template.{AreCutFrom, needed_of};

    ghost Value = { Definition };

    ghost view = { λ m. m.definition };

    ghost invariant = { λ m. AreCutFrom m.definition m.pieces.items × AreNumbered m.definition.formals m.pieces.items (length m.pieces.items) m.numbers × (m.needed ≡ needed_of m.definition.formals) };
}

/// How many actuals a use must give for a formal and those behind it, which need so many.
fn needed_with(has_default: bool, behind: usize) -> usize
    requires { behind + 1 < 2 ^ 64 }
    ensures value { result ≡ (if has_default && behind == 0 then 0 else behind + 1) }
    ensures bounded { result ≤ behind + 1 }
{
    if has_default && behind == 0 {
        0
    } else {
        behind + 1
    }
}

/// How many actuals a use of a macro with these formals must give.
fn needed(formals: &[(Name, Option<List<u8>>)]) -> usize
    ensures { result ≡ needed_of formals.now }
{
    let mut count = 0;
    let mut left = formals.len();
    while left > 0 {
        left -= 1;
        count = needed_with(formals[left].1.is_some(), count);
    }
    count
}

/// Whether a use may give so many actuals, where it must give some.
fn fits_each(formals: &[(Name, Option<List<u8>>)], needed: usize, count: usize) -> bool
    requires { needed ≡ needed_of formals.now }
    ensures { (actuals : List (List ℕ)) → count ≡ length actuals → result ≡ accepts_each formals.now actuals }
{
    needed <= count && count <= formals.len()
}

/// Whether there is no actual, or an empty one alone.
fn is_empty(actuals: &[List<u8>]) -> bool
    ensures { result ≡ is_empty_list actuals.now }
{
    match actuals {
        [] => true,
        [only] => only.items().is_empty(),
        _ => false,
    }
}

impl Macro {
    /// The macro of a definition.
    ///
    /// # Errors
    /// Only for want of memory.
    pub fn of(alloc: Global, definition: Definition) -> Result<Macro, NoMemory>
        ensures { IfOk result (λ m. m ≡ definition) }
    {
        let pieces = cut(alloc, &definition)?;
        let formals = definition.formals.items();
        let numbers = number_pieces(alloc, formals, pieces.as_slice())?;
        let needed = needed(formals);
        Ok(Macro {
            definition,
            pieces,
            numbers,
            needed,
        })
    }

    /// The definition. It takes no memory.
    pub fn definition(&self) -> &Definition
        ensures { result.now ≡ self.now }
    {
        &self.definition
    }

    /// Whether a use may have so many actuals: `substitute` refuses all others. It takes no memory.
    pub fn takes(&self, actuals: &[List<u8>]) -> bool
        ensures { result ≡ accepts self.now actuals.now }
    {
        let formals = self.definition.formals.items();
        if !self.definition.has_list {
            actuals.is_empty()
        } else if formals.is_empty() {
            is_empty(actuals)
        } else {
            fits_each(formals, self.needed, actuals.len())
        }
    }

    /// What the macro stands for with these actuals, where that has fewer bytes than there is room for.
    pub(crate) fn fill(
        &self,
        alloc: Global,
        actuals: &[List<u8>],
        room: usize,
    ) -> Result<Option<List<u8>>, NoMemory>
        ensures text { IfOk result (λ found. found ≡ below room (substituted self.now actuals.now)) }
        ensures none { IfOk result (λ found. found ≡ None → room < 2 ^ 63) }
    {
        let text = self.definition.text.items();
        let formals = self.definition.formals.items();
        let pieces = self.pieces.as_slice();
        let numbers = given_numbers(alloc, &self.numbers, actuals)?;
        fill(
            alloc,
            text,
            formals,
            actuals,
            pieces,
            numbers.as_slice(),
            room,
        )
    }
}

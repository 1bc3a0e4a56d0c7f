//! The rule of the board, and the eight kinds of step that it knows.
ghost use Rattle.sve_board.specs.Steps.{Looks, Meets, Raises, Checks, Publishes, note_left, note_made, note_taken, pass_left, pass_made, pass_returned};
ghost use Rattle.sve_board.specs.declared.knowledge.View.TheVariants.{Spent};

use crate::knowledge::{Entry, View};
use atomic_table::{Join, Play, Split, TableRule};
use std::marker::{Brand, PhantomData};

/// What holds between any two steps. The table is told how many clients there are.
pub(crate) struct BoardRule;

impl TableRule<(), View, u64> for BoardRule {
    ghost use Rattle.sve_board.specs.Knowledge.{opening_view};
    ghost use Rattle.sve_board.specs.Rule.{IsBoard};

    ghost holds = { λ clients table. IsBoard clients table.words table.views };

    ghost first = { λ clients. opening_view clients 1 };
}

/// A client loads word 0.
pub(crate) struct LookStep;

impl Play<(), View> for LookStep {
    ghost then = { Looks };
}

/// A client that has taken in a note loads word 0.
pub(crate) struct MeetStep;

impl Play<(), View> for MeetStep {
    ghost then = { Meets };
}

/// A client adds one to its own word.
pub(crate) struct RaiseStep;

impl Play<(), View> for RaiseStep {
    ghost then = { Raises };
}

/// The writer loads a client's word.
pub(crate) struct CheckStep;

impl Play<(), View> for CheckStep {
    ghost then = { Checks };
}

/// Says which entry one step adds to the log. The entry has no bytes in the table, so each call names its own.
pub(crate) trait NamesEntry {
    ghost use Rattle.sve_board.specs.declared.knowledge.Entry.{Entry};

    ghost entry: { Entry };
}

impl NamesEntry for Brand {
    ghost entry = { record { client = 1; command = 1 } };
}

/// The writer adds one to word 0.
pub(crate) struct PublishStep<E> {
    entry: PhantomData<E>,
}

impl<E: NamesEntry> Play<(), View> for PublishStep<E> {
    ghost then = { Publishes E.entry };
}

/// A note leaves the writer's seat, and goes into a pass.
pub(crate) struct NoteStep;

impl Split<View> for NoteStep {
    ghost left = { note_left };

    ghost right = { note_made };
}

impl Join<View> for NoteStep {
    ghost both = { note_taken };

    ghost spent = { Spent };
}

/// A pass leaves the writer's seat, before the log begins.
pub(crate) struct DealStep;

impl Split<View> for DealStep {
    ghost left = { pass_left };

    ghost right = { pass_made };
}

/// A pass goes back into the writer's seat, when the log has ended.
pub(crate) struct ReturnStep;

impl Join<View> for ReturnStep {
    ghost both = { pass_returned };

    ghost spent = { Spent };
}

//! Passes, the writer's seat and notes. Of all they say, the number of a pass alone has bytes.
ghost use Rattle.std.specs.Prelude.{◌≡◌};

use crate::knowledge::View;
use atomic_table::Seat;
use std::marker::Model;

/// What one client knows: its number, the prefix of the log that it has seen with its own entries there, the lengths
/// that it looked up, and how many commits it has announced. There is one pass for each number, and none is copied.
#[derive(Drop)]
pub struct Pass {
    pub(crate) number: u32,
    pub(crate) seat: Seat<(), View>,
}

impl Model for Pass {
    ghost use Rattle.std.specs.Prelude.{◌≡◌, ◌<◌, []};
    ghost use Rattle.sve_board.specs.Values.{PassValue};

    ghost Value = { PassValue };

    ghost use Rattle.sve_board.specs.Knowledge.{pass_in, client_view};

    ghost view = { λ pass. pass_in pass.seat.table_id pass.seat.me.0 };

    // nothing is unmet, and the number has its word
    ghost invariant = { λ pass. (pass.seat.me ≡ (client_view (pass_in pass.seat.table_id pass.seat.me.0), [])) × (pass.number ≡ (pass_in pass.seat.table_id pass.seat.me.0).number) × (0 < pass.number) × (pass.number < pass.seat.table_id.words) };
}

impl Pass {
    /// The number of the pass's client, from 1. It takes no memory.
    pub fn client(&self) -> u32
        ensures number { result ≡ self.now.number }
    {
        self.number
    }
}

/// The right to add to the log, with the log so far and, for each client, a number that was read in its word. A board
/// has one writer's seat. Whoever shares it keeps it under a lock.
#[derive(Drop)]
pub struct WriterSeat {
    pub(crate) seat: Seat<(), View>,
}

impl Model for WriterSeat {
    ghost use Rattle.std.specs.Prelude.{◌≡◌, []};
    ghost use Rattle.sve_board.specs.Values.{WriterValue};

    ghost Value = { WriterValue };

    ghost use Rattle.sve_board.specs.Knowledge.{writer_in, writer_of, writer_view};

    ghost view = { λ writer. writer_of writer.seat.table_id writer.seat.me.0 };

    // no pass was handed back
    ghost invariant = { λ writer. writer.seat.me ≡ (writer_view (writer_in writer.seat.me.0).seats [] (writer_of writer.seat.table_id writer.seat.me.0), []) };
}

/// The log as it was when the note was made, to be met by one pass.
#[derive(Drop)]
pub struct BoardNote {
    pub(crate) seat: Seat<(), View>,
}

impl Model for BoardNote {
    ghost use Rattle.std.specs.Prelude.{◌≡◌, []};
    ghost use Rattle.sve_board.specs.Values.{NoteValue};

    ghost Value = { NoteValue };

    ghost use Rattle.sve_board.specs.Knowledge.{note_in, note_view};

    ghost view = { λ note. note_in note.seat.table_id note.seat.me.0 };

    ghost invariant = { λ note. note.seat.me ≡ (note_view (note_in note.seat.table_id note.seat.me.0), []) };
}

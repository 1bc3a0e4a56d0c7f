//! What a session is over. It exists for contracts alone.
use std::marker::Brand;

/// What a session is over. It has no function, and no value of such a type is made: its members are seen by contracts
/// alone. A session lives inside a function that is generic over its plan, and the caller of that function names the
/// members from what it passes.
pub trait Plan {
    ghost use Rattle.std.specs.Prelude.{ℕ};
    ghost use Rattle.sve_text.specs.Files.{FilesValue};
    ghost use Rattle.sve_history.specs.Histories.{Table};
    ghost use Rattle.sve_board.specs.Values.{BoardValue};

    // The opening files.
    ghost opening: { FilesValue };

    // The edits of each client's each command.
    ghost table: { Table };

    // The board.
    ghost board: { BoardValue };

    // How many entries the history may have.
    ghost most: { ℕ };
}

impl Plan for Brand {
    ghost use Rattle.std.specs.Prelude.{[]};

    ghost opening = { record { rows = []; names_stamp = 0 } };

    ghost table = { λ client command. [] };

    ghost board = { record { table = record { words = 0; slots = 0; views_name = 0; atom = 0; block = 0; offset = 0; slot_names = [] }; clients = 0 } };

    ghost most = { 0 };
}

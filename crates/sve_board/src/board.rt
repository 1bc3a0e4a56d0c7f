//! The board and its calls.
ghost use Rattle.std.specs.Prelude.{◌≡◌, ℕ, ◌+◌, ◌<◌, ◌≤◌, ◌^◌, ◌++◌, ◌∷◌, [], length, slice_set, slice_index, slice_get, Some, replicate, IfOk};
ghost use mathlib.Core.List.{IsPrefix};
ghost use Rattle.sve_board.specs.Log.{IsClient, AreOfClients, entries_of, longer, largest, with_length};
ghost use Rattle.sve_board.specs.Values.{PassValue, FitsLog, new_passes};

use crate::knowledge::View;
use crate::seats::{BoardNote, Pass, WriterSeat};
use crate::steps::{
    BoardRule, CheckStep, DealStep, LookStep, MeetStep, NamesEntry, NoteStep, PublishStep,
    RaiseStep, ReturnStep,
};
use atomic_table::Table;
use std::alloc::{AllocError, Global};
use std::marker::{Brand, Model};

/// The words that all threads share: word 0 is the length of the log, and the word at a client's number counts what
/// it has announced. Every call goes through a `&`, each step is one atomic step on one word, and nobody waits.
///
/// A pass, the writer's seat or a note serves the board alone from which it comes.
#[derive(Drop)]
pub struct Board {
    clients: u32,
    table: Table<(), View, u64, BoardRule, Global>,
}

impl Model for Board {
    ghost use Rattle.std.specs.Prelude.{◌≡◌, ◌+◌};
    ghost use Rattle.sve_board.specs.Values.{BoardValue};

    ghost Value = { BoardValue };

    ghost view = { λ board. record { table = board.table.shared.table_id; clients = board.clients } };

    ghost invariant = { λ board. (board.table.shared.key ≡ board.clients) × (board.table.shared.table_id.words ≡ board.clients + 1) × (board.table.shared.table_id.slots ≡ 0) };
}

impl Board {
    /// A board for 1 to 16 clients with an empty log, the one writer's seat, and one pass for each client in the order
    /// of their numbers, from 1. All words are 0, and nobody has seen anything.
    ///
    /// # Errors
    /// Only for want of memory.
    pub fn open(alloc: Global, clients: u32) -> Result<(Board, WriterSeat, Vec<Pass>), AllocError>
        requires clients { (0 < clients) × (clients ≤ 16) }
        ensures board { IfOk result (λ opened. opened.0.clients ≡ clients) }
        ensures writer { IfOk result (λ opened. opened.1 ≡ record { table = opened.0.table; log = []; known = replicate (clients + 1) 0 }) }
        ensures passes { IfOk result (λ opened. opened.2.items ≡ new_passes opened.0.table clients) }
    {
        let zeros = vec![in alloc; 0u64; clients as usize + 1]?;
        let mut passes = Vec::with_capacity(alloc, clients as usize)?;
        let count = u64::from(clients);
        let (table, mut writer) = Table::of_words(alloc, zeros.as_slice(), &count)?;
        for dealt in 0..clients {
            let seat = table.shared.split_seat::<DealStep>(&mut writer);
            passes.push(Pass {
                number: dealt + 1,
                seat,
            })?;
        }
        Ok((
            Board { clients, table },
            WriterSeat { seat: writer },
            passes,
        ))
    }

    /// How many entries the log has now. The answer joins the pass's looks; it is not below any earlier look, nor below
    /// the length of what the pass has seen. All else of the pass stays. It is one load of word 0, takes no memory and
    /// waits for nobody.
    pub fn look(&self, pass: &mut Pass) -> u64
        requires board { pass.old.table ≡ self.now.table }
        ensures looks { pass.new ≡ record pass.old { looks = pass.old.looks ++ result ∷ [] } }
        ensures not_below_looks { largest pass.old.looks ≤ result }
        ensures not_below_seen { length pass.old.seen ≤ result }
    {
        self.table.shared.load::<LookStep>(&mut pass.seat, 0)
    }

    /// Announces one more commit of the pass's client: adds one to the client's word and to the pass's `raises`, and
    /// answers the new count. It takes no memory and waits for nobody.
    pub fn raise(&self, pass: &mut Pass) -> u64
        requires board { pass.old.table ≡ self.now.table }
        requires room { pass.old.raises < 2 ^ 63 }
        ensures raises { pass.new ≡ record pass.old { raises = pass.old.raises + 1 } }
        ensures count { result ≡ pass.old.raises + 1 }
        ensures client { IsClient self.now.clients pass.old.number }
    {
        let word = pass.number as usize;
        self.table
            .shared
            .fetch_add::<RaiseStep>(&mut pass.seat, word, 1)
            + 1
    }

    /// How many commits this client, from 1, has announced by now. The writer keeps the answer as what it knows of the
    /// client. It is one load of the client's word, takes no memory and waits for nobody.
    pub fn check(&self, writer: &mut WriterSeat, client: u32) -> u64
        requires board { writer.old.table ≡ self.now.table }
        requires client { IsClient self.now.clients client }
        ensures known { writer.new ≡ record writer.old { known = slice_set writer.old.known client result } }
        ensures kept { slice_index writer.new.known client ≡ result }
    {
        self.table
            .shared
            .load::<CheckStep>(&mut writer.seat, client as usize)
    }

    /// Adds a client's command to the log as its last entry, and answers the new length. The client must have announced
    /// more commits, as far as the writer knows, than it has entries. It takes no memory and waits for nobody: the entry
    /// is in the log at the one `fetch_add` on word 0.
    pub fn publish(&self, writer: &mut WriterSeat, client: u32, command: u32) -> u64
        requires board { writer.old.table ≡ self.now.table }
        requires client { IsClient self.now.clients client }
        requires announced { length (entries_of client writer.old.log) < slice_index writer.old.known client }
        requires room { length writer.old.log < 2 ^ 62 }
        ensures log { writer.new ≡ record writer.old { log = writer.old.log ++ record { client = client; command = command } ∷ [] } }
        ensures length { result ≡ length writer.old.log + 1 }
    {
        self.publish_named::<Brand>(writer, client, command)
    }

    // Which entry a step adds is said by a type, since the word alone cannot tell it.
    fn publish_named<E: NamesEntry>(
        &self,
        writer: &mut WriterSeat,
        client: u32,
        command: u32,
    ) -> u64
        requires entry { E.entry ≡ record { client = client; command = command } }
        requires board { writer.old.table ≡ self.now.table }
        requires client { IsClient self.now.clients client }
        requires announced { length (entries_of client writer.old.log) < slice_index writer.old.known client }
        requires room { length writer.old.log < 2 ^ 62 }
        ensures log { writer.new ≡ record writer.old { log = writer.old.log ++ record { client = client; command = command } ∷ [] } }
        ensures length { result ≡ length writer.old.log + 1 }
    {
        self.table
            .shared
            .fetch_add::<PublishStep<E>>(&mut writer.seat, 0, 1)
            + 1
    }

    /// A note of the log as it is, for a pass to meet. The writer's seat stays as it was. It takes no memory and waits
    /// for nobody.
    pub fn note(&self, writer: &mut WriterSeat) -> BoardNote
        requires board { writer.old.table ≡ self.now.table }
        ensures writer { writer.new ≡ writer.old }
        ensures note { (result.table ≡ writer.old.table) × (result.seen ≡ writer.old.log) }
    {
        let seat = self.table.shared.split_seat::<NoteStep>(&mut writer.seat);
        BoardNote { seat }
    }

    /// Lets a pass know what a note tells: what the pass has seen becomes the longer of both, of which both are
    /// prefixes, and its own entries become its client's entries there, which are at most as many as it has announced.
    /// The note's length counts as a look, unless the pass has looked up a larger one. It takes no memory and waits for
    /// nobody.
    pub fn meet(&self, pass: &mut Pass, note: BoardNote)
        requires board { (pass.old.table ≡ self.now.table) × (note.table ≡ self.now.table) }
        ensures seen { pass.new.seen ≡ longer pass.old.seen note.seen }
        ensures prefixes { IsPrefix pass.old.seen pass.new.seen × IsPrefix note.seen pass.new.seen }
        ensures mine_before { pass.old.mine ≡ entries_of pass.old.number pass.old.seen }
        ensures mine { pass.new.mine ≡ entries_of pass.old.number pass.new.seen }
        ensures announced { length pass.new.mine ≤ pass.old.raises }
        ensures looks { pass.new.looks ≡ with_length pass.old.looks (length note.seen) }
        ensures others { (pass.new.table ≡ pass.old.table) × (pass.new.number ≡ pass.old.number) × (pass.new.raises ≡ pass.old.raises) }
    {
        let BoardNote { seat } = note;
        self.table
            .shared
            .join_seat::<NoteStep>(&mut pass.seat, seat);
        self.table.shared.load::<MeetStep>(&mut pass.seat, 0);
    }

    /// Ends the log, and answers its length. Every entry is one of the clients'. Of each pass that is handed in, what
    /// it has seen is a prefix of the log, no look is above the log's length, and its client has at most as many entries
    /// as it has announced. The board's memory is freed; the call takes none and waits for nobody.
    pub fn close(self, writer: WriterSeat, mut passes: Vec<Pass>) -> u64
        requires board { writer.table ≡ self.table }
        requires boards { (i : ℕ) (pass : PassValue) → slice_get passes.items i ≡ Some pass → pass.table ≡ self.table }
        ensures length { result ≡ length writer.log }
        ensures clients { AreOfClients self.clients writer.log }
        ensures passes { (i : ℕ) (pass : PassValue) → slice_get passes.items i ≡ Some pass → FitsLog writer.log pass }
    {
        let Board { clients: _, table } = self;
        let WriterSeat { mut seat } = writer;
        while let Some(pass) = passes.pop() {
            let Pass {
                number: _,
                seat: returned,
            } = pass;
            table.shared.join_seat::<ReturnStep>(&mut seat, returned);
        }
        let ended = table.close_with(seat);
        let total = ended.word(0);
        ended.free();
        total
    }
}

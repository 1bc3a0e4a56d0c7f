//! What lies under the lock.
ghost use Rattle.std.specs.Prelude.{◌≡◌, ℕ, ◌+◌, ◌<◌, ◌≤◌, ◌^◌, List, [], ◌∷◌, ◌++◌, length, take, IfOk, OnErr, OnOk};
ghost use Rattle.sve_board.specs.Log.{entries_of, largest};
ghost use Rattle.sve_history.specs.Histories.{IsOpening, IsLegal};
ghost use Rattle.sve_ask.specs.Sound.{Defined, AllSound};
ghost use Rattle.sve_kept.specs.Kept.{AreJoined};
ghost use Rattle.sve_session.specs.Shared.{history_of};
ghost use Rattle.sve_session.specs.Passes.{IsLater, IsReady, HasGoneOn, IsNext};
ghost use Rattle.sve_session.specs.Commits.{entry, IsTold};
ghost use Rattle.sve_session.specs.Asks.{IsBegun, HasSeen};
ghost use Rattle.sve_session.specs.Meeting.{HasMet};

use crate::plan::Plan;
use std::alloc::Global;
use std::marker::PhantomData;
use std::sync::Wait;
use sve_ask::{Fresh, Lent};
use sve_board::{Board, Pass, WriterSeat};
use sve_bytes::NoMemory;
use sve_core::{Commit, Core};
use sve_history::History;
use sve_store::Kinds;
use sve_text::{Edit, Files};

/// The core, with the seat of whoever writes the log. The history of the core is that of the log.
#[derive(Drop)]
pub(crate) struct Shared<K: Kinds, P: Plan> {
    core: Core<K>,
    writer: WriterSeat,
    of: PhantomData<P>,
    ghost of_board: { writer.table ≡ P.board.table },
    ghost of_log: { core.history ≡ history_of P.opening P.table writer.log },
    ghost within: { length writer.log ≤ P.most },
}

impl<K: Kinds, P: Plan> Shared<K, P> {
    /// A core with these opening files, beside an empty log.
    pub(crate) fn open(
        alloc: Global,
        writer: WriterSeat,
        files: Files,
    ) -> Result<Shared<K, P>, NoMemory>
        requires plan { (writer.table ≡ P.board.table) × (files ≡ P.opening) }
        requires opening { IsOpening files }
        requires empty { writer.log ≡ [] }
    {
        let core = Core::open(alloc, files)?;
        Ok(Shared {
            core,
            writer,
            of: PhantomData,
        })
    }

    /// The history, and the seat with its log.
    pub(crate) fn into_parts(self) -> (History, WriterSeat)
        ensures board { result.1.table ≡ P.board.table }
        ensures history { result.0 ≡ history_of P.opening P.table result.1.log }
        ensures legal { IsLegal result.0 }
    {
        let Shared {
            core,
            writer,
            of: _,
        } = self;
        let history = core.into_history();
        history.stays_legal();
        (history, writer)
    }

    /// A commit. All memory is taken before its entry is in the log.
    pub(crate) fn commit<R: Wait>(
        &mut self,
        rt: &R,
        alloc: Global,
        board: &Board,
        pass: &mut Pass,
        most: u64,
        command: u32,
        edits: &[Edit],
    ) -> Result<Commit, NoMemory>
        requires board { board.now ≡ P.board }
        requires most { (most ≡ P.most) × (most < 2 ^ 62) }
        requires pass { IsReady P.board.table pass.old }
        requires next { IsNext pass.old command }
        requires few { length edits.now < 2 ^ 32 }
        requires edits { edits.now ≡ P.table pass.old.number command }
        ensures later { IsLater pass.old pass.new }
        ensures ready { IsReady P.board.table pass.new }
        ensures told { IfOk result (IsTold P.opening P.table P.most command pass.old pass.new) }
        ensures unchanged { OnErr result (pass.new.mine ≡ pass.old.mine) }
    {
        let total = self.core.history().len();
        meet_log(rt, board, &mut self.writer, pass, total);
        if total >= most {
            return Ok(Commit::Full);
        }
        match self.core.commit(alloc, pass.client(), command, edits)? {
            Commit::Accepted { r } => {
                add_entry(rt, board, &mut self.writer, pass, command);
                Ok(Commit::Accepted { r })
            }
            refused => Ok(refused),
        }
    }

    /// The newest revision, all of which the pass has met, with the memos as they are.
    pub(crate) fn begin<R: Wait>(
        &mut self,
        rt: &R,
        alloc: Global,
        board: &Board,
        pass: &mut Pass,
    ) -> Result<Lent<K>, NoMemory>
        requires board { board.now ≡ P.board }
        requires pass { IsReady P.board.table pass.old }
        ensures later { IsLater pass.old pass.new }
        ensures ready { IsReady P.board.table pass.new }
        ensures mine { pass.new.mine ≡ pass.old.mine }
        ensures begun { IfOk result (λ lent. IsBegun P.opening P.table pass.old pass.new lent.snapshot) }
        ensures memos { IfOk result (λ lent. lent.memos ≡ self.old.core.memos) }
        ensures unchanged { self.new.core ≡ self.old.core }
    {
        let newest = self.core.history().len();
        meet_log(rt, board, &mut self.writer, pass, newest);
        self.core.begin(alloc)
    }

    /// Joins what was found at a revision that the pass has seen to the memos that are kept.
    pub(crate) fn publish<R: Wait>(
        &mut self,
        rt: &R,
        alloc: Global,
        board: &Board,
        pass: &mut Pass,
        base: u64,
        fresh: Fresh<K>,
    ) -> Result<(), NoMemory>
        requires board { board.now ≡ P.board }
        requires pass { IsReady P.board.table pass.old }
        requires seen { base ≤ length pass.old.seen }
        requires sound { ∥ AllSound (record { cmp = K.Key.cmp; given = K.given; make = K.make; ranked = K.ranked; serves = K.serves }) (history_of P.opening P.table (take base pass.old.seen)) fresh.memos ∥₁ }
        ensures later { IsLater pass.old pass.new }
        ensures ready { IsReady P.board.table pass.new }
        ensures mine { pass.new.mine ≡ pass.old.mine }
        ensures history { self.new.core.history ≡ self.old.core.history }
        ensures joined { OnOk result (AreJoined K.Key.cmp fresh.memos self.old.core.memos self.new.core.memos) }
        ensures unchanged { OnErr result (self.new.core ≡ self.old.core) }
    {
        let length = self.core.history().len();
        meet_log(rt, board, &mut self.writer, pass, length);
        self.core.publish(alloc, base, fresh)
    }

    /// Lets both passes meet the whole log.
    pub(crate) fn follow<R: Wait>(
        &mut self,
        rt: &R,
        board: &Board,
        pass: &mut Pass,
        earlier: &mut Pass,
    )
        requires board { board.now ≡ P.board }
        requires pass { IsReady P.board.table pass.old }
        requires earlier { IsReady P.board.table earlier.old }
        ensures pass { HasGoneOn P.board.table pass.old pass.new }
        ensures earlier { HasGoneOn P.board.table earlier.old earlier.new }
        ensures not_below { largest earlier.old.looks ≤ largest pass.new.looks }
    {
        let length = self.core.history().len();
        meet_log(rt, board, &mut self.writer, earlier, length);
        meet_log(rt, board, &mut self.writer, pass, length);
    }
}

/// Lets a pass meet the whole log, whose length this is. Under the lock the first look finds it.
fn meet_log<R: Wait>(rt: &R, board: &Board, writer: &mut WriterSeat, pass: &mut Pass, total: u64)
    requires board { (writer.old.table ≡ board.now.table) × (pass.old.table ≡ board.now.table) }
    requires total { total ≡ length writer.old.log }
    requires even { pass.old.raises ≡ length pass.old.mine }
    ensures writer { writer.new ≡ writer.old }
    ensures met { HasMet writer.old.log pass.old pass.new }
{
    for _ in rt.forever() {
        if board.look(pass) == total {
            let note = board.note(writer);
            board.meet(pass, note);
            return;
        }
    }
    unreachable!()
}

/// Adds a command of the pass's client to a log, all of which the pass has met.
fn add_entry<R: Wait>(rt: &R, board: &Board, writer: &mut WriterSeat, pass: &mut Pass, command: u32)
    requires board { (writer.old.table ≡ board.now.table) × (pass.old.table ≡ board.now.table) }
    requires met { (pass.old.seen ≡ writer.old.log) × (pass.old.mine ≡ entries_of pass.old.number writer.old.log) × (largest pass.old.looks ≤ length writer.old.log) }
    requires even { pass.old.raises ≡ length pass.old.mine }
    requires room { length writer.old.log < 2 ^ 62 }
    ensures writer { (writer.new.table ≡ writer.old.table) × (writer.new.log ≡ writer.old.log ++ entry pass.old.number command ∷ []) }
    ensures pass { pass.new ≡ record pass.old { seen = writer.old.log ++ entry pass.old.number command ∷ []; mine = pass.old.mine ++ entry pass.old.number command ∷ []; looks = pass.old.looks ++ (length writer.old.log + 1) ∷ []; raises = pass.old.raises + 1 } }
{
    let client = pass.client();
    let announced = board.raise(pass);
    for _ in rt.forever() {
        if board.check(writer, client) >= announced {
            break;
        }
    }
    board.publish(writer, client, command);
    let note = board.note(writer);
    board.meet(pass, note);
}

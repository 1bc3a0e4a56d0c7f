//! Sessions and their calls.
ghost use Rattle.std.specs.Prelude.{◌≡◌, ℕ, ◌<◌, ◌≤◌, ◌^◌, [], length, slice_get, Some, false, IfOk, OnErr, IsTrue};
ghost use Rattle.sve_board.specs.Log.{largest};
ghost use Rattle.sve_board.specs.Values.{PassValue};
ghost use Rattle.sve_text.specs.declared.edit.Mode.TheVariants.{Pinned};
ghost use Rattle.sve_history.specs.Histories.{IsOpening};
ghost use Rattle.sve_store.specs.Made.{values_of};
ghost use Rattle.sve_store.specs.Values.{IsTable, IsAnswer};
ghost use Rattle.sve_ask.specs.Sound.{Defined, AllSound};
ghost use Rattle.sve_ask.specs.Gains.{IsSettled};
ghost use Rattle.sve_reader.specs.UpToDate.{IsUpToDate, StaysUpToDate};
ghost use Rattle.sve_watch.specs.Looks.{HasLooked};
ghost use Rattle.sve_session.specs.Passes.{IsLater, IsReady, HasGoneOn, IsNext};
ghost use Rattle.sve_session.specs.Commits.{IsTold};
ghost use Rattle.sve_session.specs.Asks.{IsBegun, HasSeen, IsAnswered, IsOutcome};
ghost use Rattle.sve_session.specs.Ends.{IsEnded, EndsPass};

use crate::plan::Plan;
use crate::shared::Shared;
use crate::work::outcome;
use std::alloc::Global;
use std::sync::{Mutex, Wait};
use sve_ask::{Fresh, Lent};
use sve_board::{Board, Pass, WriterSeat};
use sve_bytes::NoMemory;
use sve_core::{Commit, Outcome};
use sve_history::History;
use sve_store::{Ending, Kinds};
use sve_text::{Edit, Files, Mode};

/// What clients share. Each client has its pass, and every call is made with one. The calls that take `rt` hold the
/// lock, and may wait for it; they owe no return.
///
/// The plan tells the opening files, the edits of each command, the board, and how many entries the history may have.
#[derive(Drop)]
pub struct Session<K: Kinds, P: Plan> {
    board: Board,
    shared: Mutex<Shared<K, P>>,
    most: u64,
    ghost of_board: { board ≡ P.board },
    ghost at_most: { most ≡ P.most },
    ghost few: { most < 2 ^ 62 },
}

impl<K: Kinds, P: Plan> Session<K, P> {
    /// A session over this board and these opening files, which no commit has touched. Its history may have `most`
    /// entries. Board and seat come from one `Board::open`, whose passes are those of the session's clients.
    ///
    /// # Errors
    /// Only for want of memory; the board and the seat are then dropped.
    pub fn open(
        alloc: Global,
        board: Board,
        writer: WriterSeat,
        files: Files,
        most: u64,
    ) -> Result<Session<K, P>, NoMemory>
        requires plan { (board ≡ P.board) × (files ≡ P.opening) × (most ≡ P.most) }
        requires writer { (writer.table ≡ board.table) × (writer.log ≡ []) }
        requires opening { IsOpening files }
        requires few { most < 2 ^ 62 }
    {
        let shared = Shared::open(alloc, writer, files)?;
        Ok(Session {
            board,
            shared: Mutex::new(shared),
            most,
        })
    }

    /// Commits a command of the pass's client, with the edits that the plan has for it. It is told `Full` where the
    /// history has as many entries as it may have, else `Refused` where the files of the newest revision refuse the
    /// edits, else `Accepted`. The pass has then met the whole history. It may wait for the lock.
    ///
    /// # Errors
    /// Only for want of memory; nothing is committed then.
    pub fn commit<R: Wait>(
        &self,
        rt: &R,
        alloc: Global,
        pass: &mut Pass,
        command: u32,
        edits: &[Edit],
    ) -> Result<Commit, NoMemory>
        requires pass { IsReady P.board.table pass.old }
        requires next { IsNext pass.old command }
        requires few { length edits.now < 2 ^ 32 }
        requires edits { edits.now ≡ P.table pass.old.number command }
        ensures later { IsLater pass.old pass.new }
        ensures ready { IsReady P.board.table pass.new }
        ensures told { IfOk result (IsTold P.opening P.table P.most command pass.old pass.new) }
        ensures unchanged { OnErr result (pass.new.mine ≡ pass.old.mine) }
    {
        self.shared
            .lock(rt)
            .commit(rt, alloc, &self.board, pass, self.most, command, edits)
    }

    /// The newest revision, to be asked, with the values that clients share as they are. The pass has then met the history up
    /// to it. It may wait for the lock.
    ///
    /// # Errors
    /// Only for want of memory.
    pub fn begin<R: Wait>(
        &self,
        rt: &R,
        alloc: Global,
        pass: &mut Pass,
    ) -> Result<Lent<K>, NoMemory>
        requires { IsReady P.board.table pass.old }
        ensures later { IsLater pass.old pass.new }
        ensures ready { IsReady P.board.table pass.new }
        ensures mine { pass.new.mine ≡ pass.old.mine }
        ensures begun { IfOk result (λ lent. IsBegun P.opening P.table pass.old pass.new lent.snapshot) }
    {
        self.shared.lock(rt).begin(rt, alloc, &self.board, pass)
    }

    /// Gives back what was lent, and publishes the values that were found at its revision, however far the history has grown:
    /// of each key the clients share that one from then on, or the one that they shared, where that was verified later.
    /// Neither files nor history change. It may wait for the lock.
    ///
    /// # Errors
    /// Only for want of memory; nothing is published then.
    pub fn finish<R: Wait>(
        &self,
        rt: &R,
        alloc: Global,
        pass: &mut Pass,
        lent: Lent<K>,
        fresh: Fresh<K>,
    ) -> Result<(), NoMemory>
        requires pass { IsReady P.board.table pass.old }
        requires seen { HasSeen P.opening P.table pass.old lent.snapshot }
        requires sound { ∥ AllSound (record { cmp = K.Key.cmp; given = K.given; make = K.make; ranked = K.ranked; serves = K.serves }) lent.snapshot.history fresh.memos ∥₁ }
        ensures later { IsLater pass.old pass.new }
        ensures ready { IsReady P.board.table pass.new }
        ensures mine { pass.new.mine ≡ pass.old.mine }
    {
        let base = lent.snapshot().revision();
        self.shared
            .lock(rt)
            .publish(rt, alloc, &self.board, pass, base, fresh)
    }

    /// Lets a pass meet the history, and with it one that may have been told of more. Its client is then not behind the
    /// other one: a commit or an ask to come is told of no revision below those that the other pass has looked up. It may
    /// wait for the lock.
    pub fn follow<R: Wait>(&self, rt: &R, pass: &mut Pass, earlier: &mut Pass)
        requires pass { IsReady P.board.table pass.old }
        requires earlier { IsReady P.board.table earlier.old }
        ensures pass { HasGoneOn P.board.table pass.old pass.new }
        ensures earlier { HasGoneOn P.board.table earlier.old earlier.new }
        ensures not_below { largest earlier.old.looks ≤ largest pass.new.looks }
    {
        self.shared.lock(rt).follow(rt, &self.board, pass, earlier)
    }

    /// Ends the session, and gives its history. What each pass that is handed in has seen begins the history, and the
    /// entries of its client there are those that it knows. It takes no memory and waits for nobody.
    pub fn close(self, passes: Vec<Pass>) -> History
        requires { (i : ℕ) (pass : PassValue) → slice_get passes.items i ≡ Some pass → IsReady P.board.table pass }
        ensures history { IsEnded P.opening P.table P.board.clients result }
        ensures passes { (i : ℕ) (pass : PassValue) → slice_get passes.items i ≡ Some pass → EndsPass result pass }
    {
        let Session {
            board,
            shared,
            most: _,
        } = self;
        let (history, writer) = shared.into_inner().into_parts();
        board.close(writer, passes);
        history
    }
}

impl<K: Ending, P: Plan> Session<K, P> {
    /// Asks a query at a revision that was lent, within a budget. It is answered by the files of the revision, or `Spent` where
    /// the query costs more than its budget there. In mode latest it looks at the board before it brings a value up to date
    /// and once more before it answers, and is cancelled where it sees a later revision; in mode pinned it never is.
    ///
    /// It reads through the values that were lent and the fresh ones, and keeps among these what it made current. It computes
    /// under the count of `kinds` alone, on condition that these may serve for the revision's files; where all that the query
    /// asks for is up to date it computes nothing, and where it is answered, all computed values that the query asks for are.
    /// It waits for nobody.
    ///
    /// # Errors
    /// Only for want of memory.
    pub fn work(
        &self,
        alloc: Global,
        lent: &Lent<K>,
        pass: &mut Pass,
        kinds: &mut K,
        query: &K::Query,
        budget: u32,
        mode: Mode,
        fresh: &mut Fresh<K>,
    ) -> Result<Outcome, NoMemory>
        requires pass { IsReady P.board.table pass.old }
        requires seen { HasSeen P.opening P.table pass.old lent.now.snapshot }
        requires fit { IsTrue (K.fits kinds.old lent.now.snapshot.files) }
        requires sound { ∥ AllSound (record { cmp = K.Key.cmp; given = K.given; make = K.make; ranked = K.ranked; serves = K.serves }) lent.now.snapshot.history fresh.old.memos ∥₁ }
        requires settled { ∥ IsSettled (record { cmp = K.Key.cmp; given = K.given; make = K.make; ranked = K.ranked; serves = K.serves }) lent.now.snapshot.files lent.now.snapshot.revision fresh.old.memos ∥₁ }
        ensures looked { HasLooked pass.old pass.new }
        ensures pinned { mode ≡ Pinned → pass.new ≡ pass.old }
        ensures fit { IsTrue (K.fits kinds.new lent.now.snapshot.files) }
        ensures sound { ∥ AllSound (record { cmp = K.Key.cmp; given = K.given; make = K.make; ranked = K.ranked; serves = K.serves }) lent.now.snapshot.history fresh.new.memos ∥₁ }
        ensures settled { ∥ IsSettled (record { cmp = K.Key.cmp; given = K.given; make = K.make; ranked = K.ranked; serves = K.serves }) lent.now.snapshot.files lent.now.snapshot.revision fresh.new.memos ∥₁ }
        ensures outcome { IfOk result (IsOutcome (IsAnswer K.Key.cmp (values_of (K.given lent.now.snapshot.files)) K.make K.answers_over query.now budget) lent.now.snapshot.revision budget mode pass.old pass.new) }
        ensures quiet { (table : K.Key → ℕ → K.Value) → IsTable K.Key.cmp (values_of (K.given lent.now.snapshot.files)) K.make table → ((k : K.Key) (f : ℕ) → K.asks_over table query.now budget k f → IsUpToDate (record { cmp = K.Key.cmp; given = K.given; make = K.make; ranked = K.ranked; serves = K.serves }) lent.now.snapshot.files fresh.old.memos lent.now.memos k f) → K.counted kinds.new ≡ K.counted kinds.old }
        ensures done { (table : K.Key → ℕ → K.Value) → IsTable K.Key.cmp (values_of (K.given lent.now.snapshot.files)) K.make table → IfOk result (λ told. IsAnswered told → (k : K.Key) (f : ℕ) → K.is_input k ≡ false → K.asks_over table query.now budget k f → IsUpToDate (record { cmp = K.Key.cmp; given = K.given; make = K.make; ranked = K.ranked; serves = K.serves }) lent.now.snapshot.files fresh.new.memos lent.now.memos k f) }
        ensures still { StaysUpToDate (record { cmp = K.Key.cmp; given = K.given; make = K.make; ranked = K.ranked; serves = K.serves }) lent.now.snapshot.files lent.now.memos fresh.old.memos fresh.new.memos }
    {
        outcome(
            alloc,
            &self.board,
            lent,
            pass,
            kinds,
            query,
            budget,
            mode,
            fresh,
        )
    }
}

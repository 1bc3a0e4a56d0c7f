//! What a client does.
ghost use Rattle.std.specs.Prelude.{◌≡◌, ◌≤◌, ℕ, []};
ghost use Rattle.sve_board.specs.Log.{IsClient, largest};
ghost use Rattle.sve_board.specs.Values.{PassValue};
ghost use Rattle.sve_text.specs.Files.{FilesValue};
ghost use Rattle.sve_history.specs.Histories.{Table};
ghost use Rattle.sve_session.specs.Passes.{IsReady};

use std::alloc::Global;
use std::sync::Wait;
use sve_board::Pass;
use sve_session::{Plan, Session};
use sve_store::Kinds;

/// What a client leaves, with its pass.
#[derive(Drop)]
pub struct Ran<X> {
    pub pass: Pass,
    pub left: X,
}

/// What the clients of a session do, each with its pass. One value serves them all: a pass tells which client it is of.
pub trait Client<K: Kinds> {
    /// What each client leaves beside its pass.
    type Left: Send + Drop;

    // The edits of each client's each command.
    ghost edits: { Self → Table };

    // Whether a client of this number may leave this, of a session with these opening files and at most so many entries,
    // where it began at this front, beside a pass that knows this. A front is a length of the history that its pass was
    // told of.
    ghost leaves: { Self → FilesValue → ℕ → ℕ → ℕ → PassValue → Self.Left → Type 0 };

    /// Does all that the pass's client does, which has no entry yet. It may wait.
    fn run<P: Plan, R: Wait>(
        &self,
        rt: &R,
        alloc: Global,
        session: &Session<K, P>,
        pass: Pass,
    ) -> Ran<Self::Left>
        requires plan { P.table ≡ edits self.now }
        requires pass { IsReady P.board.table pass }
        requires none { pass.mine ≡ [] }
        requires client { IsClient P.board.clients pass.number }
        ensures ready { IsReady P.board.table result.pass }
        ensures number { result.pass.number ≡ pass.number }
        ensures does { (front : ℕ) → front ≤ largest pass.looks → leaves self.now P.opening P.most pass.number front result.pass result.left };
}

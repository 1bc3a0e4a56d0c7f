//! The looks of a pass, as a watch.
ghost use Rattle.std.specs.Prelude.{◌≡◌, ◌∷◌};

use crate::begun::Begun;
use std::marker::PhantomData;
use sve_ask::Watch;
use sve_board::{Board, Pass};

/// A watch that looks at the board. It gives what the pass looks up, and leaves all else of the pass.
pub(crate) struct Looks<'a, B: Begun> {
    pass: &'a mut Pass,
    board: &'a Board,
    of: PhantomData<B>,
    ghost of_board: { pass.now.table ≡ board.now.table },
    ghost looked: { pass.now ≡ record B.pass { looks = pass.now.looks } },
}

impl<'a, B: Begun> Looks<'a, B> {
    /// The looks of this pass of the board, from now on.
    pub(crate) fn new(pass: &'a mut Pass, board: &'a Board) -> Looks<'a, B>
        requires board { pass.old.table ≡ board.now.table }
        requires begun { pass.old ≡ B.pass }
        ensures same_pass { result.pass.ghost_name ≡ pass.entry.ghost_name }
        ensures pass { result.pass.now ≡ pass.old }
    {
        Looks {
            pass,
            board,
            of: PhantomData,
        }
    }

    /// Lets the pass go, as it is by now.
    pub(crate) fn end(self)
        ensures { self.exit.0.now ≡ self.entry.pass.now }
    {
        let Looks {
            pass: _,
            board: _,
            of: _,
        } = self;
    }
}

impl<'a, B: Begun> Watch for Looks<'a, B> {
    // All that the pass has looked up so far. In front of it stands by what contracts know the pass: so a call that is handed the
    // watch is known to leave it the same pass.
    ghost gave = { λ s. s.pass.ghost_name ∷ s.pass.now.looks };

    fn newer(&mut self) -> Option<u64> {
        Some(self.board.look(self.pass))
    }
}

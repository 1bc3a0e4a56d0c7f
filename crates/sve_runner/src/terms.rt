//! What a run says of its asks.
ghost use Rattle.std.specs.Prelude.{◌≡◌};
ghost use Rattle.sve_runner.specs.Honest.{budget_under, mode_under};

use sve_clients::Order;
use sve_text::Mode;

/// What a run says of its asks.
#[derive(Clone, Copy)]
pub struct Terms {
    /// The budget of an ask that gives none, in steps of elaboration.
    pub budget: u32,
    /// How the clients run. Where they run one after another, every ask is in mode pinned.
    pub order: Order,
}

impl Terms {
    /// The budget of an ask that gives this one.
    pub(crate) fn budget_of(&self, given: Option<u32>) -> u32
        ensures { result ≡ budget_under self.now given }
    {
        match given {
            Some(budget) => budget,
            None => self.budget,
        }
    }

    /// The mode of an ask that is in this one.
    pub(crate) fn mode_of(&self, given: Mode) -> Mode
        ensures { result ≡ mode_under self.now given }
    {
        match self.order {
            Order::AtOnce => given,
            Order::InTurn => Mode::Pinned,
        }
    }
}

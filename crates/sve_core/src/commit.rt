//! What commits and asks are told.
ghost use Rattle.std.specs.Prelude.{◌≡◌};
ghost use Rattle.sve_core.specs.Asks.{outcome_of};

use sve_bytes::List;
use sve_store::Answer;
use sve_text::Why;

/// What a commit is told (own).
#[derive(Clone, Copy, PartialEq, Eq)]
pub enum Commit {
    /// It is entry `r` of the history, and made revision `r`. Entries count from 1.
    Accepted { r: u64 },
    /// The files of revision `r` refuse it: edit `edit`, counted from 1, has this reason against it.
    Refused { r: u64, edit: u32, why: Why },
    /// The history may have no more entries.
    Full,
}

/// What an ask is told (own).
#[derive(Drop)]
pub enum Outcome {
    /// These lines, each without the line feed that ends it.
    Answered(List<List<u8>>),
    /// It costs more than its budget.
    Spent { budget: u32 },
    /// It was asked at revision `base`, and its client was told of revision `newer` before it was answered.
    Cancelled { base: u64, newer: u64 },
}

impl Outcome {
    /// What an ask with this answer is told, where nothing cancels it.
    pub fn of(budget: u32, answer: Answer) -> Outcome
        ensures { result ≡ outcome_of budget answer }
    {
        match answer {
            Answer::Done(lines) => Outcome::Answered(lines),
            Answer::Spent => Outcome::Spent { budget },
        }
    }
}

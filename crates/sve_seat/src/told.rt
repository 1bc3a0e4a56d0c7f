//! What the clients of a world were told.
ghost use Rattle.std.specs.Prelude.{◌≡◌};
ghost use Rattle.sve_seat.specs.Outcomes.{named, command_of};

use sve_bytes::List;
use sve_core::{Commit, Outcome};
use sve_text::{Edit, Mode};

/// A command of a client, with what it was told. Commands count from 1.
#[derive(Drop)]
pub enum Told<Q> {
    /// It committed these edits.
    Committed {
        command: u32,
        edits: List<Edit>,
        commit: Commit,
    },
    /// It asked this at revision `revision`.
    Asked {
        command: u32,
        query: Q,
        budget: u32,
        mode: Mode,
        revision: u64,
        outcome: Outcome,
    },
}

impl<Q> Told<Q> {
    /// Which command of its client it is, from 1. It takes no memory.
    pub fn command(&self) -> u32
        ensures { result ≡ command_of self.now }
    {
        match self {
            Told::Committed { command, .. } => *command,
            Told::Asked { command, .. } => *command,
        }
    }

    /// The largest revision that the client was told of with it. It takes no memory.
    pub fn named(&self) -> u64
        ensures { result ≡ named self.now }
    {
        match self {
            Told::Committed { commit, .. } => match commit {
                Commit::Accepted { r } => *r,
                Commit::Refused { r, .. } => *r,
                Commit::Full => 0,
            },
            Told::Asked {
                revision,
                outcome,
                ..
            } => match outcome {
                Outcome::Answered(_) => *revision,
                Outcome::Spent { .. } => *revision,
                Outcome::Cancelled { newer, .. } => *newer,
            },
        }
    }
}

//! How answers spell what commits and asks are told.
use std::fmt::Write;
use sve_bytes::NoMemory;
use sve_core::{Commit, Outcome};
use sve_row::spell;
use sve_text::Why;

/// Adds what a commit was told.
pub fn show_commit(out: &mut String, commit: Commit) -> Result<(), NoMemory> {
    match commit {
        Commit::Accepted { r } => write!(out, "accepted {r}"),
        Commit::Refused { r, edit, why } => {
            write!(out, "refused {r} {edit} ")?;
            show_why(out, why)
        }
        Commit::Full => out.push_str("full"),
    }
}

fn show_why(out: &mut String, why: Why) -> Result<(), NoMemory> {
    match why {
        Why::NoFile => out.push_str("no file"),
        Why::Stale { stamp } => write!(out, "stale {stamp}"),
        Why::Range { length } => write!(out, "range {length}"),
        Why::FileTooLarge { bytes } => write!(out, "file too large {bytes}"),
        Why::TooManyFiles => out.push_str("too many files"),
    }
}

/// Adds what an ask was told, with the lines of its answer.
pub fn show_outcome(out: &mut String, outcome: &Outcome) -> Result<(), NoMemory> {
    match outcome {
        Outcome::Answered(lines) => {
            out.push_str("answered")?;
            for line in lines.items() {
                out.push_str(" '")?;
                spell(out, line.items())?;
                out.push('\'')?;
            }
            Ok(())
        }
        Outcome::Spent { budget } => write!(out, "spent {budget}"),
        Outcome::Cancelled { base, newer } => write!(out, "cancelled {base} {newer}"),
    }
}

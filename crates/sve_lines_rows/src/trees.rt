//! Rows of the lines of all instances.
//!
//! - `tree BUDGET | TOPS | BODY | ..`: the lines of the answer, or `spent`.
//! - `end BUDGET | TOPS | BODY | ..`: how many lines these are, and the last.
use crate::shown::{Shown, shown_lines};
use std::alloc::Global;
use sve_design::{Walk, walk};
use sve_listed::{Unread, parted};
use sve_row::offset_of;
use sve_tree_lines::tree_lines;

/// The answer to a row `tree` or `end`.
pub fn tree_row(alloc: Global, row: &str, shown: Shown) -> Result<String, Unread> {
    let (budget, mut bodies) = parted(alloc, row)?;
    let budget = offset_of(budget).ok_or(Unread::NoForm)?;
    match walk(alloc, &mut bodies, budget)? {
        Walk::Done(visits) => {
            let lines = tree_lines(alloc, visits.items())?;
            Ok(shown_lines(alloc, lines, shown)?)
        }
        Walk::Spent => Ok(String::from_str(alloc, "spent")?),
    }
}

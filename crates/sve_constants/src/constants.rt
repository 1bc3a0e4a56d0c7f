//! Rows of constant expressions.
//!
//! - `value NAMES ; CONTEXT ; EXPRESSION`: the expression among names, as `sve_given` says them. The context is the width of what it is
//!   assigned to and, where that is signed, an `s`; or nothing.
//! - The answer is the size and the sign of the expression by itself, its value, and behind ` | ` the count of its nodes; or what is
//!   said of its first fault, with the number of its token, counted from 0, and the count; `silent` where nothing is said.
//! - `most N ; EXPRESSION`: the same where N nodes may be evaluated; `over` where there are more.
//! - `deep N FRONT / OPEN / MIDDLE / CLOSE / BACK`: the expression that has OPEN and CLOSE N times each.
//! - `casts N MOST`: a nest of N casts, the size of each of which is the cast before it, where MOST nodes may be evaluated.
use crate::nest::nest;
use crate::outcome::{outcome, tree_outcome};
use std::alloc::Global;
use sve_bytes::NoMemory;
use sve_given::entries;
use sve_row::{Table, width_of, word};
use sve_show::{cut, deep_text};

/// The rows of constants.
#[derive(Clone, Copy)]
pub struct Constants;

impl Table for Constants {
    fn answer(&self, alloc: Global, kind: &str, row: &str) -> Result<Option<String>, NoMemory> {
        match kind {
            "value" => value_row(alloc, row),
            "most" => most_row(alloc, row),
            "deep" => deep_row(alloc, row),
            "casts" => casts_row(alloc, row),
            _ => Ok(None),
        }
    }
}

/// An expression among names.
fn value_row(alloc: Global, row: &str) -> Result<Option<String>, NoMemory> {
    let (names, rest) = cut(row, ';');
    let (context, text) = cut(rest, ';');
    let names = entries(alloc, names)?;
    let context = context.trim();
    let signed = context.ends_with('s');
    match width_of(context.trim_end_matches('s')) {
        None => outcome(alloc, names.as_slice(), None, text, u64::MAX),
        Some(width) => outcome(
            alloc,
            names.as_slice(),
            Some((width, signed)),
            text,
            u64::MAX,
        ),
    }
}

/// An expression where so many nodes may be evaluated.
fn most_row(alloc: Global, row: &str) -> Result<Option<String>, NoMemory> {
    let (most, text) = cut(row, ';');
    match most.trim().parse::<u64>() {
        Ok(most) => outcome(alloc, &[], None, text, most),
        Err(_) => Ok(None),
    }
}

/// A long or deep expression.
fn deep_row(alloc: Global, row: &str) -> Result<Option<String>, NoMemory> {
    match deep_text(alloc, row)? {
        Some(text) => outcome(alloc, &[], None, text.as_str(), u64::MAX),
        None => Ok(None),
    }
}

/// A nest of casts.
fn casts_row(alloc: Global, row: &str) -> Result<Option<String>, NoMemory> {
    let (times, most) = word(row);
    let Ok(times) = times.parse::<u32>() else {
        return Ok(None);
    };
    let Ok(most) = most.parse::<u64>() else {
        return Ok(None);
    };
    tree_outcome(alloc, &nest(alloc, times)?, "3", most)
}

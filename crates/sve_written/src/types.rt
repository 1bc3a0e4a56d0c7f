//! Rows of written types.
//!
//! - `type NAMES ; TYPE`: the type among names, as `sve_given` says them. The answer is the type as it is printed, what is said of it
//!   behind ` / ` each, with the number of the token, counted from 0, and behind ` | ` the count of its nodes.
//! - `declared NAMES ; TYPE NAME DIMENSIONS`: that of a declared name, whose type may be left out, with its unpacked dimensions.
//! - `most N ; TYPE`: the same as `type` where N nodes may be evaluated; `over` where there are more.
//! - `deep N FRONT / OPEN / MIDDLE / CLOSE / BACK`: the type that has OPEN and CLOSE N times each. The answer is how many bytes its
//!   print has, and of how many faults it is said.
use crate::outcome::{Ask, outcome};
use std::alloc::Global;
use sve_bytes::NoMemory;
use sve_given::entries;
use sve_row::Table;
use sve_show::{cut, deep_text};

/// The rows of types.
#[derive(Clone, Copy)]
pub struct Types;

impl Table for Types {
    fn answer(&self, alloc: Global, kind: &str, row: &str) -> Result<Option<String>, NoMemory> {
        match kind {
            "type" => among(alloc, row, Ask::Type),
            "declared" => among(alloc, row, Ask::Declared),
            "most" => most_row(alloc, row),
            "deep" => deep_row(alloc, row),
            _ => Ok(None),
        }
    }
}

/// A type among names.
fn among(alloc: Global, row: &str, ask: Ask) -> Result<Option<String>, NoMemory> {
    let (names, text) = cut(row, ';');
    let names = entries(alloc, names)?;
    outcome(alloc, names.as_slice(), ask, text, u64::MAX)
}

/// A type where so many nodes may be evaluated.
fn most_row(alloc: Global, row: &str) -> Result<Option<String>, NoMemory> {
    let (most, text) = cut(row, ';');
    match most.trim().parse::<u64>() {
        Ok(most) => outcome(alloc, &[], Ask::Type, text, most),
        Err(_) => Ok(None),
    }
}

/// A long or deep type.
fn deep_row(alloc: Global, row: &str) -> Result<Option<String>, NoMemory> {
    match deep_text(alloc, row)? {
        Some(text) => outcome(alloc, &[], Ask::Length, text.as_str(), u64::MAX),
        None => Ok(None),
    }
}

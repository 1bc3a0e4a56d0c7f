//! The answer to a row.
use crate::{expansions, heads};
use std::alloc::Global;
use sve_bytes::NoMemory;
use sve_row::Table;

/// The rows of texts that the preprocessor reads.
#[derive(Clone, Copy)]
pub struct Sources;

impl Table for Sources {
    fn answer(&self, alloc: Global, kind: &str, row: &str) -> Result<Option<String>, NoMemory> {
        match kind {
            "expand" => expansions::expand_row(alloc, row),
            "size" => expansions::size_row(alloc, row),
            "origins" => expansions::origins_row(alloc, row),
            "asked" => expansions::asked_row(alloc, row),
            "head" => heads::head_row(alloc, row),
            "copied" => heads::copied_row(alloc, row),
            "conditional" => heads::conditional_row(alloc, row),
            _ => Ok(None),
        }
    }
}

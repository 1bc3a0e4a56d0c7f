//! The answer to a row.
use crate::{diagnostics, ends, names, origins, words};
use std::alloc::Global;
use sve_bytes::NoMemory;
use sve_row::Table;

/// The rows of the layers below the parsers.
#[derive(Clone, Copy)]
pub struct Layers;

impl Table for Layers {
    fn answer(&self, alloc: Global, kind: &str, row: &str) -> Result<Option<String>, NoMemory> {
        match kind {
            "name" => names::name_row(alloc, row),
            "order" => names::order_row(alloc, row),
            "file" => names::file_row(alloc, row),
            "path" => names::path_row(alloc, row),
            "line" => names::line_row(alloc, row),
            "keyword" => words::keyword_row(alloc, row),
            "keywords" => words::keywords_row(alloc),
            "operators" => words::operators_row(alloc, row),
            "diag" => diagnostics::diag_row(alloc, row),
            "sorted" => diagnostics::sorted_row(alloc, row),
            "pieces" => origins::pieces_row(alloc, row),
            "source" => ends::source_row(alloc, row),
            "sure" => ends::sure_row(alloc, row),
            "sink" => ends::sink_row(alloc, row),
            _ => Ok(None),
        }
    }
}

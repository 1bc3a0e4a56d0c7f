//! A table of rows of designs. Each line of the input is answered by one line: the line itself, `=>`, and what came of it. A line
//! with nothing on it, or that begins with `#`, is answered by itself. `no such row` is the answer to a line of no form.
//!
//! Fields of bytes are spelled as `sve_row` says, in answers too, bodies are written as `sve_listed` says, with the tops in the field
//! before the first. Where a row has several fields, ` | ` parts them.
#![tactic(auto)]

mod finds;
mod names;
mod surveys;
mod walks;

use finds::find_row;
use names::{instances_row, resolve_row};
use std::alloc::Global;
use std::io;
use surveys::{lint_row, notes_row};
use sve_bytes::NoMemory;
use sve_listed::answer_of;
use sve_row::{Table, answer_lines};
use walks::{count_row, walk_row};

/// The rows of designs.
#[derive(Clone, Copy)]
struct Designs;

impl Table for Designs {
    fn answer(&self, alloc: Global, kind: &str, row: &str) -> Result<Option<String>, NoMemory> {
        match kind {
            "walk" => answer_of(walk_row(alloc, row)),
            "count" => answer_of(count_row(alloc, row)),
            "notes" => answer_of(notes_row(alloc, row)),
            "lint" => answer_of(lint_row(alloc, row)),
            "find" => answer_of(find_row(alloc, row)),
            "instances" => answer_of(instances_row(alloc, row)),
            "resolve" => answer_of(resolve_row(alloc, row)),
            _ => Ok(None),
        }
    }
}

fn main(rt: HostRuntime) -> io::Result<()> {
    answer_lines(&rt, &Designs)
}

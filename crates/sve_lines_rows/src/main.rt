//! A table of rows of the lines of answers about designs, and of lint. Each line of the input is answered by one line: the line itself, `=>`, and
//! what came of it. A line with nothing on it, or that begins with `#`, is answered by itself. `no such row` is the answer to a line of
//! no form.
//!
//! Fields of bytes are spelled as `sve_row` says, in answers too, bodies and things are written as `sve_listed` says. Where a row has
//! several fields, ` | ` parts them.
#![tactic(auto)]

mod lines;
mod lint;
mod shown;
mod trees;

use lines::{instance_row, param_row, type_row};
use lint::lint_row;
use shown::Shown;
use std::alloc::Global;
use std::io;
use sve_bytes::NoMemory;
use sve_listed::answer_of;
use sve_row::{Table, answer_lines};
use trees::tree_row;

/// The rows of lines.
#[derive(Clone, Copy)]
struct Answers;

impl Table for Answers {
    fn answer(&self, alloc: Global, kind: &str, row: &str) -> Result<Option<String>, NoMemory> {
        match kind {
            "tree" => answer_of(tree_row(alloc, row, Shown::All)),
            "end" => answer_of(tree_row(alloc, row, Shown::Last)),
            "instance" => answer_of(instance_row(alloc, row, Shown::All)),
            "last" => answer_of(instance_row(alloc, row, Shown::Last)),
            "type" => answer_of(type_row(alloc, row)),
            "param" => answer_of(param_row(alloc, row)),
            "lint" => answer_of(lint_row(alloc, row)),
            _ => Ok(None),
        }
    }
}

fn main(rt: HostRuntime) -> io::Result<()> {
    answer_lines(&rt, &Answers)
}

//! A table of texts of statements, functions, items and whole chunks, read by their parsers. Each line of the input is answered
//! by one line: the line itself, `=>`, and what came of it.
//!
//! - `stmt TEXT` and likewise `function` and `item` read the part of the language from the head of the text, at depth 0. The
//!   answer is the tree as text, as `sve_show_items` says, and, where the parser left tokens over, `rest at N`, with the number
//!   of the next token, counted from 0; or `stop at N`, with ` deep` where only the depth stands against going on.
//! - `chunk TEXT` reads the whole text as a chunk.
//! - `deep PART N FRONT / OPEN / MIDDLE / CLOSE / BACK` reads, on a thread that has a stack of 8 MiB, the text that has OPEN
//!   and CLOSE N times each, and answers `accept` in place of a tree.
//! - A line with nothing on it, or that begins with `#`, is answered by itself.
//!
//! All tokens of a tree's text come from the tree, by their numbers; where these are not the numbers from the first to the
//! last, or a word is spelled otherwise than the tree says, the answer ends with `out of order`. What the grammar's machine
//! says of each text, in a chunk that holds it, is in the table of `sve_machine`.
#![tactic(auto)]

mod answering;
mod reading;

use answering::answered;
use std::alloc::Global;
use std::io;
use std::io::Write;
use std::thread::{Builder, Threads};
use sve_row::{Lines, write_line, write_lines};

/// How much stack the thread of a deep text has, in bytes: 8 MiB, as a thread has by itself where nothing else is set.
const STACK: usize = 8 << 20;

/// The line with its answer, found on a thread of its own.
fn answered_apart(rt: &impl Threads, alloc: Global, line: String) -> io::Result<String> {
    let builder = Builder::new().stack_size(STACK);
    let child = builder.spawn(rt, move || answered(alloc, line.as_str()))?;
    Ok(child.join(rt)?)
}

/// The lines of the table, each with its answer.
#[derive(Drop)]
struct Texts<'a, R> {
    rt: &'a R,
}

impl<R: Threads> Lines for Texts<'_, R> {
    fn write<W: Write>(&self, alloc: Global, line: &str, out: &mut W) -> io::Result<()> {
        if line.starts_with("deep ") {
            let text = answered_apart(self.rt, alloc, String::from_str(alloc, line)?)?;
            return write_line(out, text.as_str());
        }
        write_line(out, answered(alloc, line)?.as_str())
    }
}

fn main(rt: HostRuntime) -> io::Result<()> {
    write_lines(&rt, &Texts { rt: &rt })
}

//! A table of rows of written types: the types that they are, what is wrong with them, and how many nodes they have. Each line of the
//! input is answered by one line: the line itself, `=>`, and what came of it. A line with nothing on it, or that begins with `#`, is
//! answered by itself. `no such row` is the answer to a line of no form.
#![tactic(auto)]

mod outcome;
mod types;

use std::io;
use sve_row::answer_lines;
use types::Types;

fn main(rt: HostRuntime) -> io::Result<()> {
    answer_lines(&rt, &Types)
}

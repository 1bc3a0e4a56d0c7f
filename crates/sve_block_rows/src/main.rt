//! A table of rows of generate blocks. Each line of the input is answered by one line: the line itself, `=>`, and what came of it. A
//! line with nothing on it, or that begins with `#`, is answered by itself. `no such row` is the answer to a line of no form.
//!
//! Fields of bytes are spelled as `sve_row` says, in answers too. Where a row has several of them, ` | ` parts them.
#![tactic(auto)]

mod blocks;
mod reading;

use blocks::Blocks;
use std::io;
use sve_row::answer_lines;

fn main(rt: HostRuntime) -> io::Result<()> {
    answer_lines(&rt, &Blocks)
}

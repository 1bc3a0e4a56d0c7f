//! A table of rows of asks for keys that are computed one from another, over memos. Each line of the input is answered by one line: the
//! line itself, `=>`, and what came of it. A line with nothing on it, or that begins with `#`, is answered by itself. `no such row` is
//! the answer to a line of no form.
#![tactic(auto)]

mod asks;
mod kinds;
mod rows;
mod watch;

use rows::Keys;
use std::io;
use sve_row::answer_lines;

fn main(rt: HostRuntime) -> io::Result<()> {
    answer_lines(&rt, &Keys)
}

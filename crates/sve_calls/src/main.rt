//! A table of rows of the calls of a session with two clients, made one after another. Each line of the input is answered by one
//! line: the line itself, `=>`, and what came of it. A line with nothing on it, or that begins with `#`, is answered by itself.
//! `no such row` is the answer to a line of no form.
#![tactic(auto)]

mod asking;
mod calls;
mod committing;
mod running;

use calls::Calls;
use std::io;
use sve_row::answer_lines;

fn main(rt: HostRuntime) -> io::Result<()> {
    answer_lines(&rt, &Calls { rt: &rt })
}

//! A table of rows of the names that the statements and continuous assignments of a module use. Each line of the input is answered by one
//! line: the line itself, `=>`, and what came of it. A line with nothing on it, or that begins with `#`, is answered by itself.
//! `no such row` is the answer to a line of no form.
//!
//! - `uses TEXT`: what the continuous assignments, the procedures and the functions of a module or an interface come to, in the order of
//!   the text. A name that is used stands for itself, with its package in front; `()` behind it says that it is called, `.` that a member
//!   stands behind it. `{N` is a scope that begins with token N, and `}` its end. A declaration is its kind, `@`, and the number of its
//!   first token; that of loop variables has the first token of each.
//!
//! Texts are spelled as `sve_row` says, in answers too.
#![tactic(auto)]

mod shown;
mod uses;

use std::io;
use sve_row::answer_lines;
use uses::Uses;

fn main(rt: HostRuntime) -> io::Result<()> {
    answer_lines(&rt, &Uses)
}

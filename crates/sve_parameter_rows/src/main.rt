//! A table of rows of parameters: what overrides give them, and their final types and values.
//! Each line of the input is answered by one line: the line itself, `=>`, and what came of it. A line with nothing on it, or that begins
//! with `#`, is answered by itself. `no such row` is the answer to a line of no form.
//!
//! - `give MODULE | OVERRIDES`: what overrides give the parameters of a module. Each is a word `NAME=VALUE`, or `=VALUE` by order; the
//!   value is bits as they are printed, a string in quotes, `bad` for one of which something was said, and nothing for one without an
//!   expression. Their tokens count from 100, and the instance has token 99. The answer is what each parameter is given, and what is
//!   said behind ` / ` each.
//! - `resolve MODULE | OVERRIDES | NAMES | MOST`: the parameters of the header by what the overrides give, among names, as `sve_given`
//!   says them. The answer is each parameter with its type and its value, where it has them, what is said, and behind ` | ` the count
//!   of nodes; `over` where it passes the most.
#![tactic(auto)]

mod overrides;
mod parameters;
mod rows;

use rows::Parameters;
use std::io;
use sve_row::answer_lines;

fn main(rt: HostRuntime) -> io::Result<()> {
    answer_lines(&rt, &Parameters)
}

//! A table of rows of schedules. Each line of the input is answered by one line: the line itself, `=>`, and what came of it. A line
//! with nothing on it, or that begins with `#`, is answered by itself. `no such row` is the answer to a line of no form.
#![tactic(auto)]

mod reading;
mod schedules;
mod showing;

use schedules::Schedules;
use std::io;
use sve_row::answer_lines;

fn main(rt: HostRuntime) -> io::Result<()> {
    answer_lines(&rt, &Schedules)
}

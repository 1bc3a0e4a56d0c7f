//! A table of rows of the ports of headers. Each line of the input is answered by one line: the line itself, `=>`, and what came of it. A
//! line with nothing on it, or that begins with `#`, is answered by itself. `no such row` is the answer to a line of no form.
//!
//! - `ports MODULE | NAMES | MOST`: the ports of a module among names, as `sve_given` says them, where each name that ends in `f` is an
//!   interface, and each that ends in `d` a module. The answer is the ports, what is said behind ` / ` each, and behind ` | ` the count of
//!   nodes; `over` where it passes the most.
#![tactic(auto)]

mod ports;

use ports::Ports;
use std::io;
use sve_row::answer_lines;

fn main(rt: HostRuntime) -> io::Result<()> {
    answer_lines(&rt, &Ports)
}

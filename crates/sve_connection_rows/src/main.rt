//! A table of rows of connections: how an instance connects the ports of a module.
//! Each line of the input is answered by one line: the line itself, `=>`, and what came of it. A line with nothing on it, or that begins
//! with `#`, is answered by itself. `no such row` is the answer to a line of no form.
//!
//! - `connect MODULE | NAMES | ARGUMENTS`: how the arguments connect the ports of a module among names: `NAME:TYPE` is a variable of a type,
//!   `NAME@INTERFACE` an instance of an interface, and `NAME!` a genvar. Each interface of a port has a name that ends in `f`. The tokens
//!   are those of `module t; u i (ARGUMENTS); endmodule`. The answer is the pairs of a port and the place of its argument, `open` with the
//!   ports that are connected to nothing, `nets` with the names that declare nets and their tokens, and what is said; the instance has
//!   token 4.
#![tactic(auto)]

mod around;
mod connections;
mod rows;

use rows::Connections;
use std::io;
use sve_row::answer_lines;

fn main(rt: HostRuntime) -> io::Result<()> {
    answer_lines(&rt, &Connections)
}

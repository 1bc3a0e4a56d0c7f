//! A table of rows of bodies. Each line of the input is written as it is, and below a row stands what came of it, a line for each thing, behind
//! two blanks. A line with nothing on it, or that begins with `#`, stands alone, and below a line of no form stands `no such row`.
//!
//! A row is `body NAME`, and behind ` | ` each the chunks of a file: modules, interfaces and packages, and items of the compilation unit's scope.
//! The body of the first module or interface of the name is elaborated. Behind the name may stand `#(..)` with what its parameters are given,
//! parted by commas: `-` for nothing, `?` for what is wrong, a string in quotes, or bits as they are printed; then for each interface port
//! `.PORT(INTERFACE)` or `.PORT(INTERFACE.MODPORT)` with what it is given; then `most N` for a cost that is allowed; then `none N`, from which
//! token of its chunk on the default net type is `none`.
//!
//! The answer is `over`, or begins with `cost N`. Then come the scopes with their paths, each with what it declares below, behind four
//! blanks: the name, what it is, its type, and of a constant its value, with `?` for what there is none of. Then parameters that an instance
//! may override, ports, instances with what their parameters and their interface ports are given, and behind `open` their ports that are connected to nothing, and nets
//! that their uses declare; at last what is said, with the number of the token, in front of which that of the chunk stands where it is another.
#![tactic(auto)]

mod asked;
mod bodies;
mod found;
mod things;

use bodies::Bodies;
use std::io;
use sve_row::write_lines;

fn main(rt: HostRuntime) -> io::Result<()> {
    write_lines(&rt, &Bodies)
}

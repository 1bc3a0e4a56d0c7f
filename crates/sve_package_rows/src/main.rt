//! A table of rows of packages. Each line of the input is answered by one line: the line itself, `=>`, and what came of it. A line with
//! nothing on it, or that begins with `#`, is answered by itself, and a line of no form by `no such row`.
//!
//! A row is `packages` and the chunks of a file, parted by ` | `. Each may have items of the compilation unit's scope, and a package
//! behind them. The packages, of which no two have one name, are found in the order of their rounds, and so each is known to all others,
//! wherever they stand. `see NAME` in place of a chunk asks what the name stands for behind the chunks in front of it, outside of all
//! packages.
//!
//! For each chunk the answer tells what its package declares, parted by ` ; `, as `p{A:int=32'sd1 ; t:type logic [7:0]}`: a constant with
//! its type and its value, or `?` where it has none, a type, a function with the type of its result; and `p` alone where it is on a cycle
//! of imports, or leads to one. Then it tells what is said, as `N05 at 2:7 x`, with the numbers of the chunk and of the token in it. The
//! scope of the compilation unit is told as that of `$unit`, with all that is said of it so far, behind each chunk that has items of it. A
//! chunk with neither is told as `nothing`.
#![tactic(auto)]

mod packages;
mod said;

use packages::Packages;
use std::io;
use sve_row::answer_lines;

fn main(rt: HostRuntime) -> io::Result<()> {
    answer_lines(&rt, &Packages)
}

//! A table of whole sessions, each read, run and written in memory. A line of the input is one run, and is answered by
//! itself, by `=>` with the exit status, and by the lines that the sink holds, each behind two blanks. Where the last of
//! these is cut short, `(cut short)` follows. A line with nothing on it, or that begins with `#`, is answered by itself.
//!
//! - `run | SESSION` has the words of the command line before the first bar, and the bytes of the source behind it. The
//!   source gives 8 bytes a call, and the sink takes 16.
//! - Among the words `read!N` lets call N of the source fail, counted from 1, and `write!N` call N of the sink; each may stand
//!   several times.
//! - With the word `schedule!any` only that is told which no schedule of the clients changes: how long the history is, and for
//!   each client the lines of texts that it was answered.
//! - `hold!PLACE>PLACE` holds whoever comes to the first place until somebody has come to the second one; it may stand several
//!   times. A place is `b` or `a`, a client, a point and a command, as `b1.2`: before the work of the ask, or after it.
//!   `held too long` follows the exit status where a client was held for a billion turns.
//! - `count!N` hands in N lint rules more, behind those of the program, which find nothing; `dropped` and how often each of them
//!   was follows the exit status.
//! - `run repeat!N | FRONT | UNIT | BETWEEN | BACK` has as its bytes FRONT, then N times UNIT with BETWEEN between them, then
//!   BACK, each without the blanks round it. `#` in UNIT stands for the number of the turn, from 0. Both ends then move
//!   65,536 bytes a call, and where the sink holds more than one line, only their number is told.
//! - `%` and two hexadecimal digits stand for the byte with that number.
#![tactic(auto)]

mod counting;
mod gate;
mod row;
mod running;

use row::row_of;
use running::write_run;
use std::io;
use std::io::{BufRead, BufReader, BufWriter, Write};

fn main(rt: HostRuntime) -> io::Result<()> {
    let alloc = rt.alloc();
    let mut out = BufWriter::new(alloc, io::writer(&rt))?;
    for line in BufReader::new(alloc, rt.reader())?.lines(alloc) {
        let line = line?;
        writeln!(out, "{line}")?;
        if !line.is_empty() && !line.starts_with('#') {
            write_run(&rt, alloc, row_of(alloc, line.as_str())?, &mut out)?;
        }
    }
    out.flush()
}

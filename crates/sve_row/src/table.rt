//! A table of rows: what its program reads, and what it writes.
use crate::fields::word;
use std::alloc::Global;
use std::io;
use std::io::{BufRead, BufReader, BufWriter, Write};
use sve_bytes::NoMemory;

/// The rows that a program answers.
pub trait Table {
    /// What comes of a row of this kind, or nothing where there is no such row.
    fn answer(&self, alloc: Global, kind: &str, row: &str) -> Result<Option<String>, NoMemory>;
}

/// Adds the answer to a line behind `=>`. One of no form is answered by `no such row`.
fn add_answer<T: Table>(
    alloc: Global,
    table: &T,
    line: &str,
    out: &mut String,
) -> Result<(), NoMemory> {
    let (kind, row) = word(line);
    out.push_str(" => ")?;
    match table.answer(alloc, kind, row)? {
        Some(answer) => out.push_str(answer.as_str()),
        None => out.push_str("no such row"),
    }
}

/// The line with its answer. A line that begins with `#`, or has nothing on it, stands for itself.
fn answered<T: Table>(alloc: Global, table: &T, line: &str) -> Result<String, NoMemory> {
    let mut out = String::from_str(alloc, line)?;
    if !line.is_empty() && !line.starts_with('#') {
        add_answer(alloc, table, line, &mut out)?;
    }
    Ok(out)
}

/// What a program writes for each line that it reads.
pub trait Lines {
    /// Writes what comes of a line.
    fn write<W: Write>(&self, alloc: Global, line: &str, out: &mut W) -> io::Result<()>;
}

/// The lines of a table, each with its answer.
#[derive(Drop)]
struct Rows<'a, T> {
    table: &'a T,
}

impl<T: Table> Lines for Rows<'_, T> {
    fn write<W: Write>(&self, alloc: Global, line: &str, out: &mut W) -> io::Result<()> {
        let text = answered(alloc, self.table, line)?;
        write_line(out, text.as_str())
    }
}

/// Writes a line of this text.
pub fn write_line<W: Write>(out: &mut W, text: &str) -> io::Result<()> {
    out.write_all(text.as_bytes())?;
    out.write_all(b"\n")
}

/// Writes what comes of each line of a source.
fn write_each<L: Lines, B: BufRead + Drop, W: Write>(
    alloc: Global,
    lines: &L,
    source: B,
    out: &mut W,
) -> io::Result<()> {
    for line in source.lines(alloc) {
        lines.write(alloc, line?.as_str(), out)?;
    }
    Ok(())
}

/// Writes what comes of each line of the input.
fn write_input<L: Lines, R: Input, W: Write>(
    rt: &R,
    alloc: Global,
    lines: &L,
    out: &mut W,
) -> io::Result<()> {
    let source = BufReader::new(alloc, rt.reader())?;
    write_each(alloc, lines, source, out)
}

/// Reads the input line by line, and writes to the output what comes of each.
pub fn write_lines<L: Lines, R: Input + Print + AllocGlobal>(rt: &R, lines: &L) -> io::Result<()> {
    let alloc = rt.alloc();
    let mut out = BufWriter::new(alloc, io::writer(rt))?;
    write_input(rt, alloc, lines, &mut out)?;
    out.flush()
}

/// Answers each line of the input by one line of the output.
pub fn answer_lines<T: Table, R: Input + Print + AllocGlobal>(rt: &R, table: &T) -> io::Result<()> {
    write_lines(rt, &Rows { table })
}

//! The runs of the table.
use crate::counting::{Counting, counts};
use crate::gate::Holding;
use crate::row::Row;
use std::alloc::{AllocError, Global};
use std::io;
use std::io::Write;
use std::sync::atomic::{AtomicU64, Ordering};
use std::sync::{Arc, Wait};
use std::thread::Threads;
use sve_io::{MemSink, MemSource};
use sve_lint::{Deep, Rule, Unconnected};
use sve_serve::{Status, exit_code, serve};

/// The most bytes that a sink takes.
const ROOM: usize = 4_194_304;

/// Runs with these words over this source and this sink, with the rules of the program, and behind them with one for each of
/// these counts.
fn serve_with<R: Threads + Wait + Sync>(
    rt: &R,
    alloc: Global,
    words: &[String],
    source: &mut MemSource,
    sink: &mut MemSink,
    counts: &[Arc<AtomicU64>],
    gate: &Holding,
) -> Result<Status, AllocError> {
    let mut rules: Vec<Box<dyn Rule>> = Vec::new(alloc);
    rules.push(Box::new(alloc, Unconnected::new(alloc))?)?;
    rules.push(Box::new(alloc, Deep::new(alloc))?)?;
    for count in counts {
        rules.push(Box::new(alloc, Counting::new(Arc::try_clone(count)?))?)?;
    }
    Ok(serve(rt, alloc, words, source, sink, rules, gate))
}

/// Runs the row, and writes its exit status and what its sink holds.
pub fn write_run<R: Threads + Wait + Sync, W: Write>(
    rt: &R,
    alloc: Global,
    row: Row,
    out: &mut W,
) -> io::Result<()> {
    let is_long = row.times.is_some();
    let is_free = row.is_free;
    let (reads, writes) = if is_long { (65_536, 65_536) } else { (8, 16) };
    let gate = Holding::new(row.holds);
    let counts = counts(alloc, row.counting)?;
    let mut source = MemSource::new(row.bytes, reads, row.failing_reads);
    let mut sink = MemSink::new(alloc, writes, row.failing_writes, ROOM)?;
    let status = serve_with(
        rt,
        alloc,
        &row.words,
        &mut source,
        &mut sink,
        &counts,
        &gate,
    )?;
    writeln!(out, "=> {}", exit_code(status))?;
    write_drops(&counts, out)?;
    if gate.was_late() {
        writeln!(out, "  held too long")?;
    }
    let lines = sink.held().iter().filter(|b| **b == b'\n').count();
    if is_long && lines > 1 {
        writeln!(out, "  {lines} lines")
    } else if is_free {
        write_texts(sink.held(), out)
    } else {
        write_held(sink.held(), out)
    }
}

/// Writes how often each rule was dropped that counts it, where there is one.
fn write_drops<W: Write>(counts: &[Arc<AtomicU64>], out: &mut W) -> io::Result<()> {
    if counts.is_empty() {
        return Ok(());
    }
    out.write_all(b"  dropped")?;
    for count in counts {
        write!(out, " {}", count.load(Ordering::SeqCst))?;
    }
    out.write_all(b"\n")
}

/// Writes what a report says whatever the schedule was: how long the history is, and for each client the lines of texts
/// that it was answered, each behind two blanks.
fn write_texts<W: Write>(held: &[u8], out: &mut W) -> io::Result<()> {
    for line in held.split_inclusive(|b| *b == b'\n') {
        if line.starts_with(b"history ") || line.starts_with(b"client ") || line.starts_with(b"|") {
            out.write_all(b"  ")?;
            out.write_all(line)?;
        }
    }
    Ok(())
}

/// Writes what a sink holds, each line behind two blanks.
fn write_held<W: Write>(held: &[u8], out: &mut W) -> io::Result<()> {
    for line in held.split_inclusive(|b| *b == b'\n') {
        out.write_all(b"  ")?;
        out.write_all(line)?;
    }
    match held.last() {
        None | Some(b'\n') => Ok(()),
        Some(_) => out.write_all(b" (cut short)\n"),
    }
}

//! Rows of sources and sinks in memory.
//!
//! - `source MOST FAILING BYTES | ROOM ROOM ..`: what each read with so much room answers, of at most 8 bytes, and what the room
//!   then holds, which `.` filled before. MOST is how many bytes a call gives at most, FAILING are the calls that fail, from 0,
//!   with commas between them, or `-`.
//! - `sure BYTES | ROOM ROOM ..`: the same of a source that never fails.
//! - `sink MOST FAILING ROOM | PIECE | PIECE ..`: what each write answers, and what the sink then holds.
use std::alloc::Global;
use sve_bytes::NoMemory;
use sve_io::{Got, MemSink, MemSource, Sink, Source, SureSource};
use sve_row::{add_number, decoded, field, fields_of, number_of, parts_of, spell, word, words_of};

/// The numbers of the calls that fail.
fn failing_of(alloc: Global, numbers: &str) -> Result<Vec<u64>, NoMemory> {
    let mut failing = Vec::new(alloc);
    for number in &parts_of(alloc, numbers, ",")? {
        if let Some(number) = number_of(number) {
            failing.push(number as u64)?;
        }
    }
    Ok(failing)
}

/// Adds what a read with so much room answers.
fn add_read<S: Source>(out: &mut String, source: &mut S, room: usize) -> Result<(), NoMemory> {
    let mut buffer = *b"........";
    let room = room.min(buffer.len());
    match source.read(&mut buffer[..room]) {
        Got::Bytes(count) => {
            add_number(out, count)?;
            out.push(' ')?;
        }
        Got::End => out.push_str("end ")?,
        Got::Failed => out.push_str("failed ")?,
    }
    spell(out, buffer.as_slice())
}

/// What reads with so much room answer.
fn reads<S: Source>(alloc: Global, source: &mut S, rooms: &str) -> Result<String, NoMemory> {
    let mut out = String::new(alloc);
    for room in &words_of(alloc, rooms)? {
        if !out.is_empty() {
            out.push_str(", ")?;
        }
        add_read(&mut out, source, number_of(room).unwrap_or(0))?;
    }
    Ok(out)
}

/// The answer to a row `source`.
pub fn source_row(alloc: Global, row: &str) -> Result<Option<String>, NoMemory> {
    let (ways, rooms) = field(row);
    let (most, ways) = word(ways);
    let (failing, bytes) = word(ways);
    let most = number_of(most).unwrap_or(0);
    if most == 0 {
        return Ok(None);
    }
    let failing = failing_of(alloc, failing)?;
    let mut source = MemSource::new(decoded(alloc, bytes)?, most, failing);
    Ok(Some(reads(alloc, &mut source, rooms)?))
}

/// The answer to a row `sure`.
pub fn sure_row(alloc: Global, row: &str) -> Result<Option<String>, NoMemory> {
    let (bytes, rooms) = field(row);
    let mut source = SureSource::new(decoded(alloc, bytes)?);
    Ok(Some(reads(alloc, &mut source, rooms)?))
}

/// Adds what a write of these bytes answers.
fn add_write(out: &mut String, sink: &mut MemSink, piece: &[u8]) -> Result<(), NoMemory> {
    match sink.write(piece) {
        Ok(count) => {
            add_number(out, count)?;
            out.push(' ')?;
        }
        Err(_) => out.push_str("failed ")?,
    }
    spell(out, sink.held())
}

/// The answer to a row `sink`.
pub fn sink_row(alloc: Global, row: &str) -> Result<Option<String>, NoMemory> {
    let (ways, pieces) = field(row);
    let (most, ways) = word(ways);
    let (failing, room) = word(ways);
    let most = number_of(most).unwrap_or(0);
    let room = number_of(room).unwrap_or(0);
    if most == 0 || room > 1_000 {
        return Ok(None);
    }
    let failing = failing_of(alloc, failing)?;
    let mut sink = MemSink::new(alloc, most, failing, room)?;
    let mut out = String::new(alloc);
    for piece in &fields_of(alloc, pieces)? {
        if !out.is_empty() {
            out.push_str(", ")?;
        }
        add_write(&mut out, &mut sink, &decoded(alloc, piece)?)?;
    }
    Ok(Some(out))
}

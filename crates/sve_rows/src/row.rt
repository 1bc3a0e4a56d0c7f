//! The lines of the table: what they run, and who is held.
use crate::gate::Hold;
use itoa::Buffer;
use percent_encoding::percent_decode;
use std::alloc::{AllocError, Global};
use sve_serve::Point;

/// The most that a piece of a session is repeated.
const MOST: u32 = 20_000_000;

/// One run.
#[derive(Drop)]
pub struct Row {
    /// The words of the command line, without the program's name.
    pub words: Vec<String>,
    /// The numbers of the reads that fail, counted from 1.
    pub failing_reads: Vec<u64>,
    /// The numbers of the writes that fail, counted from 1.
    pub failing_writes: Vec<u64>,
    /// How often a piece of the session is repeated, where one is.
    pub times: Option<u32>,
    /// Whether the report depends on the schedule of the clients.
    pub is_free: bool,
    /// Who is held where.
    pub holds: Vec<Hold>,
    /// How many rules that count their drops are handed in.
    pub counting: u32,
    /// What the source gives.
    pub bytes: Vec<u8>,
}

/// The run that a line asks for.
pub fn row_of(alloc: Global, line: &str) -> Result<Row, AllocError> {
    let (front, session) = cut(line);
    let mut row = Row {
        words: Vec::new(alloc),
        failing_reads: Vec::new(alloc),
        failing_writes: Vec::new(alloc),
        times: None,
        is_free: false,
        holds: Vec::new(alloc),
        counting: 0,
        bytes: Vec::new(alloc),
    };
    for word in front.split_whitespace() {
        add_word(alloc, &mut row, word)?;
    }
    match row.times {
        Some(times) => add_repeated(&mut row.bytes, times.min(MOST), session)?,
        None => percent_decode(session.trim().as_bytes()).append_to(&mut row.bytes)?,
    }
    Ok(row)
}

/// What stands in front of the first bar, and what stands behind it.
fn cut(text: &str) -> (&str, &str) {
    match text.split_once('|') {
        Some((front, back)) => (front, back),
        None => (text, ""),
    }
}

/// Takes up one of the words in front of the first bar.
fn add_word(alloc: Global, row: &mut Row, word: &str) -> Result<(), AllocError> {
    match word.split_once('!') {
        Some(("read", number)) => row.failing_reads.push(number.parse::<u64>().unwrap_or(0))?,
        Some(("write", number)) => row.failing_writes.push(number.parse::<u64>().unwrap_or(0))?,
        Some(("repeat", number)) => row.times = number.parse::<u32>().ok(),
        Some(("schedule", "any")) => row.is_free = true,
        Some(("count", number)) => row.counting = number.parse::<u32>().unwrap_or(0),
        Some(("hold", places)) => add_hold(&mut row.holds, places)?,
        _ => row.words.push(String::from_str(alloc, word)?)?,
    }
    Ok(())
}

/// Adds the hold `PLACE>PLACE`; one of another form is none.
fn add_hold(holds: &mut Vec<Hold>, places: &str) -> Result<(), AllocError> {
    if let Some(hold) = hold_of(places) {
        holds.push(hold)?;
    }
    Ok(())
}

fn hold_of(places: &str) -> Option<Hold> {
    let (held, awaited) = places.split_once('>')?;
    Some(Hold::new(place_of(held)?, place_of(awaited)?))
}

/// `b` or `a`, a client, a point and a command.
fn place_of(word: &str) -> Option<Point> {
    if let Some(rest) = word.strip_prefix('b') {
        let (client, command) = numbers_of(rest)?;
        return Some(Point::Before { client, command });
    }
    let (client, command) = numbers_of(word.strip_prefix('a')?)?;
    Some(Point::After { client, command })
}

fn numbers_of(text: &str) -> Option<(u32, u32)> {
    let (client, command) = text.split_once('.')?;
    Some((client.parse::<u32>().ok()?, command.parse::<u32>().ok()?))
}

/// Adds the session of the pieces `FRONT | UNIT | BETWEEN | BACK`.
fn add_repeated(bytes: &mut Vec<u8>, times: u32, pieces: &str) -> Result<(), AllocError> {
    let (front, rest) = cut(pieces);
    let (unit, rest) = cut(rest);
    let (between, back) = cut(rest);
    let (unit, between) = (unit.trim().as_bytes(), between.trim().as_bytes());
    bytes.extend_from_slice(front.trim().as_bytes())?;
    for i in 0..times {
        if i > 0 {
            bytes.extend_from_slice(between)?;
        }
        add_unit(bytes, unit, i)?;
    }
    bytes.extend_from_slice(back.trim().as_bytes())
}

/// Adds one turn of a repeated piece, in which `#` stands for the number of the turn.
fn add_unit(bytes: &mut Vec<u8>, unit: &[u8], turn: u32) -> Result<(), AllocError> {
    for byte in unit {
        match byte {
            b'#' => bytes.extend_from_slice(Buffer::new().format(turn).as_bytes())?,
            _ => bytes.push(*byte)?,
        }
    }
    Ok(())
}

//! Texts of the tables: what a line is cut into, texts that are repeated, and stops.
use std::alloc::Global;
use sve_bytes::NoMemory;

/// The most that a piece of a text is repeated.
const MOST: u32 = 100_000;

/// What stands in front of the first mark, and what stands behind it.
pub fn cut(text: &str, mark: char) -> (&str, &str) {
    match text.split_once(mark) {
        Some((front, back)) => (front, back),
        None => (text, ""),
    }
}

/// The text of a line `N FRONT / OPEN / MIDDLE / CLOSE / BACK`, which has OPEN and CLOSE N times each, but at most 100,000
/// times; nothing where N is no number.
pub fn deep_text(alloc: Global, line: &str) -> Result<Option<String>, NoMemory> {
    let (number, rest) = cut(line, ' ');
    let Ok(times) = number.parse::<u32>() else {
        return Ok(None);
    };
    let (front, rest) = cut(rest, '/');
    let (open, rest) = cut(rest, '/');
    let (middle, rest) = cut(rest, '/');
    let (close, back) = cut(rest, '/');
    let mut text = String::from_str(alloc, front)?;
    add_times(&mut text, times.min(MOST), open)?;
    text.push_str(middle)?;
    add_times(&mut text, times.min(MOST), close)?;
    text.push_str(back)?;
    Ok(Some(text))
}

/// Adds a piece so many times.
fn add_times(text: &mut String, times: u32, piece: &str) -> Result<(), NoMemory> {
    for _ in 0..times {
        text.push_str(piece)?;
        text.push(' ')?;
    }
    Ok(())
}

/// A stop as it is printed: the number of the next token, and whether only the depth stands against going on.
pub fn stop_text(alloc: Global, index: u32, deep: bool) -> Result<String, NoMemory> {
    let end = if deep { " deep" } else { "" };
    format!(in alloc; "stop at {index}{end}")
}

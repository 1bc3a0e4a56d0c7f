//! The fields of a row.
use std::alloc::{AllocError, Global};
use std::fmt::Write;
use sve_bytes::{BadName, Name, NetType, NoMemory};

/// The field in front of the first ` | `, and what stands behind it; where there is none, the row and nothing.
pub fn field(row: &str) -> (&str, &str) {
    row.split_once(" | ").unwrap_or((row, ""))
}

/// The word in front of the first blank, and what stands behind it; where there is none, the row and nothing.
pub fn word(row: &str) -> (&str, &str) {
    row.split_once(' ').unwrap_or((row, ""))
}

/// The parts of a text, with this separator between them.
pub fn parts_of<'a>(
    alloc: Global,
    text: &'a str,
    separator: &str,
) -> Result<Vec<&'a str>, NoMemory> {
    text.split(separator).collect(alloc)
}

/// The fields of a row, with ` | ` between them.
pub fn fields_of(alloc: Global, row: &str) -> Result<Vec<&str>, NoMemory> {
    parts_of(alloc, row, " | ")
}

/// The words of a row, with blanks between them.
pub fn words_of(alloc: Global, row: &str) -> Result<Vec<&str>, NoMemory> {
    row.split_whitespace().collect(alloc)
}

/// The number that a word writes with decimal digits.
pub fn number_of(word: &str) -> Option<usize> {
    word.parse::<usize>().ok()
}

/// The number below 2^32 that a word writes with decimal digits.
pub fn offset_of(word: &str) -> Option<u32> {
    word.parse::<u32>().ok()
}

/// The whole number that a word writes with decimal digits, behind `-` where it is below 0.
pub fn integer_of(word: &str) -> Option<i64> {
    word.parse::<i64>().ok()
}

/// Adds a number, in decimal digits.
pub fn add_number(out: &mut String, number: usize) -> Result<(), NoMemory> {
    write!(out, "{number}")
}

/// What stands beside a word in a table.
pub fn beside<T: Copy>(table: &[(&str, T)], word: &str) -> Option<T> {
    for (other, meant) in table {
        if *other == word {
            return Some(*meant);
        }
    }
    None
}

/// Yes or no.
pub fn yes(holds: bool) -> &'static str {
    if holds { "yes" } else { "no" }
}

/// The name of these bytes, or nothing where they are none or more than 1,024.
pub fn name_of(alloc: Global, bytes: &[u8]) -> Result<Option<Name>, NoMemory> {
    match Name::of(alloc, bytes) {
        Ok(name) => Ok(Some(name)),
        Err(BadName::NoMemory) => Err(AllocError),
        Err(BadName::Empty | BadName::TooLong(_)) => Ok(None),
    }
}

/// What a net type is called.
pub fn net_type_name(net_type: NetType) -> &'static str {
    match net_type {
        NetType::Wire => "Wire",
        NetType::Tri => "Tri",
        NetType::Uwire => "Uwire",
        NetType::Wand => "Wand",
        NetType::Wor => "Wor",
        NetType::Triand => "Triand",
        NetType::Trior => "Trior",
        NetType::Tri0 => "Tri0",
        NetType::Tri1 => "Tri1",
        NetType::Trireg => "Trireg",
        NetType::None => "None",
    }
}

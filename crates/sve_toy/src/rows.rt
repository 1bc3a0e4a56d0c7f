//! The rows of this table.
use crate::asks::{asked_in_turn, asked_twice};
use crate::kinds::Key;
use std::alloc::Global;
use sve_bytes::NoMemory;
use sve_row::{Table, fields_of, number_of, word};
use sve_sample::files_of;

/// The rows of this table. A `KEY` is `length`, `pairs` or `quads`: how many bytes the text of the file `a` has, how many pairs of bytes
/// that is, and how many pairs of pairs. The first is read off the files, and each other one is computed from the one before it.
///
/// * `ask KEY FILES | TEXT | ..` asks for a key over opening files, and again behind the commit of each text. For each ask stand the
///   last digit of its answer, and behind `:` how many values were computed for it.
/// * `stop N KEY FILES | TEXT | ..` does so under watches that say that revision `N` is there.
/// * `twice KEY FILES` asks for a key twice, and says how many values were computed for the second answer.
#[derive(Drop)]
pub struct Keys;

/// The key of this name.
fn key_of(word: &str) -> Option<Key> {
    match word {
        "length" => Some(Key::Length),
        "pairs" => Some(Key::Pairs),
        "quads" => Some(Key::Quads),
        _ => None,
    }
}

/// What comes of asks for a key, under watches that give this number.
fn asks(alloc: Global, stop: Option<u64>, row: &str) -> Result<Option<String>, NoMemory> {
    let (key, row) = word(row);
    let fields = fields_of(alloc, row)?;
    let (Some(key), Some((first, texts))) = (key_of(key), fields.split_first()) else {
        return Ok(None);
    };
    match files_of(alloc, first)? {
        Some(files) => Ok(Some(asked_in_turn(alloc, files, key, stop, texts)?)),
        None => Ok(None),
    }
}

/// What comes of two asks for a key.
fn twice(alloc: Global, row: &str) -> Result<Option<String>, NoMemory> {
    let (key, files) = word(row);
    match (key_of(key), files_of(alloc, files)?) {
        (Some(key), Some(files)) => Ok(Some(asked_twice(alloc, files, key)?)),
        _ => Ok(None),
    }
}

impl Table for Keys {
    fn answer(&self, alloc: Global, kind: &str, row: &str) -> Result<Option<String>, NoMemory> {
        match kind {
            "ask" => asks(alloc, None, row),
            "stop" => {
                let (number, row) = word(row);
                match number_of(number) {
                    Some(number) => asks(alloc, Some(number as u64), row),
                    None => Ok(None),
                }
            }
            "twice" => twice(alloc, row),
            _ => Ok(None),
        }
    }
}

//! The summary of the run of a generated session.
ghost use Rattle.std.specs.Prelude.{◌≡◌, ◌++◌, IfOk, OnOk, option_map, decimal};
ghost use Rattle.sve_report.specs.Lines.{ended};
ghost use Rattle.sve_serve.specs.Summary.{count_of, counted, left_out, lines_of, or_spent, record_of, revision_of, summary, width_of};

use itoa::Buffer;
use std::alloc::Global;
use std::str;
use sve_bytes::{List, NoMemory};
use sve_report::Record;
use sve_words::number;

/// The record of a command of the only client, counted from 0.
fn record_of(records: &[List<Record>], command: usize) -> Option<&Record>
    ensures { option_map (λ rec. rec.now) result ≡ record_of records.now command }
{
    match records.first() {
        Some(client) => client.items().get(command),
        None => None,
    }
}

/// The revision that a record names.
fn revision_of(told: Option<&Record>) -> u64
    ensures { result ≡ revision_of (option_map (λ rec. rec.now) told.entry) }
{
    match told {
        Some(Record::Accepted { r }) => *r,
        Some(Record::Refused { r, .. }) => *r,
        Some(Record::Answered { r, .. }) => *r,
        Some(Record::Cancelled { base, .. }) => *base,
        Some(Record::Spent { r, .. }) => *r,
        None => 0,
    }
}

/// The lines that an ask was answered.
fn lines_of(told: Option<&Record>) -> Option<&[List<u8>]>
    ensures { option_map (λ lines. lines.now) result ≡ lines_of (option_map (λ rec. rec.now) told.entry) }
{
    match told {
        Some(Record::Answered { lines, .. }) => Some(lines.items()),
        _ => None,
    }
}

/// How many things a line `more <n>` says were left out of a list.
fn left_out(line: &[u8]) -> Option<u32>
    ensures { result ≡ left_out line.now }
{
    let Some(digits) = line.strip_prefix(b"more ") else {
        return None;
    };
    match str::from_utf8(digits) {
        Ok(text) => number(text, u32::MAX),
        Err(_) => None,
    }
}

/// How many things a list answer tells: one with each line, but with `more <n>` at its end so many.
fn counted(lines: &[List<u8>]) -> u64
    ensures { result ≡ counted lines.now }
{
    let Some(last) = lines.last() else {
        return 0;
    };
    match left_out(last.items()) {
        Some(more) => lines.len() as u64 - 1 + u64::from(more),
        None => lines.len() as u64,
    }
}

/// The number of bits that an answer tells in its line `width <bits>`, or that it tells none.
fn width_of(lines: &[List<u8>]) -> &[u8]
    ensures { result.now ≡ width_of lines.now }
{
    for line in lines {
        if let Some(bits) = line.items().strip_prefix(b"width ") {
            return bits;
        }
    }
    b"none"
}

/// Adds a line: the words and what is said behind them.
fn add_line(text: &mut Vec<u8>, words: &[u8], said: &[u8]) -> Result<(), NoMemory>
    ensures { OnOk result (text.new.items ≡ text.old.items ++ ended (words.now ++ said.now)) }
{
    text.extend_from_slice(words)?;
    text.extend_from_slice(said)?;
    text.push(b'\n')?;
    Ok(())
}

/// Adds a line: the words and a number behind them.
fn add_number_line(text: &mut Vec<u8>, words: &[u8], n: u64) -> Result<(), NoMemory>
    ensures { OnOk result (text.new.items ≡ text.old.items ++ ended (words.now ++ decimal n)) }
{
    add_line(text, words, Buffer::new().format(n).as_bytes())
}

/// Adds a line: the words and how many things a list answer tells, or that its ask was beyond the budget.
fn add_count_line(
    text: &mut Vec<u8>,
    words: &[u8],
    told: Option<&[List<u8>]>,
) -> Result<(), NoMemory>
    ensures { OnOk result (text.new.items ≡ text.old.items ++ ended (words.now ++ count_of (option_map (λ lines. lines.now) told.entry))) }
{
    match told {
        Some(lines) => add_number_line(text, words, counted(lines)),
        None => add_line(text, words, b"spent"),
    }
}

/// Adds a line: the words and the width that an answer tells, or that its ask was beyond the budget.
fn add_width_line(
    text: &mut Vec<u8>,
    words: &[u8],
    told: Option<&[List<u8>]>,
) -> Result<(), NoMemory>
    ensures { OnOk result (text.new.items ≡ text.old.items ++ ended (words.now ++ or_spent width_of (option_map (λ lines. lines.now) told.entry))) }
{
    match told {
        Some(lines) => add_line(text, words, width_of(lines)),
        None => add_line(text, words, b"spent"),
    }
}

/// The summary of the run of a generated session of `n` modules, by the records of its one client: `n`, the revision of the
/// last answer, the number of instances, the number of diagnostics, and the width of the type that the last answer tells.
pub(crate) fn summary(alloc: Global, n: u32, records: &[List<Record>]) -> Result<Vec<u8>, NoMemory>
    ensures { IfOk result (λ text. text.items ≡ summary n records.now) }
{
    let mut text = Vec::new(alloc);
    let last = record_of(records, 3);
    add_number_line(&mut text, b"make ", u64::from(n))?;
    add_number_line(&mut text, b"revision ", revision_of(last))?;
    add_count_line(&mut text, b"instances ", lines_of(record_of(records, 0)))?;
    add_count_line(&mut text, b"diagnostics ", lines_of(record_of(records, 1)))?;
    add_width_line(&mut text, b"width ", lines_of(last))?;
    Ok(text)
}

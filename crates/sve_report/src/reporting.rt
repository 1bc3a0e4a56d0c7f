//! The report of a run.
ghost use Rattle.std.specs.Prelude.{◌≡◌, ◌++◌, ◌∷◌, [], IfOk, OnOk, codes, decimal};
ghost use Rattle.sve_report.specs.Lines.{ended, text_of_lines};
ghost use Rattle.sve_report.specs.Linted.{IsLintedReadBack, found_text, report_with_lint, section_lines, spent_text};
ghost use Rattle.sve_report.specs.ReadBack.{IsReadBack};
ghost use Rattle.sve_report.specs.Reports.{report, entry_line, entry_lines, why_text, refusal_text, pair_text, record_lines, client_lines, clients_lines};

use crate::entry::Entry;
use crate::record::Record;
use crate::section::LintSection;
use itoa::Buffer;
use std::alloc::Global;
use sve_bytes::{List, NoMemory};
use sve_text::Why;

/// The report of a history and of the records of each client, client 1 first.
pub fn report_text(
    alloc: Global,
    entries: &[Entry],
    records: &[List<Record>],
) -> Result<Vec<u8>, NoMemory>
    ensures { IfOk result (λ text. text.items ≡ report entries.now records.now) }
{
    let mut text = Vec::new(alloc);
    add_words(&mut text, b"history ")?;
    add_number(&mut text, entries.len() as u64)?;
    add_words(&mut text, b"\n")?;
    add_entries(&mut text, entries)?;
    add_clients(&mut text, records)?;
    Ok(text)
}

/// The report of a history, of the records of each client, client 1 first, and behind these of what lint rules found.
///
/// # Errors
/// For want of memory alone.
pub fn report_text_with_lint(
    alloc: Global,
    entries: &[Entry],
    records: &[List<Record>],
    section: &LintSection,
) -> Result<Vec<u8>, NoMemory>
    ensures { IfOk result (λ text. text.items ≡ report_with_lint entries.now records.now section.now) }
{
    let mut text = report_text(alloc, entries, records)?;
    add_section(&mut text, section)?;
    Ok(text)
}

fn add_words(text: &mut Vec<u8>, words: &[u8]) -> Result<(), NoMemory>
    ensures { OnOk result (text.new.items ≡ text.old.items ++ words.now) }
{
    text.extend_from_slice(words)
}

fn add_number(text: &mut Vec<u8>, n: u64) -> Result<(), NoMemory>
    ensures { OnOk result (text.new.items ≡ text.old.items ++ decimal n) }
{
    text.extend_from_slice(Buffer::new().format(n).as_bytes())
}

/// `<r> <client> <command>` for each entry, r counted from 1.
fn add_entries(text: &mut Vec<u8>, entries: &[Entry]) -> Result<(), NoMemory>
    ensures { OnOk result (text.new.items ≡ text.old.items ++ text_of_lines (entry_lines 1 entries.now)) }
{
    for (i, entry) in entries.iter().enumerate() {
        add_entry(text, i as u64 + 1, entry)?;
    }
    Ok(())
}

fn add_entry(text: &mut Vec<u8>, r: u64, entry: &Entry) -> Result<(), NoMemory>
    ensures { OnOk result (text.new.items ≡ text.old.items ++ ended (entry_line r entry.now)) }
{
    add_number(text, r)?;
    add_words(text, b" ")?;
    add_number(text, entry.client)?;
    add_words(text, b" ")?;
    add_number(text, entry.command)?;
    add_words(text, b"\n")
}

/// `client <i>` and its records for each client, i counted from 1.
fn add_clients(text: &mut Vec<u8>, records: &[List<Record>]) -> Result<(), NoMemory>
    ensures { OnOk result (text.new.items ≡ text.old.items ++ text_of_lines (clients_lines 1 records.now)) }
{
    for (i, client) in records.iter().enumerate() {
        add_words(text, b"client ")?;
        add_number(text, i as u64 + 1)?;
        add_words(text, b"\n")?;
        add_records(text, client.items())?;
    }
    Ok(())
}

fn add_records(text: &mut Vec<u8>, records: &[Record]) -> Result<(), NoMemory>
    ensures { OnOk result (text.new.items ≡ text.old.items ++ text_of_lines (client_lines 1 records.now)) }
{
    for (j, outcome) in records.iter().enumerate() {
        add_record(text, j as u64 + 1, outcome)?;
    }
    Ok(())
}

/// The line of a record, and behind that of an answer the lines of the answer.
fn add_record(text: &mut Vec<u8>, j: u64, outcome: &Record) -> Result<(), NoMemory>
    ensures { OnOk result (text.new.items ≡ text.old.items ++ text_of_lines (record_lines j outcome.now)) }
{
    match outcome {
        Record::Accepted { r } => add_accepted(text, j, *r),
        Record::Refused { r, edit, why } => add_refused(text, j, *r, *edit, why),
        Record::Answered { r, lines } => {
            add_pair(text, j, b"answer", *r, lines.items().len() as u64)?;
            add_lines(text, lines.items())
        }
        Record::Cancelled { base, newer } => add_pair(text, j, b"cancelled", *base, *newer),
        Record::Spent { r, budget } => add_pair(text, j, b"spent", *r, u64::from(*budget)),
    }
}

fn add_lines(text: &mut Vec<u8>, lines: &[List<u8>]) -> Result<(), NoMemory>
    ensures { OnOk result (text.new.items ≡ text.old.items ++ text_of_lines lines.now) }
{
    for line in lines {
        add_words(text, line.items())?;
        add_words(text, b"\n")?;
    }
    Ok(())
}

/// `lint <r> <k>` and the k lines of what was found, or `lint <r> spent <budget>`.
fn add_section(text: &mut Vec<u8>, section: &LintSection) -> Result<(), NoMemory>
    ensures { OnOk result (text.new.items ≡ text.old.items ++ text_of_lines (section_lines section.now)) }
{
    match section {
        LintSection::Found { r, lines: found } => {
            add_found(text, *r, found.items().len() as u64)?;
            add_lines(text, found.items())
        }
        LintSection::Spent { r, budget } => add_spent(text, *r, u64::from(*budget)),
    }
}

/// `lint <r> <k>`
fn add_found(text: &mut Vec<u8>, r: u64, k: u64) -> Result<(), NoMemory>
    ensures { OnOk result (text.new.items ≡ text.old.items ++ ended (found_text r k)) }
{
    add_words(text, b"lint ")?;
    add_number(text, r)?;
    add_words(text, b" ")?;
    add_number(text, k)?;
    add_words(text, b"\n")
}

/// `lint <r> spent <budget>`
fn add_spent(text: &mut Vec<u8>, r: u64, budget: u64) -> Result<(), NoMemory>
    ensures { OnOk result (text.new.items ≡ text.old.items ++ ended (spent_text r budget)) }
{
    add_words(text, b"lint ")?;
    add_number(text, r)?;
    add_words(text, b" spent ")?;
    add_number(text, budget)?;
    add_words(text, b"\n")
}

/// `<j> accepted <r>`
fn add_accepted(text: &mut Vec<u8>, j: u64, r: u64) -> Result<(), NoMemory>
    ensures { OnOk result (text.new.items ≡ text.old.items ++ ended (decimal j ++ codes " accepted " ++ decimal r)) }
{
    add_number(text, j)?;
    add_words(text, b" accepted ")?;
    add_number(text, r)?;
    add_words(text, b"\n")
}

/// `<j> <word> <m> <n>`
fn add_pair(text: &mut Vec<u8>, j: u64, word: &[u8], m: u64, n: u64) -> Result<(), NoMemory>
    ensures { OnOk result (text.new.items ≡ text.old.items ++ ended (decimal j ++ pair_text word.now m n)) }
{
    add_number(text, j)?;
    add_word_and_numbers(text, word, m, n)?;
    add_words(text, b"\n")
}

/// ` <word> <m> <n>`
fn add_word_and_numbers(text: &mut Vec<u8>, word: &[u8], m: u64, n: u64) -> Result<(), NoMemory>
    ensures { OnOk result (text.new.items ≡ text.old.items ++ pair_text word.now m n) }
{
    add_words(text, b" ")?;
    add_words(text, word)?;
    add_words(text, b" ")?;
    add_number(text, m)?;
    add_words(text, b" ")?;
    add_number(text, n)
}

/// `<j> refused <r> edit <e> <why>`
fn add_refused(text: &mut Vec<u8>, j: u64, r: u64, edit: u32, why: &Why) -> Result<(), NoMemory>
    ensures { OnOk result (text.new.items ≡ text.old.items ++ ended (decimal j ++ refusal_text r edit why.now)) }
{
    add_number(text, j)?;
    add_refusal(text, r, edit, why)?;
    add_words(text, b"\n")
}

/// ` refused <r> edit <e> <why>`
fn add_refusal(text: &mut Vec<u8>, r: u64, edit: u32, why: &Why) -> Result<(), NoMemory>
    ensures { OnOk result (text.new.items ≡ text.old.items ++ refusal_text r edit why.now) }
{
    add_words(text, b" refused ")?;
    add_number(text, r)?;
    add_words(text, b" edit ")?;
    add_number(text, u64::from(edit))?;
    add_words(text, b" ")?;
    add_why(text, why)
}

/// `nofile`, `stale <stamp>`, `range <length>`, `filetoolarge <bytes>` or `toomanyfiles`.
fn add_why(text: &mut Vec<u8>, why: &Why) -> Result<(), NoMemory>
    ensures { OnOk result (text.new.items ≡ text.old.items ++ why_text why.now) }
{
    match why {
        Why::NoFile => add_words(text, b"nofile"),
        Why::Stale { stamp } => add_measure(text, b"stale ", *stamp),
        Why::Range { length } => add_measure(text, b"range ", u64::from(*length)),
        Why::FileTooLarge { bytes } => add_measure(text, b"filetoolarge ", *bytes),
        Why::TooManyFiles => add_words(text, b"toomanyfiles"),
    }
}

fn add_measure(text: &mut Vec<u8>, words: &[u8], n: u64) -> Result<(), NoMemory>
    ensures { OnOk result (text.new.items ≡ text.old.items ++ (words.now ++ decimal n)) }
{
    add_words(text, words)?;
    add_number(text, n)
}

/// The law of reports: the history is read off the bytes of a report, and so are the records where none of their lines
/// holds a line feed.
pub fn reports_are_read_back()
    ensures { IsReadBack }
{}

/// The law of reports with what lint rules found: the history is read off the bytes, and so are the records and what was found
/// where none of their lines holds a line feed.
pub fn linted_reports_are_read_back()
    ensures { IsLintedReadBack }
{}

//! The text of a report.
ghost use Rattle.std.specs.Prelude.{◌≡◌, IfOk, map};
ghost use Rattle.sve_history.specs.Histories.{newest_files};
ghost use Rattle.sve_serve.specs.Texts.{IsTextOf};

use crate::running::run_budget;
use std::alloc::Global;
use sve_bytes::{List, NoMemory};
use sve_history::History;
use sve_lint::Rule;
use sve_query::lint_section;
use sve_report::{Entry, Record, report_text, report_text_with_lint};
use sve_words::Options;

/// The report of a history with these entries and of these records in a run with these options, and where these say so what the rules
/// find in the design of the last revision, within the budget of the run. The rules are dropped.
pub(crate) fn text_of(
    alloc: Global,
    options: Options,
    rules: Vec<Box<dyn Rule>>,
    history: &History,
    entries: &[Entry],
    records: &[List<Record>],
) -> Result<Vec<u8>, NoMemory>
    ensures { IfOk result (λ text. IsTextOf options (map (λ rule. state rule) rules.items) (newest_files history.now) entries.now records.now text.items) }
{
    if options.lint {
        let r = entries.len() as u64;
        let section = lint_section(alloc, history.newest(), r, run_budget(options), rules)?;
        report_text_with_lint(alloc, entries, records, &section)
    } else {
        report_text(alloc, entries, records)
    }
}

//! The answers for which the design that the files are is elaborated.
ghost use Rattle.std.specs.Prelude.{◌≡◌, ℕ, IfOk, IfErr, OnOk};
ghost use Rattle.sve_text.specs.Rows.{IsInOrder};
ghost use Rattle.sve_store.specs.Told.{Follows, HasStopped};
ghost use Rattle.sve_kinds.specs.Passes.{Passes};
ghost use Rattle.sve_gathered.specs.Gathered.{IsInput, rows_by};
ghost use Rattle.sve_query.specs.AnswersAt.{IsElaborated};

use std::alloc::Global;
use sve_bytes::NoMemory;
use sve_command::Query;
use sve_design_answers::design_answer;
use sve_gathered::gathered;
use sve_io::Halt;
use sve_key::{Key, Value};
use sve_report::Lines;
use sve_store::{Answer, Fetch, Keyed};
use sve_text::Files;

/// The answer that these lines are.
pub(crate) fn done(alloc: Global, lines: Lines) -> Result<Answer, NoMemory>
    ensures { IfOk result (λ answer. answer ≡ Answer.Done lines) }
{
    Ok(Answer::Done(lines.into_list(alloc)?))
}

/// The answer of a query for which the design that these files are is elaborated.
#[tactic(auto, using(crate::proofs::Elaborated::over_these))]
fn elaborated(alloc: Global, files: &Files, query: &Query, budget: u32) -> Result<Answer, NoMemory>
    requires { IsInOrder files.now.rows }
    ensures { IfOk result (IsElaborated files.now.rows query.now budget) }
{
    design_answer(alloc, files, query, budget)
}

/// The answer of a query about the design that the files are, within the budget: what it asks about is elaborated from nothing.
///
/// # Errors
/// The object stopped the call, can tell nothing of a key that is asked for, or there was no memory.
pub(crate) fn elaborated_answer<K: Keyed<Key = Key, Value = Value>, F: Fetch<K>>(
    alloc: Global,
    from: &mut F,
    query: &Query,
    budget: u32,
) -> Result<Answer, Halt>
    ensures passes { Passes F.tells F.keeps F.is_quiet (λ f. K.counted (F.kind f)) F.halted IsInput from.old from.new }
    ensures answered { (table : Key → ℕ → Value) → Follows (λ v fuel. v) table (F.tells from.old) → IfOk result (IsElaborated (rows_by table) query.now budget) }
    ensures stopped { IfErr result (HasStopped (F.stops from.old) (F.stops from.new)) }
    ensures went { OnOk result (F.stops from.new ≡ F.stops from.old) }
{
    let files = gathered(alloc, from)?;
    Ok(elaborated(alloc, &files, query, budget)?)
}

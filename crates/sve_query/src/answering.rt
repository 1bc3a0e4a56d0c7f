//! What a query is answered.
ghost use Rattle.std.specs.Prelude.{◌≡◌, ℕ, IfOk, IfErr, OnOk};
ghost use Rattle.sve_store.specs.Told.{Follows, HasStopped};
ghost use Rattle.sve_kinds.specs.Passes.{Passes};
ghost use Rattle.sve_query.specs.Answering.{IsAskedFor, answers_by};

use crate::designs::{done, elaborated_answer};
use crate::lists::tops_answer;
use std::alloc::Global;
use sve_answer::{expand_answer, file_answer};
use sve_command::Query;
use sve_io::Halt;
use sve_key::{Key, Value};
use sve_store::{Answer, Fetch, Keyed};

/// The answer of a query within a budget.
///
/// # Errors
/// The object stopped the call, can tell nothing of a key that is asked for, or there was no memory.
#[tactic(auto, using(sve_kinds::specs::Passes::passes_itself))]
pub(crate) fn answer_of<K: Keyed<Key = Key, Value = Value>, F: Fetch<K>>(
    alloc: Global,
    from: &mut F,
    query: &Query,
    budget: u32,
) -> Result<Answer, Halt>
    ensures passes { Passes F.tells F.keeps F.is_quiet (λ f. K.counted (F.kind f)) F.halted (IsAskedFor query.now) from.old from.new }
    ensures answered { (table : Key → ℕ → Value) → Follows (λ v fuel. v) table (F.tells from.old) → IfOk result (answers_by table query.now budget) }
    ensures stopped { IfErr result (HasStopped (F.stops from.old) (F.stops from.new)) }
    ensures went { OnOk result (F.stops from.new ≡ F.stops from.old) }
{
    match query {
        Query::File { name } => {
            let lines = file_answer(alloc, from, name.items())?;
            Ok(done(alloc, lines)?)
        }
        Query::Expand { name } => {
            let lines = expand_answer(alloc, from, name.items())?;
            Ok(done(alloc, lines)?)
        }
        Query::Tops => {
            let lines = tops_answer(alloc, from)?;
            Ok(done(alloc, lines)?)
        }
        Query::Instance { .. }
        | Query::Tree
        | Query::TypeOf { .. }
        | Query::Param { .. }
        | Query::Resolve { .. }
        | Query::Diagnostics => elaborated_answer(alloc, from, query, budget),
    }
}

//! The tops of files that were gathered.
ghost use Rattle.std.specs.Prelude.{◌≡◌, ℕ, IfOk, IfErr, OnOk};
ghost use Rattle.sve_text.specs.Rows.{IsInOrder};
ghost use Rattle.sve_listing.specs.Lists.{tops_lines};
ghost use Rattle.sve_store.specs.Told.{Follows, HasStopped};
ghost use Rattle.sve_kinds.specs.Passes.{Passes};
ghost use Rattle.sve_gathered.specs.Gathered.{IsInput, rows_by};
ghost use Rattle.sve_query.specs.AnswersAt.{index_at};

use std::alloc::Global;
use sve_bytes::NoMemory;
use sve_front::tops;
use sve_gathered::gathered;
use sve_io::Halt;
use sve_key::{Key, Value};
use sve_listing::tops_lines;
use sve_report::Lines;
use sve_store::{Fetch, Keyed};
use sve_text::Files;

/// The lines of the tops of the design that these files are.
#[tactic(auto, using(crate::proofs::InOrder::tops_are))]
fn tops_of(alloc: Global, files: &Files) -> Result<Lines, NoMemory>
    requires { IsInOrder files.now.rows }
    ensures { IfOk result (λ lines. lines ≡ tops_lines (index_at files.now.rows).tops) }
{
    tops_lines(alloc, tops(alloc, files)?.items())
}

/// The tops of the design, one a line (IEEE 1800-2017, 23.3.1).
///
/// # Errors
/// The object stopped the call, can tell nothing of a key that is asked for, or there was no memory.
pub(crate) fn tops_answer<K: Keyed<Key = Key, Value = Value>, F: Fetch<K>>(
    alloc: Global,
    from: &mut F,
) -> Result<Lines, Halt>
    ensures passes { Passes F.tells F.keeps F.is_quiet (λ f. K.counted (F.kind f)) F.halted IsInput from.old from.new }
    ensures answered { (table : Key → ℕ → Value) → Follows (λ v fuel. v) table (F.tells from.old) → IfOk result (λ lines. lines ≡ tops_lines (index_at (rows_by table)).tops) }
    ensures stopped { IfErr result (HasStopped (F.stops from.old) (F.stops from.new)) }
    ensures went { OnOk result (F.stops from.new ≡ F.stops from.old) }
{
    let files = gathered(alloc, from)?;
    Ok(tops_of(alloc, &files)?)
}

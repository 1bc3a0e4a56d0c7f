//! What is answered of texts and of the tops.
ghost use Rattle.std.specs.Prelude.{◌≡◌, ℕ, IfOk, IfErr, OnOk};
ghost use Rattle.sve_listing.specs.Files.{text_lines};
ghost use Rattle.sve_store.specs.Told.{Follows, HasStopped};
ghost use Rattle.sve_key.specs.Values.{text_in_value};
ghost use Rattle.sve_key.specs.declared.key.Key.TheVariants.{Text, Index};
ghost use Rattle.sve_kinds.specs.Passes.{Passes};
ghost use Rattle.sve_kinds.specs.Asked.{IsText};
ghost use Rattle.sve_answer.specs.Answers.{expand_lines, expanded_by, file_lines, top_lines};

use std::alloc::Global;
use sve_bytes::{Name, NoMemory};
use sve_io::Halt;
use sve_key::{Key, Value};
use sve_kinds::{ask, ask_text, expansion};
use sve_listing::{expanded_lines, none_lines, text_lines, tops_lines};
use sve_report::Lines;
use sve_store::{Fetch, Keyed};
use sve_text::file_name;

/// The stamp, the size and the lines of a text, or that it is not there; a value of another kind is none.
fn value_lines(alloc: Global, value: &Value) -> Result<Lines, NoMemory>
    ensures { IfOk result (λ lines. lines ≡ text_lines (text_in_value value.now).stamp (text_in_value value.now).text) }
{
    match value {
        Value::Text(text) => match text.bytes() {
            Some(bytes) => text_lines(alloc, text.stamp(), bytes),
            None => none_lines(alloc),
        },
        _ => none_lines(alloc),
    }
}

/// The stamp, the size and the lines of a file, or that it is not there; a name that no file may have is of none.
///
/// # Errors
/// The object stopped the call, can tell nothing of a key that is asked for, or there was no memory.
#[tactic(auto, using(sve_kinds::specs::Passes::passes_itself))]
pub fn file_answer<K: Keyed<Key = Key, Value = Value>, F: Fetch<K>>(
    alloc: Global,
    from: &mut F,
    name: &[u8],
) -> Result<Lines, Halt>
    ensures passes { Passes F.tells F.keeps F.is_quiet (λ f. K.counted (F.kind f)) F.halted (λ j. j ≡ Text name.now) from.old from.new }
    ensures answered { (table : Key → ℕ → Value) → Follows (λ v fuel. v) table (F.tells from.old) → IfOk result (λ lines. lines ≡ file_lines table name.now) }
    ensures stopped { IfErr result (HasStopped (F.stops from.old) (F.stops from.new)) }
    ensures went { OnOk result (F.stops from.new ≡ F.stops from.old) }
{
    let Some(name) = file_name(alloc, name)? else {
        return Ok(none_lines(alloc)?);
    };
    let value = ask_text(alloc, from, &name)?;
    Ok(value_lines(alloc, &value)?)
}

/// The size and the lines of the expanded text of a file that is there.
fn expanded_answer<K: Keyed<Key = Key, Value = Value>, F: Fetch<K>>(
    alloc: Global,
    from: &mut F,
    name: &Name,
) -> Result<Lines, Halt>
    ensures passes { Passes F.tells F.keeps F.is_quiet (λ f. K.counted (F.kind f)) F.halted (IsText) from.old from.new }
    ensures answered { (table : Key → ℕ → Value) → Follows (λ v fuel. v) table (F.tells from.old) → IfOk result (λ lines. lines ≡ expanded_by table name.now) }
    ensures stopped { IfErr result (HasStopped (F.stops from.old) (F.stops from.new)) }
    ensures went { OnOk result (F.stops from.new ≡ F.stops from.old) }
{
    let text = expansion(alloc, from, name)?;
    Ok(expanded_lines(alloc, text.bytes())?)
}

/// The size and the lines of a file's expanded text, or that the file is not there (IEEE 1800-2017, clause 22).
///
/// # Errors
/// The object stopped the call, can tell nothing of a key that is asked for, or there was no memory.
#[tactic(auto, using(sve_kinds::specs::Passes::passes_itself, sve_kinds::proofs::Calls::as_text))]
pub fn expand_answer<K: Keyed<Key = Key, Value = Value>, F: Fetch<K>>(
    alloc: Global,
    from: &mut F,
    name: &[u8],
) -> Result<Lines, Halt>
    ensures passes { Passes F.tells F.keeps F.is_quiet (λ f. K.counted (F.kind f)) F.halted (IsText) from.old from.new }
    ensures answered { (table : Key → ℕ → Value) → Follows (λ v fuel. v) table (F.tells from.old) → IfOk result (λ lines. lines ≡ expand_lines table name.now) }
    ensures stopped { IfErr result (HasStopped (F.stops from.old) (F.stops from.new)) }
    ensures went { OnOk result (F.stops from.new ≡ F.stops from.old) }
{
    let Some(name) = file_name(alloc, name)? else {
        return Ok(none_lines(alloc)?);
    };
    let value = ask_text(alloc, from, &name)?;
    if !value.is_there() {
        return Ok(none_lines(alloc)?);
    }
    expanded_answer(alloc, from, &name)
}

/// The tops of the design, one a line (IEEE 1800-2017, 23.3.1).
///
/// # Errors
/// The object stopped the call, can tell nothing of a key that is asked for, or there was no memory.
pub fn tops_answer<K: Keyed<Key = Key, Value = Value>, F: Fetch<K>>(
    alloc: Global,
    from: &mut F,
) -> Result<Lines, Halt>
    ensures passes { Passes F.tells F.keeps F.is_quiet (λ f. K.counted (F.kind f)) F.halted (λ j. j ≡ Index) from.old from.new }
    ensures answered { (table : Key → ℕ → Value) → Follows (λ v fuel. v) table (F.tells from.old) → IfOk result (λ lines. lines ≡ top_lines table) }
    ensures stopped { IfErr result (HasStopped (F.stops from.old) (F.stops from.new)) }
    ensures went { OnOk result (F.stops from.new ≡ F.stops from.old) }
{
    let value = ask(alloc, from, &Key::Index)?;
    Ok(tops_lines(alloc, value.tops())?)
}

//! The values that are read off the files.
ghost use Rattle.std.specs.Prelude.{◌≡◌, ◌++◌, ◌∷◌, [], IfOk, OnOk, option_map};
ghost use Rattle.std.specs.Arc.{arc_value};
ghost use Rattle.std.specs.List.{filter};
ghost use Rattle.sve_text.specs.Rows.{is_there, names_in};
ghost use Rattle.sve_key.specs.Parts.{names_there};
ghost use Rattle.sve_make.specs.Make.{given_of};

use std::alloc::Global;
use std::sync::Arc;
use sve_bytes::{List, Name, NoMemory};
use sve_key::{FileText, Key, Value};
use sve_ordered::ordered;
use sve_text::Files;

/// Adds a name, where a file of this name is there.
fn add_name(files: &Files, name: &Name, names: &mut Vec<Name>) -> Result<(), NoMemory>
    ensures { OnOk result (names.new.items ≡ names.old.items ++ filter (is_there files.now.rows) (name.now ∷ [])) }
{
    if files.text(name).is_some() {
        names.push(name.copy()?)?;
    }
    Ok(())
}

/// The names of the files, as they stand.
#[tactic(auto, using(crate::proofs::Filtered::next_name))]
fn names_of(alloc: Global, files: &Files) -> Result<Vec<Name>, NoMemory>
    ensures { IfOk result (λ names. names.items ≡ filter (is_there files.now.rows) (names_in files.now.rows)) }
{
    let mut names = Vec::new(alloc);
    'files: for i in 0..files.count() {
        add_name(files, files.name(i), &mut names)?;
    }
    Ok(names)
}

/// The names of the files in byte order, each once. They stand so already, but what they are lent by does not say it.
fn names_there(alloc: Global, files: &Files) -> Result<List<Name>, NoMemory>
    ensures { IfOk result (λ names. names ≡ names_there files.now.rows) }
{
    ordered(names_of(alloc, files)?)
}

/// The value of an input with its stamp; none for a key whose value is computed.
///
/// # Errors
/// Only for want of memory.
pub fn input(alloc: Global, k: &Key, files: &Files) -> Result<Option<(Arc<Value>, u64)>, NoMemory>
    ensures { IfOk result (λ found. option_map (λ pair. (arc_value pair.0, pair.1)) found ≡ given_of files.now k.now) }
{
    match k {
        Key::Text(name) => {
            let stamp = files.stamp(name);
            let text = FileText::of(files.shared_text(alloc, name)?, stamp);
            Ok(Some((Arc::new(alloc, Value::Text(text))?, stamp)))
        }
        Key::Names => {
            let names = names_there(alloc, files)?;
            Ok(Some((Arc::new(alloc, Value::Names(names))?, files.names_stamp())))
        }
        _ => Ok(None),
    }
}

//! The elements of a design's units, and the names of these.
ghost use Rattle.std.specs.Prelude.{◌≡◌, None, IfOk, OnOk};
ghost use Rattle.std.specs.List.{filter};
ghost use Rattle.sve_front.specs.Units.{is_unit_name};
ghost use Rattle.sve_store.specs.Made.{Done};
ghost use Rattle.sve_key.specs.Values.{reading_in_value};
ghost use Rattle.sve_make.specs.Make.{gists_in};
ghost use Rattle.sve_making.specs.Added.{Adds};

use std::alloc::Global;
use sve_bytes::{Name, NoMemory};
use sve_index::FileElement;
use sve_key::{Reading, Value};

/// Whether a file of this name is a unit: its name ends in `.sv` or `.v` (own).
fn is_unit_name(name: &Name) -> bool
    ensures { result ≡ is_unit_name name.now }
{
    let bytes = name.bytes();
    bytes.ends_with(b".sv") || bytes.ends_with(b".v")
}

/// The names of those files that are units, in their order.
///
/// # Errors
/// Only for want of memory.
pub fn units_of(alloc: Global, names: &[Name]) -> Result<Vec<Name>, NoMemory>
    ensures { IfOk result (λ units. units.items ≡ filter is_unit_name names.now) }
{
    let mut units = Vec::new(alloc);
    for name in names {
        if is_unit_name(name) {
            units.push(name.copy()?)?;
        }
    }
    Ok(units)
}

/// Adds the element that a chunk is read as, where it is read as one.
#[tactic(auto, using(crate::proofs::Adding::adds_one, crate::proofs::Adding::adds_none))]
fn add_reading(
    file: &Name,
    n: u32,
    reading: &Reading,
    elements: &mut Vec<FileElement>,
) -> Result<(), NoMemory>
    ensures { OnOk result (Adds (Done (gists_in file.now n reading.now)) elements.old.items elements.new.items) }
{
    match reading.element()? {
        Some(element) => {
            elements.push(FileElement {
                file: file.copy()?,
                chunk: n,
                element,
            })?;
            Ok(())
        }
        None => Ok(()),
    }
}

/// Adds the element that the value of a chunk's key is read as; none where it is the value of another kind of key.
///
/// # Errors
/// Only for want of memory.
#[tactic(auto, using(crate::proofs::Adding::adds_none))]
pub fn add_value(
    file: &Name,
    n: u32,
    value: &Value,
    elements: &mut Vec<FileElement>,
) -> Result<(), NoMemory>
    ensures { OnOk result (Adds (Done (gists_in file.now n (reading_in_value value.now))) elements.old.items elements.new.items) }
{
    match value {
        Value::Element(reading) => add_reading(file, n, reading, elements),
        _ => Ok(()),
    }
}

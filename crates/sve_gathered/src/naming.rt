//! Names and texts as files hold them.
ghost use Rattle.std.specs.Prelude.{◌≡◌, IfOk, OnOk};
ghost use Rattle.sve_text.specs.Rows.{name_cmp};
ghost use Rattle.sve_ordered.specs.Ordered.{ordered};
ghost use Rattle.sve_key.specs.Values.{text_in_value};
ghost use Rattle.sve_gathered.specs.Told.{AddsText};

use std::alloc::Global;
use sve_bytes::{List, Name, NoMemory};
use sve_key::Value;
use sve_ordered::ordered;
use sve_text::Text;

/// The same names.
fn copies(alloc: Global, names: &[Name]) -> Result<Vec<Name>, NoMemory>
    ensures { IfOk result (λ all. all.items ≡ names.now) }
{
    let mut all = Vec::new(alloc);
    for name in names {
        all.push(name.copy()?)?;
    }
    Ok(all)
}

/// The names in byte order, each once. Those of a value stand so already, but what tells the value does not promise it.
pub(crate) fn in_order(alloc: Global, names: &[Name]) -> Result<List<Name>, NoMemory>
    ensures { IfOk result (λ all. all ≡ ordered name_cmp names.now) }
{
    ordered(copies(alloc, names)?)
}

/// Adds a file of this name with the text that the value is, where it is one that is there.
pub(crate) fn add_text(
    alloc: Global,
    name: &Name,
    value: &Value,
    files: &mut Vec<(Name, Text)>,
) -> Result<(), NoMemory>
    ensures { OnOk result (AddsText name.now (text_in_value value.now).text files.old.items files.new.items) }
{
    if let Some(text) = value.text()? {
        let bytes = List::of(Vec::from_slice(alloc, text.items())?);
        files.push((name.copy()?, Text::of(alloc, bytes)?))?;
    }
    Ok(())
}

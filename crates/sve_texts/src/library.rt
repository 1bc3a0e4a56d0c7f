//! The files of a row.
use std::alloc::Global;
use std::sync::Arc;
use sve_bytes::{List, Name, NoMemory};
use sve_prep::{Halt, Texts};
use sve_row::{decoded, name_of};

/// The files of a row: `m.sv`, and `a.svh`, which it may include. It notes the names that are asked for.
#[derive(Drop)]
pub struct Library {
    /// The files by their names, each of at most 1,048,576 bytes.
    pub files: Vec<(Name, Arc<List<u8>>)>,
    /// The names that were asked for, in order.
    pub asked: Vec<Name>,
}

impl Texts for Library {
    ghost use Rattle.std.specs.Prelude.{Some, None, []};

    ghost tells = { λ _ _ _. Unit {0} };

    ghost keeps = { λ _ _. Unit {0} };

    ghost halted = { λ _. None };

    ghost stops = { λ _. [] };

    ghost asked = { λ s. Some s.asked.items };

    ghost keeps_itself = { λ _. tt };

    ghost keeps_on = { λ _ _ _ _ _. tt };

    fn text(&mut self, name: &Name) -> Result<Option<Arc<List<u8>>>, Halt> {
        self.asked.push(name.copy()?)?;
        for (other, text) in &self.files {
            if other.bytes() == name.bytes() && text.items().len() <= 1_048_576 {
                return Ok(Some(Arc::try_clone(text)?));
            }
        }
        Ok(None)
    }
}

/// Adds a file whose text a field spells.
fn add_file(
    alloc: Global,
    files: &mut Vec<(Name, Arc<List<u8>>)>,
    name: &[u8],
    field: &str,
) -> Result<(), NoMemory> {
    let text = List::of(decoded(alloc, field)?);
    if let Some(name) = name_of(alloc, name)? {
        files.push((name, Arc::new(alloc, text)?))?;
    }
    Ok(())
}

/// The files whose texts a row spells, the second only where there is a ` | `.
pub fn library_of(alloc: Global, row: &str) -> Result<Library, NoMemory> {
    let mut files = Vec::new(alloc);
    match row.split_once(" | ") {
        Some((first, second)) => {
            add_file(alloc, &mut files, b"m.sv", first)?;
            add_file(alloc, &mut files, b"a.svh", second)?;
        }
        None => add_file(alloc, &mut files, b"m.sv", row)?,
    }
    Ok(Library {
        files,
        asked: Vec::new(alloc),
    })
}

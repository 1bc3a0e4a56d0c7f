//! What notes say, at the places of their tokens.
ghost use Rattle.std.specs.Prelude.{◌≡◌, ◌++◌, OnOk};
ghost use Rattle.std.specs.List.{flat_map};
ghost use Rattle.sve_front.specs.Readings.{AreCut};
ghost use Rattle.sve_diagnostics.specs.Diagnostics.{is_told, note_diags, told_diags};

use sve_bytes::NoMemory;
use sve_diag::{Code, Diag, Note};
use sve_front::{Unit, token_place};
use sve_table::Table;

/// Adds what a note says, at the place of its token.
#[tactic(auto, unfolding(crate::specs::Diagnostics::note_diags))]
fn add_note(units: &Table<Unit>, note: &Note, diags: &mut Vec<Diag>) -> Result<(), NoMemory>
    requires { AreCut units.now }
    ensures { OnOk result (diags.new.items ≡ diags.old.items ++ note_diags units.now note.now) }
{
    let Note {
        file,
        chunk,
        token,
        code,
        arg,
    } = note.copy()?;
    if let Some(place) = token_place(units, &file, chunk, token)? {
        diags.push(Diag { place, code, arg })?;
    }
    Ok(())
}

/// Adds what notes say, each at the place of its token.
pub(crate) fn add_notes(
    units: &Table<Unit>,
    notes: &[Note],
    diags: &mut Vec<Diag>,
) -> Result<(), NoMemory>
    requires { AreCut units.now }
    ensures { OnOk result (diags.new.items ≡ diags.old.items ++ flat_map (note_diags units.now) notes.now) }
{
    'notes: for note in notes {
        add_note(units, note, diags)?;
    }
    Ok(())
}

/// Whether a note of an instance with this code is told.
fn is_told(code: Code) -> bool
    ensures { result ≡ is_told code }
{
    !matches!(code, Code::N10)
}

/// Adds what a note of an instance says, where that is told.
fn add_told(units: &Table<Unit>, note: &Note, diags: &mut Vec<Diag>) -> Result<(), NoMemory>
    requires { AreCut units.now }
    ensures { OnOk result (diags.new.items ≡ diags.old.items ++ told_diags units.now note.now) }
{
    if is_told(note.code) {
        add_note(units, note, diags)?;
    }
    Ok(())
}

/// Adds what notes of instances say, as far as that is told.
pub(crate) fn add_all_told(
    units: &Table<Unit>,
    notes: &[Note],
    diags: &mut Vec<Diag>,
) -> Result<(), NoMemory>
    requires { AreCut units.now }
    ensures { OnOk result (diags.new.items ≡ diags.old.items ++ flat_map (told_diags units.now) notes.now) }
{
    'notes: for note in notes {
        add_told(units, note, diags)?;
    }
    Ok(())
}

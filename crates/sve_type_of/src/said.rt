ghost use Rattle.std.specs.Prelude.{◌≡◌, IfOk};
ghost use Rattle.sve_type_of.specs.TypeOf.{notes_in};

use std::alloc::Global;
use sve_bytes::{List, NoMemory};
use sve_diag::Note;
use sve_env::Env;
use sve_fault::Fault;
use sve_types::Ty;

/// The type of a written type, and what there is to say of it.
#[derive(Drop)]
pub struct Typed {
    /// The type. What is wrong with it is left out of it.
    pub ty: Ty,
    /// What there is to say, in the order of the text.
    pub notes: List<Note>,
}

/// What is said of faults, in order: nothing of those that are said elsewhere.
pub(crate) fn notes_in<E: Env>(
    alloc: Global,
    faults: Vec<Fault>,
    env: &E,
) -> Result<List<Note>, NoMemory>
    ensures { IfOk result (λ l. l ≡ notes_in (E.told env.now) faults.items) }
{
    let mut notes = Vec::new(alloc);
    'faults: for fault in faults {
        if let Some(note) = fault.note(env.file(), env.chunk())? {
            notes.push(note)?;
        }
    }
    Ok(List::of(notes))
}

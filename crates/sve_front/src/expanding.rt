ghost use Rattle.std.specs.Prelude.{◌≡◌, IfOk};
ghost use Rattle.sve_front.specs.Expansions.{expanded};

use crate::file_texts::FileTexts;
use std::alloc::{AllocError, Global};
use sve_bytes::{Name, NoMemory};
use sve_prep::{Expanded, Halt, prep};
use sve_text::Files;

/// The expansion of a file over the files of its revision (IEEE 1800-2017, clause 22). A file that is not there is as an empty one.
///
/// # Errors
/// Only for want of memory: the files tell of every name and stop no call.
pub fn expansion(alloc: Global, files: &Files, name: &Name) -> Result<Expanded, NoMemory>
    ensures { IfOk result (λ e. e ≡ expanded files.now.rows name.now) }
{
    match prep(alloc, &mut FileTexts { alloc, files }, name) {
        Ok(expanded) => Ok(expanded),
        Err(Halt::NoMemory) => Err(AllocError),
        Err(Halt::Stopped(_)) => unreachable!(),
    }
}

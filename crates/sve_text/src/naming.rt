ghost use Rattle.std.specs.Prelude.{◌≡◌, Some, None, if◌then◌else◌, IfOk};
ghost use Rattle.sve_bytes.specs.FileName.{is_file_name_of};

use std::alloc::{AllocError, Global};
use sve_bytes::{BadName, Name, NoMemory, is_file_name};

/// The name of a file, where the bytes are one: 1 to 255 of them, each a letter, a digit, `_`, `-`, `.` or `/`.
///
/// # Errors
/// Only for want of memory.
pub fn file_name(alloc: Global, bytes: &[u8]) -> Result<Option<Name>, NoMemory>
    ensures { IfOk result (λ o. o ≡ (if is_file_name_of bytes.now then Some bytes.now else None)) }
{
    if !is_file_name(bytes) {
        return Ok(None);
    }
    match Name::of(alloc, bytes) {
        Ok(name) => Ok(Some(name)),
        Err(BadName::NoMemory) => Err(AllocError),
        Err(BadName::Empty) => unreachable!(),
        Err(BadName::TooLong(_)) => unreachable!(),
    }
}

ghost use Rattle.std.specs.Prelude.{◌≡◌, ◌≤◌, length, IfOk, IsErrOf, Some, None};
ghost use Rattle.sve_macro.specs.Parts.{actuals_of};

use crate::part::part_at;
use std::alloc::{AllocError, AllocFailed, Global};
use sve_bytes::{List, Span};
use thiserror::Error;

/// Why a list of actuals was not read.
#[derive(Debug, Drop, Error)]
pub enum ActualFault {
    /// The list does not end in the text.
    #[error("a list of actual arguments does not end")]
    Open,
    /// There was no memory for the list.
    #[error("no memory for a list of actual arguments")]
    NoMemory,
}

impl<T: Drop> From<AllocFailed<T>> for ActualFault {
    ghost use Rattle.std.specs.Prelude.{◌≡◌};
    ghost use Rattle.sve_macro.specs.declared.actual_list.ActualFault.TheVariants.{NoMemory};

    ghost from_gives = { λ _ e. e ≡ NoMemory };

    fn from(_error: AllocFailed<T>) -> ActualFault {
        ActualFault::NoMemory
    }
}

impl From<AllocError> for ActualFault {
    ghost use Rattle.std.specs.Prelude.{◌≡◌};
    ghost use Rattle.sve_macro.specs.declared.actual_list.ActualFault.TheVariants.{NoMemory};

    ghost from_gives = { λ _ e. e ≡ NoMemory };

    fn from(_error: AllocError) -> ActualFault {
        ActualFault::NoMemory
    }
}

/// The actuals of a list whose `(` stands before `from`, in order and without white space at their
/// ends, and the place behind its `)`. An empty list has one empty actual (IEEE 1800-2017, 22.5.1).
///
/// # Errors
/// `Open` only where the list does not end in the text, and the actuals only where it does.
pub fn actuals(alloc: Global, text: &[u8], from: usize) -> Result<(List<Span>, usize), ActualFault>
    requires { from ≤ length text.now }
    ensures list { IfOk result (λ list. actuals_of text.now from ≡ Some list) }
    ensures within { IfOk result (λ list. list.1 ≤ length text.now) }
    ensures open { IsErrOf result ActualFault.Open → actuals_of text.now from ≡ None }
{
    let mut found = Vec::new(alloc);
    let mut at = from;
    'parts: while let Some(part) = part_at(alloc, text, at)? {
        found.push(part.span)?;
        at = part.end + 1;
        if text[part.end] == b')' {
            return Ok((List::of(found), at));
        }
    }
    Err(ActualFault::Open)
}

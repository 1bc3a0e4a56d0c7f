//! Evaluations whose nodes are not bounded.
ghost use Rattle.std.specs.Prelude.{◌≡◌, IfOk, Ok};
ghost use Rattle.sve_scoped.specs.Endless.{IsEnded, endless};

use std::alloc::AllocError;
use sve_bytes::NoMemory;
use sve_fault::{Fuel, Halted};

/// Fuel without an end: its count stands at its last value, so that nothing is over. It takes no memory.
pub fn endless() -> Fuel
    ensures { result ≡ endless }
{
    Fuel {
        used: 0,
        most: u64::MAX,
    }
}

/// What comes of an evaluation with such fuel, which is not over.
///
/// # Errors
/// For want of memory alone.
pub fn ended<T>(outcome: Result<T, Halted>) -> Result<T, NoMemory>
    requires { IsEnded outcome }
    ensures { IfOk result (λ t. outcome ≡ Ok t) }
{
    match outcome {
        Ok(value) => Ok(value),
        Err(Halted::NoMemory) => Err(AllocError),
        Err(Halted::Over) => unreachable!(),
    }
}

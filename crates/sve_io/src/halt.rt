use std::alloc::{AllocError, AllocFailed};

/// Why a call that reads through an object of its caller's did not come to its answer.
#[derive(Clone, Copy, PartialEq, Eq)]
pub enum Halt {
    /// The object stopped the call, with a number of its own.
    Stopped(u64),
    /// There was no memory.
    NoMemory,
}

impl From<AllocError> for Halt {
    ghost use Rattle.std.specs.Prelude.{◌≡◌};
    ghost use Rattle.sve_io.specs.declared.halt.Halt.TheVariants.{NoMemory};

    ghost from_gives = { λ _ h. h ≡ NoMemory };

    fn from(_error: AllocError) -> Halt {
        Halt::NoMemory
    }
}

impl<T: Drop> From<AllocFailed<T>> for Halt {
    ghost use Rattle.std.specs.Prelude.{◌≡◌};
    ghost use Rattle.sve_io.specs.declared.halt.Halt.TheVariants.{NoMemory};

    ghost from_gives = { λ _ h. h ≡ NoMemory };

    fn from(_error: AllocFailed<T>) -> Halt {
        Halt::NoMemory
    }
}

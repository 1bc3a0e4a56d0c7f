use std::alloc::AllocError;

/// Why a client left its commands.
#[derive(Clone, Copy, PartialEq, Eq)]
pub(crate) enum Stop {
    /// The history has as many entries as it may have.
    Full,
    /// There was no memory for a command.
    NoMemory,
}

impl From<AllocError> for Stop {
    ghost use Rattle.std.specs.Prelude.{◌≡◌};
    ghost use Rattle.sve_runner.specs.declared.stop.Stop.TheVariants.{NoMemory};

    ghost from_gives = { λ _ e. e ≡ NoMemory };

    fn from(_error: AllocError) -> Stop {
        Stop::NoMemory
    }
}

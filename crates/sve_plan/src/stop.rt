use std::alloc::{AllocError, AllocFailed};
use sve_fault::Halted;
use sve_io::Halt;

/// Why a call that follows a plan did not come to its end.
#[derive(Clone, Copy, PartialEq, Eq)]
pub enum Stop {
    /// The plan costs more than may be spent.
    Over,
    /// The object that it reads through halted the call, or there was no memory.
    Halted(Halt),
}

impl From<Halt> for Stop {
    ghost use Rattle.std.specs.Prelude.{◌≡◌};
    ghost use Rattle.sve_plan.specs.declared.stop.Stop.TheVariants as is_stop;

    ghost from_gives = { λ halt stop. stop ≡ is_stop.Halted halt };

    fn from(halt: Halt) -> Stop {
        Stop::Halted(halt)
    }
}

impl From<Halted> for Stop {
    ghost use Rattle.std.specs.Prelude.{◌≡◌};
    ghost use Rattle.sve_plan.specs.Follows.{stop_of};

    ghost from_gives = { λ halted stop. stop ≡ stop_of halted };

    fn from(halted: Halted) -> Stop {
        match halted {
            Halted::Over => Stop::Over,
            Halted::NoMemory => Stop::Halted(Halt::NoMemory),
        }
    }
}

impl From<AllocError> for Stop {
    ghost use Rattle.std.specs.Prelude.{◌≡◌};
    ghost use Rattle.sve_plan.specs.declared.stop.Stop.TheVariants as is_stop;
    ghost use Rattle.sve_io.specs.declared.halt.Halt.TheVariants.{NoMemory};

    ghost from_gives = { λ _ stop. stop ≡ is_stop.Halted NoMemory };

    fn from(_error: AllocError) -> Stop {
        Stop::Halted(Halt::NoMemory)
    }
}

impl<T: Drop> From<AllocFailed<T>> for Stop {
    ghost use Rattle.std.specs.Prelude.{◌≡◌};
    ghost use Rattle.sve_plan.specs.declared.stop.Stop.TheVariants as is_stop;
    ghost use Rattle.sve_io.specs.declared.halt.Halt.TheVariants.{NoMemory};

    ghost from_gives = { λ _ stop. stop ≡ is_stop.Halted NoMemory };

    fn from(_error: AllocFailed<T>) -> Stop {
        Stop::Halted(Halt::NoMemory)
    }
}

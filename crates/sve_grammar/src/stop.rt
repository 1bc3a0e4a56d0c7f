ghost use Rattle.std.specs.Prelude.{◌≡◌};
ghost use Rattle.sve_grammar.specs.declared.stop.Stop.TheVariants.{NoMemory};

use std::alloc::{AllocError, AllocFailed};

/// Why a parser gives no tree.
#[derive(Drop)]
pub enum Stop {
    /// The grammar's machine stops here.
    At {
        /// The number of the next token, counted from 0.
        index: u32,
        /// Whether the token fits, and what it begins would be deeper than 512.
        deep: bool,
    },
    /// Memory ran out.
    NoMemory,
}

impl From<AllocError> for Stop {
    ghost from_gives = { λ _ e. e ≡ NoMemory };

    fn from(_e: AllocError) -> Stop {
        Stop::NoMemory
    }
}

impl<T: Drop> From<AllocFailed<T>> for Stop {
    ghost from_gives = { λ _ e. e ≡ NoMemory };

    fn from(_e: AllocFailed<T>) -> Stop {
        Stop::NoMemory
    }
}

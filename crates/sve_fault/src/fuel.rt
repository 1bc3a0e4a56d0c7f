ghost use Rattle.std.specs.Prelude.{◌≡◌, IfErr};
ghost use Rattle.sve_fault.specs.Counts.{IsFuel, Counts};
ghost use Rattle.sve_fault.specs.declared.fuel.Halted.TheVariants.{NoMemory, Over};

use std::alloc::AllocError;

/// How many nodes of expressions may be evaluated, and how many have been. The count stands at its last value, 2^64 - 1, so
/// that with this as the most there is no bound.
#[derive(Clone, Copy)]
pub struct Fuel {
    /// The nodes that were counted so far.
    pub used: u64,
    /// The most that may be.
    pub most: u64,
}

/// Why nodes were not counted to their end.
#[derive(Clone, Copy)]
pub enum Halted {
    /// They pass the most that may be evaluated.
    Over,
    /// Memory ran out.
    NoMemory,
}

impl From<AllocError> for Halted {
    ghost from_gives = { λ _ e. e ≡ NoMemory };

    fn from(_error: AllocError) -> Halted {
        Halted::NoMemory
    }
}

/// One more node. It refuses where there would be more than the most, and then counts nothing.
pub fn spend(fuel: &mut Fuel) -> Result<(), Halted>
    requires { IsFuel fuel.old }
    ensures counts { Counts result fuel.old fuel.new 1 }
    ensures over { IfErr result (λ halted. halted ≡ Over) }
    ensures stays { IfErr result (λ _. fuel.new ≡ fuel.old) }
{
    if fuel.used < fuel.most {
        fuel.used += 1;
        return Ok(());
    }
    if fuel.most < u64::MAX {
        return Err(Halted::Over);
    }
    Ok(())
}

//! What holds of the definition of rounds. The clause of each function is a law, and its body does nothing.
ghost use Rattle.sve_package_order.specs.Cycles.{CyclesHaveNoRound};

/// A package on a cycle of imports, or from which imports lead to one, never has its turn, so it has no round.
pub fn cycles_have_no_round()
    ensures { CyclesHaveNoRound }
{}

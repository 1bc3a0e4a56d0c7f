ghost use Rattle.std.specs.Prelude.{ℕ, ◌<◌, ◌≤◌};
ghost use Rattle.std.specs.List.{Contains};
ghost use Rattle.sve_facts.specs.Bodies.{Design};
ghost use Rattle.sve_design.specs.declared.visits.Visit.{Visit};
ghost use Rattle.sve_design.specs.Walk.{instances};

/// Each instance that is visited has a depth of 1 to 64.
pub fn depths_are_within()
    ensures { (design : Design) (visit : Visit) → Contains (instances design) visit → (0 < visit.depth) × (visit.depth ≤ 64) }
{}

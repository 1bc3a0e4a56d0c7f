//! What holds of the definitions. The clause of each function is a law, and its body does nothing.
ghost use Rattle.std.specs.Prelude.{◌≡◌, ◌++◌, ℕ};
ghost use Rattle.std.specs.List.{Contains};
ghost use Rattle.sve_bytes.specs.declared.path.Path.{Path};
ghost use Rattle.sve_facts.specs.Bodies.{Design};
ghost use Rattle.sve_design.specs.declared.visits.Visit.{Visit};
ghost use Rattle.sve_design.specs.Walk.{instances};
ghost use Rattle.sve_find.specs.Ends.{FoundValue, Here};
ghost use Rattle.sve_find.specs.Along.{along, find, visits};

/// Each instance on the way along a path is one of the walk over all instances.
pub fn what_is_found_is_visited()
    ensures { (design : Design) (path : Path) (visit : Visit) → Contains (visits (along design path)) visit → Contains (instances design) visit }
{}

/// What is found stands on the path: the steps of its own path, and those behind it, are the steps of the path (IEEE 1800-2017, 23.6).
pub fn what_is_found_stands_on_the_path()
    ensures { (design : Design) (budget : ℕ) (path : Path) (found : FoundValue) → find design budget path ≡ Here found → found.visit.path.steps ++ found.rest ≡ path.steps }
{}

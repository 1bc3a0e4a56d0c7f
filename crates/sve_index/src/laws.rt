//! What holds of the definitions. The clause of each function is a law, and its body does nothing.
ghost use Rattle.std.specs.Prelude.{◌↔◌, ℕ, List};
ghost use Rattle.std.specs.Bool.{Decides};
ghost use Rattle.std.specs.List.{Contains};
ghost use Rattle.sve_index.specs.declared.source.FileElement.{FileElement};
ghost use Rattle.sve_index.specs.Instances.{Instantiates, instantiates};
ghost use Rattle.sve_index.specs.Tops.{IsTop};
ghost use Rattle.sve_index.specs.Whole.{index_of};

/// The test whether an element instantiates a name answers yes exactly where one of its items does (IEEE 1800-2017, 23.3.2).
pub fn instances_are_told()
    ensures { (source : FileElement) (name : List ℕ) → Decides (instantiates name source) (Instantiates source name) }
{}

/// The tops of the index are the names of those modules that are the first of their name, whose parameters all have values of their
/// own, and that no element instantiates (23.3.1 and 6.20.1).
pub fn tops_are_told()
    ensures { (sources : List FileElement) (name : List ℕ) → Contains (index_of sources).tops name ↔ IsTop sources name }
{}

//! What holds of the definitions. The clause of each function is a law, and its body does nothing.
ghost use Rattle.std.specs.Prelude.{ℕ, Bool, List, ◌≤◌, length};
ghost use Rattle.sve_generate.specs.BlockNames.{IsBlockName, block_name, block_text};

/// The name of a block without a label is `genblk`, zeros and the number of its construct: not declared, or as long as a name may
/// be, with as few zeros as that allows (27.6).
pub fn block_names_are_the_first_free()
    ensures { (taken : List ℕ → Bool) (number : ℕ) → length (block_text 0 number) ≤ 1024 → IsBlockName taken number (block_name taken number) }
{}

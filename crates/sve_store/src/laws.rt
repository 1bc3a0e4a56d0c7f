//! What holds of the values of any kinds. The clause of each function is a law, and its body does nothing.
ghost use Rattle.std.specs.Prelude.{◌≡◌, ℕ};
ghost use Rattle.sve_text.specs.Files.{FilesValue};
ghost use Rattle.sve_store.specs.Made.{values_of};
ghost use Rattle.sve_store.specs.Values.{IsValue, IsTable};

use crate::kinds::Ending;

/// At any files each key has a value at each fuel.
pub fn each_key_has_a_value<K: Ending>()
    ensures { (files : FilesValue) → (table : K.Key → ℕ → K.Value) × IsTable K.Key.cmp (values_of (K.given files)) K.make table }
{}

/// No key has two values at the same files and the same fuel.
pub fn no_key_has_two_values<K: Ending>()
    ensures { (files : FilesValue) (k : K.Key) (f : ℕ) (v w : K.Value) → IsValue K.Key.cmp (values_of (K.given files)) K.make k f v → IsValue K.Key.cmp (values_of (K.given files)) K.make k f w → v ≡ w }
{}

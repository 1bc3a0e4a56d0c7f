//! What each kind of key is made of, over what is told of other keys, and what holds of these definitions. The clause of each
//! function is a law, and its body does nothing.
#![tactic(auto)]

ghost use Rattle.std.specs.Prelude.{◌≡◌, ◌≤◌, ◌<◌, ℕ, List, Option, Some, None, false, length, map};
ghost use Rattle.std.specs.List.{flat_map};
ghost use Rattle.sve_text.specs.Files.{FilesValue};
ghost use Rattle.sve_text.specs.Rows.{Row};
ghost use Rattle.sve_history.specs.Histories.{HistoryValue, IsOpening, files_at};
ghost use Rattle.sve_index.specs.declared.source.FileElement.{FileElement};
ghost use Rattle.sve_front.specs.Elements.{AreElementsOf};
ghost use Rattle.sve_gist.specs.Gists.{gist_of};
ghost use Rattle.sve_gist.specs.Index.{index_of_gists};
ghost use Rattle.sve_store.specs.Made.{Needs, values_of, IsOneOf};
ghost use Rattle.sve_key.specs.KeyOrder.{rank_of};
ghost use Rattle.sve_key.specs.declared.key.Key.{Key};
ghost use Rattle.sve_key.specs.declared.key.Key.TheVariants.{Tokens, Chunks, Index};
ghost use Rattle.sve_key.specs.declared.value.Value.{Value};
ghost use Rattle.sve_key.specs.declared.value.Value.TheVariants as values;
ghost use Rattle.sve_make.specs.Make.{make_of, given_of, input_of, tokens_made};
ghost use Rattle.sve_make.specs.AtFiles.{IsValueAt, TellsAt, state_at, chunks_at, reads_of};
ghost use Rattle.sve_make.specs.IndexAt.{gists_at, unit_gists};

/// The stamp of an input is a revision that is not later, and at it the input had the value that it has now.
pub fn stamps_name_values()
    ensures { (history : HistoryValue) (r : ℕ) → IsOpening history.opening → r ≤ length history.entries → (k : Key) (v : Value) (s : ℕ) → given_of (files_at history.opening history.entries r) k ≡ Some (v, s) → (s ≤ r) × (values_of (given_of (files_at history.opening history.entries s)) k ≡ Some v) }
{}

/// No kind looks at the fuel.
pub fn fuel_does_not_matter()
    ensures { (k : Key) (f g : ℕ) (told : Key → Option Value) → make_of k f told ≡ make_of k g told }
{}

/// A key needs keys of lower rank alone, whatever is told.
pub fn needs_have_lower_ranks()
    ensures { (k : Key) (f : ℕ) (told : Key → Option Value) (j : Key) → input_of k ≡ false → make_of k f told ≡ Needs j → rank_of j < rank_of k }
{}

/// A key that is needed at some files is not told yet, and is one of those that are read there.
pub fn needs_are_read()
    ensures { (files : FilesValue) (k : Key) (f : ℕ) (told : Key → Option Value) (j : Key) → input_of k ≡ false → TellsAt files told → make_of k f told ≡ Needs j → (told j ≡ None) × IsOneOf (reads_of files k f) j }
{}

/// The tokens, the chunks and the index that the files have.
pub fn values_are_those_of_the_files()
    ensures tokens { (files : FilesValue) (file : List ℕ) (f : ℕ) (v : Value) → IsValueAt files (Tokens file) f v → v ≡ tokens_made (state_at files.rows file) }
    ensures chunks { (files : FilesValue) (file : List ℕ) (f : ℕ) (v : Value) → IsValueAt files (Chunks file) f v → v ≡ values.Chunks (chunks_at files.rows file) }
    ensures index { (files : FilesValue) (f : ℕ) (v : Value) → IsValueAt files Index f v → v ≡ values.Index (index_of_gists (gists_at files.rows)) }
{}

/// What the index takes from the elements of units is what it takes from the words of their chunks (IEEE 1800-2017, 3.13).
pub fn elements_have_these_gists()
    ensures { (rows : List Row) (names : List (List ℕ)) (sources : List FileElement) → AreElementsOf rows names sources → map gist_of sources ≡ flat_map (unit_gists rows) names }
{}

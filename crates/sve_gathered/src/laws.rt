//! What holds of the files that are gathered. The clause of each function is a law, and its body does nothing.
ghost use Rattle.std.specs.Prelude.{◌≡◌, ℕ, List};
ghost use Rattle.sve_text.specs.Files.{FilesValue};
ghost use Rattle.sve_text.specs.Rows.{text_of};
ghost use Rattle.sve_store.specs.Made.{values_of};
ghost use Rattle.sve_store.specs.Values.{IsTable};
ghost use Rattle.sve_key.specs.KeyOrder.{key_cmp};
ghost use Rattle.sve_key.specs.Parts.{names_there};
ghost use Rattle.sve_key.specs.declared.key.Key.{Key};
ghost use Rattle.sve_key.specs.declared.value.Value.{Value};
ghost use Rattle.sve_make.specs.Make.{given_of, make_of};
ghost use Rattle.sve_gathered.specs.Gathered.{rows_by};

/// Over the values of all keys at some files, the files that are gathered have the names and the texts of these.
pub fn the_same_files_are_gathered()
    ensures texts { (files : FilesValue) (table : Key → ℕ → Value) → IsTable key_cmp (values_of (given_of files)) make_of table → (name : List ℕ) → text_of (rows_by table) name ≡ text_of files.rows name }
    ensures names { (files : FilesValue) (table : Key → ℕ → Value) → IsTable key_cmp (values_of (given_of files)) make_of table → names_there (rows_by table) ≡ names_there files.rows }
{}

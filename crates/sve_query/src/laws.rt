//! What holds of the answers of queries. The clause of each function is a law, and its body does nothing.
ghost use Rattle.std.specs.Prelude.{◌≡◌, ℕ, List, IsTrue};
ghost use Rattle.sve_text.specs.Rows.{Row, IsInOrder};
ghost use Rattle.sve_front.specs.Fronts.{AreTops};
ghost use Rattle.sve_text.specs.Files.{FilesValue};
ghost use Rattle.sve_command.specs.declared.commands.Query.{Query};
ghost use Rattle.sve_store.specs.Made.{values_of};
ghost use Rattle.sve_store.specs.Values.{IsAnswer};
ghost use Rattle.sve_store.specs.declared.answer.Answer.{Answer};
ghost use Rattle.sve_key.specs.KeyOrder.{key_cmp};
ghost use Rattle.sve_make.specs.Make.{given_of, make_of};
ghost use Rattle.sve_query.specs.Answering.{answers_by};
ghost use Rattle.sve_query.specs.AnswersAt.{index_at, Answers, has_one_answer};

/// What a query may be answered over the values of all keys at some files is what it may be answered at the files.
pub fn answers_are_those_of_the_files()
    ensures { (files : FilesValue) (query : Query) (budget : ℕ) (answer : Answer) → IsAnswer key_cmp (values_of (given_of files)) make_of answers_by query budget answer → Answers files.rows query budget answer }
{}

/// A query of which nothing is elaborated has one answer at the same files, within whatever budgets it is asked.
pub fn what_elaborates_nothing_has_one_answer()
    ensures { (rows : List Row) (query : Query) → IsTrue (has_one_answer query) → (budget other : ℕ) (answer another : Answer) → Answers rows query budget answer → Answers rows query other another → answer ≡ another }
{}

/// At files whose rows stand in order, as those of every revision do, the tops that are found from the elements of all units are those
/// of the files.
pub fn the_front_finds_what_the_files_have()
    ensures { (rows : List Row) → IsInOrder rows → (tops : List (List ℕ)) → AreTops rows tops → tops ≡ (index_at rows).tops }
{}

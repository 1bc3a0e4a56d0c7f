//! What holds of the definitions. The clause of each function is a law, and its body does nothing.
ghost use Rattle.sve_macro.specs.Laws.{ActualsSpellTheText, BracketsAreBalanced, PlainTextStays};

/// The actuals with their blanks and separators are the text that was read, up to the place behind
/// the list's `)`.
#[tactic(auto, using(crate::proofs::Spelling::actuals_spell_the_text))]
pub fn actuals_spell_the_text()
    ensures { ActualsSpellTheText }
{}

/// An actual closes each `(` that it opens and no other, and one before a comma closes each bracket
/// that it opens outside parentheses.
pub fn brackets_are_balanced()
    ensures { BracketsAreBalanced }
{}

/// A text without formals and backticks is left as it is.
#[tactic(auto, using(crate::proofs::PlainTexts::plain_text_stays))]
pub fn plain_text_stays()
    ensures { PlainTextStays }
{}

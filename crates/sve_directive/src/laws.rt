//! What holds of the definitions. The clause of each function is a law, and its body does nothing.
ghost use Rattle.sve_directive.specs.Laws.{PiecesSpellTheText, EachPieceHasAByte, JoiningKeepsLineFeeds};

/// The pieces of a text, one after the other, are the text: nothing is lost between comments,
/// string literals, escaped identifiers and other bytes.
pub fn pieces_spell_the_text()
    ensures { PiecesSpellTheText }
{}

/// Each piece of a text has a byte.
pub fn each_piece_has_a_byte()
    ensures { EachPieceHasAByte }
{}

/// Where lines of a definition are joined, each line feed stays.
pub fn joining_keeps_line_feeds()
    ensures { JoiningKeepsLineFeeds }
{}

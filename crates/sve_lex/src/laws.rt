ghost use Rattle.sve_lex.specs.OneList.{OneList, NothingLost};

/// Every text is cut into pieces in one way, in which each piece is the longest that begins at its place, and the pieces
/// joined are the text again.
pub fn text_has_one_list_of_pieces()
    ensures one { OneList }
    ensures all { NothingLost }
{}

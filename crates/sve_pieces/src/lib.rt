//! The law that ties the three readers of strings, comments and escaped identifiers together: the preprocessor at the head
//! of a text, the substitution in a macro's text, and the lexer in the expanded text.
#![tactic(auto)]

ghost use Rattle.sve_pieces.specs.SamePieces.{SameStrings, SameComments, SameIdentifiers};

/// What the preprocessor and the substitution leave unread as one piece is one piece of the lexer, whatever stands behind
/// it (IEEE 1800-2017, 5.4, 5.6.1 and 5.9). So a string, a comment or an escaped identifier that ends in its file or macro
/// ends there in the expanded text too, and no backtick or formal is looked for in what the lexer takes as one.
pub fn readers_agree()
    ensures strings { SameStrings }
    ensures comments { SameComments }
    ensures identifiers { SameIdentifiers }
{}

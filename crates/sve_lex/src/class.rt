use sve_token::Kind;

/// What a piece of a text is (IEEE 1800-2017, clause 5).
#[derive(Clone, Copy, PartialEq, Eq)]
pub enum Class {
    /// White space, a comment or an attribute: it stands between tokens and is left out.
    Separator,
    /// A token of this kind.
    Lexeme(Kind),
}

use crate::{Keyword, Reserved};

/// The kind of a token (IEEE 1800-2017, clause 5): a class of spellings, one keyword, or one operator. Two tokens are of
/// one kind exactly where their kinds are equal.
#[derive(Clone, Copy, PartialEq, Eq)]
pub enum Kind {
    /// An identifier, simple or escaped (5.6).
    Identifier,
    /// The name of a system task or function, from its `$` on (5.6.3).
    SystemName,
    /// A decimal number without a base (5.7.1).
    Decimal,
    /// The base and the digits of a based number; its size, if there is one, is a token of its own (5.7.1).
    Based,
    /// An unbased literal: `'0`, `'1`, `'x` or `'z` (5.7.1).
    Unbased,
    /// A string, with its quotes (5.9).
    Text,
    /// Bytes that are no token: what does not end, a name that is too long, or a byte that begins nothing (own).
    Bad,
    /// A keyword that the grammar has a rule with (Annex B).
    Keyword(Keyword),
    /// A keyword that no rule of the grammar names (Annex B).
    Reserved(Reserved),
    /// `(`.
    LeftParen,
    /// `)`.
    RightParen,
    /// `[`.
    LeftBracket,
    /// `]`.
    RightBracket,
    /// `{`.
    LeftBrace,
    /// `}`.
    RightBrace,
    /// `;`.
    Semicolon,
    /// `:`.
    Colon,
    /// `,`.
    Comma,
    /// `.`.
    Dot,
    /// `#`.
    Hash,
    /// `@`.
    At,
    /// `?`.
    Question,
    /// `=`.
    Assign,
    /// `+`.
    Plus,
    /// `-`.
    Minus,
    /// `*`.
    Star,
    /// `/`.
    Slash,
    /// `%`.
    Percent,
    /// `&`.
    Ampersand,
    /// `|`.
    Pipe,
    /// `^`.
    Caret,
    /// `~`.
    Tilde,
    /// `!`.
    Bang,
    /// `<`.
    Less,
    /// `>`.
    Greater,
    /// `'`.
    Apostrophe,
    /// `'{`.
    ApostropheLeftBrace,
    /// `::`.
    ColonColon,
    /// `.*`.
    DotStar,
    /// `++`.
    PlusPlus,
    /// `--`.
    MinusMinus,
    /// `**`.
    StarStar,
    /// `==`.
    LogicalEquality,
    /// `!=`.
    LogicalInequality,
    /// `===`.
    CaseEquality,
    /// `!==`.
    CaseInequality,
    /// `==?`.
    WildcardEquality,
    /// `!=?`.
    WildcardInequality,
    /// `&&`.
    LogicalAnd,
    /// `||`.
    LogicalOr,
    /// `~&`.
    TildeAmpersand,
    /// `~|`.
    TildePipe,
    /// `~^`.
    TildeCaret,
    /// `^~`.
    CaretTilde,
    /// `<<`.
    LogicalShiftLeft,
    /// `>>`.
    LogicalShiftRight,
    /// `<<<`.
    ArithmeticShiftLeft,
    /// `>>>`.
    ArithmeticShiftRight,
    /// `<=`.
    LessEqual,
    /// `>=`.
    GreaterEqual,
    /// `->`.
    Arrow,
    /// `<->`.
    DoubleArrow,
    /// `+:`.
    PlusColon,
    /// `-:`.
    MinusColon,
    /// `+=`.
    PlusAssign,
    /// `-=`.
    MinusAssign,
    /// `*=`.
    StarAssign,
    /// `/=`.
    SlashAssign,
    /// `%=`.
    PercentAssign,
    /// `&=`.
    AmpersandAssign,
    /// `|=`.
    PipeAssign,
    /// `^=`.
    CaretAssign,
    /// `<<=`.
    LogicalShiftLeftAssign,
    /// `>>=`.
    LogicalShiftRightAssign,
    /// `<<<=`.
    ArithmeticShiftLeftAssign,
    /// `>>>=`.
    ArithmeticShiftRightAssign,
}

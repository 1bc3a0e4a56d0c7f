ghost use Rattle.std.specs.Prelude.{◌≡◌};
ghost use Rattle.sve_same.specs.Kinds.{place_of, word_of, reserved_of};

use sve_token::{Keyword, Kind, Reserved};

/// The number of a kind; all keywords of the grammar have one, and all others.
pub(crate) fn place_of(kind: Kind) -> u32
    ensures { result ≡ place_of kind }
{
    match kind {
        Kind::Keyword(_) => 0,
        Kind::Identifier => 1,
        Kind::SystemName => 2,
        Kind::Decimal => 3,
        Kind::Based => 4,
        Kind::Unbased => 5,
        Kind::Text => 6,
        Kind::Bad => 7,
        Kind::LeftParen => 8,
        Kind::RightParen => 9,
        Kind::LeftBracket => 10,
        Kind::RightBracket => 11,
        Kind::LeftBrace => 12,
        Kind::RightBrace => 13,
        Kind::Semicolon => 14,
        Kind::Colon => 15,
        Kind::Comma => 16,
        Kind::Dot => 17,
        Kind::Hash => 18,
        Kind::At => 19,
        Kind::Question => 20,
        Kind::Assign => 21,
        Kind::Plus => 22,
        Kind::Minus => 23,
        Kind::Star => 24,
        Kind::Slash => 25,
        Kind::Percent => 26,
        Kind::Ampersand => 27,
        Kind::Pipe => 28,
        Kind::Caret => 29,
        Kind::Tilde => 30,
        Kind::Bang => 31,
        Kind::Less => 32,
        Kind::Greater => 33,
        Kind::Apostrophe => 34,
        Kind::ApostropheLeftBrace => 35,
        Kind::ColonColon => 36,
        Kind::DotStar => 37,
        Kind::PlusPlus => 38,
        Kind::MinusMinus => 39,
        Kind::StarStar => 40,
        Kind::LogicalEquality => 41,
        Kind::LogicalInequality => 42,
        Kind::CaseEquality => 43,
        Kind::CaseInequality => 44,
        Kind::WildcardEquality => 45,
        Kind::WildcardInequality => 46,
        Kind::LogicalAnd => 47,
        Kind::LogicalOr => 48,
        Kind::TildeAmpersand => 49,
        Kind::TildePipe => 50,
        Kind::TildeCaret => 51,
        Kind::CaretTilde => 52,
        Kind::LogicalShiftLeft => 53,
        Kind::LogicalShiftRight => 54,
        Kind::ArithmeticShiftLeft => 55,
        Kind::ArithmeticShiftRight => 56,
        Kind::LessEqual => 57,
        Kind::GreaterEqual => 58,
        Kind::Arrow => 59,
        Kind::DoubleArrow => 60,
        Kind::PlusColon => 61,
        Kind::MinusColon => 62,
        Kind::PlusAssign => 63,
        Kind::MinusAssign => 64,
        Kind::StarAssign => 65,
        Kind::SlashAssign => 66,
        Kind::PercentAssign => 67,
        Kind::AmpersandAssign => 68,
        Kind::PipeAssign => 69,
        Kind::CaretAssign => 70,
        Kind::LogicalShiftLeftAssign => 71,
        Kind::LogicalShiftRightAssign => 72,
        Kind::ArithmeticShiftLeftAssign => 73,
        Kind::ArithmeticShiftRightAssign => 74,
        Kind::Reserved(_) => 75,
    }
}

/// The keyword of the grammar that a kind is of; where it is none, any.
pub(crate) fn word_of(kind: Kind) -> Keyword
    ensures { result ≡ word_of kind }
{
    match kind {
        Kind::Keyword(word) => word,
        _ => Keyword::KwModule,
    }
}

/// The keyword of a kind that no rule names; where it is none, any.
pub(crate) fn reserved_of(kind: Kind) -> Reserved
    ensures { result ≡ reserved_of kind }
{
    match kind {
        Kind::Reserved(word) => word,
        _ => Reserved::KwClass,
    }
}

//! What kinds of tokens are called.
use sve_bytes::{Keyword, NoMemory, keywords_from};
use sve_token::{Kind, keyword};

/// The kinds that are no keyword, with what they are called.
const KINDS: &[(Kind, &str)] = &[
    (Kind::Identifier, "Identifier"),
    (Kind::SystemName, "SystemName"),
    (Kind::Decimal, "Decimal"),
    (Kind::Based, "Based"),
    (Kind::Unbased, "Unbased"),
    (Kind::Text, "Text"),
    (Kind::Bad, "Bad"),
    (Kind::LeftParen, "LeftParen"),
    (Kind::RightParen, "RightParen"),
    (Kind::LeftBracket, "LeftBracket"),
    (Kind::RightBracket, "RightBracket"),
    (Kind::LeftBrace, "LeftBrace"),
    (Kind::RightBrace, "RightBrace"),
    (Kind::Semicolon, "Semicolon"),
    (Kind::Colon, "Colon"),
    (Kind::Comma, "Comma"),
    (Kind::Dot, "Dot"),
    (Kind::Hash, "Hash"),
    (Kind::At, "At"),
    (Kind::Question, "Question"),
    (Kind::Assign, "Assign"),
    (Kind::Plus, "Plus"),
    (Kind::Minus, "Minus"),
    (Kind::Star, "Star"),
    (Kind::Slash, "Slash"),
    (Kind::Percent, "Percent"),
    (Kind::Ampersand, "Ampersand"),
    (Kind::Pipe, "Pipe"),
    (Kind::Caret, "Caret"),
    (Kind::Tilde, "Tilde"),
    (Kind::Bang, "Bang"),
    (Kind::Less, "Less"),
    (Kind::Greater, "Greater"),
    (Kind::Apostrophe, "Apostrophe"),
    (Kind::ApostropheLeftBrace, "ApostropheLeftBrace"),
    (Kind::ColonColon, "ColonColon"),
    (Kind::DotStar, "DotStar"),
    (Kind::PlusPlus, "PlusPlus"),
    (Kind::MinusMinus, "MinusMinus"),
    (Kind::StarStar, "StarStar"),
    (Kind::LogicalEquality, "LogicalEquality"),
    (Kind::LogicalInequality, "LogicalInequality"),
    (Kind::CaseEquality, "CaseEquality"),
    (Kind::CaseInequality, "CaseInequality"),
    (Kind::WildcardEquality, "WildcardEquality"),
    (Kind::WildcardInequality, "WildcardInequality"),
    (Kind::LogicalAnd, "LogicalAnd"),
    (Kind::LogicalOr, "LogicalOr"),
    (Kind::TildeAmpersand, "TildeAmpersand"),
    (Kind::TildePipe, "TildePipe"),
    (Kind::TildeCaret, "TildeCaret"),
    (Kind::CaretTilde, "CaretTilde"),
    (Kind::LogicalShiftLeft, "LogicalShiftLeft"),
    (Kind::LogicalShiftRight, "LogicalShiftRight"),
    (Kind::ArithmeticShiftLeft, "ArithmeticShiftLeft"),
    (Kind::ArithmeticShiftRight, "ArithmeticShiftRight"),
    (Kind::LessEqual, "LessEqual"),
    (Kind::GreaterEqual, "GreaterEqual"),
    (Kind::Arrow, "Arrow"),
    (Kind::DoubleArrow, "DoubleArrow"),
    (Kind::PlusColon, "PlusColon"),
    (Kind::MinusColon, "MinusColon"),
    (Kind::PlusAssign, "PlusAssign"),
    (Kind::MinusAssign, "MinusAssign"),
    (Kind::StarAssign, "StarAssign"),
    (Kind::SlashAssign, "SlashAssign"),
    (Kind::PercentAssign, "PercentAssign"),
    (Kind::AmpersandAssign, "AmpersandAssign"),
    (Kind::PipeAssign, "PipeAssign"),
    (Kind::CaretAssign, "CaretAssign"),
    (Kind::LogicalShiftLeftAssign, "LogicalShiftLeftAssign"),
    (Kind::LogicalShiftRightAssign, "LogicalShiftRightAssign"),
    (Kind::ArithmeticShiftLeftAssign, "ArithmeticShiftLeftAssign"),
    (
        Kind::ArithmeticShiftRightAssign,
        "ArithmeticShiftRightAssign",
    ),
];

/// What a kind that is no keyword is called.
fn name_of_kind(kind: Kind) -> Option<&'static str> {
    for (other, name) in KINDS {
        if *other == kind {
            return Some(*name);
        }
    }
    None
}

/// The one of these words that has this kind.
fn word_among(words: &[Keyword], kind: Kind) -> Option<&[u8]> {
    for word in words {
        if keyword(word.text) == Some(kind) {
            return Some(word.text);
        }
    }
    None
}

/// The keyword that has this kind, or nothing where none has it.
fn word_of(kind: Kind) -> &'static [u8] {
    for first in b'a'..=b'z' {
        if let Some(word) = word_among(keywords_from(first), kind) {
            return word;
        }
    }
    b"".as_slice()
}

/// Adds a word without its underscores, and with a capital at its head and behind each of them.
fn add_capitals(out: &mut String, word: &[u8]) -> Result<(), NoMemory> {
    let mut is_capital = true;
    for byte in word {
        let letter = if is_capital {
            byte.to_ascii_uppercase()
        } else {
            *byte
        };
        is_capital = letter == b'_';
        if !is_capital {
            out.push(char::from(letter))?;
        }
    }
    Ok(())
}

/// Adds what a kind is called: that of the keyword `always_ff` is `Keyword(KwAlwaysFf)`.
pub fn add_kind(out: &mut String, kind: Kind) -> Result<(), NoMemory> {
    match name_of_kind(kind) {
        Some(name) => out.push_str(name),
        None => {
            out.push_str("Keyword(Kw")?;
            add_capitals(out, word_of(kind))?;
            out.push(')')
        }
    }
}

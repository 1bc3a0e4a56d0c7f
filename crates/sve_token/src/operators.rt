ghost use Rattle.std.specs.Prelude.{◌≡◌, IsTrue};
ghost use Rattle.sve_token.specs.Operators.{operators, entries, entries_after, descends};

use crate::Kind;

/// An operator or a mark of punctuation, by what follows its first byte.
#[derive(Clone, Copy)]
pub struct Operator {
    /// Its bytes after the first, none to three.
    pub rest: &'static [u8],
    /// Its kind.
    pub kind: Kind,
}

static LEFT_PAREN: [Operator; 1] = [Operator {
    rest: b"",
    kind: Kind::LeftParen,
}];

static RIGHT_PAREN: [Operator; 1] = [Operator {
    rest: b"",
    kind: Kind::RightParen,
}];

static LEFT_BRACKET: [Operator; 1] = [Operator {
    rest: b"",
    kind: Kind::LeftBracket,
}];

static RIGHT_BRACKET: [Operator; 1] = [Operator {
    rest: b"",
    kind: Kind::RightBracket,
}];

static LEFT_BRACE: [Operator; 1] = [Operator {
    rest: b"",
    kind: Kind::LeftBrace,
}];

static RIGHT_BRACE: [Operator; 1] = [Operator {
    rest: b"",
    kind: Kind::RightBrace,
}];

static SEMICOLON: [Operator; 1] = [Operator {
    rest: b"",
    kind: Kind::Semicolon,
}];

static COLON: [Operator; 2] = [
    Operator {
        rest: b":",
        kind: Kind::ColonColon,
    },
    Operator {
        rest: b"",
        kind: Kind::Colon,
    },
];

static COMMA: [Operator; 1] = [Operator {
    rest: b"",
    kind: Kind::Comma,
}];

static DOT: [Operator; 2] = [
    Operator {
        rest: b"*",
        kind: Kind::DotStar,
    },
    Operator {
        rest: b"",
        kind: Kind::Dot,
    },
];

static HASH: [Operator; 1] = [Operator {
    rest: b"",
    kind: Kind::Hash,
}];

static AT: [Operator; 1] = [Operator {
    rest: b"",
    kind: Kind::At,
}];

static QUESTION: [Operator; 1] = [Operator {
    rest: b"",
    kind: Kind::Question,
}];

static ASSIGN: [Operator; 4] = [
    Operator {
        rest: b"==",
        kind: Kind::CaseEquality,
    },
    Operator {
        rest: b"=?",
        kind: Kind::WildcardEquality,
    },
    Operator {
        rest: b"=",
        kind: Kind::LogicalEquality,
    },
    Operator {
        rest: b"",
        kind: Kind::Assign,
    },
];

static PLUS: [Operator; 4] = [
    Operator {
        rest: b"+",
        kind: Kind::PlusPlus,
    },
    Operator {
        rest: b":",
        kind: Kind::PlusColon,
    },
    Operator {
        rest: b"=",
        kind: Kind::PlusAssign,
    },
    Operator {
        rest: b"",
        kind: Kind::Plus,
    },
];

static MINUS: [Operator; 5] = [
    Operator {
        rest: b"-",
        kind: Kind::MinusMinus,
    },
    Operator {
        rest: b">",
        kind: Kind::Arrow,
    },
    Operator {
        rest: b":",
        kind: Kind::MinusColon,
    },
    Operator {
        rest: b"=",
        kind: Kind::MinusAssign,
    },
    Operator {
        rest: b"",
        kind: Kind::Minus,
    },
];

static STAR: [Operator; 3] = [
    Operator {
        rest: b"*",
        kind: Kind::StarStar,
    },
    Operator {
        rest: b"=",
        kind: Kind::StarAssign,
    },
    Operator {
        rest: b"",
        kind: Kind::Star,
    },
];

static SLASH: [Operator; 2] = [
    Operator {
        rest: b"=",
        kind: Kind::SlashAssign,
    },
    Operator {
        rest: b"",
        kind: Kind::Slash,
    },
];

static PERCENT: [Operator; 2] = [
    Operator {
        rest: b"=",
        kind: Kind::PercentAssign,
    },
    Operator {
        rest: b"",
        kind: Kind::Percent,
    },
];

static AMPERSAND: [Operator; 3] = [
    Operator {
        rest: b"&",
        kind: Kind::LogicalAnd,
    },
    Operator {
        rest: b"=",
        kind: Kind::AmpersandAssign,
    },
    Operator {
        rest: b"",
        kind: Kind::Ampersand,
    },
];

static PIPE: [Operator; 3] = [
    Operator {
        rest: b"|",
        kind: Kind::LogicalOr,
    },
    Operator {
        rest: b"=",
        kind: Kind::PipeAssign,
    },
    Operator {
        rest: b"",
        kind: Kind::Pipe,
    },
];

static CARET: [Operator; 3] = [
    Operator {
        rest: b"~",
        kind: Kind::CaretTilde,
    },
    Operator {
        rest: b"=",
        kind: Kind::CaretAssign,
    },
    Operator {
        rest: b"",
        kind: Kind::Caret,
    },
];

static TILDE: [Operator; 4] = [
    Operator {
        rest: b"&",
        kind: Kind::TildeAmpersand,
    },
    Operator {
        rest: b"|",
        kind: Kind::TildePipe,
    },
    Operator {
        rest: b"^",
        kind: Kind::TildeCaret,
    },
    Operator {
        rest: b"",
        kind: Kind::Tilde,
    },
];

static BANG: [Operator; 4] = [
    Operator {
        rest: b"==",
        kind: Kind::CaseInequality,
    },
    Operator {
        rest: b"=?",
        kind: Kind::WildcardInequality,
    },
    Operator {
        rest: b"=",
        kind: Kind::LogicalInequality,
    },
    Operator {
        rest: b"",
        kind: Kind::Bang,
    },
];

static LESS: [Operator; 7] = [
    Operator {
        rest: b"<<=",
        kind: Kind::ArithmeticShiftLeftAssign,
    },
    Operator {
        rest: b"<<",
        kind: Kind::ArithmeticShiftLeft,
    },
    Operator {
        rest: b"->",
        kind: Kind::DoubleArrow,
    },
    Operator {
        rest: b"<=",
        kind: Kind::LogicalShiftLeftAssign,
    },
    Operator {
        rest: b"<",
        kind: Kind::LogicalShiftLeft,
    },
    Operator {
        rest: b"=",
        kind: Kind::LessEqual,
    },
    Operator {
        rest: b"",
        kind: Kind::Less,
    },
];

static GREATER: [Operator; 6] = [
    Operator {
        rest: b">>=",
        kind: Kind::ArithmeticShiftRightAssign,
    },
    Operator {
        rest: b">>",
        kind: Kind::ArithmeticShiftRight,
    },
    Operator {
        rest: b">=",
        kind: Kind::LogicalShiftRightAssign,
    },
    Operator {
        rest: b">",
        kind: Kind::LogicalShiftRight,
    },
    Operator {
        rest: b"=",
        kind: Kind::GreaterEqual,
    },
    Operator {
        rest: b"",
        kind: Kind::Greater,
    },
];

static APOSTROPHE: [Operator; 2] = [
    Operator {
        rest: b"{",
        kind: Kind::ApostropheLeftBrace,
    },
    Operator {
        rest: b"",
        kind: Kind::Apostrophe,
    },
];

/// The operators that begin with this byte, a longer one before a shorter one (IEEE 1800-2017, 11.3 and Annex A).
#[tactic(auto, unfolding(crate::specs::Operators::operators))]
pub fn operators_from(first: u8) -> &'static [Operator]
    ensures table { entries result.now ≡ entries_after first operators }
    ensures order { IsTrue (descends (entries result.now)) }
{
    match first {
        b'(' => &LEFT_PAREN,
        b')' => &RIGHT_PAREN,
        b'[' => &LEFT_BRACKET,
        b']' => &RIGHT_BRACKET,
        b'{' => &LEFT_BRACE,
        b'}' => &RIGHT_BRACE,
        b';' => &SEMICOLON,
        b':' => &COLON,
        b',' => &COMMA,
        b'.' => &DOT,
        b'#' => &HASH,
        b'@' => &AT,
        b'?' => &QUESTION,
        b'=' => &ASSIGN,
        b'+' => &PLUS,
        b'-' => &MINUS,
        b'*' => &STAR,
        b'/' => &SLASH,
        b'%' => &PERCENT,
        b'&' => &AMPERSAND,
        b'|' => &PIPE,
        b'^' => &CARET,
        b'~' => &TILDE,
        b'!' => &BANG,
        b'<' => &LESS,
        b'>' => &GREATER,
        b'\'' => &APOSTROPHE,
        _ => &[],
    }
}

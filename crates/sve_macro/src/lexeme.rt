ghost use Rattle.std.specs.Prelude.{◌≡◌, ◌+◌, ◌<◌, ◌≤◌, length};
ghost use Rattle.sve_macro.specs.Lexemes.{sign_kind, sign_rest, first_kind, lexeme_rest, between_after};

use crate::part::piece_len;
use sve_bytes::{continues_identifier, identifier_rest_len};

/// What bytes of a macro's text are.
#[derive(Clone, Copy)]
pub(crate) enum Kind {
    /// Letters, digits, `_` and `$` that stand together: perhaps a formal.
    Word,
    /// A string literal, an escaped identifier, or another byte.
    Plain,
    /// Two backticks, which join what stands before and behind them.
    Joint,
    /// A backtick and a quote, which make a quote.
    Quote,
    /// A backtick, a backslash, a backtick and a quote, which make an escaped quote.
    EscapedQuote,
}

/// The first lexeme of a text.
#[derive(Clone, Copy)]
pub(crate) struct FirstLexeme {
    pub(crate) kind: Kind,
    /// How many bytes it has, 1 or more.
    pub(crate) len: usize,
}

/// The sign of which these bytes stand behind the backtick.
fn sign(behind_backtick: &[u8]) -> FirstLexeme
    ensures kind { result.kind ≡ sign_kind behind_backtick.now }
    ensures len { result.len ≡ 1 + sign_rest (sign_kind behind_backtick.now) }
    ensures within { result.len ≤ length behind_backtick.now + 1 }
{
    if behind_backtick.starts_with(b"`") {
        FirstLexeme {
            kind: Kind::Joint,
            len: 2,
        }
    } else if behind_backtick.starts_with(b"\"") {
        FirstLexeme {
            kind: Kind::Quote,
            len: 2,
        }
    } else if behind_backtick.starts_with(b"\\`\"") {
        FirstLexeme {
            kind: Kind::EscapedQuote,
            len: 4,
        }
    } else {
        FirstLexeme {
            kind: Kind::Plain,
            len: 1,
        }
    }
}

/// The first lexeme of a text, where `between` tells whether it stands between two signs `` `" ``.
pub(crate) fn first_lexeme(between: bool, text: &[u8]) -> FirstLexeme
    requires { 0 < length text.now }
    ensures kind { result.kind ≡ first_kind text.now }
    ensures len { result.len ≡ 1 + lexeme_rest between text.now }
    ensures within { result.len ≤ length text.now }
{
    let byte = text[0];
    if continues_identifier(byte) {
        return FirstLexeme {
            kind: Kind::Word,
            len: 1 + identifier_rest_len(&text[1..]),
        };
    }
    if byte == b'`' {
        return sign(&text[1..]);
    }
    let len = if between { 1 } else { piece_len(text) };
    FirstLexeme {
        kind: Kind::Plain,
        len,
    }
}

/// Whether what follows a lexeme stands between two signs `` `" ``.
pub(crate) fn is_between_after(between: bool, kind: Kind) -> bool
    ensures { result ≡ between_after between kind }
{
    match kind {
        Kind::Quote => !between,
        Kind::Word | Kind::Plain | Kind::Joint | Kind::EscapedQuote => between,
    }
}

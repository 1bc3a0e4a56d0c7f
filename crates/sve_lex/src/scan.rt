ghost use Rattle.std.specs.Prelude.{◌≡◌, ℕ, length, slice_index, ◌<◌, ◌≤◌, ◌+◌, ◌^◌, drop, Bool, false, IfSome, Option, Some, None, if◌then◌else◌};
ghost use Rattle.sve_bytes.specs.Bytes.{is_white_space, continues_identifier};
ghost use Rattle.sve_token.specs.declared.kind.Kind.TheVariants.{SystemName, Decimal};
ghost use Rattle.sve_lex.specs.declared.class.Class.TheVariants.{Separator, Lexeme};
ghost use Rattle.sve_lex.specs.Longest.{longest, or_here};
ghost use Rattle.sve_lex.specs.Shift.{further};
ghost use Rattle.sve_lex.specs.Bytes.{is_decimal_part, is_printable, is_in_line};
ghost use Rattle.sve_lex.specs.Classes.{run, filled_run, constant, word_kind, word_class, escaped_class, named, string, closes, operator, slash, paren, digits, based, quote, after_quote, unbased, begins, piece_of};

use crate::Class;
use crate::bytes::{
    begins_number, decimal_len, goes_on, is_digit, is_sign, is_unbased_digit, line_len, lower,
    number_len, printable_len, shuts,
};
use crate::front::front;
use sve_bytes::{begins_identifier, identifier_rest_len, is_white_space, white_space_len};
use sve_token::{Kind, keyword, operators_from};

/// What comes after some bytes of a text.
pub fn past(text: &[u8], n: usize) -> &[u8]
    requires { n ≤ length text.now }
    ensures { result.now ≡ drop n text.now }
{
    &text[n..]
}

/// White space behind its first byte.
#[tactic(auto, using(crate::proofs::Runs::run_longest))]
fn white_space(rest: &[u8]) -> Option<(Class, usize)>
    ensures { result ≡ longest rest.now (run is_white_space (constant Separator)) }
{
    Some((Class::Separator, white_space_len(rest)))
}

/// A comment of one line, behind `//`.
#[tactic(auto, using(crate::proofs::Runs::run_longest))]
fn line_comment(rest: &[u8]) -> Option<(Class, usize)>
    ensures { result ≡ longest rest.now (run is_in_line (constant Separator)) }
{
    Some((Class::Separator, line_len(rest)))
}

/// A decimal number behind its first digit.
#[tactic(auto, using(crate::proofs::Runs::run_longest))]
fn decimal(rest: &[u8]) -> Option<(Class, usize)>
    ensures { result ≡ longest rest.now (run is_decimal_part (constant (Lexeme Decimal))) }
{
    Some((Class::Lexeme(Kind::Decimal), decimal_len(rest)))
}

/// A system name behind its `$`.
#[tactic(auto, using(crate::proofs::Runs::filled_yes, crate::proofs::Runs::filled_no))]
fn system_name(rest: &[u8]) -> Option<(Class, usize)>
    ensures { result ≡ longest rest.now (filled_run continues_identifier (constant (Lexeme SystemName))) }
{
    let n = identifier_rest_len(rest);
    if n == 0 {
        return None;
    }
    Some((Class::Lexeme(Kind::SystemName), n))
}

/// What a name of so many bytes is.
fn named(kind: Kind, n: usize) -> Class
    ensures { result ≡ named kind n }
{
    if n <= 1024 {
        Class::Lexeme(kind)
    } else {
        Class::Lexeme(Kind::Bad)
    }
}

/// An escaped identifier behind its backslash.
#[tactic(auto, using(crate::proofs::Runs::filled_yes, crate::proofs::Runs::filled_no))]
fn escaped(rest: &[u8]) -> Option<(Class, usize)>
    ensures { result ≡ longest rest.now (filled_run is_printable escaped_class) }
{
    let n = printable_len(rest);
    if n == 0 {
        return None;
    }
    Some((named(Kind::Identifier, n), n))
}

/// A string behind its first quote.
fn string(rest: &[u8]) -> Option<(Class, usize)>
    ensures { result ≡ longest rest.now (string false) }
{
    let mut escaped = false;
    'bytes: for (i, b) in rest.iter().enumerate() {
        if escaped {
            escaped = false;
        } else if *b == b'"' {
            return Some((Class::Lexeme(Kind::Text), i + 1));
        } else if *b == b'\n' {
            return Some((Class::Lexeme(Kind::Bad), i));
        } else {
            escaped = *b == b'\\';
        }
    }
    Some((Class::Lexeme(Kind::Bad), rest.len()))
}

/// A comment or an attribute behind its first two bytes, up to the next `*` and `close`.
fn closes(close: u8, rest: &[u8]) -> Option<(Class, usize)>
    ensures { result ≡ longest rest.now (closes close false) }
{
    let mut star = false;
    'bytes: for (i, b) in rest.iter().enumerate() {
        if star && *b == close {
            return Some((Class::Separator, i + 1));
        }
        star = *b == b'*';
    }
    Some((Class::Lexeme(Kind::Bad), rest.len()))
}

/// An operator behind its first byte.
fn operator(first: u8, rest: &[u8]) -> Option<(Class, usize)>
    ensures { result ≡ longest rest.now (operator first) }
{
    match front(operators_from(first), rest) {
        Some((kind, n)) => Some((Class::Lexeme(kind), n)),
        None => None,
    }
}

/// White space and the digits of a base.
fn digits(base: u8, rest: &[u8]) -> Option<(Class, usize)>
    ensures { result ≡ longest rest.now (digits base) }
{
    let n = white_space_len(rest);
    if n == rest.len() {
        return None;
    }
    let first = rest[n];
    if !begins_number(base, first) {
        return None;
    }
    let more = past(rest, n + 1);
    let length = number_len(base, first, more);
    Some((Class::Lexeme(Kind::Based), n + 1 + length))
}

/// A base and its digits.
fn based(rest: &[u8]) -> Option<(Class, usize)>
    ensures { result ≡ longest rest.now based }
{
    if rest.is_empty() {
        return None;
    }
    let more = past(rest, 1);
    let found = digits(lower(rest[0]), more);
    further(1, found)
}

/// What was found some bytes further on.
fn further(by: usize, found: Option<(Class, usize)>) -> Option<(Class, usize)>
    requires { IfSome found (λ x. by + x.1 < 2 ^ 64) }
    ensures { result ≡ further by found }
{
    match found {
        None => None,
        Some((class, n)) => Some((class, by + n)),
    }
}

/// What was found one byte further on, or else this operator.
fn longer(found: Option<(Class, usize)>, kind: Kind) -> Option<(Class, usize)>
    requires { IfSome found (λ x. 1 + x.1 < 2 ^ 64) }
    ensures { result ≡ or_here found (Some (Lexeme kind)) }
{
    match found {
        None => Some((Class::Lexeme(kind), 0)),
        Some((class, n)) => Some((class, n + 1)),
    }
}

/// What comes behind `'`.
fn quote(rest: &[u8]) -> Option<(Class, usize)>
    ensures { result ≡ longest rest.now quote }
{
    if rest.is_empty() {
        return operator(b'\'', rest);
    }
    let c = rest[0];
    if c == b'{' {
        return operator(b'\'', rest);
    }
    let more = past(rest, 1);
    let found = after_quote(c, more);
    longer(found, Kind::Apostrophe)
}

/// What comes behind `'` and the byte `c`.
fn after_quote(c: u8, rest: &[u8]) -> Option<(Class, usize)>
    ensures { result ≡ longest rest.now (after_quote c) }
{
    if is_unbased_digit(c) {
        unbased(rest)
    } else if is_sign(c) {
        based(rest)
    } else {
        digits(lower(c), rest)
    }
}

/// An unbased literal behind its digit.
#[tactic(auto, using(crate::proofs::Dispatch::unbased_longest))]
fn unbased(rest: &[u8]) -> Option<(Class, usize)>
    ensures { result ≡ longest rest.now unbased }
{
    if goes_on(rest) {
        None
    } else {
        Some((Class::Lexeme(Kind::Unbased), 0))
    }
}

/// What comes behind `/`.
fn slash(rest: &[u8]) -> Option<(Class, usize)>
    ensures { result ≡ longest rest.now slash }
{
    if rest.is_empty() {
        return operator(b'/', rest);
    }
    let c = rest[0];
    let more = past(rest, 1);
    if c == b'/' {
        let found = line_comment(more);
        return longer(found, Kind::Slash);
    }
    if c == b'*' {
        let found = closes(b'/', more);
        return longer(found, Kind::Slash);
    }
    operator(b'/', rest)
}

/// What comes behind `(`.
fn paren(rest: &[u8]) -> Option<(Class, usize)>
    ensures { result ≡ longest rest.now paren }
{
    if rest.is_empty() {
        return operator(b'(', rest);
    }
    let c = rest[0];
    if c != b'*' {
        return operator(b'(', rest);
    }
    let more = past(rest, 1);
    if shuts(more) {
        return operator(b'(', rest);
    }
    let found = closes(b')', more);
    longer(found, Kind::LeftParen)
}

/// The kind of a word: a keyword or an identifier.
fn word_kind(text: &[u8]) -> Kind
    ensures { result ≡ word_kind text.now }
{
    match keyword(text) {
        None => Kind::Identifier,
        Some(kind) => kind,
    }
}

/// A word behind its first byte.
fn word(text: &[u8]) -> Option<(Class, usize)>
    requires { 0 < length text.now }
    ensures { result ≡ longest (drop 1 text.now) (run continues_identifier (word_class (slice_index text.now 0))) }
{
    let more = past(text, 1);
    let n = identifier_rest_len(more);
    let kind = word_kind(&text[..n + 1]);
    Some((named(kind, n + 1), n))
}

/// What begins a text, behind its first byte.
#[tactic(auto, unfolding(crate::specs::Classes::begins))]
fn begun(text: &[u8]) -> Option<(Class, usize)>
    requires { 0 < length text.now }
    ensures { result ≡ longest (drop 1 text.now) (begins (slice_index text.now 0)) }
{
    let b = text[0];
    let rest = past(text, 1);
    if is_white_space(b) {
        white_space(rest)
    } else if begins_identifier(b) {
        word(text)
    } else if is_digit(b) {
        decimal(rest)
    } else if b == b'\\' {
        escaped(rest)
    } else if b == b'$' {
        system_name(rest)
    } else if b == b'"' {
        string(rest)
    } else if b == b'\'' {
        quote(rest)
    } else if b == b'/' {
        slash(rest)
    } else if b == b'(' {
        paren(rest)
    } else {
        operator(b, rest)
    }
}

/// The piece that begins a text: what it is, and how many bytes it has.
pub fn piece(text: &[u8]) -> (Class, usize)
    requires { 0 < length text.now }
    ensures piece { result ≡ piece_of text.now }
    ensures filled { 0 < result.1 }
    ensures within { result.1 ≤ length text.now }
{
    match begun(text) {
        None => (Class::Lexeme(Kind::Bad), 1),
        Some((class, n)) => (class, n + 1),
    }
}

ghost use Rattle.std.specs.Prelude.{◌≡◌, ◌==◌, ℕ, length, ◌≤◌, not};
ghost use Rattle.std.specs.List.{prefix_len};
ghost use Rattle.sve_lex.specs.Bytes.{is_digit, is_decimal_part, is_printable, is_in_line, is_unknown, is_unbased_digit, is_sign, is_base, lower, is_digit_of, begins_number, continues_number, is_literal_part};
ghost use Rattle.sve_lex.specs.Classes.{shuts, goes_on};

use sve_bytes::{begins_identifier, is_white_space};

/// Whether a byte is a decimal digit.
pub fn is_digit(b: u8) -> bool
    ensures { result ≡ is_digit b }
{
    b'0' <= b && b <= b'9'
}

/// Whether a byte may stand in a decimal number (5.7.1).
fn is_decimal_part(b: u8) -> bool
    ensures { result ≡ is_decimal_part b }
{
    is_digit(b) || b == b'_'
}

/// Whether a byte may stand in an escaped identifier (5.6.1).
fn is_printable(b: u8) -> bool
    ensures { result ≡ is_printable b }
{
    33 <= b && b <= 126
}

/// Whether a byte is an unknown or high-impedance digit (5.7.1).
fn is_unknown(b: u8) -> bool
    ensures { result ≡ is_unknown b }
{
    b == b'x' || b == b'X' || b == b'z' || b == b'Z' || b == b'?'
}

/// Whether a byte is the digit of an unbased literal (5.7.1).
pub fn is_unbased_digit(b: u8) -> bool
    ensures { result ≡ is_unbased_digit b }
{
    b == b'0' || b == b'1' || b == b'x' || b == b'X' || b == b'z' || b == b'Z'
}

/// Whether a byte marks a based number as signed (5.7.1).
pub fn is_sign(b: u8) -> bool
    ensures { result ≡ is_sign b }
{
    b == b's' || b == b'S'
}

/// Whether a byte is a base in lower case.
fn is_base(b: u8) -> bool
    ensures { result ≡ is_base b }
{
    b == b'b' || b == b'o' || b == b'd' || b == b'h'
}

/// The base in lower case, where a byte is one; every other byte as it is.
pub fn lower(b: u8) -> u8
    ensures { result ≡ lower b }
{
    match b {
        b'B' => b'b',
        b'O' => b'o',
        b'D' => b'd',
        b'H' => b'h',
        _ => b,
    }
}

/// Whether a byte is a known digit of the base.
fn is_digit_of(base: u8, b: u8) -> bool
    ensures { result ≡ is_digit_of base b }
{
    match base {
        b'b' => b == b'0' || b == b'1',
        b'o' => b'0' <= b && b <= b'7',
        b'd' => is_digit(b),
        b'h' => is_digit(b) || b'a' <= b && b <= b'f' || b'A' <= b && b <= b'F',
        _ => false,
    }
}

/// Whether the digits of a base may begin with this byte.
pub fn begins_number(base: u8, b: u8) -> bool
    ensures { result ≡ begins_number base b }
{
    is_digit_of(base, b) || (is_base(base) && is_unknown(b))
}

/// Whether this byte may stand among the digits of a base that begin with `first`.
fn continues_number(base: u8, first: u8, b: u8) -> bool
    ensures { result ≡ continues_number base first b }
{
    if base == b'd' {
        return b == b'_' || (is_digit(first) && is_digit(b));
    }
    b == b'_' || is_digit_of(base, b) || is_unknown(b)
}

fn is_literal_part(b: u8) -> bool
    ensures { result ≡ is_literal_part b }
{
    begins_identifier(b) || is_digit(b) || b == b'?'
}

/// How many bytes that may stand in a decimal number begin a text.
pub fn decimal_len(text: &[u8]) -> usize
    ensures value { result ≡ prefix_len is_decimal_part text.now }
    ensures within { result ≤ length text.now }
{
    text.iter().take_while(|b| is_decimal_part(**b)).count()
}

/// How many bytes that may stand in an escaped identifier begin a text.
pub fn printable_len(text: &[u8]) -> usize
    ensures value { result ≡ prefix_len is_printable text.now }
    ensures within { result ≤ length text.now }
{
    text.iter().take_while(|b| is_printable(**b)).count()
}

/// How many bytes stand before the first line feed of a text.
pub fn line_len(text: &[u8]) -> usize
    ensures value { result ≡ prefix_len is_in_line text.now }
    ensures within { result ≤ length text.now }
{
    text.iter().take_while(|b| **b != b'\n').count()
}

/// How many bytes that may stand among the digits of a base begin a text.
pub fn number_len(base: u8, first: u8, text: &[u8]) -> usize
    ensures value { result ≡ prefix_len (continues_number base first) text.now }
    ensures within { result ≤ length text.now }
{
    text.iter()
        .take_while(|b| continues_number(base, first, **b))
        .count()
}

/// Whether the next byte after white space is a `)`.
pub fn shuts(text: &[u8]) -> bool
    ensures { result ≡ shuts text.now }
{
    for b in text {
        if !is_white_space(*b) {
            return *b == b')';
        }
    }
    false
}

/// Whether a text begins with a byte that keeps an unbased literal from ending before it.
pub fn goes_on(text: &[u8]) -> bool
    ensures { result ≡ goes_on text.now }
{
    match text {
        [] => false,
        [b, ..] => is_literal_part(*b),
    }
}

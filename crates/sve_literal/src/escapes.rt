ghost use Rattle.std.specs.Prelude.{◌≡◌, [], ◌∷◌, ◌++◌, IfOk};
ghost use Rattle.sve_literal.specs.Strings.{escaped, is_octal, is_hexadecimal, octal_goes, hexadecimal_goes, closed_gives, closed_goes_to, gives, goes_to};

use crate::digits::digit_number;
use std::alloc::AllocError;

/// How far the bytes of a string literal were read.
#[derive(Clone, Copy)]
pub(crate) enum Escape {
    /// No escape is open.
    Closed,
    /// Behind a backslash.
    Begun,
    /// Behind a backslash and octal digits.
    Octal {
        /// Their number.
        value: u8,
        /// How many they are, 1 to 3.
        digits: u8,
    },
    /// Behind `\x` and hexadecimal digits.
    Hexadecimal {
        /// Their number.
        value: u8,
        /// How many they are, 0 to 2.
        digits: u8,
    },
}

/// The byte that a backslash and a byte stand for (IEEE 1800-2017, Table 5-1).
fn escaped(byte: u8) -> u8
    ensures { result ≡ escaped byte }
{
    match byte {
        b'n' => 10,
        b't' => 9,
        b'v' => 11,
        b'f' => 12,
        b'a' => 7,
        _ => byte,
    }
}

fn is_octal(byte: u8) -> bool
    ensures { result ≡ is_octal byte }
{
    matches!(byte, b'0'..=b'7')
}

fn is_hexadecimal(byte: u8) -> bool
    ensures { result ≡ is_hexadecimal byte }
{
    matches!(byte, b'0'..=b'9' | b'a'..=b'f' | b'A'..=b'F')
}

/// Whether a byte is a further octal digit: of three at most, and of a number of 8 bits.
fn octal_goes(value: u8, digits: u8, byte: u8) -> bool
    ensures { result ≡ octal_goes value digits byte }
{
    is_octal(byte) & (digits < 3) & (value < 32)
}

/// Whether a byte is a further hexadecimal digit, of two at most.
fn hexadecimal_goes(value: u8, digits: u8, byte: u8) -> bool
    ensures { result ≡ hexadecimal_goes value digits byte }
{
    is_hexadecimal(byte) & (digits < 2) & (value < 16)
}

impl Escape {
    /// How far it is read behind one more byte.
    pub(crate) fn next(self, byte: u8) -> Escape
        ensures { result ≡ goes_to self byte }
    {
        match self {
            Escape::Closed => Escape::behind(byte),
            Escape::Begun => match byte {
                b'0'..=b'7' => Escape::Octal {
                    value: byte - b'0',
                    digits: 1,
                },
                b'x' => Escape::Hexadecimal {
                    value: 0,
                    digits: 0,
                },
                _ => Escape::Closed,
            },
            Escape::Octal { value, digits } => {
                if !octal_goes(value, digits, byte) {
                    return Escape::behind(byte);
                }
                Escape::Octal {
                    value: value * 8 + (byte - b'0'),
                    digits: digits + 1,
                }
            }
            Escape::Hexadecimal { value, digits } => {
                if !hexadecimal_goes(value, digits, byte) {
                    return Escape::behind(byte);
                }
                Escape::Hexadecimal {
                    value: value * 16 + digit_number(byte),
                    digits: digits + 1,
                }
            }
        }
    }

    /// How far it is read behind a byte outside of escapes.
    fn behind(byte: u8) -> Escape
        ensures { result ≡ closed_goes_to byte }
    {
        if byte == b'\\' {
            Escape::Begun
        } else {
            Escape::Closed
        }
    }

    /// The bytes, and behind them what one more byte of the literal gives.
    pub(crate) fn push(self, bytes: Vec<u8>, byte: u8) -> Result<Vec<u8>, AllocError>
        ensures { IfOk result (λ v. v.items ≡ bytes.items ++ gives self byte) }
    {
        match self {
            Escape::Closed => push_plain(bytes, byte),
            Escape::Begun => {
                if is_octal(byte) | (byte == b'x') | (byte == b'\n') {
                    return Ok(bytes);
                }
                push_one(bytes, escaped(byte))
            }
            Escape::Octal { value, digits } => {
                if octal_goes(value, digits, byte) {
                    return Ok(bytes);
                }
                push_plain(push_one(bytes, value)?, byte)
            }
            Escape::Hexadecimal { value, digits } => {
                if hexadecimal_goes(value, digits, byte) {
                    return Ok(bytes);
                }
                let value = if digits == 0 { b'x' } else { value };
                push_plain(push_one(bytes, value)?, byte)
            }
        }
    }
}

/// The bytes, and behind them one more.
fn push_one(bytes: Vec<u8>, byte: u8) -> Result<Vec<u8>, AllocError>
    ensures { IfOk result (λ v. v.items ≡ bytes.items ++ byte ∷ []) }
{
    let mut bytes = bytes;
    bytes.push(byte)?;
    Ok(bytes)
}

/// The bytes, and behind them a byte outside of escapes: a quote and a backslash give nothing.
fn push_plain(bytes: Vec<u8>, byte: u8) -> Result<Vec<u8>, AllocError>
    ensures { IfOk result (λ v. v.items ≡ bytes.items ++ closed_gives byte) }
{
    if (byte == b'"') | (byte == b'\\') {
        return Ok(bytes);
    }
    push_one(bytes, byte)
}

//! Strings in quotes.
ghost use Rattle.std.specs.Prelude.{◌≡◌, ◌<◌, ◌++◌, IfOk, OnOk};
ghost use Rattle.sve_value_text.specs.ValueText.{byte_text, escaped_byte, hex_digit, is_plain, quoted};

use std::alloc::Global;
use sve_bytes::NoMemory;

/// The hexadecimal digit of a number below 16, in lower case.
fn hex_digit(number: u8) -> u8
    requires { number < 16 }
    ensures { result ≡ hex_digit number }
{
    if number < 10 {
        b'0' + number
    } else {
        b'a' + (number - 10)
    }
}

/// Whether the byte stands for itself in quotes: it is printed, and is neither a quote nor a backslash.
fn is_plain(byte: u8) -> bool
    ensures { result ≡ is_plain byte }
{
    (byte.is_ascii_graphic() || byte == b' ') && byte != b'"' && byte != b'\\'
}

/// Adds a byte that does not stand for itself: `\x` and its two digits.
fn append_escaped(text: &mut Vec<u8>, byte: u8) -> Result<(), NoMemory>
    ensures { OnOk result (text.new.items ≡ text.old.items ++ escaped_byte byte) }
{
    text.extend_from_slice(b"\\x")?;
    text.push(hex_digit(byte / 16))?;
    text.push(hex_digit(byte % 16))?;
    Ok(())
}

/// Adds a byte of a string.
fn append_byte(text: &mut Vec<u8>, byte: u8) -> Result<(), NoMemory>
    ensures { OnOk result (text.new.items ≡ text.old.items ++ byte_text byte) }
{
    if !is_plain(byte) {
        return append_escaped(text, byte);
    }
    text.push(byte)?;
    Ok(())
}

/// A string in quotes: bytes that are not printed, quotes and backslashes are `\x` and two hexadecimal digits in lower case.
pub(crate) fn quoted(alloc: Global, bytes: &[u8]) -> Result<Vec<u8>, NoMemory>
    ensures { IfOk result (λ text. text.items ≡ quoted bytes.now) }
{
    let mut text = Vec::with_capacity(alloc, bytes.len())?;
    text.push(b'"')?;
    'bytes: for byte in bytes {
        append_byte(&mut text, *byte)?;
    }
    text.push(b'"')?;
    Ok(text)
}

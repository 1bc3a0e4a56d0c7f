//! How rows spell bytes: as they are, but for `\n`, `\r`, `\t`, `\xNN` with two hexadecimal digits in lower case, `\(N)B` for
//! the byte B so many times, and a backslash in front of any other byte for that byte.
use std::alloc::Global;
use sve_bytes::NoMemory;

/// The most that `\(N)B` repeats a byte.
const MOST: u32 = 100_000;

/// What the bytes so far ask of the next one.
#[derive(Clone, Copy)]
enum Reading {
    /// It stands for itself, or is a backslash.
    Plain,
    /// It stands behind a backslash.
    Escaped,
    /// It is the first of two digits.
    FirstDigit,
    /// It is the second of two digits, behind one of this value.
    SecondDigit(u8),
    /// It is a digit of a count that is this so far, or the `)` behind it.
    Count(u32),
    /// It stands for so many of itself.
    Repeated(u32),
}

/// The bytes that a field of a row spells.
pub fn decoded(alloc: Global, field: &str) -> Result<Vec<u8>, NoMemory> {
    let mut out = Vec::new(alloc);
    decode(&mut out, field)?;
    Ok(out)
}

/// Adds the bytes that a field spells.
fn decode(out: &mut Vec<u8>, field: &str) -> Result<(), NoMemory> {
    let mut reading = Reading::Plain;
    for byte in field.bytes() {
        reading = read(out, reading, byte)?;
    }
    Ok(())
}

/// Reads a byte, and says what is asked of the next one.
fn read(out: &mut Vec<u8>, reading: Reading, byte: u8) -> Result<Reading, NoMemory> {
    match reading {
        Reading::Plain => plain(out, byte),
        Reading::Escaped => escaped(out, byte),
        Reading::FirstDigit => Ok(Reading::SecondDigit(digit(byte))),
        Reading::SecondDigit(high) => added(out, high.wrapping_mul(16).wrapping_add(digit(byte))),
        Reading::Count(so_far) => Ok(counted(so_far, byte)),
        Reading::Repeated(times) => repeated(out, times, byte),
    }
}

/// Adds a byte, behind which the next one stands for itself.
fn added(out: &mut Vec<u8>, byte: u8) -> Result<Reading, NoMemory> {
    out.push(byte)?;
    Ok(Reading::Plain)
}

fn plain(out: &mut Vec<u8>, byte: u8) -> Result<Reading, NoMemory> {
    if byte == b'\\' {
        return Ok(Reading::Escaped);
    }
    added(out, byte)
}

fn escaped(out: &mut Vec<u8>, byte: u8) -> Result<Reading, NoMemory> {
    match byte {
        b'x' => Ok(Reading::FirstDigit),
        b'(' => Ok(Reading::Count(0)),
        _ => added(out, meant(byte)),
    }
}

/// The byte that one stands for behind a backslash.
fn meant(byte: u8) -> u8 {
    match byte {
        b'n' => b'\n',
        b'r' => b'\r',
        b't' => b'\t',
        _ => byte,
    }
}

/// What a byte of a count, or the one behind it, asks of the next.
fn counted(so_far: u32, byte: u8) -> Reading {
    if byte == b')' {
        return Reading::Repeated(so_far.min(MOST));
    }
    Reading::Count(so_far.wrapping_mul(10).wrapping_add(u32::from(digit(byte))))
}

/// Adds a byte so many times.
fn repeated(out: &mut Vec<u8>, times: u32, byte: u8) -> Result<Reading, NoMemory> {
    for _ in 0..times {
        out.push(byte)?;
    }
    Ok(Reading::Plain)
}

/// The value of a digit in lower case.
fn digit(byte: u8) -> u8 {
    match byte {
        b'0'..=b'9' => byte - b'0',
        b'a'..=b'f' => byte - b'a' + 10,
        _ => 0,
    }
}

/// The digit of a number below 16.
fn digit_of(number: u8) -> char {
    if number < 10 {
        char::from(b'0'.wrapping_add(number))
    } else {
        char::from(b'a'.wrapping_add(number.wrapping_sub(10)))
    }
}

/// Adds the number of a byte behind `\x`.
fn spell_number(out: &mut String, byte: u8) -> Result<(), NoMemory> {
    out.push_str("\\x")?;
    out.push(digit_of(byte / 16))?;
    out.push(digit_of(byte % 16))
}

/// Adds the spelling of a byte.
fn spell_byte(out: &mut String, byte: u8) -> Result<(), NoMemory> {
    match byte {
        b'\n' => out.push_str("\\n"),
        b'\r' => out.push_str("\\r"),
        b'\t' => out.push_str("\\t"),
        b'\\' => out.push_str("\\\\"),
        b' '..=b'~' => out.push(char::from(byte)),
        _ => spell_number(out, byte),
    }
}

/// Adds the spelling of these bytes.
pub fn spell(out: &mut String, bytes: &[u8]) -> Result<(), NoMemory> {
    for byte in bytes {
        spell_byte(out, *byte)?;
    }
    Ok(())
}

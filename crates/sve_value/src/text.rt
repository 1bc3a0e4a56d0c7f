ghost use Rattle.std.specs.Prelude.{◌≡◌, ◌++◌, ◌<◌, true, Some, IfOk, OnOk, decimal, length, codes, if◌then◌else◌};
ghost use Rattle.sve_value.specs.Numbers.{with_sign};
ghost use Rattle.sve_value.specs.Text.{text_of, size_text, bit_letter, bit_text, number_text};

use crate::bit::Bit;
use crate::bits::Bits;
use crate::whole::{Whole, whole_of};
use itoa::Buffer;
use std::alloc::Global;

/// Memory ran out.
pub use std::alloc::AllocError as NoMemory;

/// The letter of a bit in a literal (5.7.1).
fn letter(bit: Bit) -> u8
    ensures { result ≡ bit_letter bit }
{
    match bit {
        Bit::Zero => b'0',
        Bit::One => b'1',
        Bit::X => b'x',
        Bit::Z => b'z',
    }
}

/// Adds the width, the quote and, where the value is signed, an `s`.
fn push_size(text: &mut Vec<u8>, a: Bits) -> Result<(), NoMemory>
    ensures { OnOk result (text.new.items ≡ text.old.items ++ size_text a) }
{
    let mut buffer = Buffer::new();
    text.extend_from_slice(buffer.format(a.width()).as_bytes())?;
    if a.is_signed() {
        text.extend_from_slice(b"'s")?;
    } else {
        text.extend_from_slice(b"'")?;
    }
    Ok(())
}

/// The text of a whole number with the width and sign of its value.
fn number_text(alloc: Global, a: Bits, number: Whole) -> Result<Vec<u8>, NoMemory>
    requires { number.negative ≡ true → 0 < number.size }
    ensures { IfOk result (λ text. text.items ≡ number_text a (Some (with_sign number.negative number.size))) }
{
    let mut text = Vec::new(alloc);
    if number.negative {
        text.push(b'-')?;
    }
    push_size(&mut text, a)?;
    text.push(b'd')?;
    let mut buffer = Buffer::new();
    text.extend_from_slice(buffer.format(number.size).as_bytes())?;
    Ok(text)
}

/// The text of all bits, the most significant first.
fn bits_text(alloc: Global, a: Bits) -> Result<Vec<u8>, NoMemory>
    ensures { IfOk result (λ text. text.items ≡ size_text a ++ codes "b" ++ bit_text a.bits) }
{
    let mut text = Vec::new(alloc);
    push_size(&mut text, a)?;
    text.push(b'b')?;
    let width = a.width();
    'places: for done in 0..width {
        text.push(letter(a.bit(width - 1 - done)))?;
    }
    Ok(text)
}

/// The text of a value: in decimal where all bits are known, as `8'd5` or `-8'sd4`, with the sign before the whole; else
/// all its bits, as `4'b1x0z` or `4'sb1x0z`.
pub fn print(alloc: Global, a: Bits) -> Result<Vec<u8>, NoMemory>
    ensures { IfOk result (λ text. text.items ≡ text_of a) }
{
    match whole_of(a) {
        Some(number) => number_text(alloc, a, number),
        None => bits_text(alloc, a),
    }
}

//! How rows spell values: as they are printed, as `8'd255`, `-8'sd1` or `4'b1x0z`.
ghost use Rattle.std.specs.Prelude.{IfSome};
ghost use Rattle.sve_value.specs.Vector.{IsWidth};

use sve_value::{Bit, Bits};

/// The width that a word says, of 1 to 128 bits.
pub fn width_of(word: &str) -> Option<u32>
    ensures { IfSome result (λ w. IsWidth w) }
{
    let width = word.parse::<u32>().ok()?;
    if 1 <= width && width <= 128 {
        Some(width)
    } else {
        None
    }
}

/// Whether a word begins with a mark, and what stands behind it.
fn marked<'a>(word: &'a str, mark: &str) -> (bool, &'a str) {
    match word.strip_prefix(mark) {
        Some(rest) => (true, rest),
        None => (false, word),
    }
}

/// The value that a word says.
pub fn value_of(word: &str) -> Option<Bits> {
    let (is_negative, word) = marked(word, "-");
    let (width, word) = word.split_once("'")?;
    read_value(width_of(width)?, is_negative, word)
}

/// The value of this width that stands behind `'`.
fn read_value(width: u32, is_negative: bool, word: &str) -> Option<Bits>
    requires { IsWidth width }
{
    let (is_signed, word) = marked(word, "s");
    match word.strip_prefix("d") {
        Some(digits) => number_of(width, is_signed, is_negative, digits),
        None => bits_of(width, is_signed, word.strip_prefix("b")?),
    }
}

/// The value of a number of these digits, below 0 where it is negative.
fn number_of(width: u32, is_signed: bool, is_negative: bool, digits: &str) -> Option<Bits>
    requires { IsWidth width }
{
    let size = digits.parse::<u128>().ok()?;
    let number = if is_negative {
        0u128.wrapping_sub(size)
    } else {
        size
    };
    Some(Bits::number(width, is_signed, number))
}

/// The bit that a letter says.
fn bit_of(letter: u8) -> Option<Bit> {
    match letter {
        b'0' => Some(Bit::Zero),
        b'1' => Some(Bit::One),
        b'x' => Some(Bit::X),
        b'z' => Some(Bit::Z),
        _ => None,
    }
}

/// The value of these bits.
fn bits_of(width: u32, is_signed: bool, bits: &str) -> Option<Bits>
    requires { IsWidth width }
{
    let mut value = Bits::filled(width, is_signed, Bit::Zero);
    for letter in bits.bytes() {
        value = value.shift_in(bit_of(letter)?);
    }
    Some(value)
}

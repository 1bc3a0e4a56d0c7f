ghost use Rattle.std.specs.Prelude.{◌≡◌, IfOk};
ghost use Rattle.sve_value_text.specs.ValueText.{value_text};

use crate::quoted::quoted;
use std::alloc::Global;
use sve_bytes::NoMemory;
use sve_types::Value;

/// The text of a value: a packed one in decimal where all its bits are known, and else in bits, with its width and sign
/// (IEEE 1800-2017, 5.7.1); a string in quotes, where bytes below 0x20 or above 0x7E, quotes and backslashes are `\x` and two
/// hexadecimal digits in lower case (own); a type as types are printed.
///
/// # Errors
/// For want of memory alone.
pub fn print(alloc: Global, value: &Value) -> Result<Vec<u8>, NoMemory>
    ensures { IfOk result (λ text. text.items ≡ value_text value.now) }
{
    match value {
        Value::Bits(bits) => sve_value::print(alloc, *bits),
        Value::Text(text) => quoted(alloc, text.items()),
        Value::OfType(ty) => sve_types::print(alloc, ty),
    }
}

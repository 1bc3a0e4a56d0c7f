ghost use Rattle.std.specs.Prelude.{◌≡◌, ◌+◌, ◌*◌, ◌≤◌, length, IfOk};
ghost use Rattle.sve_literal.specs.Strings.{unquoted_of, joined, text_bits_of};

use crate::escapes::Escape;
use std::alloc::{AllocError, Global};
use sve_value::{Bits, concat};

/// The bytes that a string literal spells: between its quotes, with its escapes replaced (IEEE 1800-2017, 5.9). It fails for
/// want of memory alone.
#[tactic(auto, using(crate::proofs::StringBytes::spelled_step, crate::proofs::StringBytes::spelled_end))]
pub fn unquoted(alloc: Global, literal: &[u8]) -> Result<Vec<u8>, AllocError>
    ensures { IfOk result (λ v. v.items ≡ unquoted_of literal.now) }
{
    let mut bytes = Vec::new(alloc);
    let mut escape = Escape::Closed;
    'literal: for byte in literal {
        bytes = escape.push(bytes, *byte)?;
        escape = escape.next(*byte);
    }
    Ok(bytes)
}

/// A string as an operand: 8 bits for each byte, the first one on the left, and 8 zero bits where there is none; none where
/// the string has more than 16 bytes (5.9).
pub fn text_bits(bytes: &[u8]) -> Option<Bits>
    ensures { result ≡ text_bits_of bytes.now }
{
    if bytes.is_empty() {
        return Some(Bits::number(8, false, 0));
    }
    if bytes.len() > 16 {
        return None;
    }
    let first = Bits::number(8, false, u128::from(bytes[0]));
    Some(joined(first, &bytes[1..]))
}

/// A value, and the bits of bytes on its right.
#[tactic(auto, using(crate::proofs::StringBytes::joined_step, crate::proofs::StringBytes::joined_end))]
fn joined(value: Bits, bytes: &[u8]) -> Bits
    requires { length value.bits + 8 * length bytes.now ≤ 128 }
    ensures { result ≡ joined value bytes.now }
{
    let mut value = value;
    'bytes: for byte in bytes {
        value = concat(value, Bits::number(8, false, u128::from(*byte)));
    }
    value
}

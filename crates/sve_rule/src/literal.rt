ghost use Rattle.std.specs.Prelude.{◌≡◌, IfOk};
ghost use Rattle.sve_rule.specs.Judged.{judged};
ghost use Rattle.sve_rule.specs.Rules.{decimal_judged, sized_judged, based_judged, unbased_judged, characters_judged, text_judged, value_judged};

use crate::operator::Judged;
use std::alloc::Global;
use sve_bytes::NoMemory;
use sve_diag::Code;
use sve_fault::Fault;
use sve_literal::{SizeFault, text_bits, unquoted};
use sve_operand::{settled, spread};
use sve_types::Value;

/// A decimal number by itself, at its token, by its bytes (IEEE 1800-2017, 5.7.1).
#[tactic(auto, unfolding(crate::specs::Rules::decimal_judged))]
pub fn decimal(token: u32, digits: &[u8]) -> Judged
    ensures { judged result ≡ decimal_judged token digits.now }
{
    match sve_literal::decimal(digits) {
        Some(value) => Ok(settled(value)),
        None => Err(Fault::at(token, Code::C03)),
    }
}

/// A based number with a size, at the token of the size (5.7.1).
#[tactic(auto, unfolding(crate::specs::Rules::sized_judged))]
pub fn sized(token: u32, size: &[u8], based: &[u8]) -> Judged
    ensures { judged result ≡ sized_judged token size.now based.now }
{
    match sve_literal::sized(size, based) {
        Ok(value) => Ok(settled(value)),
        Err(SizeFault::Zero) => Err(Fault::at(token, Code::C02)),
        Err(SizeFault::TooWide) => Err(Fault::at(token, Code::C03)),
    }
}

/// A based number without a size, which has 32 bits (5.7.1).
#[tactic(auto, unfolding(crate::specs::Rules::based_judged))]
pub fn based(text: &[u8]) -> Judged
    ensures { judged result ≡ based_judged text.now }
{
    Ok(settled(sve_literal::based(32, text)))
}

/// A bit that fills its context (5.7.1).
#[tactic(auto, unfolding(crate::specs::Rules::unbased_judged))]
pub fn unbased(text: &[u8]) -> Judged
    ensures { judged result ≡ unbased_judged text.now }
{
    Ok(spread(sve_literal::unbased(text)))
}

/// The bytes of a string as an operand, at a token (5.9).
fn characters(token: u32, bytes: &[u8]) -> Judged
    ensures { judged result ≡ characters_judged token bytes.now }
{
    match text_bits(bytes) {
        Some(value) => Ok(settled(value)),
        None => Err(Fault::at(token, Code::C07)),
    }
}

/// A string literal as an operand, at its token (5.9). It fails for want of memory alone.
#[tactic(auto, unfolding(crate::specs::Rules::text_judged))]
pub fn text(alloc: Global, token: u32, literal: &[u8]) -> Result<Judged, NoMemory>
    ensures { IfOk result (λ r. judged r ≡ text_judged token literal.now) }
{
    let bytes = unquoted(alloc, literal)?;
    Ok(characters(token, &bytes))
}

/// The value that a name or a call has, as an operand: a string as its bits, and a type never. The tokens are the first one, and
/// that of the name. It fails for want of memory alone.
#[tactic(auto, unfolding(crate::specs::Rules::value_judged))]
pub fn value(
    alloc: Global,
    first: u32,
    token: u32,
    name: &[u8],
    value: Result<Value, Fault>,
) -> Result<Judged, NoMemory>
    ensures { IfOk result (λ r. judged r ≡ value_judged first token name.now value) }
{
    match value {
        Err(fault) => Ok(Err(fault)),
        Ok(value) => match value {
            Value::Bits(bits) => Ok(Ok(settled(bits))),
            Value::Text(text) => Ok(characters(first, text.items())),
            Value::OfType(_) => Ok(Err(Fault::about(alloc, token, Code::N11, name)?)),
        },
    }
}

//! Rows of values. A value is written as it is printed: `8'd255`, `-8'sd1`, `4'b1x0z`.
//!
//! - `value V`: the value; `value V OP V`: that of an operator between two; `unary OP V`: that of an operator before one.
//! - `extend V WIDTH signed`, `select V LOW WIDTH four`, `concat V V`, `choose V V V`, `clog2 V`, `truth V`: those of the other
//!   operations. Where two operands have to share size and sign and do not, there is no such row.
//! - `parts V`: what a value gives to be read.
use std::alloc::Global;
use std::fmt::Write;
use sve_bytes::NoMemory;
use sve_row::{Table, add_number, beside, integer_of, spell, value_of, width_of, word};
use sve_value::{
    Binary, Bit, Bits, Unary, binary, choose, clog2, concat, print, select, truth, unary,
};

/// The rows of values.
#[derive(Clone, Copy)]
pub struct Values;

impl Table for Values {
    fn answer(&self, alloc: Global, kind: &str, row: &str) -> Result<Option<String>, NoMemory> {
        if kind == "parts" {
            return parts_row(alloc, row);
        }
        let Some(value) = result_of(kind, row) else {
            return Ok(None);
        };
        let mut out = String::new(alloc);
        spell(&mut out, &print(alloc, value)?)?;
        Ok(Some(out))
    }
}

/// What a row comes to.
fn result_of(kind: &str, row: &str) -> Option<Bits> {
    match kind {
        "value" => value_or_binary(row),
        "unary" => prefixed(row),
        "extend" => extended(row),
        "select" => selected(row),
        "concat" => concatenated(row),
        "choose" => one_of_two(row),
        "clog2" => logarithm(row),
        "truth" => truth_value(row),
        _ => None,
    }
}

/// The value of an operator before one operand.
fn prefixed(row: &str) -> Option<Bits> {
    let (operator, a) = word(row);
    let operator = beside(UNARY, operator)?;
    let a = value_of(a)?;
    Some(unary(operator, a))
}

/// A value in another size and sign.
fn extended(row: &str) -> Option<Bits> {
    let (a, rest) = word(row);
    let (width, sign) = word(rest);
    let a = value_of(a)?;
    let width = width_of(width)?;
    Some(a.extend(width, sign == "signed"))
}

/// Bits of a value from a place on.
fn selected(row: &str) -> Option<Bits> {
    let (a, rest) = word(row);
    let (low, rest) = word(rest);
    let (width, states) = word(rest);
    let a = value_of(a)?;
    let low = integer_of(low)?;
    let width = width_of(width)?;
    Some(select(a, low, width, states == "two"))
}

/// Two values, one behind the other.
fn concatenated(row: &str) -> Option<Bits> {
    let (a, b) = word(row);
    joined(value_of(a)?, value_of(b)?)
}

/// One of two values by a condition.
fn one_of_two(row: &str) -> Option<Bits> {
    let (condition, rest) = word(row);
    let (a, b) = word(rest);
    chosen(value_of(condition)?, value_of(a)?, value_of(b)?)
}

/// The logarithm of a value.
fn logarithm(row: &str) -> Option<Bits> {
    let a = value_of(row)?;
    Some(clog2(a))
}

/// Whether a value is true, as one bit.
fn truth_value(row: &str) -> Option<Bits> {
    let a = value_of(row)?;
    Some(match truth(a) {
        Some(holds) => Bits::number(1, false, holds as u128),
        None => Bits::filled(1, false, Bit::X),
    })
}

/// A value, or that of an operator between two.
fn value_or_binary(row: &str) -> Option<Bits> {
    let (a, rest) = word(row);
    let a = value_of(a)?;
    if rest.is_empty() {
        return Some(a);
    }
    let (operator, b) = word(rest);
    applied(beside(BINARY, operator)?, a, value_of(b)?)
}

/// The value of an operator, where its operands suit it.
#[tactic(auto, using(sve_value::proofs::Suited::suits_alike))]
fn applied(operator: Binary, a: Bits, b: Bits) -> Option<Bits> {
    if a.width() == b.width() && a.is_signed() == b.is_signed() {
        return Some(binary(operator, a, b));
    }
    match operator {
        Binary::Power => Some(binary(Binary::Power, a, b)),
        Binary::LogicalAnd => Some(binary(Binary::LogicalAnd, a, b)),
        Binary::LogicalOr => Some(binary(Binary::LogicalOr, a, b)),
        Binary::LogicalImplication => Some(binary(Binary::LogicalImplication, a, b)),
        Binary::LogicalEquivalence => Some(binary(Binary::LogicalEquivalence, a, b)),
        Binary::LogicalShiftLeft => Some(binary(Binary::LogicalShiftLeft, a, b)),
        Binary::LogicalShiftRight => Some(binary(Binary::LogicalShiftRight, a, b)),
        Binary::ArithmeticShiftLeft => Some(binary(Binary::ArithmeticShiftLeft, a, b)),
        Binary::ArithmeticShiftRight => Some(binary(Binary::ArithmeticShiftRight, a, b)),
        _ => None,
    }
}

/// A concatenation of at most 128 bits.
fn joined(a: Bits, b: Bits) -> Option<Bits> {
    if a.width() + b.width() <= 128 {
        Some(concat(a, b))
    } else {
        None
    }
}

/// One of two arms of one size and sign.
fn chosen(condition: Bits, a: Bits, b: Bits) -> Option<Bits> {
    if a.width() == b.width() && a.is_signed() == b.is_signed() {
        Some(choose(condition, a, b))
    } else {
        None
    }
}

/// The answer to a row `parts`.
fn parts_row(alloc: Global, row: &str) -> Result<Option<String>, NoMemory> {
    let (first, second) = word(row);
    match value_of(first) {
        Some(a) => Ok(Some(parts_text(alloc, a, second)?)),
        None => Ok(None),
    }
}

/// What a value gives to be read, and whether a second one is the same.
fn parts_text(alloc: Global, a: Bits, second: &str) -> Result<String, NoMemory> {
    let mut out = String::new(alloc);
    add_size(&mut out, a)?;
    add_numbers(&mut out, a)?;
    add_bits(&mut out, a)?;
    add_same(&mut out, a, second)?;
    Ok(out)
}

/// Adds the width and the sign.
fn add_size(out: &mut String, a: Bits) -> Result<(), NoMemory> {
    add_number(out, a.width() as usize)?;
    out.push_str(" bits")?;
    out.push_str(if a.is_signed() { ", signed" } else { "" })?;
    out.push_str(if a.is_negative() { ", negative" } else { "" })
}

/// Adds the numbers that a value is.
fn add_numbers(out: &mut String, a: Bits) -> Result<(), NoMemory> {
    if let Some(number) = a.natural() {
        write!(out, ", natural {number}")?;
    }
    match a.integer() {
        Some(number) => write!(out, ", integer {number}"),
        None => Ok(()),
    }
}

/// The name of a bit, behind a blank.
fn bit_name(bit: Bit) -> &'static str {
    match bit {
        Bit::Zero => " Zero",
        Bit::One => " One",
        Bit::X => " X",
        Bit::Z => " Z",
    }
}

/// Adds the bits.
fn add_bits(out: &mut String, a: Bits) -> Result<(), NoMemory> {
    out.push_str(", from the left")?;
    let width = a.width();
    for place in 0..width {
        out.push_str(bit_name(a.bit(width - 1 - place)))?;
    }
    Ok(())
}

/// Adds whether a second value is the same, where there is one.
fn add_same(out: &mut String, a: Bits, second: &str) -> Result<(), NoMemory> {
    match value_of(second) {
        Some(b) => out.push_str(if a.is_same(b) {
            ", the same"
        } else {
            ", another"
        }),
        None => Ok(()),
    }
}

/// The operators before one operand, as they are spelled.
const UNARY: &[(&str, Unary)] = &[
    ("+", Unary::Plus),
    ("-", Unary::Minus),
    ("~", Unary::BitwiseNot),
    ("!", Unary::LogicalNot),
    ("&", Unary::ReductionAnd),
    ("~&", Unary::ReductionNand),
    ("|", Unary::ReductionOr),
    ("~|", Unary::ReductionNor),
    ("^", Unary::ReductionXor),
    ("~^", Unary::ReductionXnor),
];

/// The operators between two operands, as they are spelled.
const BINARY: &[(&str, Binary)] = &[
    ("+", Binary::Add),
    ("-", Binary::Subtract),
    ("*", Binary::Multiply),
    ("/", Binary::Divide),
    ("%", Binary::Modulus),
    ("**", Binary::Power),
    ("&", Binary::BitwiseAnd),
    ("|", Binary::BitwiseOr),
    ("^", Binary::BitwiseXor),
    ("~^", Binary::BitwiseXnor),
    ("==", Binary::LogicalEqual),
    ("!=", Binary::LogicalNotEqual),
    ("===", Binary::CaseEqual),
    ("!==", Binary::CaseNotEqual),
    ("==?", Binary::WildcardEqual),
    ("!=?", Binary::WildcardNotEqual),
    ("<", Binary::Less),
    ("<=", Binary::LessOrEqual),
    (">", Binary::Greater),
    (">=", Binary::GreaterOrEqual),
    ("&&", Binary::LogicalAnd),
    ("||", Binary::LogicalOr),
    ("->", Binary::LogicalImplication),
    ("<->", Binary::LogicalEquivalence),
    ("<<", Binary::LogicalShiftLeft),
    (">>", Binary::LogicalShiftRight),
    ("<<<", Binary::ArithmeticShiftLeft),
    (">>>", Binary::ArithmeticShiftRight),
    ("^~", Binary::BitwiseXnor),
];

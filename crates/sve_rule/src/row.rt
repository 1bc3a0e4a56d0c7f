ghost use Rattle.std.specs.Prelude.{◌≡◌, ◌*◌, ◌≤◌, Some, length};
ghost use Rattle.sve_rule.specs.Judged.{judged};
ghost use Rattle.sve_rule.specs.Rows.{line_of, lined, appended, repeated, copies};
ghost use Rattle.sve_rule.specs.Rules.{part_judged, appended_judged, narrow, replicated, replication_judged, whole, whole_judged};

use crate::cast::count_of;
use crate::operator::Judged;
use sve_diag::Code;
use sve_fault::Fault;
use sve_operand::settled;
use sve_value::{Bits, concat};

/// Bits one after another, as they stand in a concatenation (IEEE 1800-2017, 11.4.12).
#[derive(Clone, Copy)]
pub enum Row {
    /// None.
    Empty,
    /// Up to 128.
    Bits(Bits),
    /// More than 128, which are not kept.
    Wide,
}

impl Row {
    /// The bits, and on their right those of another row.
    #[tactic(auto, using(crate::proofs::Lines::append_nil_bits))]
    fn append(self, other: Row) -> Row
        ensures { line_of result ≡ appended (line_of self) (line_of other) }
    {
        match self {
            Row::Wide => Row::Wide,
            Row::Empty => other,
            Row::Bits(a) => match other {
                Row::Wide => Row::Wide,
                Row::Empty => Row::Bits(a),
                Row::Bits(b) => joined(a, b),
            },
        }
    }
}

/// A value, and on its right another.
fn joined(a: Bits, b: Bits) -> Row
    ensures { line_of result ≡ appended (Some a.bits) (Some b.bits) }
{
    if a.width() + b.width() > 128 {
        return Row::Wide;
    }
    Row::Bits(concat(a, b))
}

/// So many copies of a value.
fn repeated(bits: Bits, count: u128) -> Row
    ensures { line_of result ≡ repeated count bits.bits }
{
    if count > 128 / u128::from(bits.width()) {
        return Row::Wide;
    }
    copies(bits, count as u32)
}

/// So few copies of a value that they fit.
#[tactic(auto, using(crate::proofs::Lines::length_copies, crate::proofs::Lines::copies_zero, crate::proofs::Lines::copies_more))]
fn copies(bits: Bits, count: u32) -> Row
    requires { count * length bits.bits ≤ 128 }
    ensures { line_of result ≡ Some (copies count bits.bits) }
{
    let mut row = Row::Empty;
    'copies: for done in 0..count {
        row = row.append(Row::Bits(bits));
    }
    row
}

/// An operand of a concatenation. A number without a size, at its token, is none.
#[tactic(auto, unfolding(crate::specs::Rules::part_judged))]
pub fn part(unsized_at: Option<u32>, a: Judged) -> Result<Row, Fault>
    ensures { lined result ≡ part_judged unsized_at (judged a) }
{
    match a {
        Err(fault) => Err(fault),
        Ok(a) => match unsized_at {
            Some(token) => Err(Fault::at(token, Code::C04)),
            None => Ok(Row::Bits(a.own_value())),
        },
    }
}

/// Operands, and behind them another.
#[tactic(auto, unfolding(crate::specs::Rules::appended_judged))]
pub fn append(a: Result<Row, Fault>, b: Result<Row, Fault>) -> Result<Row, Fault>
    ensures { lined result ≡ appended_judged (lined a) (lined b) }
{
    match a {
        Ok(a) => match b {
            Ok(b) => Ok(a.append(b)),
            Err(b) => Err(b),
        },
        Err(a) => match b {
            Err(b) => Err(a.first(b)),
            Ok(_) => Err(a),
        },
    }
}

/// A row of at most 128 bits.
fn narrow(opening: u32, row: Row) -> Result<Row, Fault>
    ensures { lined result ≡ narrow opening (line_of row) }
{
    match row {
        Row::Wide => Err(Fault::at(opening, Code::C03)),
        Row::Empty => Ok(Row::Empty),
        Row::Bits(bits) => Ok(Row::Bits(bits)),
    }
}

/// So many copies of a row.
fn replicated(
    opening: u32,
    token: u32,
    empty: u32,
    count: Option<u128>,
    row: Row,
) -> Result<Row, Fault>
    ensures { lined result ≡ replicated opening token empty count (line_of row) }
{
    match count {
        None => Err(Fault::at(token, Code::C05)),
        Some(count) => match row {
            Row::Wide => Err(Fault::at(opening, Code::C03)),
            Row::Empty => Err(Fault::at(empty, Code::C05)),
            Row::Bits(bits) => narrow(opening, repeated(bits, count)),
        },
    }
}

/// A replication, at its first token, by its count, at the count's first token (11.4.12.1). Operands without a bit are a fault at
/// a token of their own.
#[tactic(auto, unfolding(crate::specs::Rules::replication_judged))]
pub fn replication(
    opening: u32,
    token: u32,
    empty: u32,
    count: Judged,
    operands: Result<Row, Fault>,
) -> Result<Row, Fault>
    ensures { lined result ≡ replication_judged opening token empty (judged count) (lined operands) }
{
    match count {
        Ok(count) => match operands {
            Ok(row) => replicated(opening, token, empty, count_of(count.own_value()), row),
            Err(b) => Err(b),
        },
        Err(a) => match operands {
            Err(b) => Err(a.first(b)),
            Ok(_) => Err(a),
        },
    }
}

/// A row that has bits, and not too many.
fn standing(opening: u32, token: u32, row: Row) -> Judged
    ensures { judged result ≡ whole opening token (line_of row) }
{
    match row {
        Row::Wide => Err(Fault::at(opening, Code::C03)),
        Row::Empty => Err(Fault::at(token, Code::C05)),
        Row::Bits(bits) => Ok(settled(bits.extend(bits.width(), false))),
    }
}

/// A row that stands as an expression: the token is that at which no bit at all is a fault.
#[tactic(auto, unfolding(crate::specs::Rules::whole_judged))]
pub fn whole(opening: u32, token: u32, row: Result<Row, Fault>) -> Judged
    ensures { judged result ≡ whole_judged opening token (lined row) }
{
    match row {
        Err(fault) => Err(fault),
        Ok(row) => standing(opening, token, row),
    }
}

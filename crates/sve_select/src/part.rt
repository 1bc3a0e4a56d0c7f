ghost use Rattle.std.specs.Prelude.{◌≡◌, IfOk};
ghost use Rattle.std.specs.Result.{result_map_both};
ghost use Rattle.sve_rule.specs.Judged.{judged};
ghost use Rattle.sve_select.specs.Pieces.{pieced};
ghost use Rattle.sve_select.specs.Selects.{begun, begun_judged, row_judged, ended_judged};

use std::alloc::Global;
use sve_bytes::NoMemory;
use sve_diag::Code;
use sve_fault::Fault;
use sve_operand::settled;
use sve_rule::Judged;
use sve_types::{Ty, Value};
use sve_value::Bits;

/// What can still be selected of a part of a constant.
#[derive(Clone, Copy)]
pub enum Rest<'t> {
    /// What a type says, without so many of its packed dimensions, from the left.
    Typed(&'t Ty, usize),
    /// Bits one after another, as a concatenation has.
    Row,
    /// One bit, of which nothing can be selected.
    Bit,
    /// Some bits of more, of which no more is selected.
    Run,
}

/// What selects of a constant have led to (IEEE 1800-2017, 11.5.1).
#[derive(Drop)]
pub struct Part<'t> {
    /// Its bits.
    pub value: Bits,
    /// What can be selected of them.
    pub rest: Rest<'t>,
}

/// What selects have led to, or the first fault.
pub type Selected<'t> = Result<Part<'t>, Fault>;

/// A constant by its value.
fn begun_at<'t>(
    alloc: Global,
    first: u32,
    token: u32,
    name: &[u8],
    value: Value,
    ty: &'t Ty,
) -> Result<Selected<'t>, NoMemory>
    ensures { IfOk result (λ r. pieced r ≡ begun first token name.now value ty.now) }
{
    match value {
        Value::Bits(value) => Ok(Ok(Part {
            value,
            rest: Rest::Typed(ty, 0),
        })),
        Value::Text(_) => Ok(Err(Fault::at(first, Code::C01))),
        Value::OfType(_) => Ok(Err(Fault::about(alloc, token, Code::N11, name)?)),
    }
}

/// Where selects of a constant begin, by its value and its type. The tokens are its first one, and that of its name. Selects of
/// strings are left out (C01), and a type is no value (N11). It fails for want of memory alone.
#[tactic(auto, unfolding(crate::specs::Selects::begun_judged))]
pub fn begun<'t>(
    alloc: Global,
    first: u32,
    token: u32,
    name: &[u8],
    value: Result<Value, Fault>,
    ty: Result<&'t Ty, Fault>,
) -> Result<Selected<'t>, NoMemory>
    ensures { IfOk result (λ r. pieced r ≡ begun_judged first token name.now value (result_map_both (λ t. t.now) (λ f. f) ty.entry)) }
{
    match value {
        Ok(value) => match ty {
            Ok(ty) => begun_at(alloc, first, token, name, value, ty),
            Err(b) => Ok(Err(b)),
        },
        Err(a) => match ty {
            Err(b) => Ok(Err(a.first(b))),
            Ok(_) => Ok(Err(a)),
        },
    }
}

/// Where selects of a concatenation begin, by its bits (11.4.12).
#[tactic(auto, unfolding(crate::specs::Selects::row_judged))]
pub fn row(a: Judged) -> Selected<'static>
    ensures { pieced result ≡ row_judged (judged a) }
{
    match a {
        Ok(a) => Ok(Part {
            value: a.own_value(),
            rest: Rest::Row,
        }),
        Err(fault) => Err(fault),
    }
}

/// What a path of selects means.
#[tactic(auto, unfolding(crate::specs::Selects::ended_judged))]
pub fn ended(part: Selected) -> Judged
    ensures { judged result ≡ ended_judged (pieced part.entry) }
{
    match part {
        Ok(part) => Ok(settled(part.value)),
        Err(fault) => Err(fault),
    }
}

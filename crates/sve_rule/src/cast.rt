ghost use Rattle.std.specs.Prelude.{◌≡◌};
ghost use Rattle.sve_operand.specs.Pending.{meaning_of};
ghost use Rattle.sve_rule.specs.Judged.{judged};
ghost use Rattle.sve_rule.specs.Rules.{count_of, resized, size_cast_judged, sign_cast_judged, converted, type_cast_judged};

use crate::operator::Judged;
use crate::target::Target;
use sve_diag::Code;
use sve_fault::Fault;
use sve_operand::{Operand, settled};
use sve_value::Bits;

/// How many a value says: none where a bit is unknown or the value is below zero.
pub(crate) fn count_of(value: Bits) -> Option<u128>
    ensures { result ≡ count_of value }
{
    if value.is_negative() {
        return None;
    }
    value.natural()
}

/// An operand cut or extended to so many bits by its own sign, which it keeps.
fn resized(token: u32, size: Option<u128>, a: Operand) -> Judged
    ensures { judged result ≡ resized token size (meaning_of a) }
{
    match size {
        None => Err(Fault::at(token, Code::C01)),
        Some(0) => Err(Fault::at(token, Code::C01)),
        Some(size) => {
            if size > 128 {
                return Err(Fault::at(token, Code::C03));
            }
            Ok(settled(a.own_value().extend(size as u32, a.is_signed())))
        }
    }
}

/// A cast to a size, at its first token, which is the size's (IEEE 1800-2017, 6.24.1).
#[tactic(auto, unfolding(crate::specs::Rules::size_cast_judged))]
pub fn size_cast(token: u32, size: Judged, a: Judged) -> Judged
    ensures { judged result ≡ size_cast_judged token (judged size) (judged a) }
{
    match size {
        Ok(size) => match a {
            Ok(a) => resized(token, count_of(size.own_value()), a),
            Err(b) => Err(b),
        },
        Err(b) => match a {
            Err(a) => Err(b.first(a)),
            Ok(_) => Err(b),
        },
    }
}

/// A cast to a sign, which keeps the bits: `signed'(e)`, and `$signed(e)` too (6.24.1 and 11.7).
#[tactic(auto, unfolding(crate::specs::Rules::sign_cast_judged))]
pub fn sign_cast(signed: bool, a: Judged) -> Judged
    ensures { judged result ≡ sign_cast_judged signed (judged a) }
{
    match a {
        Ok(a) => Ok(settled(a.own_value().extend(a.width(), signed))),
        Err(fault) => Err(fault),
    }
}

/// An operand assigned to a type: evaluated in the larger of the two sizes by its own sign, and then cut.
fn converted(token: u32, target: Target, a: Operand) -> Judged
    ensures { judged result ≡ converted token target (meaning_of a) }
{
    if target.width == 0 {
        return Err(Fault::at(token, Code::C01));
    }
    if target.width > 128 {
        return Err(Fault::at(token, Code::C03));
    }
    let width = target.width as u32;
    let value = a
        .value(a.width().max(width), a.is_signed())
        .extend(width, target.signed);
    Ok(settled(target.states(value)))
}

/// A cast to a type, at its first token: what a variable of the type holds after an assignment (6.24.1 and 10.7).
#[tactic(auto, unfolding(crate::specs::Rules::type_cast_judged))]
pub fn type_cast(token: u32, target: Result<Target, Fault>, a: Judged) -> Judged
    ensures { judged result ≡ type_cast_judged token target (judged a) }
{
    match target {
        Ok(target) => match a {
            Ok(a) => converted(token, target, a),
            Err(b) => Err(b),
        },
        Err(b) => match a {
            Err(a) => Err(b.first(a)),
            Ok(_) => Err(b),
        },
    }
}

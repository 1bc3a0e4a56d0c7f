//! The type and the value of a parameter by what is assigned to it.
ghost use Rattle.std.specs.Prelude.{◌≡◌, IfOk};
ghost use Rattle.sve_value.specs.Vector.{IsWidth};
ghost use Rattle.sve_rule.specs.Judged.{judged};
ghost use Rattle.sve_type_of.specs.Written.{target_of};
ghost use Rattle.sve_assigned.specs.Assignments.{as_text, by_itself, converted_value, is_text, signed_value, string_alone, typed_value, vector_of};

use crate::form::Form;
use std::alloc::Global;
use sve_bytes::{List, NoMemory};
use sve_diag::Code;
use sve_fault::Fault;
use sve_rule::{Judged, Target, type_cast, value};
use sve_types::{Base, Range, Ty, Value, Vec_, four_state, signed, width};
use sve_value::Bits;

/// The type and the value of a parameter.
#[derive(Drop)]
pub struct Assigned {
    /// The type.
    pub ty: Ty,
    /// The value, which is one of the type.
    pub value: Value,
}

/// What is assigned, or what is wrong with it.
pub(crate) type Outcome = Result<Assigned, Fault>;

/// A vector of four states, of so many bits.
fn vector_of(alloc: Global, width: u32, signed: bool) -> Result<Ty, NoMemory>
    requires { IsWidth width }
    ensures { IfOk result (λ t. t ≡ vector_of width signed) }
{
    let mut packed = Vec::new(alloc);
    packed.push(Range {
        left: width as i32 - 1,
        right: 0,
    })?;
    Ok(Ty {
        base: Base::Vector(Vec_::Logic, signed),
        packed: List::of(packed),
        unpacked: List::of(Vec::new(alloc)),
    })
}

/// A string type.
fn string(alloc: Global) -> Ty
    ensures { result ≡ string_alone }
{
    Ty {
        base: Base::Text,
        packed: List::of(Vec::new(alloc)),
        unpacked: List::of(Vec::new(alloc)),
    }
}

/// A value with a type of its own: bits are a vector, a string is one, and a type is no value of a parameter that has none.
pub(crate) fn by_itself(alloc: Global, token: u32, value: Value) -> Result<Outcome, NoMemory>
    ensures { IfOk result (λ r. r ≡ by_itself token value) }
{
    match value {
        Value::Bits(bits) => Ok(Ok(Assigned {
            ty: vector_of(alloc, bits.width(), bits.is_signed())?,
            value: Value::Bits(bits),
        })),
        Value::Text(text) => Ok(Ok(Assigned {
            ty: string(alloc),
            value: Value::Text(text),
        })),
        Value::OfType(_) => Ok(Err(Fault::at(token, Code::N11))),
    }
}

/// A value that is assigned to a string, which takes nothing but a string.
pub(crate) fn as_text(alloc: Global, token: u32, ty: &Ty, value: Value) -> Result<Outcome, NoMemory>
    ensures { IfOk result (λ r. r ≡ as_text token ty.now value) }
{
    match value {
        Value::Text(text) => Ok(Ok(Assigned {
            ty: ty.copy(alloc)?,
            value: Value::Text(text),
        })),
        Value::Bits(_) => Ok(Err(Fault::at(token, Code::C01))),
        Value::OfType(_) => Ok(Err(Fault::at(token, Code::C01))),
    }
}

/// A value as a vector of a sign, of as many bits as it has.
pub(crate) fn signed_value(
    alloc: Global,
    signed: bool,
    operand: Judged,
) -> Result<Outcome, NoMemory>
    ensures { IfOk result (λ r. r ≡ signed_value signed (judged operand)) }
{
    match operand {
        Ok(operand) => {
            let width = operand.width();
            Ok(Ok(Assigned {
                ty: vector_of(alloc, width, signed)?,
                value: Value::Bits(operand.own_value().extend(width, signed)),
            }))
        }
        Err(fault) => Ok(Err(fault)),
    }
}

/// What an assignment has to know of a type.
fn target_of(ty: &Ty) -> Target
    ensures { result ≡ target_of ty.now }
{
    Target {
        width: width(ty),
        signed: signed(ty),
        two_state: !four_state(ty),
    }
}

/// A value that is assigned to a type of bits.
pub(crate) fn typed_value(
    alloc: Global,
    token: u32,
    ty: &Ty,
    operand: Judged,
) -> Result<Outcome, NoMemory>
    ensures { IfOk result (λ r. r ≡ typed_value token ty.now (judged operand)) }
{
    match type_cast(token, Ok(target_of(ty)), operand) {
        Ok(value) => Ok(Ok(Assigned {
            ty: ty.copy(alloc)?,
            value: Value::Bits(value.own_value()),
        })),
        Err(fault) => Ok(Err(fault)),
    }
}

/// Whether a type is a string.
pub(crate) fn is_text(ty: &Ty) -> bool
    ensures { result ≡ is_text ty.now }
{
    matches!(ty.base, Base::Text)
}

/// The type and the value of a parameter to which a value is assigned that was evaluated by itself, as an override is (IEEE 1800-2017,
/// 6.20 and 23.10): cut or extended by its own sign, and 0 for x and z where the type has two states. What is wrong stands at the
/// token: a string of more than 16 bytes for a type of bits (C07), a type of more than 128 bits (C03), a value that is no string for
/// a string (C01), a type as a value (N11).
///
/// # Errors
/// For want of memory alone.
pub fn converted(
    alloc: Global,
    form: &Form,
    token: u32,
    given: Value,
) -> Result<Result<Assigned, Fault>, NoMemory>
    ensures { IfOk result (λ r. r ≡ converted_value form.now token given) }
{
    match form {
        Form::Free => by_itself(alloc, token, given),
        Form::Sign(signed) => {
            let operand = value(alloc, token, token, &[], Ok(given))?;
            signed_value(alloc, *signed, operand)
        }
        Form::Typed(ty) => {
            if is_text(ty) {
                return as_text(alloc, token, ty, given);
            }
            let operand = value(alloc, token, token, &[], Ok(given))?;
            typed_value(alloc, token, ty, operand)
        }
    }
}

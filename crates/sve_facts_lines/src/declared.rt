ghost use Rattle.std.specs.Prelude.{◌≡◌, ◌<◌, ◌+◌, ◌^◌, IfOk, length, option_map};
ghost use Rattle.sve_facts_lines.specs.Things.{constant_of, kind_text, kind_word, param_lines, sign_text, state_text, type_lines, type_of, type_text, typed_lines, value_lines, width_text};

use crate::line::at_text;
use itoa::Buffer;
use std::alloc::Global;
use sve_bytes::NoMemory;
use sve_diag::Place;
use sve_listing::{none_lines, with_text};
use sve_report::Lines;
use sve_scope::{Constant, SharedType, What};
use sve_types::{Ty, Value, four_state, signed, width};

/// The word of a kind of declaration.
pub(crate) fn kind_word(what: &What) -> &'static [u8]
    ensures { result.now ≡ kind_word what.now }
{
    match what {
        What::Net(_) => b"net",
        What::Variable(_) => b"variable",
        What::Parameter(_) => b"parameter",
        What::LocalParameter(_) => b"localparam",
        What::Genvar => b"genvar",
        What::Function(_) => b"function",
        What::TypeName(_) => b"type",
        What::EnumName(_) => b"enumname",
        What::Instance => b"instance",
        What::Block => b"block",
        What::Modport => b"modport",
        What::InterfacePort(_) => b"interfaceport",
    }
}

/// The type of what is declared: of a function that of its result. Things that are not data have none.
fn type_of(what: &What) -> Option<&SharedType>
    ensures { option_map (λ ty. ty.now) result ≡ type_of what.now }
{
    match what {
        What::Net(ty) | What::Variable(ty) | What::TypeName(ty) => Some(ty),
        What::Parameter(constant) | What::LocalParameter(constant) | What::EnumName(constant) => {
            constant.ty.as_ref()
        }
        What::Function(ty) => ty.as_ref(),
        What::Genvar | What::Instance | What::Block | What::Modport | What::InterfacePort(_) =>
            None,
    }
}

/// `kind <kind>`
fn kind_text(alloc: Global, what: &What) -> Result<Vec<u8>, NoMemory>
    ensures { IfOk result (λ text. text.items ≡ kind_text what.now) }
{
    let mut text = Vec::from_slice(alloc, b"kind ")?;
    text.extend_from_slice(kind_word(what))?;
    Ok(text)
}

/// `type <type>`
fn type_text(alloc: Global, ty: &Ty) -> Result<Vec<u8>, NoMemory>
    ensures { IfOk result (λ text. text.items ≡ type_text ty.now) }
{
    let mut text = Vec::from_slice(alloc, b"type ")?;
    text.extend_from_slice(&sve_types::print(alloc, ty)?)?;
    Ok(text)
}

/// `width <bits>`
fn width_text(alloc: Global, ty: &Ty) -> Result<Vec<u8>, NoMemory>
    ensures { IfOk result (λ text. text.items ≡ width_text ty.now) }
{
    let mut text = Vec::from_slice(alloc, b"width ")?;
    text.extend_from_slice(Buffer::new().format(width(ty)).as_bytes())?;
    Ok(text)
}

/// `state two` or `state four`
fn state_text(alloc: Global, ty: &Ty) -> Result<Vec<u8>, NoMemory>
    ensures { IfOk result (λ text. text.items ≡ state_text ty.now) }
{
    if four_state(ty) {
        Vec::from_slice(alloc, b"state four")
    } else {
        Vec::from_slice(alloc, b"state two")
    }
}

/// `sign signed` or `sign unsigned`
fn sign_text(alloc: Global, ty: &Ty) -> Result<Vec<u8>, NoMemory>
    ensures { IfOk result (λ text. text.items ≡ sign_text ty.now) }
{
    if signed(ty) {
        Vec::from_slice(alloc, b"sign signed")
    } else {
        Vec::from_slice(alloc, b"sign unsigned")
    }
}

/// The lines of a thing of this type.
fn typed_lines(
    alloc: Global,
    what: &What,
    ty: &Ty,
    at: &Place,
    text: &[u8],
) -> Result<Lines, NoMemory>
    requires small { length text.now + 1 < 2 ^ 32 }
    ensures { IfOk result (λ lines. lines ≡ typed_lines what.now ty.now at.now text.now) }
{
    let lines = with_text(Lines::none(alloc), kind_text(alloc, what)?)?;
    let lines = with_text(lines, type_text(alloc, ty)?)?;
    let lines = with_text(lines, width_text(alloc, ty)?)?;
    let lines = with_text(lines, state_text(alloc, ty)?)?;
    let lines = with_text(lines, sign_text(alloc, ty)?)?;
    with_text(lines, at_text(alloc, at, text)?)
}

/// The lines of what a name is declared as: its kind; its type, with the width in bits, the states and the sign of that; and where
/// the name is declared. A thing without a type is answered as one that is not there.
///
/// # Errors
/// For want of memory alone.
pub fn type_lines(alloc: Global, what: &What, at: &Place, text: &[u8]) -> Result<Lines, NoMemory>
    requires small { length text.now + 1 < 2 ^ 32 }
    ensures { IfOk result (λ lines. lines ≡ type_lines what.now at.now text.now) }
{
    match type_of(what) {
        Some(ty) => typed_lines(alloc, what, ty.ty(), at, text),
        None => none_lines(alloc),
    }
}

/// The constant that a parameter is, which a name of an enumeration is not.
fn constant_of(what: &What) -> Option<&Constant>
    ensures { option_map (λ constant. constant.now) result ≡ constant_of what.now }
{
    match what {
        What::Parameter(constant) | What::LocalParameter(constant) => Some(constant),
        _ => None,
    }
}

/// `value <value>` and `type <type>`
fn value_lines(alloc: Global, value: &Value, ty: &Ty) -> Result<Lines, NoMemory>
    ensures { IfOk result (λ lines. lines ≡ value_lines value.now ty.now) }
{
    let mut text = Vec::from_slice(alloc, b"value ")?;
    text.extend_from_slice(&sve_value_text::print(alloc, value)?)?;
    let lines = with_text(Lines::none(alloc), text)?;
    with_text(lines, type_text(alloc, ty)?)
}

/// The lines of a parameter: its value and its type (IEEE 1800-2017, 6.20). What has no value, or is no parameter, is answered as
/// a thing that is not there.
///
/// # Errors
/// For want of memory alone.
pub fn param_lines(alloc: Global, what: &What) -> Result<Lines, NoMemory>
    ensures { IfOk result (λ lines. lines ≡ param_lines what.now) }
{
    let Some(constant) = constant_of(what) else {
        return none_lines(alloc);
    };
    match (&constant.value, &constant.ty) {
        (Some(value), Some(ty)) => value_lines(alloc, value, ty.ty()),
        _ => none_lines(alloc),
    }
}

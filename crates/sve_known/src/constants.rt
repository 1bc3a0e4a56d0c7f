ghost use Rattle.std.specs.Prelude.{◌≡◌, IfOk, option_map};
ghost use Rattle.std.specs.Result.{result_map_both};
ghost use Rattle.sve_fault.specs.Faults.{silent_fault};
ghost use Rattle.sve_known.specs.Constants.{first_token, known_or_silent, type_of, value_of, wrong_kind};

use std::alloc::Global;
use sve_bytes::{Name, NoMemory};
use sve_diag::Code;
use sve_fault::{Fault, Said};
use sve_scope::{SharedType, What};
use sve_tree::ScopedName;
use sve_types::{Ty, Value};

/// The number of the first token of a name: of its package, where one is written.
pub fn first_token(name: ScopedName) -> u32
    ensures { result ≡ first_token name }
{
    match name.scope {
        Some(scope) => scope.name,
        None => name.name,
    }
}

/// A fault of which nothing is said, since it is said at the declaration.
fn silent(token: u32) -> Fault
    ensures { result ≡ silent_fault token }
{
    Fault {
        token,
        said: Said::Nothing,
    }
}

/// The value of a constant, where it has one.
fn known_value(
    alloc: Global,
    token: u32,
    value: &Option<Value>,
) -> Result<Result<Value, Fault>, NoMemory>
    ensures { IfOk result (λ r. r ≡ known_or_silent token value.now) }
{
    match value {
        Some(value) => Ok(Ok(value.copy(alloc)?)),
        None => Ok(Err(silent(token))),
    }
}

/// The type of a constant, where it has one.
fn known_type(token: u32, ty: &Option<SharedType>) -> Result<&Ty, Fault>
    ensures { result_map_both (λ t. t.now) (λ f. f) result ≡ known_or_silent token ty.now }
{
    match ty {
        Some(ty) => Ok(ty.ty()),
        None => Err(silent(token)),
    }
}

/// A fault of a name that is of the wrong kind for its place.
fn wrong_kind(token: u32, name: Option<&Name>) -> Result<Fault, NoMemory>
    ensures { IfOk result (λ f. f ≡ wrong_kind token (option_map (λ n. n.now) name.entry)) }
{
    let arg = match name {
        Some(name) => Some(name.copy()?),
        None => None,
    };
    Ok(Fault {
        token,
        said: Said::Here {
            code: Code::N11,
            arg,
        },
    })
}

/// The value that a name has, by what it stands for (IEEE 1800-2017, 6.20), with the first token of the name, the token of the name
/// behind its package, and the name. A type is of the wrong kind (N11), anything else that is no constant is C01, and of a constant
/// without a value nothing is said, since it is said where it is declared.
///
/// # Errors
/// For want of memory alone.
pub fn value_of(
    alloc: Global,
    first: u32,
    token: u32,
    name: Option<&Name>,
    what: &What,
) -> Result<Result<Value, Fault>, NoMemory>
    ensures { IfOk result (λ r. r ≡ value_of first token (option_map (λ n. n.now) name.entry) what.now) }
{
    match what {
        What::Parameter(constant) => known_value(alloc, first, &constant.value),
        What::LocalParameter(constant) => known_value(alloc, first, &constant.value),
        What::EnumName(constant) => known_value(alloc, first, &constant.value),
        What::TypeName(_) => Ok(Err(wrong_kind(token, name)?)),
        _ => Ok(Err(Fault::at(first, Code::C01))),
    }
}

/// The type of a constant, of a function's result, or that a name stands for (6.18), by what it stands for and the first token of the
/// name. Anything else is C01. It takes no memory.
pub fn type_of(first: u32, what: &What) -> Result<&Ty, Fault>
    ensures { result_map_both (λ t. t.now) (λ f. f) result ≡ type_of first what.now }
{
    match what {
        What::Parameter(constant) => known_type(first, &constant.ty),
        What::LocalParameter(constant) => known_type(first, &constant.ty),
        What::EnumName(constant) => known_type(first, &constant.ty),
        What::TypeName(ty) => Ok(ty.ty()),
        What::Function(Some(ty)) => Ok(ty.ty()),
        _ => Err(Fault::at(first, Code::C01)),
    }
}

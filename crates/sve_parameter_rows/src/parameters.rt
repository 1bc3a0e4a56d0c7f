//! Rows of the parameters of a header.
ghost use Rattle.sve_fault.specs.Counts.{IsFuel};

use crate::overrides::given_by;
use crate::rows::most_of;
use std::alloc::Global;
use sve_bytes::{Name, NoMemory};
use sve_fault::{Fuel, Halted};
use sve_given::{Scope, entries};
use sve_param::Gives;
use sve_resolve::{Params, Resolved, resolve};
use sve_row::{field, spell};
use sve_row_element::{counted, end_text, separate, value_text};
use sve_scope::SharedType;
use sve_spec::Given;
use sve_tree::Element;
use sve_types::{Value, print};

/// Adds a type, where there is one.
fn type_text(alloc: Global, out: &mut String, ty: &Option<SharedType>) -> Result<(), NoMemory> {
    match ty {
        Some(ty) => {
            out.push(' ')?;
            spell(out, print(alloc, ty.ty())?.as_slice())
        }
        None => Ok(()),
    }
}

/// Adds a value, where there is one.
fn final_text(alloc: Global, out: &mut String, value: &Option<Value>) -> Result<(), NoMemory> {
    match value {
        Some(value) => {
            out.push_str(" = ")?;
            value_text(alloc, out, value)
        }
        None => Ok(()),
    }
}

/// Adds a parameter.
fn parameter_text(alloc: Global, out: &mut String, resolved: &Resolved) -> Result<(), NoMemory> {
    if resolved.is_local {
        out.push_str("local ")?;
    }
    spell(out, resolved.name.bytes())?;
    type_text(alloc, out, &resolved.ty)?;
    final_text(alloc, out, &resolved.value)
}

/// The parameters, as text.
fn params_text(alloc: Global, params: &Params) -> Result<String, NoMemory> {
    let mut out = String::new(alloc);
    for resolved in params.parameters.items() {
        separate(&mut out, ", ")?;
        parameter_text(alloc, &mut out, resolved)?;
    }
    end_text(&mut out, params.notes.items())?;
    Ok(out)
}

/// What the parameters of an element come to by what they are given.
fn resolved_text(
    alloc: Global,
    tree: &Element,
    given: &[Given],
    scope: &Scope,
    fuel: &mut Fuel,
) -> Result<Option<String>, Halted>
    requires { IsFuel fuel.old }
{
    let Some(definition) = tree.definition() else {
        return Ok(None);
    };
    let params = resolve(alloc, &definition.header, given, scope, fuel)?;
    Ok(Some(params_text(alloc, &params)?))
}

/// What the parameters of an element come to by what overrides gave, with the names and the most of the row.
fn resolved_in(
    alloc: Global,
    file: &Name,
    tree: &Element,
    gives: &Gives,
    rest: &str,
) -> Result<Option<String>, NoMemory> {
    let (names, most) = field(rest);
    let names = entries(alloc, names)?;
    let scope = Scope {
        alloc,
        file,
        words: tree.words.as_slice(),
        names: names.as_slice(),
    };
    let mut fuel = Fuel {
        used: 0,
        most: most_of(most),
    };
    let text = resolved_text(alloc, tree, gives.given.items(), &scope, &mut fuel);
    counted(alloc, text, fuel.used)
}

/// The answer to a row `resolve` of an element, with the overrides, the names and the most behind it.
pub fn resolve_row(
    alloc: Global,
    file: &Name,
    tree: &Element,
    rest: &str,
) -> Result<Option<String>, NoMemory> {
    let (overrides, rest) = field(rest);
    let gives = given_by(alloc, file, tree, overrides)?;
    resolved_in(alloc, file, tree, &gives, rest)
}

//! The value of a parameter of a body, by what it is given.
ghost use Rattle.std.specs.Prelude.{◌≡◌, IfOk, option_map};
ghost use Rattle.sve_assigned.specs.Assignments.{converted_value, told_of};
ghost use Rattle.sve_resolve.specs.Values.{given_or_default};
ghost use Rattle.sve_scoped.specs.Known.{told_in};
ghost use Rattle.sve_body_parameter.specs.Values.{found_by, given_at, value_by};

use std::alloc::Global;
use sve_assigned::{Assigned, Form, converted};
use sve_bytes::NoMemory;
use sve_contents::Contents;
use sve_declare::{Found, found_with};
use sve_diag::Note;
use sve_scoped::{Text, assigned_in};
use sve_spec::Given;
use sve_tree::ParameterAssignment;
use sve_types::Value;

/// What is given at a place among those that can be overridden, where anything is. It takes no memory.
pub(crate) fn given_at(given: &[Given], place: usize) -> Option<&Given>
    ensures { given_or_default (option_map (λ g. g.now) result) ≡ given_at given.now place }
{
    given.get(place)
}

/// An override, converted to the type of the parameter at a token, or what there is to say of that.
fn converted_in(
    alloc: Global,
    text: Text<'_>,
    contents: &Contents,
    form: &Form,
    token: u32,
    value: &Value,
) -> Result<Result<Assigned, Option<Note>>, NoMemory>
    ensures { IfOk result (λ r. r ≡ told_of (told_in text.entry.packages.now text.entry.words.now contents.now) (converted_value form.now token value.now)) }
{
    match converted(alloc, form, token, value.copy(alloc)?)? {
        Ok(assigned) => Ok(Ok(assigned)),
        Err(fault) => Ok(Err(fault.note(&contents.scope.file, contents.scope.chunk)?)),
    }
}

/// The type and the value of a parameter by what it is given (IEEE 1800-2017, 6.20 and 23.10), or what there is to say of that: an override
/// is converted, and a default is evaluated only where nothing overrides it.
fn value_by(
    alloc: Global,
    text: Text<'_>,
    contents: &Contents,
    form: &Form,
    given: Option<&Given>,
    assignment: &ParameterAssignment,
) -> Result<Result<Assigned, Option<Note>>, NoMemory>
    ensures { IfOk result (λ r. r ≡ value_by (told_in text.entry.packages.now text.entry.words.now contents.now) form.now (given_or_default (option_map (λ g. g.now) given.entry)) assignment.now) }
{
    match given {
        None => assigned_in(alloc, text, contents, form, &assignment.value.value),
        Some(given) => match given {
            Given::Default => assigned_in(alloc, text, contents, form, &assignment.value.value),
            Given::Value(value) => converted_in(
                alloc,
                text,
                contents,
                form,
                assignment.declarator.name,
                value,
            ),
            Given::Bad => Ok(Err(None)),
        },
    }
}

/// What is found of a parameter where it stands, by what it is given.
pub(crate) fn found_by(
    alloc: Global,
    text: Text<'_>,
    contents: &Contents,
    form: &Form,
    is_array: bool,
    given: Option<&Given>,
    assignment: &ParameterAssignment,
) -> Result<Found, NoMemory>
    ensures { IfOk result (λ f. f ≡ found_by (told_in text.entry.packages.now text.entry.words.now contents.now) form.now is_array (given_or_default (option_map (λ g. g.now) given.entry)) assignment.now) }
{
    let value = value_by(alloc, text, contents, form, given, assignment)?;
    found_with(alloc, text, contents, is_array, assignment, value)
}

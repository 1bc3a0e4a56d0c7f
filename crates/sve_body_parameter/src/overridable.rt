//! Parameters of a body, one after another.
ghost use Rattle.std.specs.Prelude.{◌≡◌, ◌++◌, IfOk, OnOk};
ghost use Rattle.sve_known.specs.Naming.{name_at};
ghost use Rattle.sve_scoped.specs.Known.{told_in};
ghost use Rattle.sve_body_parameter.specs.Overridable.{come_in, parameter_after, parameters_behind, value_at, with_overridable};

use crate::value::{found_by, given_at};
use std::alloc::Global;
use sve_assigned::Form;
use sve_bytes::{List, NoMemory};
use sve_contents::Contents;
use sve_declare::{Begun, Settled, all_said, in_front, separator};
use sve_enumerated::Passed;
use sve_facts::ParameterValue;
use sve_known::name_at;
use sve_scope::{Constant, What};
use sve_scoped::{Text, declared_at};
use sve_spec::Given;
use sve_tree::{ParameterAssignment, Parameters, Word};

/// What parameters of a body leave that an instance may override.
#[derive(Drop)]
pub struct Overridable {
    /// The scope, and what is to be said of it.
    pub contents: Contents,
    /// Those of them that have a value, in the order of the text.
    pub values: List<ParameterValue>,
    /// The place of the next one among those that can be overridden, counted from 0.
    pub place: usize,
}

/// The parameters of a declaration so far.
#[derive(Drop)]
pub(crate) struct SoFar {
    /// The scope, whose text was looked through up to the last of them.
    pub(crate) passed: Passed,
    /// Those of them that have a value.
    pub(crate) values: List<ParameterValue>,
    /// The place of the next one among those that can be overridden.
    pub(crate) place: usize,
}

/// Adds what the parameter at a token stands for, where it has a name, a type and a value.
fn add_value(
    alloc: Global,
    words: &[Word],
    token: u32,
    constant: &Constant,
    values: &mut Vec<ParameterValue>,
) -> Result<(), NoMemory>
    ensures { OnOk result (values.new.items ≡ values.old.items ++ value_at (name_at words.now token) constant.now) }
{
    let Some(name) = name_at(words, token) else {
        return Ok(());
    };
    let Some(ty) = &constant.ty else {
        return Ok(());
    };
    let Some(value) = &constant.value else {
        return Ok(());
    };
    values.push(ParameterValue {
        name: name.copy()?,
        ty: ty.copy()?,
        value: value.copy(alloc)?,
    })?;
    Ok(())
}

/// The values behind one more parameter.
fn with_value(
    alloc: Global,
    words: &[Word],
    values: List<ParameterValue>,
    token: u32,
    constant: &Constant,
) -> Result<List<ParameterValue>, NoMemory>
    ensures { IfOk result (λ l. l ≡ values ++ value_at (name_at words.now token) constant.now) }
{
    let mut values = values.into_vec();
    add_value(alloc, words, token, constant, &mut values)?;
    Ok(List::of(values))
}

/// A parameter of which all is said comes into the scope, behind those before it, and is seen from a token on.
fn come_in(
    alloc: Global,
    words: &[Word],
    values: List<ParameterValue>,
    place: usize,
    settled: Settled,
    token: u32,
    from: u32,
) -> Result<SoFar, NoMemory>
    ensures { IfOk result (λ s. s ≡ come_in words.now values place settled token from) }
{
    let Settled { passed, constant } = settled;
    let values = with_value(alloc, words, values, token, &constant)?;
    let Passed { contents, at } = passed;
    let contents = declared_at(words, contents, token, What::Parameter(constant), from)?;
    Ok(SoFar {
        passed: Passed { contents, at },
        values,
        place: place.saturating_add(1),
    })
}

/// The parameter at a place of a declaration, counted from 0.
#[tactic(auto, unfolding(crate::specs::Overridable::parameter_after))]
fn parameter_after(
    alloc: Global,
    text: Text<'_>,
    given: &[Given],
    form: &Form,
    is_array: bool,
    written: &Parameters,
    index: usize,
    so_far: SoFar,
    assignment: &ParameterAssignment,
) -> Result<SoFar, NoMemory>
    ensures { IfOk result (λ s. s ≡ parameter_after (told_in text.entry.packages.now text.entry.words.now) text.entry.words.now given.now form.now is_array written.now index so_far assignment.now) }
{
    let SoFar {
        passed,
        values,
        place,
    } = so_far;
    let given = given_at(given, place);
    let found = found_by(
        alloc,
        text,
        &passed.contents,
        form,
        is_array,
        given,
        assignment,
    )?;
    let token = assignment.declarator.name;
    let from = separator(written, index);
    let settled = all_said(alloc, text.words, form, passed, found, token, from)?;
    come_in(alloc, text.words, values, place, settled, token, from)
}

/// The parameters of a declaration, one after another.
#[tactic(auto, using(crate::proofs::Loops::parameters_step, crate::proofs::Loops::parameters_end))]
fn all_parameters(
    alloc: Global,
    text: Text<'_>,
    given: &[Given],
    form: &Form,
    is_array: bool,
    written: &Parameters,
    so_far: SoFar,
) -> Result<SoFar, NoMemory>
    ensures { IfOk result (λ s. s ≡ parameters_behind (told_in text.entry.packages.now text.entry.words.now) text.entry.words.now given.now form.now is_array written.now 0 so_far written.now.assignments.items.items) }
{
    let mut so_far = so_far;
    'assignments: for (index, assignment) in written.assignments.items.iter().enumerate() {
        so_far = parameter_after(
            alloc, text, given, form, is_array, written, index, so_far, assignment,
        )?;
    }
    Ok(so_far)
}

/// What a declaration of parameters leaves in the scope of a module or an interface whose header has no list of parameters (IEEE
/// 1800-2017, 6.20.1), by what an instance gives those that can be overridden (23.10), the first of which stands at this place among
/// them: as in any scope, but that each takes what is given at its own place, in the order of the text. Nothing given is its default. An
/// override is converted to its type, and what is wrong with that is said at its name; its default is not evaluated then. One that is
/// given something bad has no value, and nothing is said of that. A place beyond the last that can be counted is the last.
///
/// # Errors
/// For want of memory alone.
pub fn with_overridable(
    alloc: Global,
    text: Text<'_>,
    given: &[Given],
    place: usize,
    contents: Contents,
    written: &Parameters,
) -> Result<Overridable, NoMemory>
    ensures { IfOk result (λ o. o ≡ with_overridable (told_in text.entry.packages.now text.entry.words.now) text.entry.words.now given.now place contents written.now) }
{
    let Begun {
        form,
        is_array,
        passed,
    } = in_front(alloc, text, contents, written)?;
    let so_far = SoFar {
        passed,
        values: List::of(Vec::new(alloc)),
        place,
    };
    let SoFar {
        passed,
        values,
        place,
    } = all_parameters(alloc, text, given, &form, is_array, written, so_far)?;
    let Passed { contents, at: _ } = passed;
    Ok(Overridable {
        contents,
        values,
        place,
    })
}

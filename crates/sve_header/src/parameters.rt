//! The parameters of a header.
ghost use Rattle.std.specs.Prelude.{◌≡◌, ◌++◌, IfOk, OnOk, option_map, slice_get};
ghost use Rattle.std.specs.List.{flat_map};
ghost use Rattle.sve_fault.specs.Counts.{IsFuel};
ghost use Rattle.sve_plan.specs.Follows.{Meters};
ghost use Rattle.sve_resolve.specs.Resolving.{resolved, resolved_nodes};
ghost use Rattle.sve_scoped.specs.Known.{told_in};
ghost use Rattle.sve_header.specs.Parameters.{constant_of, final_value, names_at, parameter_after, parameters_behind, parameters_in, parameters_left, what_of, with_header_parameters};

use crate::coming::{come_in, names_of_type, separator};
use std::alloc::Global;
use sve_bytes::{List, NoMemory};
use sve_contents::Contents;
use sve_enumerated::Passed;
use sve_facts::ParameterValue;
use sve_fault::{Fuel, Halted};
use sve_resolve::{Params, Resolved, resolve};
use sve_scope::{Constant, SharedType, What};
use sve_scoped::{Text, around};
use sve_spec::Given;
use sve_tree::{Header, ParameterPort, ParameterPorts, Word};
use sve_types::{Ty, Value};

/// What the parameters of a header leave.
#[derive(Drop)]
pub struct HeaderParameters {
    /// The scope, and what is to be said of it.
    pub contents: Contents,
    /// The parameters that an instance may override and that have a value, in the order of the text.
    pub values: List<ParameterValue>,
}

/// A type that is shared once more.
fn copy_of_type(ty: &Option<SharedType>) -> Result<Option<SharedType>, NoMemory>
    ensures { IfOk result (λ t. t ≡ ty.now) }
{
    match ty {
        Some(ty) => Ok(Some(ty.copy()?)),
        None => Ok(None),
    }
}

/// A value with memory of its own.
fn copy_of_value(alloc: Global, value: &Option<Value>) -> Result<Option<Value>, NoMemory>
    ensures { IfOk result (λ v. v ≡ value.now) }
{
    match value {
        Some(value) => Ok(Some(value.copy(alloc)?)),
        None => Ok(None),
    }
}

/// The final type and value of a parameter.
fn constant_of(alloc: Global, resolved: &Resolved) -> Result<Constant, NoMemory>
    ensures { IfOk result (λ c. c ≡ constant_of resolved.now) }
{
    Ok(Constant {
        ty: copy_of_type(&resolved.ty)?,
        value: copy_of_value(alloc, &resolved.value)?,
    })
}

/// What a parameter stands for.
fn what_of(alloc: Global, resolved: &Resolved) -> Result<What, NoMemory>
    ensures { IfOk result (λ w. w ≡ what_of resolved.now) }
{
    let constant = constant_of(alloc, resolved)?;
    if resolved.is_local {
        Ok(What::LocalParameter(constant))
    } else {
        Ok(What::Parameter(constant))
    }
}

/// The type of a parameter, where it is known.
fn type_of(resolved: &Resolved) -> Option<&Ty>
    ensures { option_map (λ t. t.now) result ≡ resolved.now.ty }
{
    match &resolved.ty {
        Some(ty) => Some(ty.ty()),
        None => None,
    }
}

/// The names that the type of a parameter declares, where it is written.
fn names_at(
    alloc: Global,
    words: &[Word],
    resolved: &Resolved,
    passed: Passed,
    written: Option<&ParameterPort>,
) -> Result<Passed, NoMemory>
    ensures { IfOk result (λ p. p ≡ names_at words.now resolved.now passed (option_map (λ w. w.now) written.entry)) }
{
    let Some(written) = written else {
        return Ok(passed);
    };
    let data_type = &written.parameter.data_type;
    names_of_type(alloc, words, type_of(resolved), passed, data_type)
}

/// What is written of the parameter at a place of a list.
fn written_at(list: &ParameterPorts, place: usize) -> Option<&ParameterPort>
    ensures { option_map (λ w. w.now) result ≡ slice_get list.now.parameters.items.items place }
{
    list.parameters.as_slice().get(place)
}

/// The parameter at a place of the list of a header.
#[tactic(auto, unfolding(crate::specs::Parameters::parameter_after))]
fn parameter_after(
    alloc: Global,
    words: &[Word],
    list: &ParameterPorts,
    place: usize,
    passed: Passed,
    resolved: &Resolved,
) -> Result<Passed, NoMemory>
    ensures { IfOk result (λ p. p ≡ parameter_after words.now list.now place passed resolved.now) }
{
    let written = written_at(list, place);
    let passed = names_at(alloc, words, resolved, passed, written)?;
    let what = what_of(alloc, resolved)?;
    let from = separator(list.parameters.separators.as_slice(), list.closing, place);
    come_in(words, passed, resolved.token, what, from)
}

/// The parameters of a list, one after another.
#[tactic(auto, using(crate::proofs::Loops::parameters_step, crate::proofs::Loops::parameters_end))]
fn all_parameters(
    alloc: Global,
    words: &[Word],
    list: &ParameterPorts,
    passed: Passed,
    parameters: &[Resolved],
) -> Result<Passed, NoMemory>
    ensures { IfOk result (λ p. p ≡ parameters_behind words.now list.now 0 passed parameters.now) }
{
    let mut passed = passed;
    'parameters: for (place, resolved) in parameters.iter().enumerate() {
        passed = parameter_after(alloc, words, list, place, passed, resolved)?;
    }
    Ok(passed)
}

/// The parameters of a header, where it has a list of them.
fn parameters_in(
    alloc: Global,
    words: &[Word],
    contents: Contents,
    list: &Option<ParameterPorts>,
    parameters: &[Resolved],
) -> Result<Contents, NoMemory>
    ensures { IfOk result (λ c. c ≡ parameters_in words.now contents list.now parameters.now) }
{
    let Some(list) = list else {
        return Ok(contents);
    };
    let at = list.opening;
    let passed = Passed { contents, at };
    let Passed { contents, at: _ } = all_parameters(alloc, words, list, passed, parameters)?;
    Ok(contents)
}

/// Adds a parameter, where an instance may override it and it has a value.
#[tactic(auto, unfolding(crate::specs::Parameters::final_value))]
fn add_value(
    alloc: Global,
    resolved: &Resolved,
    values: &mut Vec<ParameterValue>,
) -> Result<(), NoMemory>
    ensures { OnOk result (values.new.items ≡ values.old.items ++ final_value resolved.now) }
{
    if resolved.is_local {
        return Ok(());
    }
    let Some(ty) = &resolved.ty else {
        return Ok(());
    };
    let Some(value) = &resolved.value else {
        return Ok(());
    };
    values.push(ParameterValue {
        name: resolved.name.copy()?,
        ty: ty.copy()?,
        value: value.copy(alloc)?,
    })?;
    Ok(())
}

/// The parameters that an instance may override and that have a value.
fn final_values(alloc: Global, parameters: &[Resolved]) -> Result<Vec<ParameterValue>, NoMemory>
    ensures { IfOk result (λ values. values.items ≡ flat_map final_value parameters.now) }
{
    let mut values = Vec::new(alloc);
    for resolved in parameters {
        add_value(alloc, resolved, &mut values)?;
    }
    Ok(values)
}

/// What is found of parameters, and what is said of them, in the scope of their header.
fn parameters_left(
    alloc: Global,
    words: &[Word],
    contents: Contents,
    header: &Header,
    params: Params,
) -> Result<HeaderParameters, NoMemory>
    ensures { IfOk result (λ h. h ≡ parameters_left words.now contents header.now params) }
{
    let Params { parameters, notes } = params;
    let contents = contents.with_notes(notes)?;
    let contents = parameters_in(
        alloc,
        words,
        contents,
        &header.parameters,
        parameters.items(),
    )?;
    let values = List::of(final_values(alloc, parameters.items())?);
    Ok(HeaderParameters { contents, values })
}

/// What the parameters of a header come to, by what they are given.
fn resolved_in(
    alloc: Global,
    text: Text<'_>,
    given: &[Given],
    contents: &Contents,
    header: &Header,
    fuel: &mut Fuel,
) -> Result<Params, Halted>
    requires { IsFuel fuel.old }
    ensures { Meters fuel.old fuel.new (resolved_nodes (told_in text.entry.packages.now text.entry.words.now contents.now) given.now header.now, resolved (told_in text.entry.packages.now text.entry.words.now contents.now) given.now header.now) result }
{
    let env = around(alloc, text, contents);
    resolve(alloc, header, given, &env, fuel)
}

/// What the parameters of a header leave, by what a specialization gives those that an instance may override (IEEE 1800-2017, 6.20 and
/// 23.10): each with its final type and value, which sees those before it, seen from the token behind it on; and first the names that
/// its type declares. An override is not evaluated here, nor is a default that is overridden. The nodes of all others and of types and
/// dimensions are counted.
///
/// # Errors
/// `Over` exactly where the nodes pass the most that may be evaluated, and `NoMemory`.
pub fn with_header_parameters(
    alloc: Global,
    text: Text<'_>,
    given: &[Given],
    contents: Contents,
    header: &Header,
    fuel: &mut Fuel,
) -> Result<HeaderParameters, Halted>
    requires { IsFuel fuel.old }
    ensures { Meters fuel.old fuel.new (with_header_parameters (told_in text.entry.packages.now text.entry.words.now) text.entry.words.now given.now contents header.now) result }
{
    let params = resolved_in(alloc, text, given, &contents, header, fuel)?;
    Ok(parameters_left(alloc, text.words, contents, header, params)?)
}

//! Parameters in a scope.
ghost use Rattle.std.specs.Prelude.{◌≡◌, IfOk};
ghost use Rattle.sve_scoped.specs.Known.{told_in};
ghost use Rattle.sve_declare.specs.Parameters.{all_said, form_type, found_in, found_with, in_front, is_out, kept, names_declared, note_in, parameter_after, parameters_behind, separator, with_parameters, with_value};

use std::alloc::Global;
use sve_assigned::{Assigned, Form, Formed};
use sve_bytes::{List, NoMemory};
use sve_contents::Contents;
use sve_diag::Note;
use sve_enumerated::{Passed, with_names};
use sve_scope::{Constant, SharedType, What};
use sve_scoped::{Text, assigned_in, declared_at, dimension_notes, formed_in, out_if};
use sve_tree::{DeclaredType, ParameterAssignment, Parameters, Word};

/// What is found of a parameter before it is declared.
#[derive(Drop)]
pub struct Found {
    /// Whether its type is out for a parameter, which has no value then.
    pub is_out: bool,
    /// What there is to say of its dimensions.
    pub notes: List<Note>,
    /// Its type and its value, or what there is to say of it.
    pub value: Result<Assigned, Option<Note>>,
}

/// A parameter of which all is said, before its name comes into the scope.
#[derive(Drop)]
pub struct Settled {
    /// The scope, whose text was looked through up to the token from which the parameter is seen.
    pub passed: Passed,
    /// What it stands for.
    pub constant: Constant,
}

/// A declaration of parameters, in front of the first of them.
#[derive(Drop)]
pub struct Begun {
    /// What it says of their type.
    pub form: Form,
    /// Whether their type has unpacked dimensions, with which it is out for a parameter.
    pub is_array: bool,
    /// The scope, behind the names that their type declares.
    pub passed: Passed,
}

/// The type of parameters that the declaration itself tells.
fn form_type(alloc: Global, form: &Form) -> Result<Option<SharedType>, NoMemory>
    ensures { IfOk result (λ t. t ≡ form_type form.now) }
{
    match form {
        Form::Free => Ok(None),
        Form::Sign(_) => Ok(None),
        Form::Typed(ty) => Ok(Some(SharedType::of(alloc, ty.copy(alloc)?)?)),
    }
}

/// What a parameter stands for, and what there is to say of it.
#[derive(Drop)]
pub struct Meant {
    /// What it stands for.
    pub constant: Constant,
    /// What there is to say of its value.
    pub note: Option<Note>,
}

/// What a parameter stands for (IEEE 1800-2017, 6.20): its type and its value, or only the type that its declaration tells, where it has no
/// value or its type is out.
///
/// # Errors
/// For want of memory alone.
pub fn kept(
    alloc: Global,
    form: &Form,
    is_out: bool,
    value: Result<Assigned, Option<Note>>,
) -> Result<Meant, NoMemory>
    ensures { IfOk result (λ k. k ≡ record { constant = kept form.now is_out value; note = note_in value }) }
{
    match value {
        Err(note) => Ok(Meant {
            constant: Constant {
                ty: form_type(alloc, form)?,
                value: None,
            },
            note,
        }),
        Ok(Assigned { ty, value }) => {
            if is_out {
                return Ok(Meant {
                    constant: Constant {
                        ty: form_type(alloc, form)?,
                        value: None,
                    },
                    note: None,
                });
            }
            Ok(Meant {
                constant: Constant {
                    ty: Some(SharedType::of(alloc, ty)?),
                    value: Some(value),
                },
                note: None,
            })
        }
    }
}

/// Whether the type of a parameter is out: it has unpacked dimensions, of its own or of its type.
fn is_out(is_array: bool, assignment: &ParameterAssignment) -> bool
    ensures { result ≡ is_out is_array assignment.now }
{
    is_array || !assignment.declarator.dimensions.is_empty()
}

/// Says what there is to say of a parameter at a token, of which this is found, and looks through the text up to the token from which it
/// is seen (IEEE 1800-2017, 6.20 and 26.3): of its unpacked dimensions (E06) first, then of its value. What it stands for is not declared
/// yet.
///
/// # Errors
/// For want of memory alone.
pub fn all_said(
    alloc: Global,
    words: &[Word],
    form: &Form,
    passed: Passed,
    found: Found,
    token: u32,
    from: u32,
) -> Result<Settled, NoMemory>
    ensures { IfOk result (λ s. s ≡ all_said words.now form.now passed found token from) }
{
    let Passed { contents, at } = passed;
    let Found {
        is_out,
        notes,
        value,
    } = found;
    let contents = out_if(words, contents, token, is_out)?;
    let contents = contents.with_notes(notes)?;
    let Meant { constant, note } = kept(alloc, form, is_out, value)?;
    let contents = contents.noted(note)?;
    let passed = Passed { contents, at }.to(words, token)?.to(words, from)?;
    Ok(Settled { passed, constant })
}

/// A parameter with what is found of it, which is seen from a token on.
#[tactic(auto, unfolding(crate::specs::Parameters::with_value))]
fn with_value(
    alloc: Global,
    words: &[Word],
    form: &Form,
    passed: Passed,
    found: Found,
    token: u32,
    from: u32,
) -> Result<Passed, NoMemory>
    ensures { IfOk result (λ p. p ≡ with_value words.now form.now passed found token from) }
{
    let Settled { passed, constant } = all_said(alloc, words, form, passed, found, token, from)?;
    let Passed { contents, at } = passed;
    let contents = declared_at(words, contents, token, What::LocalParameter(constant), from)?;
    Ok(Passed { contents, at })
}

/// The token behind the parameter at a place of a declaration, counted from 0: the parameter is seen from there on. It takes no memory.
pub fn separator(written: &Parameters, place: usize) -> u32
    ensures { result ≡ separator written.now place }
{
    match written.assignments.separators.get(place) {
        Some(token) => *token,
        None => written.semicolon,
    }
}

/// What is found of a parameter that has this value, or of whose value this is to be said, where the text of a scope was read so far.
///
/// # Errors
/// For want of memory alone.
pub fn found_with(
    alloc: Global,
    text: Text<'_>,
    contents: &Contents,
    is_array: bool,
    assignment: &ParameterAssignment,
    value: Result<Assigned, Option<Note>>,
) -> Result<Found, NoMemory>
    ensures { IfOk result (λ f. f ≡ found_with (told_in text.entry.packages.now text.entry.words.now contents.now) is_array assignment.now value) }
{
    let dimensions = &assignment.declarator.dimensions;
    let notes = dimension_notes(alloc, text, contents, dimensions)?;
    Ok(Found {
        is_out: is_out(is_array, assignment),
        notes,
        value,
    })
}

/// What is found of a parameter where it stands.
fn found_in(
    alloc: Global,
    text: Text<'_>,
    contents: &Contents,
    form: &Form,
    is_array: bool,
    assignment: &ParameterAssignment,
) -> Result<Found, NoMemory>
    ensures { IfOk result (λ f. f ≡ found_in (told_in text.entry.packages.now text.entry.words.now contents.now) form.now is_array assignment.now) }
{
    let value = assigned_in(alloc, text, contents, form, &assignment.value.value)?;
    found_with(alloc, text, contents, is_array, assignment, value)
}

/// The parameter at a place of a declaration.
#[tactic(auto, unfolding(crate::specs::Parameters::parameter_after))]
fn parameter_after(
    alloc: Global,
    text: Text<'_>,
    form: &Form,
    is_array: bool,
    written: &Parameters,
    place: usize,
    passed: Passed,
    assignment: &ParameterAssignment,
) -> Result<Passed, NoMemory>
    ensures { IfOk result (λ p. p ≡ parameter_after (told_in text.entry.packages.now text.entry.words.now) text.entry.words.now form.now is_array written.now place passed assignment.now) }
{
    let found = found_in(alloc, text, &passed.contents, form, is_array, assignment)?;
    let token = assignment.declarator.name;
    let from = separator(written, place);
    with_value(alloc, text.words, form, passed, found, token, from)
}

/// The parameters of a declaration, one after another.
#[tactic(auto, using(crate::proofs::Loops::parameters_step, crate::proofs::Loops::parameters_end))]
fn all_parameters(
    alloc: Global,
    text: Text<'_>,
    form: &Form,
    is_array: bool,
    written: &Parameters,
    passed: Passed,
) -> Result<Passed, NoMemory>
    ensures { IfOk result (λ p. p ≡ parameters_behind (told_in text.entry.packages.now text.entry.words.now) text.entry.words.now form.now is_array written.now 0 passed written.now.assignments.items.items) }
{
    let mut passed = passed;
    'assignments: for (place, assignment) in written.assignments.items.iter().enumerate() {
        passed = parameter_after(
            alloc, text, form, is_array, written, place, passed, assignment,
        )?;
    }
    Ok(passed)
}

/// The names that the type of a declaration of parameters declares, which come in front of them (6.19).
///
/// # Errors
/// For want of memory alone.
#[tactic(auto, unfolding(crate::specs::Parameters::names_declared))]
pub fn names_declared(
    alloc: Global,
    words: &[Word],
    form: &Form,
    passed: Passed,
    written: &DeclaredType,
) -> Result<Passed, NoMemory>
    ensures { IfOk result (λ p. p ≡ names_declared words.now form.now passed written.now) }
{
    let DeclaredType::Explicit { data_type } = written else {
        return Ok(passed);
    };
    match form {
        Form::Free => Ok(passed),
        Form::Sign(_) => Ok(passed),
        Form::Typed(ty) => with_names(alloc, words, data_type, ty, passed),
    }
}

/// What a declaration of parameters says of their type, and the scope behind what there is to say of that and behind the names that the
/// type declares (IEEE 1800-2017, 6.19 and 6.20.2), in front of the first of them.
///
/// # Errors
/// For want of memory alone.
pub fn in_front(
    alloc: Global,
    text: Text<'_>,
    contents: Contents,
    written: &Parameters,
) -> Result<Begun, NoMemory>
    ensures { IfOk result (λ b. b ≡ in_front (told_in text.entry.packages.now text.entry.words.now) text.entry.words.now contents written.now) }
{
    let Formed {
        form,
        is_array,
        notes,
    } = formed_in(alloc, text, &contents, &written.data_type)?;
    let contents = contents.with_notes(notes)?;
    let at = written.keyword.token;
    let passed = Passed { contents, at };
    let passed = names_declared(alloc, text.words, &form, passed, &written.data_type)?;
    Ok(Begun {
        form,
        is_array,
        passed,
    })
}

/// What a declaration of parameters leaves in a scope in which none can be overridden (IEEE 1800-2017, 6.20), as a package, a compilation
/// unit, a generate block, a function or a block of statements: the names of the enumeration that their type may be, then one parameter
/// after another, each over those before it. Unpacked dimensions are out for a parameter (E06), and what there is to say of its type and
/// of its value is said behind that.
///
/// # Errors
/// For want of memory alone.
pub fn with_parameters(
    alloc: Global,
    text: Text<'_>,
    contents: Contents,
    written: &Parameters,
) -> Result<Contents, NoMemory>
    ensures { IfOk result (λ c. c ≡ with_parameters (told_in text.entry.packages.now text.entry.words.now) text.entry.words.now contents written.now) }
{
    let Begun {
        form,
        is_array,
        passed,
    } = in_front(alloc, text, contents, written)?;
    let Passed { contents, at: _ } = all_parameters(alloc, text, &form, is_array, written, passed)?;
    Ok(contents)
}

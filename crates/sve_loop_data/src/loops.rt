//! The variables of loops.
ghost use Rattle.std.specs.Prelude.{◌≡◌, [], IfOk};
ghost use Rattle.sve_type_of.specs.TypeOf.{IsTyped, written};
ghost use Rattle.sve_data.specs.Used.{name_used};
ghost use Rattle.sve_data.specs.Known.{told_in};
ghost use Rattle.sve_loop_data.specs.Loops.{all_variables, first_valued, index_after, int_type, loop_names, loop_token, loop_typed, variable_after, with_indices, with_loop, with_named_loop};

use std::alloc::Global;
use sve_bytes::{List, NoMemory};
use sve_contents::Contents;
use sve_data::{
    DataKind, Text, around, declarator_after, declared_at, ended, endless, name_begun, names_used,
    scalar, selected_in, type_token,
};
use sve_enumerated::{Passed, with_keyword_names};
use sve_scope::{SharedType, What};
use sve_tree::{DataType, Declarator, ForVariable, Initializer, ScopedName, Select, Word};
use sve_type_of::{Typed, keyword_type};
use sve_types::{Atom, Base, Ty};

/// A scope behind a variable of a `for`.
#[derive(Drop)]
pub(crate) struct Looping {
    /// The scope.
    pub(crate) contents: Contents,
    /// The type of that variable, without the dimensions behind its name.
    pub(crate) ty: Ty,
}

/// The type of a type that begins with a keyword, where the text of a scope was read so far, and what there is to say of it.
fn keyword_in(
    alloc: Global,
    text: Text<'_>,
    contents: &Contents,
    data_type: &DataType,
) -> Result<Typed, NoMemory>
    ensures { IfOk result (λ t. IsTyped t (told_in text.entry.packages.now text.entry.words.now contents.now) (written (told_in text.entry.packages.now text.entry.words.now contents.now) data_type.now [])) }
{
    let env = around(alloc, text, contents);
    ended(keyword_type(alloc, data_type, &env, &mut endless()))
}

/// The type of a variable, behind one of this type.
fn loop_typed(
    alloc: Global,
    text: Text<'_>,
    contents: &Contents,
    before: Ty,
    data_type: &Option<DataType>,
) -> Result<Typed, NoMemory>
    ensures { IfOk result (λ t. IsTyped t (told_in text.entry.packages.now text.entry.words.now contents.now) (loop_typed (told_in text.entry.packages.now text.entry.words.now contents.now) before data_type.now)) }
{
    match data_type {
        Some(data_type) => keyword_in(alloc, text, contents, data_type),
        None => Ok(Typed {
            ty: before,
            notes: List::of(Vec::new(alloc)),
        }),
    }
}

/// The token with which a variable begins.
fn loop_token(data_type: &Option<DataType>, name: u32) -> u32
    ensures { result ≡ loop_token data_type.now name }
{
    match data_type {
        Some(data_type) => type_token(data_type),
        None => name,
    }
}

/// The names that the type of a variable declares.
#[tactic(auto, unfolding(crate::specs::Loops::loop_names))]
fn loop_names(
    alloc: Global,
    words: &[Word],
    ty: &Ty,
    passed: Passed,
    data_type: &Option<DataType>,
) -> Result<Passed, NoMemory>
    ensures { IfOk result (λ p. p ≡ loop_names words.now ty.now passed data_type.now) }
{
    match data_type {
        Some(data_type) => with_keyword_names(alloc, words, data_type, ty, passed),
        None => Ok(passed),
    }
}

/// A variable, which is seen in its first value, and the names in that.
fn first_valued(
    alloc: Global,
    text: Text<'_>,
    ty: &Ty,
    passed: Passed,
    declarator: &Declarator,
    value: &Initializer,
) -> Result<Contents, NoMemory>
    ensures { IfOk result (λ c. c ≡ first_valued (told_in text.entry.packages.now text.entry.words.now) (name_used text.entry.packages.now text.entry.words.now) text.entry.words.now ty.now passed declarator.now value.now) }
{
    let kind = DataKind::Variable;
    let passed = declarator_after(alloc, text, kind, ty, passed, declarator, value.equals)?;
    let Passed { contents, at: _ } = passed;
    names_used(alloc, text, contents, &value.value)
}

/// A variable of a `for`.
#[tactic(auto, unfolding(crate::specs::Loops::variable_after))]
fn variable_after(
    alloc: Global,
    text: Text<'_>,
    looping: Looping,
    variable: &ForVariable,
) -> Result<Looping, NoMemory>
    ensures { IfOk result (λ l. l ≡ variable_after (told_in text.entry.packages.now text.entry.words.now) (name_used text.entry.packages.now text.entry.words.now) text.entry.words.now looping variable.now) }
{
    let Looping { contents, ty } = looping;
    let data_type = &variable.data_type;
    let Typed { ty, notes } = loop_typed(alloc, text, &contents, ty, data_type)?;
    let contents = contents.with_notes(notes)?;
    let at = loop_token(data_type, variable.declarator.name);
    let passed = Passed { contents, at };
    let passed = loop_names(alloc, text.words, &ty, passed, data_type)?;
    let contents = first_valued(
        alloc,
        text,
        &ty,
        passed,
        &variable.declarator,
        &variable.value,
    )?;
    Ok(Looping { contents, ty })
}

/// Variables of a `for`, one after another.
fn all_variables(
    alloc: Global,
    text: Text<'_>,
    looping: Looping,
    variables: &[ForVariable],
) -> Result<Looping, NoMemory>
    ensures { IfOk result (λ l. l ≡ all_variables (told_in text.entry.packages.now text.entry.words.now) (name_used text.entry.packages.now text.entry.words.now) text.entry.words.now looping variables.now) }
{
    let mut looping = looping;
    'variables: for variable in variables {
        looping = variable_after(alloc, text, looping, variable)?;
    }
    Ok(looping)
}

/// What the variables of a `for` leave in its scope (IEEE 1800-2017, 12.7.1): the names of their enumerations, and each variable in front
/// of its first value. One without a type has that of the one before.
///
/// # Errors
/// For want of memory alone.
pub fn with_loop(
    alloc: Global,
    text: Text<'_>,
    contents: Contents,
    variables: &[ForVariable],
) -> Result<Contents, NoMemory>
    ensures { IfOk result (λ c. c ≡ with_loop (told_in text.entry.packages.now text.entry.words.now) (name_used text.entry.packages.now text.entry.words.now) text.entry.words.now contents variables.now) }
{
    let looping = Looping {
        contents,
        ty: scalar(alloc),
    };
    let Looping { contents, ty: _ } = all_variables(alloc, text, looping, variables)?;
    Ok(contents)
}

/// What the variable of a `for` leaves in its scope whose type is told by its name, with selects as its packed dimensions (12.7.1).
///
/// # Errors
/// For want of memory alone.
pub fn with_named_loop(
    alloc: Global,
    text: Text<'_>,
    contents: Contents,
    name: ScopedName,
    selects: &[Select],
    declarator: &Declarator,
    value: &Initializer,
) -> Result<Contents, NoMemory>
    ensures { IfOk result (λ c. c ≡ with_named_loop (told_in text.entry.packages.now text.entry.words.now) (name_used text.entry.packages.now text.entry.words.now) text.entry.words.now contents name selects.now declarator.now value.now) }
{
    let Typed { ty, notes } = selected_in(alloc, text, &contents, name, selects)?;
    let contents = contents.with_notes(notes)?;
    let passed = name_begun(text.words, contents, name)?;
    first_valued(alloc, text, &ty, passed, declarator, value)
}

/// The type of a loop variable of a `foreach`.
fn int_type(alloc: Global) -> Ty
    ensures { result ≡ int_type }
{
    Ty {
        base: Base::Atom(Atom::Int, true),
        packed: List::of(Vec::new(alloc)),
        unpacked: List::of(Vec::new(alloc)),
    }
}

/// A loop variable of a `foreach`.
fn index_after(
    alloc: Global,
    words: &[Word],
    contents: Contents,
    token: u32,
) -> Result<Contents, NoMemory>
    ensures { IfOk result (λ c. c ≡ index_after words.now contents token) }
{
    let what = What::Variable(SharedType::of(alloc, int_type(alloc))?);
    declared_at(words, contents, token, what, token)
}

/// What the loop variables of a `foreach` leave in its scope (12.7.3): each is of type `int`.
///
/// # Errors
/// For want of memory alone.
pub fn with_indices(
    alloc: Global,
    text: Text<'_>,
    contents: Contents,
    names: &[u32],
) -> Result<Contents, NoMemory>
    ensures { IfOk result (λ c. c ≡ with_indices text.entry.words.now contents names.now) }
{
    let mut contents = contents;
    'names: for name in names {
        contents = index_after(alloc, text.words, contents, *name)?;
    }
    Ok(contents)
}

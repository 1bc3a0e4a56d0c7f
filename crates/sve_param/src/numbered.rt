//! The names of parameters, and the places of those that can be overridden.
ghost use Rattle.std.specs.Prelude.{◌≡◌, IfOk, option_map};
ghost use Rattle.std.specs.List.{fold};
ghost use Rattle.sve_param.specs.Places.{formals_in, no_parameters, numbered, place_of, with_default, with_formal, with_name, with_required};

use std::alloc::Global;
use sve_bytes::{List, Name, NoMemory};
use sve_formal::{Formal, formals};
use sve_known::name_at;
use sve_spec::Given;
use sve_table::{Named, Table};
use sve_tree::{Element, Word};

/// The name of a parameter, and its place among those that can be overridden, from 0; none where it cannot be.
#[derive(Drop)]
pub(crate) struct Parameter {
    pub(crate) name: Name,
    pub(crate) place: Option<usize>,
}

impl Named for Parameter {
    ghost called = { λ p. p.name };

    fn name(&self) -> &Name {
        &self.name
    }
}

/// A parameter without a value, by the token of its name, with such a place.
#[derive(Clone, Copy)]
pub(crate) struct Required {
    pub(crate) token: u32,
    pub(crate) place: Option<usize>,
}

/// Parameters in the order of their text: their names, nothing for each that can be overridden, and those that have no value.
#[derive(Drop)]
pub(crate) struct Numbered {
    pub(crate) parameters: Table<Parameter>,
    pub(crate) given: List<Given>,
    pub(crate) required: List<Required>,
}

/// The place of a parameter behind so many that can be overridden.
fn place_of(formal: Formal, count: usize) -> Option<usize>
    ensures { result ≡ place_of formal count }
{
    if formal.is_local { None } else { Some(count) }
}

/// A parameter more of which nothing is known but that it must have a value, where it has none.
fn with_required(
    numbered: Numbered,
    formal: Formal,
    place: Option<usize>,
) -> Result<Numbered, NoMemory>
    ensures { IfOk result (λ n. n ≡ with_required numbered formal place) }
{
    if formal.has_value {
        return Ok(numbered);
    }
    let Numbered {
        parameters,
        given,
        required,
    } = numbered;
    let mut required = required.into_vec();
    required.push(Required {
        token: formal.token,
        place,
    })?;
    Ok(Numbered {
        parameters,
        given,
        required: List::of(required),
    })
}

/// Nothing more, for a parameter that can be overridden.
fn with_default(numbered: Numbered, formal: Formal) -> Result<Numbered, NoMemory>
    ensures { IfOk result (λ n. n ≡ with_default numbered formal) }
{
    if formal.is_local {
        return Ok(numbered);
    }
    let Numbered {
        parameters,
        given,
        required,
    } = numbered;
    let mut given = given.into_vec();
    given.push(Given::Default)?;
    Ok(Numbered {
        parameters,
        given: List::of(given),
        required,
    })
}

/// A name more; of two parameters of one name the first stays.
fn with_name(
    numbered: Numbered,
    name: Option<&Name>,
    place: Option<usize>,
) -> Result<Numbered, NoMemory>
    ensures { IfOk result (λ n. n ≡ with_name numbered (option_map (λ x. x.now) name.entry) place) }
{
    let Some(name) = name else {
        return Ok(numbered);
    };
    let mut numbered = numbered;
    let name = name.copy()?;
    numbered.parameters.add(Parameter { name, place })?;
    Ok(numbered)
}

/// A parameter more.
fn with_formal(words: &[Word], numbered: Numbered, formal: Formal) -> Result<Numbered, NoMemory>
    ensures { IfOk result (λ n. n ≡ with_formal words.now numbered formal) }
{
    let place = place_of(formal, numbered.given.items().len());
    let numbered = with_required(numbered, formal, place)?;
    let numbered = with_default(numbered, formal)?;
    with_name(numbered, name_at(words, formal.token), place)
}

/// Parameters, one after another.
fn with_formals(alloc: Global, words: &[Word], formals: &[Formal]) -> Result<Numbered, NoMemory>
    ensures { IfOk result (λ n. n ≡ fold (with_formal words.now) no_parameters formals.now) }
{
    let mut numbered = Numbered {
        parameters: Table::new(alloc),
        given: List::of(Vec::new(alloc)),
        required: List::of(Vec::new(alloc)),
    };
    'formals: for formal in formals {
        numbered = with_formal(words, numbered, *formal)?;
    }
    Ok(numbered)
}

/// The parameters of the module or the interface of an element; of another element there are none.
fn formals_in(alloc: Global, element: &Element) -> Result<Vec<Formal>, NoMemory>
    ensures { IfOk result (λ found. found.items ≡ formals_in element.now) }
{
    match element.definition() {
        Some(definition) => formals(alloc, definition),
        None => Ok(Vec::new(alloc)),
    }
}

/// The parameters of an element.
pub(crate) fn parameters_in(alloc: Global, element: &Element) -> Result<Numbered, NoMemory>
    ensures { IfOk result (λ n. n ≡ numbered element.now) }
{
    let found = formals_in(alloc, element)?;
    with_formals(alloc, element.words.as_slice(), found.as_slice())
}

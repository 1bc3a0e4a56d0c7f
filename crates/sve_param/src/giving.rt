ghost use Rattle.std.specs.Prelude.{◌≡◌, IfOk, Some, option_map};
ghost use Rattle.std.specs.List.{fold};
ghost use Rattle.sve_table.specs.Tables.{item_of};
ghost use Rattle.sve_param.specs.Places.{numbered, parameter_name};
ghost use Rattle.sve_param.specs.Giving.{counted, given_by, in_form, is_free, is_missing, missing, named, noted, ordered, placed, taken, takes, takes_named, takes_ordered, with_form};

use crate::Override;
use crate::numbered::{Numbered, Parameter, Required, parameters_in};
use std::alloc::Global;
use sve_bytes::{List, Name, NoMemory};
use sve_diag::{Code, Note};
use sve_known::name_at;
use sve_spec::Given;
use sve_table::Table;
use sve_tree::{Element, Word};

/// What the overrides of an instance give, and what is to be said of them.
#[derive(Drop)]
pub struct Gives {
    /// What each parameter that can be overridden is given, in the order of the text.
    pub given: List<Given>,
    /// What is to be said: of the overrides in their order, then of parameters without a value.
    pub notes: List<Note>,
}

/// What the overrides so far give.
#[derive(Drop)]
pub(crate) struct Giving {
    pub(crate) given: List<Given>,
    pub(crate) notes: List<Note>,
    /// Whether the first override is by order, where there is one.
    pub(crate) form: Option<bool>,
    /// The place that the next override by order takes.
    pub(crate) next: usize,
}

/// Where an instance stands.
#[derive(Clone, Copy)]
pub(crate) struct Site<'a> {
    pub(crate) file: &'a Name,
    pub(crate) chunk: u32,
}

/// Whether a place is there, and nothing is given at it.
fn is_free(given: &[Given], place: usize) -> bool
    ensures { result ≡ is_free given.now place }
{
    match given.get(place) {
        Some(Given::Default) => true,
        Some(Given::Value(_)) => false,
        Some(Given::Bad) => false,
        None => false,
    }
}

/// This is given at a place, unless something was: of two overrides of one parameter the first counts (own).
fn placed(giving: Giving, place: usize, value: Given) -> Giving
    ensures { result ≡ placed giving place value }
{
    if !is_free(giving.given.items(), place) {
        return giving;
    }
    let Giving {
        given,
        notes,
        form,
        next,
    } = giving;
    let mut given = given.into_vec();
    given[place] = value;
    Giving {
        given: List::of(given),
        notes,
        form,
        next,
    }
}

/// A note more, at a token of the chunk of the instance.
fn noted(
    site: Site<'_>,
    giving: Giving,
    token: u32,
    code: Code,
    arg: Option<Name>,
) -> Result<Giving, NoMemory>
    ensures { IfOk result (λ g. g ≡ noted site.entry.file.now site.entry.chunk giving token code arg) }
{
    let Giving {
        given,
        notes,
        form,
        next,
    } = giving;
    let mut notes = notes.into_vec();
    notes.push(Note {
        file: site.file.copy()?,
        chunk: site.chunk,
        token,
        code,
        arg,
    })?;
    Ok(Giving {
        given,
        notes: List::of(notes),
        form,
        next,
    })
}

/// An override of a parameter by its name: one that cannot be overridden is said (E02), and a name of no parameter (E01).
fn named(
    site: Site<'_>,
    giving: Giving,
    name: Name,
    value: Given,
    token: u32,
    parameter: Option<&Parameter>,
) -> Result<Giving, NoMemory>
    ensures { IfOk result (λ g. g ≡ named site.entry.file.now site.entry.chunk giving name value token (option_map (λ p. p.now) parameter.entry)) }
{
    match parameter {
        Some(parameter) => match parameter.place {
            Some(place) => Ok(placed(giving, place, value)),
            None => noted(site, giving, token, Code::E02, Some(name)),
        },
        None => noted(site, giving, token, Code::E01, Some(name)),
    }
}

/// One more by order.
fn counted(giving: Giving) -> Giving
    ensures { result ≡ counted giving }
{
    let Giving {
        given,
        notes,
        form,
        next,
    } = giving;
    Giving {
        given,
        notes,
        form,
        next: next.saturating_add(1),
    }
}

/// An override by order. The first in excess is said (E03).
fn ordered(site: Site<'_>, giving: Giving, value: Given, token: u32) -> Result<Giving, NoMemory>
    ensures { IfOk result (λ g. g ≡ ordered site.entry.file.now site.entry.chunk giving value token) }
{
    let place = giving.next;
    let parameters = giving.given.items().len();
    let giving = counted(giving);
    if place < parameters {
        return Ok(placed(giving, place, value));
    }
    if place == parameters {
        return noted(site, giving, token, Code::E03, None);
    }
    Ok(giving)
}

/// Whether an override is of the form of the first.
fn in_form(form: Option<bool>, by_order: bool) -> bool
    ensures { result ≡ in_form form by_order }
{
    match form {
        Some(true) => by_order,
        Some(false) => !by_order,
        None => true,
    }
}

/// The overrides are of this form.
fn with_form(giving: Giving, by_order: bool) -> Giving
    ensures { result ≡ with_form giving by_order }
{
    let Giving {
        given,
        notes,
        form: _,
        next,
    } = giving;
    Giving {
        given,
        notes,
        form: Some(by_order),
        next,
    }
}

/// An override by name more. One of another form than the first is said (E04), and gives nothing.
fn takes_named(
    site: Site<'_>,
    parameters: &Table<Parameter>,
    giving: Giving,
    name: Name,
    value: Given,
    token: u32,
) -> Result<Giving, NoMemory>
    ensures { IfOk result (λ g. g ≡ takes_named site.entry.file.now site.entry.chunk parameters.now giving name value token) }
{
    if !in_form(giving.form, false) {
        return noted(site, giving, token, Code::E04, None);
    }
    let parameter = parameters.get(&name);
    named(
        site,
        with_form(giving, false),
        name,
        value,
        token,
        parameter,
    )
}

/// An override by order more. One of another form than the first is said (E04), and gives nothing.
fn takes_ordered(
    site: Site<'_>,
    giving: Giving,
    value: Given,
    token: u32,
) -> Result<Giving, NoMemory>
    ensures { IfOk result (λ g. g ≡ takes_ordered site.entry.file.now site.entry.chunk giving value token) }
{
    if !in_form(giving.form, true) {
        return noted(site, giving, token, Code::E04, None);
    }
    ordered(site, with_form(giving, true), value, token)
}

/// An override more.
fn takes(
    site: Site<'_>,
    parameters: &Table<Parameter>,
    giving: Giving,
    next: Override,
) -> Result<Giving, NoMemory>
    ensures { IfOk result (λ g. g ≡ takes site.entry.file.now site.entry.chunk parameters.now giving next) }
{
    let Override { name, given, token } = next;
    match name {
        Some(name) => takes_named(site, parameters, giving, name, given, token),
        None => takes_ordered(site, giving, given, token),
    }
}

/// What overrides give, one after another.
fn taken(
    alloc: Global,
    site: Site<'_>,
    parameters: &Table<Parameter>,
    given: List<Given>,
    overrides: Vec<Override>,
) -> Result<Giving, NoMemory>
    ensures { IfOk result (λ g. g ≡ taken site.entry.file.now site.entry.chunk parameters.now given overrides.items) }
{
    let mut giving = Giving {
        given,
        notes: List::of(Vec::new(alloc)),
        form: None,
        next: 0,
    };
    'overrides: for next in overrides {
        giving = takes(site, parameters, giving, next)?;
    }
    Ok(giving)
}

/// Whether a parameter without a value of its own is given nothing.
fn is_missing(given: &[Given], place: Option<usize>) -> bool
    ensures { result ≡ is_missing given.now place }
{
    match place {
        Some(place) => is_free(given, place),
        None => true,
    }
}

/// A parameter without a value must be given one, else this is said at the instance (E05). One that cannot be overridden counts too
/// (own).
fn missing(
    site: Site<'_>,
    words: &[Word],
    at: u32,
    giving: Giving,
    required: Required,
) -> Result<Giving, NoMemory>
    ensures { IfOk result (λ g. g ≡ missing site.entry.file.now site.entry.chunk words.now at giving required) }
{
    if !is_missing(giving.given.items(), required.place) {
        return Ok(giving);
    }
    let arg = match name_at(words, required.token) {
        Some(name) => Some(name.copy()?),
        None => None,
    };
    noted(site, giving, at, Code::E05, arg)
}

/// What an instance gives each parameter of the module or the interface of an element that can be overridden, and what is to be said
/// (IEEE 1800-2017, 23.10): of an override of an unknown name (E01) or of a local parameter (E02), of the first one too many (E03), of
/// each one that is by order where the first is by name, or by name where the first is by order (E04), and of each parameter without a
/// value that is given none (E05). It stands in the chunk of the instance, whose name is at this token of it. An element that holds no
/// module and no interface has no parameters.
///
/// # Errors
/// For want of memory alone.
pub fn give(
    alloc: Global,
    element: &Element,
    overrides: Vec<Override>,
    file: &Name,
    chunk: u32,
    at: u32,
) -> Result<Gives, NoMemory>
    ensures { IfOk result (λ g. g ≡ given_by element.now overrides.items file.now chunk at) }
{
    let Numbered {
        parameters,
        given,
        required,
    } = parameters_in(alloc, element)?;
    let site = Site { file, chunk };
    let words = element.words.as_slice();
    let mut giving = taken(alloc, site, &parameters, given, overrides)?;
    'required: for parameter in required.items() {
        giving = missing(site, words, at, giving, *parameter)?;
    }
    let Giving {
        given,
        notes,
        form: _,
        next: _,
    } = giving;
    Ok(Gives { given, notes })
}

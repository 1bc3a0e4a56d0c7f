//! The names of an enumeration, declared one by one.
ghost use Rattle.std.specs.Prelude.{◌≡◌, IfOk, option_map};
ghost use Rattle.sve_enumerated.specs.Found.{value_next};
ghost use Rattle.sve_enumerated.specs.Names.{declared_name, name_after, named_at, names_behind, names_over, next_place, separator, shared_alone, value_of, with_enumeration};

use crate::found::{alone, enumeration_in, value_next, values_of};
use crate::passed::Passed;
use std::alloc::Global;
use sve_bytes::{Name, NoMemory};
use sve_contents::Contents;
use sve_known::name_at;
use sve_scope::{Constant, Declared, SharedType, What};
use sve_tree::{EnumName, Enumeration, Word};
use sve_types::{Ty, Value};
use sve_value::Bits;

/// A scope, as far as the names of an enumeration were declared in it.
#[derive(Drop)]
pub(crate) struct Naming {
    /// The scope.
    pub(crate) passed: Passed,
    /// The place of the next name among those that have a value.
    pub(crate) next: usize,
}

/// The type of the names of an enumeration, which they share.
fn shared_alone(alloc: Global, found: Option<&Ty>) -> Result<Option<SharedType>, NoMemory>
    ensures { IfOk result (λ t. t ≡ shared_alone (option_map (λ t. t.now) found.entry)) }
{
    match found {
        Some(ty) => Ok(Some(SharedType::of(alloc, alone(alloc, ty)?)?)),
        None => Ok(None),
    }
}

/// A type that is shared once more.
fn copy_of(ty: &Option<SharedType>) -> Result<Option<SharedType>, NoMemory>
    ensures { IfOk result (λ t. t ≡ ty.now) }
{
    match ty {
        Some(ty) => Ok(Some(ty.copy()?)),
        None => Ok(None),
    }
}

/// The value of a name, where it has one.
fn value_of(value: Option<Bits>) -> Option<Value>
    ensures { result ≡ value_of value }
{
    match value {
        Some(bits) => Some(Value::Bits(bits)),
        None => None,
    }
}

/// A name of an enumeration in the scope, which is seen from a token on.
fn declared_name(
    contents: Contents,
    name: &Name,
    token: u32,
    from: u32,
    ty: &Option<SharedType>,
    value: Option<Bits>,
) -> Result<Contents, NoMemory>
    ensures { IfOk result (λ c. c ≡ declared_name contents name.now token from ty.now value) }
{
    let at = contents.spot(token)?;
    let constant = Constant {
        ty: copy_of(ty)?,
        value: value_of(value),
    };
    contents.declared(Declared {
        name: name.copy()?,
        what: What::EnumName(constant),
        at,
        from,
    })
}

/// The place of the next name among those that have a value, behind a name with this one.
#[tactic(auto, using(crate::proofs::Values::within))]
fn next_place(values: &[(Name, Bits)], next: usize, name: &Name, value: Option<Bits>) -> usize
    requires { value ≡ value_next values.now next name.now }
    ensures { result ≡ next_place next value }
{
    if value.is_some() && next < values.len() {
        next + 1
    } else {
        next
    }
}

/// The name at a token, and what is used in front of it and in its value, which ends in front of another token.
fn named_at(
    words: &[Word],
    ty: &Option<SharedType>,
    values: &[(Name, Bits)],
    naming: Naming,
    token: u32,
    from: u32,
) -> Result<Naming, NoMemory>
    ensures { IfOk result (λ n. n ≡ named_at words.now ty.now values.now naming token from) }
{
    let Naming { passed, next } = naming;
    let passed = passed.to(words, token)?.to(words, from)?;
    let Some(name) = name_at(words, token) else {
        return Ok(Naming { passed, next });
    };
    let Passed { contents, at } = passed;
    let value = value_next(values, next, name);
    let next = next_place(values, next, name, value);
    let contents = declared_name(contents, name, token, from, ty, value)?;
    Ok(Naming {
        passed: Passed { contents, at },
        next,
    })
}

/// The token behind the item at a place of a list: the separator, or the end of the list.
pub(crate) fn separator(separators: &Vec<u32>, end: u32, place: usize) -> u32
    ensures { result ≡ separator separators.now.items end place }
{
    match separators.get(place) {
        Some(token) => *token,
        None => end,
    }
}

/// The name at a place of an enumeration.
#[tactic(auto, unfolding(crate::specs::Names::name_after))]
fn name_after(
    words: &[Word],
    ty: &Option<SharedType>,
    values: &[(Name, Bits)],
    written: &Enumeration,
    place: usize,
    naming: Naming,
    name: &EnumName,
) -> Result<Naming, NoMemory>
    ensures { IfOk result (λ n. n ≡ name_after words.now ty.now values.now written.now.names.separators.items written.now.closing place naming name.now) }
{
    let from = separator(&written.names.separators, written.closing, place);
    named_at(words, ty, values, naming, name.name, from)
}

/// The names of an enumeration, one after another.
#[tactic(auto, using(crate::proofs::Loops::names_step, crate::proofs::Loops::names_end))]
fn all_names(
    words: &[Word],
    ty: &Option<SharedType>,
    values: &[(Name, Bits)],
    written: &Enumeration,
    naming: Naming,
) -> Result<Naming, NoMemory>
    ensures { IfOk result (λ n. n ≡ names_behind words.now ty.now values.now written.now.names.separators.items written.now.closing 0 naming written.now.names.items.items) }
{
    let mut naming = naming;
    'names: for (place, name) in written.names.items.iter().enumerate() {
        naming = name_after(words, ty, values, written, place, naming, name)?;
    }
    Ok(naming)
}

/// The names of an enumeration whose type was found, declared.
#[tactic(auto, unfolding(crate::specs::Names::names_over))]
fn names_over(
    alloc: Global,
    words: &[Word],
    passed: Passed,
    written: &Enumeration,
    found: Option<&Ty>,
) -> Result<Passed, NoMemory>
    ensures { IfOk result (λ p. p ≡ names_over words.now passed written.now (option_map (λ t. t.now) found.entry)) }
{
    let ty = shared_alone(alloc, found)?;
    let naming = Naming { passed, next: 0 };
    let Naming { passed, next: _ } = all_names(words, &ty, values_of(found), written, naming)?;
    Ok(passed)
}

/// The names that an enumeration declares (IEEE 1800-2017, 6.19): constants of its type as it stands in a type, in the order of the
/// text. One of which something was said has no value.
pub(crate) fn with_enumeration(
    alloc: Global,
    words: &[Word],
    ty: &Ty,
    passed: Passed,
    written: &Enumeration,
) -> Result<Passed, NoMemory>
    ensures { IfOk result (λ p. p ≡ with_enumeration words.now ty.now passed written.now) }
{
    let scope = &passed.contents.scope;
    let found = enumeration_in(&scope.file, scope.chunk, written.keyword, ty);
    names_over(alloc, words, passed, written, found)
}

//! The overrides of an instantiation.
ghost use Rattle.std.specs.Prelude.{◌≡◌, IfOk};
ghost use Rattle.sve_fault.specs.Counts.{Counts, IsFuel};
ghost use Rattle.sve_plan.specs.Follows.{Meters};
ghost use Rattle.sve_scoped.specs.Known.{told_in};
ghost use Rattle.sve_override.specs.Overrides.{found_in, list_nodes, overrides_left, with_list, with_overrides};

use crate::argument::{Overriding, is_nothing, no_overrides, with_arguments};
use std::alloc::Global;
use sve_bytes::{List, NoMemory};
use sve_contents::Contents;
use sve_enumerated::Passed;
use sve_env::Env;
use sve_fault::{Fuel, Halted};
use sve_param::Override;
use sve_scoped::{Text, around};
use sve_tree::{ArgumentList, Overrides, Word};

/// What the overrides of an instantiation leave.
#[derive(Drop)]
pub struct Overridden {
    /// The scope, and what is to be said of it.
    pub contents: Contents,
    /// The overrides, in the order of the text.
    pub overrides: List<Override>,
}

/// The overrides of a list. `#()` has none.
fn found_in<E: Env>(
    alloc: Global,
    words: &[Word],
    list: &ArgumentList,
    env: &E,
    fuel: &mut Fuel,
) -> Result<Overriding, Halted>
    requires { IsFuel fuel.old }
    ensures meaning { IfOk result (λ o. o ≡ found_in (E.told env.now) words.now list.now) }
    ensures count { Counts result fuel.old fuel.new (list_nodes (E.told env.now) list.now) }
{
    if is_nothing(list.arguments.as_slice()) {
        return Ok(no_overrides(alloc));
    }
    with_arguments(alloc, words, no_overrides(alloc), list, env, fuel)
}

/// The overrides of a list where the text of a scope was read so far.
fn overriding_in(
    alloc: Global,
    text: Text<'_>,
    contents: &Contents,
    list: &ArgumentList,
    fuel: &mut Fuel,
) -> Result<Overriding, Halted>
    requires { IsFuel fuel.old }
    ensures { Meters fuel.old fuel.new (list_nodes (told_in text.entry.packages.now text.entry.words.now contents.now) list.now, found_in (told_in text.entry.packages.now text.entry.words.now contents.now) text.entry.words.now list.now) result }
{
    let env = around(alloc, text, contents);
    found_in(alloc, text.words, list, &env, fuel)
}

/// What is found of overrides, in the scope in which they stand.
fn overrides_left(
    words: &[Word],
    contents: Contents,
    list: &ArgumentList,
    found: Overriding,
) -> Result<Overridden, NoMemory>
    ensures { IfOk result (λ o. o ≡ overrides_left words.now contents list.now found) }
{
    let Overriding { overrides, notes } = found;
    let contents = contents.with_notes(notes)?;
    let at = list.opening;
    let Passed { contents, at: _ } = Passed { contents, at }.to(words, list.closing)?;
    Ok(Overridden {
        contents,
        overrides,
    })
}

/// What a list of overrides leaves.
fn with_list(
    alloc: Global,
    text: Text<'_>,
    contents: Contents,
    list: &ArgumentList,
    fuel: &mut Fuel,
) -> Result<Overridden, Halted>
    requires { IsFuel fuel.old }
    ensures { Meters fuel.old fuel.new (with_list (told_in text.entry.packages.now text.entry.words.now) text.entry.words.now contents list.now) result }
{
    let found = overriding_in(alloc, text, &contents, list, fuel)?;
    Ok(overrides_left(text.words, contents, list, found)?)
}

/// What the overrides of an instantiation leave (IEEE 1800-2017, 23.10.2): each is evaluated by itself where it stands, once for all
/// instances, and what is wrong with it is said; the names in it are used. Their nodes are counted. An override without an expression
/// gives nothing, and `.*` is none (own).
///
/// # Errors
/// `Over` exactly where the nodes pass the most that may be evaluated, and `NoMemory`.
pub fn with_overrides(
    alloc: Global,
    text: Text<'_>,
    contents: Contents,
    overrides: &Option<Overrides>,
    fuel: &mut Fuel,
) -> Result<Overridden, Halted>
    requires { IsFuel fuel.old }
    ensures { Meters fuel.old fuel.new (with_overrides (told_in text.entry.packages.now text.entry.words.now) text.entry.words.now contents overrides.now) result }
{
    match overrides {
        Some(overrides) => with_list(alloc, text, contents, &overrides.arguments, fuel),
        None => Ok(Overridden {
            contents,
            overrides: List::of(Vec::new(alloc)),
        }),
    }
}

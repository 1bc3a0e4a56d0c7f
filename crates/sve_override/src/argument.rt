//! Overrides, one after another.
ghost use Rattle.std.specs.Prelude.{◌≡◌, IfOk, option_map};
ghost use Rattle.sve_fault.specs.Counts.{Counts, IsFuel};
ghost use Rattle.sve_env.specs.Nodes.{argument_count, argument_nodes, nodes};
ghost use Rattle.sve_override.specs.Arguments.{evaluated, given_in, is_empty, is_nothing, left_out, no_overrides, note_in, separator, with_argument, with_arguments, with_override, with_value};

use std::alloc::Global;
use sve_assigned::{Assigned, Form, assigned};
use sve_bytes::{List, Name, NoMemory};
use sve_diag::Note;
use sve_env::Env;
use sve_fault::{Fuel, Halted};
use sve_form::token_of;
use sve_known::name_at;
use sve_param::Override;
use sve_spec::Given;
use sve_tree::{Arg, ArgumentList, Expr, Word};

/// The overrides so far, and what there is to say of them.
#[derive(Drop)]
pub(crate) struct Overriding {
    pub(crate) overrides: List<Override>,
    pub(crate) notes: List<Note>,
}

/// What an override gives, and what there is to say of it.
#[derive(Drop)]
pub(crate) struct Giving {
    pub(crate) given: Given,
    pub(crate) note: Option<Note>,
}

/// No override so far.
pub(crate) fn no_overrides(alloc: Global) -> Overriding
    ensures { result ≡ no_overrides }
{
    Overriding {
        overrides: List::of(Vec::new(alloc)),
        notes: List::of(Vec::new(alloc)),
    }
}

/// The value of an override by itself, or that something was said of it.
fn giving_of(value: Result<Assigned, Option<Note>>) -> Giving
    ensures { result ≡ record { given = given_in value; note = note_in value } }
{
    match value {
        Ok(Assigned { ty: _, value }) => Giving {
            given: Given::Value(value),
            note: None,
        },
        Err(note) => Giving {
            given: Given::Bad,
            note,
        },
    }
}

/// A name that is shared once more.
fn copy_of(name: Option<&Name>) -> Result<Option<Name>, NoMemory>
    ensures { IfOk result (λ n. n ≡ option_map (λ x. x.now) name.entry) }
{
    match name {
        Some(name) => Ok(Some(name.copy()?)),
        None => Ok(None),
    }
}

/// An override more, and what there is to say of it.
fn with_override(
    so_far: Overriding,
    name: Option<&Name>,
    token: u32,
    giving: Giving,
) -> Result<Overriding, NoMemory>
    ensures { IfOk result (λ o. o ≡ with_override so_far (option_map (λ n. n.now) name.entry) token giving.given giving.note) }
{
    let Giving { given, note } = giving;
    let Overriding { overrides, notes } = so_far;
    let name = copy_of(name)?;
    let mut overrides = overrides.into_vec();
    overrides.push(Override { name, given, token })?;
    let mut notes = notes.into_vec();
    if let Some(note) = note {
        notes.push(note)?;
    }
    Ok(Overriding {
        overrides: List::of(overrides),
        notes: List::of(notes),
    })
}

/// An override without an expression, which gives nothing.
fn left_out(so_far: Overriding, name: Option<&Name>, token: u32) -> Result<Overriding, NoMemory>
    ensures { IfOk result (λ o. o ≡ left_out so_far (option_map (λ n. n.now) name.entry) token) }
{
    let giving = Giving {
        given: Given::Default,
        note: None,
    };
    with_override(so_far, name, token, giving)
}

/// The value of an expression, as that of a parameter without a type.
fn evaluated<E: Env>(
    alloc: Global,
    expr: &Expr,
    env: &E,
    fuel: &mut Fuel,
) -> Result<Result<Assigned, Option<Note>>, Halted>
    requires { IsFuel fuel.old }
    ensures meaning { IfOk result (λ r. r ≡ evaluated (E.told env.now) expr.now) }
    ensures count { Counts result fuel.old fuel.new (nodes (E.told env.now) expr.now) }
{
    let form = Form::Free;
    assigned(alloc, &form, expr, env, fuel)
}

/// An override by its expression.
fn with_value<E: Env>(
    alloc: Global,
    so_far: Overriding,
    name: Option<&Name>,
    token: u32,
    expr: &Expr,
    env: &E,
    fuel: &mut Fuel,
) -> Result<Overriding, Halted>
    requires { IsFuel fuel.old }
    ensures meaning { IfOk result (λ o. o ≡ with_value (E.told env.now) so_far (option_map (λ n. n.now) name.entry) token expr.now) }
    ensures count { Counts result fuel.old fuel.new (nodes (E.told env.now) expr.now) }
{
    let value = evaluated(alloc, expr, env, fuel)?;
    Ok(with_override(so_far, name, token, giving_of(value))?)
}

/// An override more, with the token behind it.
#[tactic(auto, unfolding(crate::specs::Arguments::with_argument, sve_env::specs::Nodes::argument_nodes))]
fn with_argument<E: Env>(
    alloc: Global,
    words: &[Word],
    so_far: Overriding,
    behind: u32,
    argument: &Arg,
    env: &E,
    fuel: &mut Fuel,
) -> Result<Overriding, Halted>
    requires { IsFuel fuel.old }
    ensures meaning { IfOk result (λ o. o ≡ with_argument (E.told env.now) words.now so_far behind argument.now) }
    ensures count { Counts result fuel.old fuel.new (argument_nodes (E.told env.now) argument.now) }
{
    match argument {
        Arg::Wildcard { .. } => Ok(so_far),
        Arg::Implicit { name, .. } => Ok(left_out(so_far, name_at(words, *name), *name)?),
        Arg::Unconnected { name, .. } => Ok(left_out(so_far, name_at(words, *name), *name)?),
        Arg::Named { name, value, .. } => {
            let called = name_at(words, *name);
            with_value(alloc, so_far, called, *name, value, env, fuel)
        }
        Arg::Ordered { value } => {
            with_value(alloc, so_far, None, token_of(value), value, env, fuel)
        }
        Arg::Empty => Ok(left_out(so_far, None, behind)?),
    }
}

/// The token behind the override at a place of a list.
fn separator(separators: &[u32], closing: u32, place: usize) -> u32
    ensures { result ≡ separator separators.now closing place }
{
    match separators.get(place) {
        Some(token) => *token,
        None => closing,
    }
}

/// Overrides, one after another.
#[tactic(auto, using(crate::proofs::Loops::argument_step, crate::proofs::Loops::argument_end, sve_env::proofs::Rows::argument_count_step, sve_env::proofs::Rows::argument_count_end))]
pub(crate) fn with_arguments<E: Env>(
    alloc: Global,
    words: &[Word],
    so_far: Overriding,
    list: &ArgumentList,
    env: &E,
    fuel: &mut Fuel,
) -> Result<Overriding, Halted>
    requires { IsFuel fuel.old }
    ensures meaning { IfOk result (λ o. o ≡ with_arguments (E.told env.now) words.now list.now.arguments.separators.items list.now.closing 0 so_far list.now.arguments.items.items) }
    ensures count { Counts result fuel.old fuel.new (argument_count (E.told env.now) list.now.arguments.items.items) }
{
    let mut so_far = so_far;
    let separators = list.arguments.separators.as_slice();
    'arguments: for (place, argument) in list.arguments.as_slice().iter().enumerate() {
        let behind = separator(separators, list.closing, place);
        so_far = with_argument(alloc, words, so_far, behind, argument, env, fuel)?;
    }
    Ok(so_far)
}

/// Whether an override is nothing.
fn is_empty(argument: &Arg) -> bool
    ensures { result ≡ is_empty argument.now }
{
    matches!(argument, Arg::Empty)
}

/// Whether a list is `()`: its one argument is nothing.
pub(crate) fn is_nothing(arguments: &[Arg]) -> bool
    ensures { result ≡ is_nothing arguments.now }
{
    match arguments {
        [argument] => is_empty(argument),
        _ => false,
    }
}

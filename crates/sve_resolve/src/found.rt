//! One parameter.
ghost use Rattle.std.specs.Prelude.{◌≡◌, ◌++◌, IfOk, option_map};
ghost use Rattle.sve_fault.specs.Counts.{Counts, IsFuel};
ghost use Rattle.sve_env.specs.Nodes.{dimension_count};
ghost use Rattle.sve_resolve.specs.Values.{array_notes, form_after, form_nodes, found, found_nodes, given_or_default, is_array, out_notes, repeats, value_unless};

use crate::valued::{Valued, value_given};
use std::alloc::Global;
use sve_assigned::{Form, Formed, form_of};
use sve_bytes::{List, NoMemory};
use sve_diag::{Code, Note};
use sve_env::Env;
use sve_fault::{Fuel, Halted, argument};
use sve_formal::is_written;
use sve_scope::SharedType;
use sve_spec::Given;
use sve_tree::{Declarator, ParameterPort};
use sve_type_of::{Typed, with_unpacked};
use sve_types::{Base, Ty, Value, Vec_};

/// A parameter: the form that it hands on, its type and its value, where it has them, and what there is to say.
#[derive(Drop)]
pub(crate) struct Found {
    pub(crate) form: Form,
    pub(crate) is_array: bool,
    pub(crate) ty: Option<SharedType>,
    pub(crate) value: Option<Value>,
    pub(crate) notes: List<Note>,
}

/// Whether a parameter repeats the type of the one before it: neither a keyword nor a type is written (IEEE 1800-2017, A.2.1.1).
fn repeats(port: &ParameterPort) -> bool
    ensures { result ≡ repeats port.now }
{
    port.keyword.is_none() && !is_written(&port.parameter.data_type)
}

/// The form of the type of a parameter. One that is repeated is not evaluated again.
fn form_after<E: Env>(
    alloc: Global,
    before: Form,
    is_array: bool,
    port: &ParameterPort,
    env: &E,
    fuel: &mut Fuel,
) -> Result<Formed, Halted>
    requires { IsFuel fuel.old }
    ensures meaning { IfOk result (λ f. f ≡ form_after (E.told env.now) before is_array port.now) }
    ensures count { Counts result fuel.old fuel.new (form_nodes (E.told env.now) port.now) }
{
    if repeats(port) {
        return Ok(Formed {
            form: before,
            is_array,
            notes: List::of(Vec::new(alloc)),
        });
    }
    let Formed {
        form,
        is_array,
        notes,
    } = form_of(alloc, &port.parameter.data_type, env, fuel)?;
    Ok(Formed {
        form,
        is_array,
        notes,
    })
}

/// What there is to say of the unpacked dimensions of a parameter.
fn array_notes<E: Env>(
    alloc: Global,
    declarator: &Declarator,
    env: &E,
    fuel: &mut Fuel,
) -> Result<List<Note>, Halted>
    requires { IsFuel fuel.old }
    ensures meaning { IfOk result (λ l. l ≡ array_notes (E.told env.now) declarator.now.dimensions.items) }
    ensures count { Counts result fuel.old fuel.new (dimension_count (E.told env.now) declarator.now.dimensions.items) }
{
    let scalar = Ty {
        base: Base::Vector(Vec_::Logic, false),
        packed: List::of(Vec::new(alloc)),
        unpacked: List::of(Vec::new(alloc)),
    };
    let Typed { ty: _, notes } = with_unpacked(alloc, &scalar, &declarator.dimensions, env, fuel)?;
    Ok(notes)
}

/// Whether a parameter has unpacked dimensions, of its type or of its own.
fn is_array(formed: bool, declarator: &Declarator) -> bool
    ensures { result ≡ is_array formed declarator.now }
{
    formed || !declarator.dimensions.is_empty()
}

/// What is said of a parameter with unpacked dimensions, at its name (E06).
fn out_notes<E: Env>(
    alloc: Global,
    is_out: bool,
    token: u32,
    env: &E,
) -> Result<List<Note>, NoMemory>
    ensures { IfOk result (λ l. l ≡ out_notes (E.told env.now) is_out token) }
{
    let mut notes = Vec::new(alloc);
    if is_out {
        notes.push(Note {
            file: env.file().copy()?,
            chunk: env.chunk(),
            token,
            code: Code::E06,
            arg: argument(alloc, env.text(token))?,
        })?;
    }
    Ok(List::of(notes))
}

/// Notes, and behind them others.
pub(crate) fn joined(notes: List<Note>, more: List<Note>) -> Result<List<Note>, NoMemory>
    ensures { IfOk result (λ l. l ≡ notes ++ more) }
{
    let mut notes = notes.into_vec();
    notes.append(&mut more.into_vec())?;
    Ok(List::of(notes))
}

/// The value of a parameter, which one with unpacked dimensions has not.
fn value_unless(is_out: bool, value: Option<Value>) -> Option<Value>
    ensures { result ≡ value_unless is_out value }
{
    if is_out { None } else { value }
}

/// A parameter behind one of this form, by what it is given.
pub(crate) fn parameter_found<E: Env>(
    alloc: Global,
    before: Form,
    is_array_before: bool,
    given: Option<&Given>,
    port: &ParameterPort,
    env: &E,
    fuel: &mut Fuel,
) -> Result<Found, Halted>
    requires { IsFuel fuel.old }
    ensures meaning { IfOk result (λ f. f ≡ found (E.told env.now) before is_array_before (given_or_default (option_map (λ g. g.now) given.entry)) port.now) }
    ensures count { Counts result fuel.old fuel.new (found_nodes (E.told env.now) (given_or_default (option_map (λ g. g.now) given.entry)) port.now) }
{
    let declarator = &port.parameter.declarator;
    let Formed {
        form,
        is_array: formed,
        notes,
    } = form_after(alloc, before, is_array_before, port, env, fuel)?;
    let is_out = is_array(formed, declarator);
    let notes = joined(notes, out_notes(alloc, is_out, declarator.name, env)?)?;
    let notes = joined(notes, array_notes(alloc, declarator, env, fuel)?)?;
    let Valued {
        ty,
        value,
        notes: said,
    } = value_given(alloc, &form, declarator.name, given, &port.value, env, fuel)?;
    let notes = joined(notes, said)?;
    Ok(Found {
        form,
        is_array: formed,
        ty,
        value: value_unless(is_out, value),
        notes,
    })
}

//! The value of a parameter, by what it is given.
ghost use Rattle.std.specs.Prelude.{◌≡◌, IfOk, option_map};
ghost use Rattle.sve_fault.specs.Counts.{Counts, IsFuel};
ghost use Rattle.sve_resolve.specs.Values.{converted_to, default_nodes, default_to, form_type, given_nodes, given_or_default, no_value, valued, with_assigned};

use std::alloc::Global;
use sve_assigned::{Assigned, Form, assigned, converted};
use sve_bytes::{List, NoMemory};
use sve_diag::Note;
use sve_env::Env;
use sve_fault::{Fuel, Halted};
use sve_scope::SharedType;
use sve_spec::Given;
use sve_tree::Initializer;
use sve_types::Value;

/// The type and the value of a parameter, where it has them, and what there is to say.
#[derive(Drop)]
pub(crate) struct Valued {
    pub(crate) ty: Option<SharedType>,
    pub(crate) value: Option<Value>,
    pub(crate) notes: List<Note>,
}

/// The type that a form is, where it is one.
fn form_type(alloc: Global, form: &Form) -> Result<Option<SharedType>, NoMemory>
    ensures { IfOk result (λ t. t ≡ form_type form.now) }
{
    match form {
        Form::Free => Ok(None),
        Form::Sign(_) => Ok(None),
        Form::Typed(ty) => Ok(Some(SharedType::of(alloc, ty.copy(alloc)?)?)),
    }
}

/// No value, and what there is to say of that.
fn no_value(alloc: Global, form: &Form, note: Option<Note>) -> Result<Valued, NoMemory>
    ensures { IfOk result (λ v. v ≡ no_value form.now note) }
{
    let mut notes = Vec::new(alloc);
    if let Some(note) = note {
        notes.push(note)?;
    }
    Ok(Valued {
        ty: form_type(alloc, form)?,
        value: None,
        notes: List::of(notes),
    })
}

/// What is assigned.
fn with_assigned(alloc: Global, assigned: Assigned) -> Result<Valued, NoMemory>
    ensures { IfOk result (λ v. v ≡ with_assigned assigned) }
{
    let Assigned { ty, value } = assigned;
    Ok(Valued {
        ty: Some(SharedType::of(alloc, ty)?),
        value: Some(value),
        notes: List::of(Vec::new(alloc)),
    })
}

/// An override, converted to the form of the parameter; what is wrong with that stands at the name of the parameter.
fn converted_to<E: Env>(
    alloc: Global,
    form: &Form,
    token: u32,
    value: &Value,
    env: &E,
) -> Result<Valued, NoMemory>
    ensures { IfOk result (λ v. v ≡ converted_to (E.told env.now) form.now token value.now) }
{
    match converted(alloc, form, token, value.copy(alloc)?)? {
        Ok(assigned) => with_assigned(alloc, assigned),
        Err(fault) => {
            let note = fault.note(env.file(), env.chunk())?;
            no_value(alloc, form, note)
        }
    }
}

/// The default, evaluated, where there is one.
fn default_to<E: Env>(
    alloc: Global,
    form: &Form,
    written: &Option<Initializer>,
    env: &E,
    fuel: &mut Fuel,
) -> Result<Valued, Halted>
    requires { IsFuel fuel.old }
    ensures meaning { IfOk result (λ v. v ≡ default_to (E.told env.now) form.now written.now) }
    ensures count { Counts result fuel.old fuel.new (default_nodes (E.told env.now) written.now) }
{
    match written {
        None => Ok(no_value(alloc, form, None)?),
        Some(initializer) => match assigned(alloc, form, &initializer.value, env, fuel)? {
            Ok(assigned) => Ok(with_assigned(alloc, assigned)?),
            Err(note) => Ok(no_value(alloc, form, note)?),
        },
    }
}

/// The type and the value of a parameter of this form by what it is given (IEEE 1800-2017, 6.20 and 23.10): an override is converted,
/// and a default is evaluated only where nothing overrides it.
pub(crate) fn value_given<E: Env>(
    alloc: Global,
    form: &Form,
    token: u32,
    given: Option<&Given>,
    written: &Option<Initializer>,
    env: &E,
    fuel: &mut Fuel,
) -> Result<Valued, Halted>
    requires { IsFuel fuel.old }
    ensures meaning { IfOk result (λ v. v ≡ valued (E.told env.now) form.now token (given_or_default (option_map (λ g. g.now) given.entry)) written.now) }
    ensures count { Counts result fuel.old fuel.new (given_nodes (E.told env.now) (given_or_default (option_map (λ g. g.now) given.entry)) written.now) }
{
    match given {
        None => default_to(alloc, form, written, env, fuel),
        Some(given) => match given {
            Given::Default => default_to(alloc, form, written, env, fuel),
            Given::Value(value) => Ok(converted_to(alloc, form, token, value, env)?),
            Given::Bad => Ok(no_value(alloc, form, None)?),
        },
    }
}

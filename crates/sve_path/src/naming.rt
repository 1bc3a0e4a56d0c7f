ghost use Rattle.std.specs.Prelude.{◌≡◌, IfOk};
ghost use Rattle.sve_rule.specs.Judged.{judged};
ghost use Rattle.sve_path.specs.Named.{state_of, valued, named, stepped, called, type_target, named_target, cast_by, cast_after, named_size, bits_of_type, named_bits};

use crate::path::{path, path_bits};
use crate::steps::{Made, Step};
use std::alloc::Global;
use sve_bytes::NoMemory;
use sve_diag::Code;
use sve_env::Env;
use sve_fault::Fault;
use sve_form::name_token;
use sve_rule::{
    Judged, SystemFunction, Target, outside, size_cast, system_function, type_cast, type_size,
};
use sve_tree::ScopedName;
use sve_types::{Ty, Value, four_state, signed, width};

/// The value that a name has, or a call of it. It fails for want of memory alone.
fn valued<E: Env>(
    alloc: Global,
    name: ScopedName,
    value: Result<Value, Fault>,
    env: &E,
) -> Result<Judged, NoMemory>
    ensures { IfOk result (λ r. judged r ≡ valued (E.told env.now) name value) }
{
    sve_rule::value(
        alloc,
        name_token(name),
        name.name,
        env.text(name.name),
        value,
    )
}

/// The value of a name by itself, or what was made of it. It fails for want of memory alone.
#[tactic(auto, unfolding(crate::specs::Named::named))]
pub fn named<E: Env>(
    alloc: Global,
    name: ScopedName,
    made: Made,
    env: &E,
) -> Result<Judged, NoMemory>
    ensures { IfOk result (λ r. judged r ≡ named (E.told env.now) name (state_of made)) }
{
    match made {
        Made::Whole(value) => Ok(value),
        Made::Part(steps) => path(alloc, name, steps, env),
        Made::Bare => valued(alloc, name, env.constant(name)?, env),
    }
}

/// A select behind what was made of a name. It fails for want of memory alone.
#[tactic(auto, unfolding(crate::specs::Named::stepped))]
pub fn stepped(alloc: Global, name: ScopedName, made: Made, step: Step) -> Result<Made, NoMemory>
    ensures { IfOk result (λ r. state_of r ≡ stepped name (state_of made) step) }
{
    match made {
        Made::Whole(_) => Ok(Made::Whole(outside(name_token(name)))),
        Made::Part(steps) => {
            let mut steps = steps;
            steps.push(step)?;
            Ok(Made::Part(steps))
        }
        Made::Bare => {
            let mut steps = Vec::new(alloc);
            steps.push(step)?;
            Ok(Made::Part(steps))
        }
    }
}

/// What a call gives, by its value and by what was made of its name before. It fails for want of memory alone.
#[tactic(auto, unfolding(crate::specs::Named::called))]
pub fn called<E: Env>(
    alloc: Global,
    name: ScopedName,
    made: Made,
    value: Result<Value, Fault>,
    env: &E,
) -> Result<Made, NoMemory>
    ensures { IfOk result (λ r. state_of r ≡ called (E.told env.now) name (state_of made) value) }
{
    match made {
        Made::Bare => Ok(Made::Whole(valued(alloc, name, value, env)?)),
        Made::Part(_) => Ok(Made::Whole(outside(name_token(name)))),
        Made::Whole(_) => Ok(Made::Whole(outside(name_token(name)))),
    }
}

/// A type as the target of an assignment.
fn type_target(token: u32, ty: &Ty) -> Result<Target, Fault>
    ensures { result ≡ type_target token ty.now }
{
    if !ty.unpacked.items().is_empty() {
        return Err(Fault::at(token, Code::C01));
    }
    Ok(Target {
        width: width(ty),
        signed: signed(ty),
        two_state: !four_state(ty),
    })
}

/// The type that a name stands for, as the target of an assignment. It fails for want of memory alone.
#[tactic(auto, unfolding(crate::specs::Named::named_target))]
fn named_target<E: Env>(name: ScopedName, env: &E) -> Result<Result<Target, Fault>, NoMemory>
    ensures { IfOk result (λ r. r ≡ named_target (E.told env.now) name) }
{
    match env.ty(name)? {
        Ok(ty) => Ok(type_target(name_token(name), ty)),
        Err(fault) => Ok(Err(fault)),
    }
}

/// A cast behind a name alone: to a type, or to a constant size. It fails for want of memory alone.
fn cast_by<E: Env>(alloc: Global, name: ScopedName, a: Judged, env: &E) -> Result<Judged, NoMemory>
    ensures { IfOk result (λ r. judged r ≡ cast_by (E.told env.now) name ((E.told env.now).is_type name) (judged a)) }
{
    let token = name_token(name);
    if env.is_type(name) {
        return Ok(type_cast(token, named_target(name, env)?, a));
    }
    let size = valued(alloc, name, env.constant(name)?, env)?;
    Ok(size_cast(token, size, a))
}

/// A cast behind a name: to a type, or to the size that was made of the name. It fails for want of memory alone.
#[tactic(auto, unfolding(crate::specs::Named::cast_after))]
pub fn cast_after<E: Env>(
    alloc: Global,
    name: ScopedName,
    made: Made,
    a: Judged,
    env: &E,
) -> Result<Made, NoMemory>
    ensures { IfOk result (λ r. state_of r ≡ cast_after (E.told env.now) name (state_of made) (judged a)) }
{
    let token = name_token(name);
    match made {
        Made::Whole(size) => Ok(Made::Whole(size_cast(token, size, a))),
        Made::Part(steps) => {
            let size = path(alloc, name, steps, env)?;
            Ok(Made::Whole(size_cast(token, size, a)))
        }
        Made::Bare => Ok(Made::Whole(cast_by(alloc, name, a, env)?)),
    }
}

/// The bits of the type that a name stands for. It fails for want of memory alone.
#[tactic(auto, unfolding(crate::specs::Named::named_size))]
fn named_size<E: Env>(name: ScopedName, env: &E) -> Result<Result<u64, Fault>, NoMemory>
    ensures { IfOk result (λ r. r ≡ named_size (E.told env.now) name) }
{
    match env.ty(name)? {
        Ok(ty) => Ok(Ok(width(ty))),
        Err(fault) => Ok(Err(fault)),
    }
}

/// `$bits` of a type by its name, or of a cast to it.
fn bits_of_type<E: Env>(
    alloc: Global,
    name: ScopedName,
    made: Made,
    env: &E,
) -> Result<Judged, NoMemory>
    ensures { IfOk result (λ r. judged r ≡ bits_of_type (E.told env.now) name (state_of made)) }
{
    match made {
        Made::Bare => Ok(type_size(named_size(name, env)?)),
        Made::Part(steps) => Ok(type_size(path_bits(alloc, name, steps, env)?)),
        Made::Whole(value) => Ok(system_function(SystemFunction::Bits, value)),
    }
}

/// `$bits` of a name with what is applied to it: of the type, where the name is one (20.6.2). It fails for want of memory alone.
#[tactic(auto, unfolding(crate::specs::Named::named_bits))]
pub fn named_bits<E: Env>(
    alloc: Global,
    name: ScopedName,
    made: Made,
    env: &E,
) -> Result<Judged, NoMemory>
    ensures { IfOk result (λ r. judged r ≡ named_bits (E.told env.now) name (state_of made)) }
{
    if env.is_type(name) {
        return bits_of_type(alloc, name, made, env);
    }
    let value = named(alloc, name, made, env)?;
    Ok(system_function(SystemFunction::Bits, value))
}

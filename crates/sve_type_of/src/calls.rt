ghost use Rattle.std.specs.Prelude.{◌≡◌, [], IfErr, IfOk};
ghost use Rattle.sve_fault.specs.Counts.{IsFuel, Counts};
ghost use Rattle.sve_env.specs.Nodes.{dimension_count};
ghost use Rattle.sve_type_rule.specs.Outcomes.{outcome};
ghost use Rattle.sve_type_of.specs.TypeOf.{IsTyped, referred, declared, unpacked_over};
ghost use Rattle.sve_type_of.specs.Nodes.{type_nodes, declared_nodes};

use crate::said::{Typed, notes_in};
use crate::written::referred;
use std::alloc::Global;
use sve_bytes::NoMemory;
use sve_env::Env;
use sve_fault::{Fuel, Halted};
use sve_select::element_count;
use sve_simple_type::{implicit_typed, ranges};
use sve_tree::{DeclaredType, Dimension, TypeRef};
use sve_type_rule::{Typed as Outcome, no_ranges, unpacked};
use sve_types::Ty;

/// A type, and what is said of its faults.
pub(crate) fn said<E: Env>(alloc: Global, typed: Outcome, env: &E) -> Result<Typed, NoMemory>
    ensures { IfOk result (λ t. IsTyped t (E.told env.now) (outcome typed)) }
{
    let Outcome { ty, faults } = typed;
    Ok(Typed {
        ty,
        notes: notes_in(alloc, faults, env)?,
    })
}

/// The type of a type by itself, which leaves any count behind where it is halted.
fn type_by_itself<E: Env>(
    alloc: Global,
    type_ref: &TypeRef,
    env: &E,
    fuel: &mut Fuel,
) -> Result<Typed, Halted>
    requires { IsFuel fuel.old }
    ensures meaning { IfOk result (λ t. IsTyped t (E.told env.now) (referred (E.told env.now) type_ref.now [])) }
    ensures count { Counts result fuel.old fuel.new (type_nodes (E.told env.now) type_ref.now) }
{
    let typed = referred(alloc, type_ref, Vec::new(alloc), env, fuel)?;
    Ok(said(alloc, typed, env)?)
}

/// The type of a declared name, which leaves any count behind where it is halted.
fn written_or_left_out<E: Env>(
    alloc: Global,
    written: &DeclaredType,
    env: &E,
    fuel: &mut Fuel,
) -> Result<Typed, Halted>
    requires { IsFuel fuel.old }
    ensures meaning { IfOk result (λ t. IsTyped t (E.told env.now) (declared (E.told env.now) written.now)) }
    ensures count { Counts result fuel.old fuel.new (declared_nodes (E.told env.now) written.now) }
{
    match written {
        DeclaredType::Explicit { data_type } => type_by_itself(alloc, data_type, env, fuel),
        DeclaredType::Implicit { sign, dimensions } => {
            let typed = implicit_typed(alloc, *sign, dimensions, Vec::new(alloc), env, fuel)?;
            Ok(said(alloc, typed, env)?)
        }
    }
}

/// A type with unpacked dimensions before its own, which leaves any count behind where it is halted.
fn behind_unpacked<E: Env>(
    alloc: Global,
    ty: &Ty,
    dimensions: &[Dimension],
    env: &E,
    fuel: &mut Fuel,
) -> Result<Typed, Halted>
    requires { IsFuel fuel.old }
    ensures meaning { IfOk result (λ t. IsTyped t (E.told env.now) (unpacked_over (E.told env.now) ty.now dimensions.now)) }
    ensures count { Counts result fuel.old fuel.new (dimension_count (E.told env.now) dimensions.now) }
{
    let places = element_count(ty.unpacked.items());
    let before = no_ranges(alloc, places, Vec::new(alloc));
    let ranges = ranges(alloc, before, dimensions, env, fuel)?;
    let typed = unpacked(ty.copy(alloc)?, ranges)?;
    Ok(said(alloc, typed, env)?)
}

/// The type of a type by itself (IEEE 1800-2017, A.2.2.1), and what there is to say of it. Dimensions and the values of names are
/// evaluated, and their nodes counted; it is Over exactly where they pass the most, and leaves the fuel as it was there, as for want
/// of memory.
pub fn type_of<E: Env>(
    alloc: Global,
    type_ref: &TypeRef,
    env: &E,
    fuel: &mut Fuel,
) -> Result<Typed, Halted>
    requires { IsFuel fuel.old }
    ensures meaning { IfOk result (λ t. IsTyped t (E.told env.now) (referred (E.told env.now) type_ref.now [])) }
    ensures count { Counts result fuel.old fuel.new (type_nodes (E.told env.now) type_ref.now) }
    ensures stays { IfErr result (λ _. fuel.new ≡ fuel.old) }
{
    let before = *fuel;
    match type_by_itself(alloc, type_ref, env, fuel) {
        Ok(typed) => Ok(typed),
        Err(halted) => {
            *fuel = before;
            Err(halted)
        }
    }
}

/// The type of a declared name, written or left out: at most a sign and packed dimensions are bits of four states (6.10). It counts
/// as [`type_of`] does.
pub fn declared_type<E: Env>(
    alloc: Global,
    written: &DeclaredType,
    env: &E,
    fuel: &mut Fuel,
) -> Result<Typed, Halted>
    requires { IsFuel fuel.old }
    ensures meaning { IfOk result (λ t. IsTyped t (E.told env.now) (declared (E.told env.now) written.now)) }
    ensures count { Counts result fuel.old fuel.new (declared_nodes (E.told env.now) written.now) }
    ensures stays { IfErr result (λ _. fuel.new ≡ fuel.old) }
{
    let before = *fuel;
    match written_or_left_out(alloc, written, env, fuel) {
        Ok(typed) => Ok(typed),
        Err(halted) => {
            *fuel = before;
            Err(halted)
        }
    }
}

/// A type with unpacked dimensions before its own (7.4.2), and what there is to say of them. It counts as [`type_of`] does.
pub fn with_unpacked<E: Env>(
    alloc: Global,
    ty: &Ty,
    dimensions: &[Dimension],
    env: &E,
    fuel: &mut Fuel,
) -> Result<Typed, Halted>
    requires { IsFuel fuel.old }
    ensures meaning { IfOk result (λ t. IsTyped t (E.told env.now) (unpacked_over (E.told env.now) ty.now dimensions.now)) }
    ensures count { Counts result fuel.old fuel.new (dimension_count (E.told env.now) dimensions.now) }
    ensures stays { IfErr result (λ _. fuel.new ≡ fuel.old) }
{
    let before = *fuel;
    match behind_unpacked(alloc, ty, dimensions, env, fuel) {
        Ok(typed) => Ok(typed),
        Err(halted) => {
            *fuel = before;
            Err(halted)
        }
    }
}

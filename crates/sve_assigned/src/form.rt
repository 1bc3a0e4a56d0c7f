//! What declarations of parameters say of their types.
ghost use Rattle.std.specs.Prelude.{◌≡◌, IfOk};
ghost use Rattle.sve_fault.specs.Counts.{Counts, IsFuel};
ghost use Rattle.sve_type_of.specs.Nodes.{declared_nodes};
ghost use Rattle.sve_type_of.specs.TypeOf.{declared};
ghost use Rattle.sve_assigned.specs.Forms.{IsFormed, formed, has_unpacked, sign_form, typed_formation, without_unpacked};

use std::alloc::Global;
use sve_bytes::List;
use sve_diag::Note;
use sve_env::Env;
use sve_fault::{Fuel, Halted};
use sve_form::is_signed;
use sve_tree::{DeclaredType, Mark, Sign};
use sve_type_of::{Typed, declared_type};
use sve_types::Ty;

/// What a declaration of parameters says of their type (IEEE 1800-2017, 6.20.2).
#[derive(Drop)]
pub enum Form {
    /// Nothing: a parameter has the type of its value.
    Free,
    /// A sign alone: a parameter is a vector of this sign, of as many bits as its value has.
    Sign(bool),
    /// A type, without unpacked dimensions. A range, with a sign or without one, is a vector of four states.
    Typed(Ty),
}

/// What a declaration of parameters says of their type, and what there is to say of that.
#[derive(Drop)]
pub struct Formed {
    /// What it says.
    pub form: Form,
    /// Whether its type has unpacked dimensions, which are left out: no parameter has any (own).
    pub is_array: bool,
    /// What there is to say of the type, in the order of the text.
    pub notes: List<Note>,
}

/// What a sign, where one is written, says of the type.
fn sign_form(sign: Option<Mark<Sign>>) -> Form
    ensures { result ≡ sign_form sign }
{
    match sign {
        Some(sign) => Form::Sign(is_signed(sign.kind)),
        None => Form::Free,
    }
}

/// A type without its unpacked dimensions. It takes no memory.
fn without_unpacked(alloc: Global, ty: Ty) -> Ty
    ensures { result ≡ without_unpacked ty }
{
    let Ty {
        base,
        packed,
        unpacked: _,
    } = ty;
    Ty {
        base,
        packed,
        unpacked: List::of(Vec::new(alloc)),
    }
}

/// Whether a type has unpacked dimensions.
fn has_unpacked(ty: &Ty) -> bool
    ensures { result ≡ has_unpacked ty.now }
{
    !ty.unpacked.items().is_empty()
}

/// What a type that is written says.
fn typed_form<E: Env>(
    alloc: Global,
    written: &DeclaredType,
    env: &E,
    fuel: &mut Fuel,
) -> Result<Formed, Halted>
    requires { IsFuel fuel.old }
    ensures meaning { IfOk result (λ f. IsFormed f (E.told env.now) (typed_formation (declared (E.told env.now) written.now))) }
    ensures count { Counts result fuel.old fuel.new (declared_nodes (E.told env.now) written.now) }
{
    let Typed { ty, notes } = declared_type(alloc, written, env, fuel)?;
    let is_array = has_unpacked(&ty);
    Ok(Formed {
        form: Form::Typed(without_unpacked(alloc, ty)),
        is_array,
        notes,
    })
}

/// What a declaration of parameters says of their type: nothing, a sign, or a type, whose dimensions and values of names are evaluated
/// and counted (IEEE 1800-2017, 6.20.2). It is Over exactly where their nodes pass the most.
#[tactic(auto, using(crate::proofs::Nodes::no_nodes))]
pub fn form_of<E: Env>(
    alloc: Global,
    written: &DeclaredType,
    env: &E,
    fuel: &mut Fuel,
) -> Result<Formed, Halted>
    requires { IsFuel fuel.old }
    ensures meaning { IfOk result (λ f. IsFormed f (E.told env.now) (formed (E.told env.now) written.now)) }
    ensures count { Counts result fuel.old fuel.new (declared_nodes (E.told env.now) written.now) }
{
    match written {
        DeclaredType::Explicit { .. } => typed_form(alloc, written, env, fuel),
        DeclaredType::Implicit { sign, dimensions } => {
            if dimensions.is_empty() {
                Ok(Formed {
                    form: sign_form(*sign),
                    is_array: false,
                    notes: List::of(Vec::new(alloc)),
                })
            } else {
                typed_form(alloc, written, env, fuel)
            }
        }
    }
}

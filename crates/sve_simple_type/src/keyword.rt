ghost use Rattle.std.specs.Prelude.{◌≡◌, IfOk};
ghost use Rattle.sve_fault.specs.Counts.{IsFuel, Counts};
ghost use Rattle.sve_env.specs.Nodes.{dimension_count};
ghost use Rattle.sve_form.specs.Keywords.{sign_or};
ghost use Rattle.sve_types.specs.TypeText.{atom_is_signed};
ghost use Rattle.sve_type_rule.specs.Outcomes.{outcome};
ghost use Rattle.sve_simple_type.specs.Simple.{atom_kind, vector_kind, atom_typed, vector_typed, implicit_typed};

use crate::dimensions::ranges;
use std::alloc::Global;
use sve_env::Env;
use sve_fault::{Fault, Fuel, Halted};
use sve_form::is_signed;
use sve_tree::{AtomKeyword, AtomType, Dimension, Mark, Sign, VectorKeyword, VectorType};
use sve_type_rule::{Typed, atom, no_ranges, vector};
use sve_types::{Atom, Vec_};

/// The sign that is written, or the one where none is.
pub fn sign_or(sign: Option<Mark<Sign>>, signed: bool) -> bool
    ensures { result ≡ sign_or sign signed }
{
    match sign {
        Some(sign) => is_signed(sign.kind),
        None => signed,
    }
}

fn atom_kind(keyword: AtomKeyword) -> Atom
    ensures { result ≡ atom_kind keyword }
{
    match keyword {
        AtomKeyword::Byte => Atom::Byte,
        AtomKeyword::Shortint => Atom::ShortInt,
        AtomKeyword::Int => Atom::Int,
        AtomKeyword::Longint => Atom::LongInt,
        AtomKeyword::Integer => Atom::Integer,
        AtomKeyword::Time => Atom::Time,
    }
}

fn vector_kind(keyword: VectorKeyword) -> Vec_
    ensures { result ≡ vector_kind keyword }
{
    match keyword {
        VectorKeyword::Bit => Vec_::Bit,
        VectorKeyword::Logic => Vec_::Logic,
        VectorKeyword::Reg => Vec_::Reg,
    }
}

fn atom_is_signed(kind: Atom) -> bool
    ensures { result ≡ atom_is_signed kind }
{
    !matches!(kind, Atom::Time)
}

/// An integer type with a width of its own (IEEE 1800-2017, 6.11), with what is wrong so far.
pub fn atom_typed(alloc: Global, written: AtomType, faults: Vec<Fault>) -> Typed
    ensures { outcome result ≡ atom_typed written faults.items }
{
    let kind = atom_kind(written.keyword.kind);
    let signed = sign_or(written.sign, atom_is_signed(kind));
    atom(alloc, kind, signed, faults)
}

/// An integer type of as many bits as its packed dimensions say (6.11). It counts the nodes of these, and is Over exactly where they
/// pass the most.
#[tactic(auto, unfolding(crate::specs::Simple::vector_typed))]
pub fn vector_typed<E: Env>(
    alloc: Global,
    written: &VectorType,
    faults: Vec<Fault>,
    env: &E,
    fuel: &mut Fuel,
) -> Result<Typed, Halted>
    requires { IsFuel fuel.old }
    ensures meaning { IfOk result (λ t. outcome t ≡ vector_typed (E.told env.now) written.now faults.items) }
    ensures count { Counts result fuel.old fuel.new (dimension_count (E.told env.now) written.now.dimensions.items) }
{
    let before = no_ranges(alloc, 1, faults);
    let ranges = ranges(alloc, before, &written.dimensions, env, fuel)?;
    let kind = vector_kind(written.keyword.kind);
    Ok(vector(alloc, kind, sign_or(written.sign, false), ranges))
}

/// At most a sign and packed dimensions: bits of four states (6.10 and 6.20.2). It counts the nodes of the dimensions, and is Over
/// exactly where they pass the most.
#[tactic(auto, unfolding(crate::specs::Simple::implicit_typed))]
pub fn implicit_typed<E: Env>(
    alloc: Global,
    sign: Option<Mark<Sign>>,
    dimensions: &[Dimension],
    faults: Vec<Fault>,
    env: &E,
    fuel: &mut Fuel,
) -> Result<Typed, Halted>
    requires { IsFuel fuel.old }
    ensures meaning { IfOk result (λ t. outcome t ≡ implicit_typed (E.told env.now) sign dimensions.now faults.items) }
    ensures count { Counts result fuel.old fuel.new (dimension_count (E.told env.now) dimensions.now) }
{
    let before = no_ranges(alloc, 1, faults);
    let ranges = ranges(alloc, before, dimensions, env, fuel)?;
    Ok(vector(alloc, Vec_::Logic, sign_or(sign, false), ranges))
}

ghost use Rattle.std.specs.Prelude.{◌≡◌, IfOk};
ghost use Rattle.std.specs.Result.{result_map_both};
ghost use Rattle.sve_fault.specs.Counts.{IsFuel, Counts};
ghost use Rattle.sve_env.specs.Nodes.{dimension_count};
ghost use Rattle.sve_type_rule.specs.Outcomes.{outcome, behind};
ghost use Rattle.sve_simple_type.specs.Simple.{wrong_by, no_type, type_named, name_behind, named_typed};

use crate::dimensions::ranges;
use std::alloc::Global;
use sve_bytes::NoMemory;
use sve_diag::Code;
use sve_env::Env;
use sve_fault::{Fault, Fuel, Halted, Said};
use sve_tree::{NamedType, ScopedName};
use sve_type_rule::{NamedType as NameBehind, Typed, named, no_ranges, packed};
use sve_types::Ty;

/// What is wrong with a name that is no type: a thing of another kind is the wrong one.
fn wrong_by(wrong: Fault, fault: Fault) -> Fault
    ensures { result ≡ wrong_by wrong fault fault.said }
{
    match &fault.said {
        Said::Nothing => fault,
        Said::Here { code, .. } => match code {
            Code::C01 => wrong,
            _ => fault,
        },
        Said::Elsewhere(_) => fault,
    }
}

/// The type that a name stands for, or what is wrong with it.
fn type_named<'e, E: Env>(
    alloc: Global,
    name: ScopedName,
    env: &'e E,
) -> Result<Result<&'e Ty, Fault>, NoMemory>
    ensures { IfOk result (λ r. result_map_both (λ t. t.now) (λ f. f) r ≡ type_named (E.told env.now) name) }
{
    let ty = env.ty(name)?;
    if env.is_type(name) {
        return Ok(ty);
    }
    let wrong = Fault::about(alloc, name.name, Code::N11, env.text(name.name))?;
    match ty {
        Ok(_) => Ok(Err(wrong)),
        Err(fault) => Ok(Err(wrong_by(wrong, fault))),
    }
}

/// A type by its name, before its dimensions.
fn name_behind<E: Env>(
    alloc: Global,
    written: &NamedType,
    faults: Vec<Fault>,
    env: &E,
) -> Result<NameBehind, NoMemory>
    ensures { IfOk result (λ n. behind n ≡ name_behind (E.told env.now) written.now faults.items) }
{
    let ty = type_named(alloc, written.name, env)?;
    let token = written.name.name;
    let is_plain = written.dimensions.is_empty();
    named(alloc, token, env.text(token), is_plain, faults, ty)
}

/// A type by its name, with packed dimensions (IEEE 1800-2017, 6.18): N11 where the name is no type. It counts the nodes of the
/// dimensions, and is Over exactly where they pass the most.
#[tactic(auto, unfolding(crate::specs::Simple::named_typed))]
pub fn named_typed<E: Env>(
    alloc: Global,
    written: &NamedType,
    faults: Vec<Fault>,
    env: &E,
    fuel: &mut Fuel,
) -> Result<Typed, Halted>
    requires { IsFuel fuel.old }
    ensures meaning { IfOk result (λ t. outcome t ≡ named_typed (E.told env.now) written.now faults.items) }
    ensures count { Counts result fuel.old fuel.new (dimension_count (E.told env.now) written.now.dimensions.items) }
{
    let NameBehind {
        ty,
        is_packed,
        places,
        faults,
    } = name_behind(alloc, written, faults, env)?;
    let before = no_ranges(alloc, places, faults);
    let ranges = ranges(alloc, before, &written.dimensions, env, fuel)?;
    Ok(packed(ty, is_packed, ranges)?)
}

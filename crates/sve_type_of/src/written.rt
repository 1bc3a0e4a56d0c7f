ghost use Rattle.std.specs.Prelude.{◌≡◌, IfOk};
ghost use Rattle.sve_fault.specs.Counts.{IsFuel, Counts};
ghost use Rattle.sve_env.specs.Nodes.{dimension_count};
ghost use Rattle.sve_type_rule.specs.Ranges.{dimensioned};
ghost use Rattle.sve_type_rule.specs.Outcomes.{outcome};
ghost use Rattle.sve_type_rule.specs.Members.{membered};
ghost use Rattle.sve_type_of.specs.TypeOf.{named_members, structured, written, structure_over, structure_typed, members_after, members_of_structure, referred};
ghost use Rattle.sve_type_of.specs.Nodes.{written_nodes, structure_nodes, nodes_of_members, type_nodes};

use std::alloc::Global;
use std::sync::Arc;
use sve_bytes::{List, Name, NoMemory};
use sve_enum_type::enumeration_typed;
use sve_env::Env;
use sve_fault::{Fault, Fuel, Halted};
use sve_simple_type::{atom_typed, named_typed, ranges, sign_or, vector_typed};
use sve_tree::{DataType, Dimension, Mark, Members as WrittenMembers, Sign, Structure, TypeRef};
use sve_type_rule::{Members, Ranges, Typed, member_after, no_members, no_ranges, plain};
use sve_types::{Base, Ty};

/// The names of members of one type, in order.
#[tactic(auto, using(crate::proofs::Rows::named_members_step, crate::proofs::Rows::named_members_end))]
fn named_members<E: Env>(
    alloc: Global,
    ty: &Ty,
    before: Members,
    names: &[u32],
    env: &E,
) -> Result<Members, NoMemory>
    ensures { IfOk result (λ m. membered m ≡ named_members (E.told env.now) ty.now (membered before) names.now) }
{
    let mut before = before;
    'names: for name in names {
        before = member_after(alloc, *name, env.text(*name), ty, before)?;
    }
    Ok(before)
}

/// A packed structure by its sign, its members, and its dimensions.
fn structured(
    alloc: Global,
    signed: bool,
    members: Vec<(Name, Ty)>,
    ranges: Ranges,
) -> Result<Typed, NoMemory>
    ensures { IfOk result (λ t. outcome t ≡ structured signed members.items (dimensioned ranges)) }
{
    let Ranges {
        ranges,
        places: _,
        faults,
    } = ranges;
    Ok(Typed {
        ty: Ty {
            base: Base::Struct {
                signed,
                members: Arc::new(alloc, members)?,
            },
            packed: List::of(ranges),
            unpacked: List::of(Vec::new(alloc)),
        },
        faults,
    })
}

/// A packed structure of these members.
fn structure_over<E: Env>(
    alloc: Global,
    sign: Option<Mark<Sign>>,
    dimensions: &[Dimension],
    members: Members,
    env: &E,
    fuel: &mut Fuel,
) -> Result<Typed, Halted>
    requires { IsFuel fuel.old }
    ensures meaning { IfOk result (λ t. outcome t ≡ structure_over (E.told env.now) sign dimensions.now (membered members)) }
    ensures count { Counts result fuel.old fuel.new (dimension_count (E.told env.now) dimensions.now) }
{
    let Members { members, faults } = members;
    let before = no_ranges(alloc, 1, faults);
    let ranges = ranges(alloc, before, dimensions, env, fuel)?;
    Ok(structured(alloc, sign_or(sign, false), members, ranges)?)
}

/// A type by its keyword or by its name (IEEE 1800-2017, A.2.2.1).
#[cycle(written)]
#[tactic(auto, unfolding(crate::specs::TypeOf::written, crate::specs::Nodes::written_nodes))]
pub(crate) fn referred<E: Env>(
    alloc: Global,
    type_ref: &TypeRef,
    faults: Vec<Fault>,
    env: &E,
    fuel: &mut Fuel,
) -> Result<Typed, Halted>
    requires { IsFuel fuel.old }
    ensures meaning { IfOk result (λ t. outcome t ≡ referred (E.told env.now) type_ref.now faults.items) }
    ensures count { Counts result fuel.old fuel.new (type_nodes (E.told env.now) type_ref.now) }
{
    match type_ref {
        TypeRef::Written { data_type } => written(alloc, data_type, faults, env, fuel),
        TypeRef::Named { named } => named_typed(alloc, named, faults, env, fuel),
    }
}

/// A type that begins with a keyword.
#[cycle(written)]
#[tactic(auto, unfolding(crate::specs::TypeOf::written, crate::specs::Nodes::written_nodes))]
pub(crate) fn written<E: Env>(
    alloc: Global,
    data_type: &DataType,
    faults: Vec<Fault>,
    env: &E,
    fuel: &mut Fuel,
) -> Result<Typed, Halted>
    requires { IsFuel fuel.old }
    ensures meaning { IfOk result (λ t. outcome t ≡ written (E.told env.now) data_type.now faults.items) }
    ensures count { Counts result fuel.old fuel.new (written_nodes (E.told env.now) data_type.now) }
{
    match data_type {
        DataType::Atom { atom } => Ok(atom_typed(alloc, *atom, faults)),
        DataType::Vector { vector } => vector_typed(alloc, vector, faults, env, fuel),
        DataType::Text { .. } => Ok(plain(alloc, Base::Text, faults)),
        DataType::Enum { enumeration } => enumeration_typed(alloc, enumeration, faults, env, fuel),
        DataType::Struct { structure } => structure_typed(alloc, structure, faults, env, fuel),
    }
}

/// Members of one type, behind others.
#[cycle(written)]
#[tactic(auto, unfolding(crate::specs::TypeOf::members_after))]
fn members_after<E: Env>(
    alloc: Global,
    before: Members,
    next: &WrittenMembers,
    env: &E,
    fuel: &mut Fuel,
) -> Result<Members, Halted>
    requires { IsFuel fuel.old }
    ensures meaning { IfOk result (λ m. membered m ≡ members_after (E.told env.now) (membered before) next.now) }
    ensures count { Counts result fuel.old fuel.new (type_nodes (E.told env.now) next.now.data_type) }
{
    let Members { members, faults } = before;
    let Typed { ty, faults } = referred(alloc, &next.data_type, faults, env, fuel)?;
    let before = Members { members, faults };
    Ok(named_members(alloc, &ty, before, &next.names.items, env)?)
}

/// Members behind others, in order.
#[cycle(written)]
#[tactic(auto, using(crate::proofs::Rows::members_of_vec, crate::proofs::Rows::members_row_of, crate::proofs::Rows::members_step, crate::proofs::Rows::members_end, crate::proofs::Rows::members_count_step, crate::proofs::Rows::members_count_end))]
fn members<E: Env>(
    alloc: Global,
    before: Members,
    written: &Vec<WrittenMembers>,
    env: &E,
    fuel: &mut Fuel,
) -> Result<Members, Halted>
    requires { IsFuel fuel.old }
    ensures meaning { IfOk result (λ m. membered m ≡ members_of_structure (E.told env.now) (membered before) written.now) }
    ensures count { Counts result fuel.old fuel.new (nodes_of_members (E.told env.now) written.now) }
{
    let mut before = before;
    'members: for next in written {
        before = members_after(alloc, before, next, env, fuel)?;
    }
    Ok(before)
}

/// A packed structure (7.2.1).
#[cycle(written)]
#[tactic(auto, using(crate::proofs::Rows::structure_is, crate::proofs::Rows::structure_counts))]
fn structure_typed<E: Env>(
    alloc: Global,
    written: &Structure,
    faults: Vec<Fault>,
    env: &E,
    fuel: &mut Fuel,
) -> Result<Typed, Halted>
    requires { IsFuel fuel.old }
    ensures meaning { IfOk result (λ t. outcome t ≡ structure_typed (E.told env.now) written.now faults.items) }
    ensures count { Counts result fuel.old fuel.new (structure_nodes (E.told env.now) written.now) }
{
    let before = no_members(alloc, faults);
    let members = members(alloc, before, &written.members, env, fuel)?;
    structure_over(alloc, written.sign, &written.dimensions, members, env, fuel)
}

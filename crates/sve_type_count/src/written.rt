ghost use Rattle.sve_fault.specs.Counts.{IsFuel, Counts};
ghost use Rattle.sve_type_of.specs.Nodes.{declared_nodes, nodes_of_members, structure_nodes, type_nodes, written_nodes};

use crate::enumeration::{count_dimensions, count_enumeration};
use sve_env::Env;
use sve_fault::{Fuel, Halted};
use sve_tree::{DataType, DeclaredType, Members, Structure, TypeRef};

/// Counts the nodes of a type by itself (IEEE 1800-2017, A.2.2.1): those of its dimensions and of the values of its names, and what calls in
/// them count. It evaluates nothing else, and is Over exactly where they pass the most.
#[cycle(count_keyword_type)]
#[tactic(auto, unfolding(sve_type_of::specs::Nodes::written_nodes))]
pub fn count_type<E: Env>(written: &TypeRef, env: &E, fuel: &mut Fuel) -> Result<(), Halted>
    requires { IsFuel fuel.old }
    ensures { Counts result fuel.old fuel.new (type_nodes (E.told env.now) written.now) }
{
    match written {
        TypeRef::Written { data_type } => count_keyword_type(data_type, env, fuel),
        TypeRef::Named { named } => count_dimensions(&named.dimensions, env, fuel),
    }
}

/// Counts the nodes of a type that begins with a keyword, as a variable of a `for` has one (12.7.1). It counts as [`count_type`] does.
#[cycle(count_keyword_type)]
#[tactic(auto, unfolding(sve_type_of::specs::Nodes::written_nodes))]
pub fn count_keyword_type<E: Env>(
    written: &DataType,
    env: &E,
    fuel: &mut Fuel,
) -> Result<(), Halted>
    requires { IsFuel fuel.old }
    ensures { Counts result fuel.old fuel.new (written_nodes (E.told env.now) written.now) }
{
    match written {
        DataType::Atom { .. } => Ok(()),
        DataType::Vector { vector } => count_dimensions(&vector.dimensions, env, fuel),
        DataType::Text { .. } => Ok(()),
        DataType::Enum { enumeration } => count_enumeration(enumeration, env, fuel),
        DataType::Struct { structure } => count_structure(structure, env, fuel),
    }
}

/// The nodes of the types of members, in order.
#[cycle(count_keyword_type)]
#[tactic(auto, using(sve_type_of::proofs::Rows::members_row_of, sve_type_of::proofs::Rows::members_count_step, sve_type_of::proofs::Rows::members_count_end))]
fn count_members<E: Env>(members: &Vec<Members>, env: &E, fuel: &mut Fuel) -> Result<(), Halted>
    requires { IsFuel fuel.old }
    ensures { Counts result fuel.old fuel.new (nodes_of_members (E.told env.now) members.now) }
{
    'members: for next in members {
        count_type(&next.data_type, env, fuel)?;
    }
    Ok(())
}

/// The nodes of a packed structure (7.2.1).
#[cycle(count_keyword_type)]
#[tactic(auto, using(sve_type_of::proofs::Rows::structure_counts))]
fn count_structure<E: Env>(written: &Structure, env: &E, fuel: &mut Fuel) -> Result<(), Halted>
    requires { IsFuel fuel.old }
    ensures { Counts result fuel.old fuel.new (structure_nodes (E.told env.now) written.now) }
{
    count_members(&written.members, env, fuel)?;
    count_dimensions(&written.dimensions, env, fuel)
}

/// Counts the nodes of the type of a declared name, written or left out (6.10). It counts as [`count_type`] does.
pub fn count_declared_type<E: Env>(
    written: &DeclaredType,
    env: &E,
    fuel: &mut Fuel,
) -> Result<(), Halted>
    requires { IsFuel fuel.old }
    ensures { Counts result fuel.old fuel.new (declared_nodes (E.told env.now) written.now) }
{
    match written {
        DeclaredType::Explicit { data_type } => count_type(data_type, env, fuel),
        DeclaredType::Implicit { dimensions, .. } => count_dimensions(dimensions, env, fuel),
    }
}

ghost use Rattle.sve_fault.specs.Counts.{IsFuel, Counts};
ghost use Rattle.sve_env.specs.Nodes.{dimension_count};
ghost use Rattle.sve_enum_type.specs.Nodes.{base_nodes, enumeration_nodes, name_count, value_nodes};

use sve_env::{Env, visit, visit_dimensions};
use sve_fault::{Fuel, Halted};
use sve_tree::{Dimension, EnumBase, EnumName, Enumeration, Initializer};

/// Counts the nodes of dimensions (IEEE 1800-2017, 7.4), and what calls in them count. It evaluates nothing else, and is Over exactly where
/// they pass the most.
#[tactic(auto, using(sve_env::proofs::Rows::dimension_row_of))]
pub fn count_dimensions<E: Env>(
    dimensions: &Vec<Dimension>,
    env: &E,
    fuel: &mut Fuel,
) -> Result<(), Halted>
    requires { IsFuel fuel.old }
    ensures { Counts result fuel.old fuel.new (dimension_count (E.told env.now) dimensions.now.items) }
{
    visit_dimensions(dimensions, env, fuel)
}

/// The nodes of the base of an enumeration.
fn count_base<E: Env>(base: &Option<EnumBase>, env: &E, fuel: &mut Fuel) -> Result<(), Halted>
    requires { IsFuel fuel.old }
    ensures { Counts result fuel.old fuel.new (base_nodes (E.told env.now) base.now) }
{
    match base {
        None => Ok(()),
        Some(EnumBase::Atom { .. }) => Ok(()),
        Some(EnumBase::Vector { vector }) => count_dimensions(&vector.dimensions, env, fuel),
        Some(EnumBase::Named { named }) => count_dimensions(&named.dimensions, env, fuel),
    }
}

/// The nodes of the value of a name.
fn count_value<E: Env>(value: &Option<Initializer>, env: &E, fuel: &mut Fuel) -> Result<(), Halted>
    requires { IsFuel fuel.old }
    ensures { Counts result fuel.old fuel.new (value_nodes (E.told env.now) value.now) }
{
    match value {
        None => Ok(()),
        Some(initializer) => visit(&initializer.value, env, fuel),
    }
}

/// The nodes of the values of names, in order.
#[tactic(auto, using(sve_enum_type::proofs::Rows::name_count_step, sve_enum_type::proofs::Rows::name_count_end))]
fn count_names<E: Env>(names: &[EnumName], env: &E, fuel: &mut Fuel) -> Result<(), Halted>
    requires { IsFuel fuel.old }
    ensures { Counts result fuel.old fuel.new (name_count (E.told env.now) names.now) }
{
    'names: for name in names {
        count_value(&name.value, env, fuel)?;
    }
    Ok(())
}

/// The nodes of an enumeration (6.19): those of its base, of the values of its names, and of its dimensions.
pub(crate) fn count_enumeration<E: Env>(
    written: &Enumeration,
    env: &E,
    fuel: &mut Fuel,
) -> Result<(), Halted>
    requires { IsFuel fuel.old }
    ensures { Counts result fuel.old fuel.new (enumeration_nodes (E.told env.now) written.now) }
{
    count_base(&written.base, env, fuel)?;
    count_names(&written.names.items, env, fuel)?;
    count_dimensions(&written.dimensions, env, fuel)
}

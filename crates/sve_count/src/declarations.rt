ghost use Rattle.std.specs.Prelude.{sum_by};
ghost use Rattle.sve_fault.specs.Counts.{IsFuel, Counts};
ghost use Rattle.sve_count.specs.Declarations.{data_nodes, initialized_nodes, named_nodes, nets_nodes, typedef_nodes, variables_nodes};

use sve_env::Env;
use sve_fault::{Fuel, Halted};
use sve_tree::{
    DataDeclaration, InitializedDeclarator, NamedDeclaration, NetDeclaration, Typedef,
    VariableDeclaration,
};
use sve_type_count::{count_declared_type, count_dimensions, count_selected_type, count_type};

/// The nodes of the dimensions behind names.
#[tactic(auto, using(crate::proofs::Rows::initialized_step, crate::proofs::Rows::initialized_end))]
fn count_declarators<E: Env>(
    declarators: &[InitializedDeclarator],
    env: &E,
    fuel: &mut Fuel,
) -> Result<(), Halted>
    requires { IsFuel fuel.old }
    ensures { Counts result fuel.old fuel.new (sum_by (initialized_nodes (E.told env.now)) declarators.now) }
{
    'declarators: for initialized in declarators {
        count_dimensions(&initialized.declarator.dimensions, env, fuel)?;
    }
    Ok(())
}

/// Counts the nodes of a declaration of data by their type (IEEE 1800-2017, 6.8): those of the type and of the dimensions behind the names,
/// and what calls in them count. It evaluates nothing else, and is Over exactly where they pass the most.
pub fn count_data<E: Env>(written: &DataDeclaration, env: &E, fuel: &mut Fuel) -> Result<(), Halted>
    requires { IsFuel fuel.old }
    ensures { Counts result fuel.old fuel.new (data_nodes (E.told env.now) written.now) }
{
    count_type(&written.data_type, env, fuel)?;
    count_declarators(written.declarators.as_slice(), env, fuel)
}

/// Counts the nodes of a declaration of variables with `var` (6.8). It counts as [`count_data`] does.
pub fn count_variables<E: Env>(
    written: &VariableDeclaration,
    env: &E,
    fuel: &mut Fuel,
) -> Result<(), Halted>
    requires { IsFuel fuel.old }
    ensures { Counts result fuel.old fuel.new (variables_nodes (E.told env.now) written.now) }
{
    count_declared_type(&written.data_type, env, fuel)?;
    count_declarators(written.declarators.as_slice(), env, fuel)
}

/// The nodes of a declaration of data that begins with a type's name (6.8).
pub(crate) fn count_named<E: Env>(
    written: &NamedDeclaration,
    env: &E,
    fuel: &mut Fuel,
) -> Result<(), Halted>
    requires { IsFuel fuel.old }
    ensures { Counts result fuel.old fuel.new (named_nodes (E.told env.now) written.now) }
{
    count_selected_type(&written.selects, env, fuel)?;
    count_declarators(written.declarators.as_slice(), env, fuel)
}

/// Counts the nodes of a declaration of nets (6.7). It counts as [`count_data`] does.
pub fn count_nets<E: Env>(written: &NetDeclaration, env: &E, fuel: &mut Fuel) -> Result<(), Halted>
    requires { IsFuel fuel.old }
    ensures { Counts result fuel.old fuel.new (nets_nodes (E.told env.now) written.now) }
{
    count_declared_type(&written.data_type, env, fuel)?;
    count_declarators(written.declarators.as_slice(), env, fuel)
}

/// Counts the nodes of a declaration of a type (6.18): those of the type and of the dimensions behind its name. It counts as [`count_data`]
/// does.
pub fn count_typedef<E: Env>(written: &Typedef, env: &E, fuel: &mut Fuel) -> Result<(), Halted>
    requires { IsFuel fuel.old }
    ensures { Counts result fuel.old fuel.new (typedef_nodes (E.told env.now) written.now) }
{
    count_type(&written.data_type, env, fuel)?;
    count_dimensions(&written.declarator.dimensions, env, fuel)
}

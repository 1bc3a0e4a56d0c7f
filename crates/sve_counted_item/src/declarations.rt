//! Declarations of types, parameters, nets and variables.
ghost use Rattle.sve_fault.specs.Counts.{IsFuel};
ghost use Rattle.sve_plan.specs.Follows.{Meters};
ghost use Rattle.sve_counted_item.specs.Counted.{counted_data, counted_nets, counted_parameters, counted_typedef, counted_variables};

use std::alloc::Global;
use sve_contents::Contents;
use sve_count::{count_data, count_nets, count_parameters, count_typedef, count_variables};
use sve_fault::{Fuel, Halted};
use sve_function::{with_data, with_nets, with_parameters, with_typedef, with_variables};
use sve_scoped::{Text, around};
use sve_tree::{DataDeclaration, NetDeclaration, Parameters, Typedef, VariableDeclaration};

/// What a declaration of a type leaves in a scope (IEEE 1800-2017, 6.18), once the nodes of the type and of the dimensions behind its name
/// are counted.
///
/// # Errors
/// `Over` exactly where the nodes pass the most that may be evaluated, and `NoMemory`.
pub fn typedef_in(
    alloc: Global,
    text: Text<'_>,
    contents: Contents,
    declaration: &Typedef,
    fuel: &mut Fuel,
) -> Result<Contents, Halted>
    requires { IsFuel fuel.old }
    ensures { Meters fuel.old fuel.new (counted_typedef text.entry.packages.now text.entry.words.now contents declaration.now) result }
{
    count_typedef(declaration, &around(alloc, text, &contents), fuel)?;
    Ok(with_typedef(alloc, text, contents, declaration)?)
}

/// What a declaration of parameters leaves in a scope in which none can be overridden (IEEE 1800-2017, 6.20), once the nodes of their type,
/// dimensions and values are counted.
///
/// # Errors
/// `Over` exactly where the nodes pass the most that may be evaluated, and `NoMemory`.
pub fn parameters_in(
    alloc: Global,
    text: Text<'_>,
    contents: Contents,
    declaration: &Parameters,
    fuel: &mut Fuel,
) -> Result<Contents, Halted>
    requires { IsFuel fuel.old }
    ensures { Meters fuel.old fuel.new (counted_parameters text.entry.packages.now text.entry.words.now contents declaration.now) result }
{
    count_parameters(declaration, &around(alloc, text, &contents), fuel)?;
    Ok(with_parameters(alloc, text, contents, declaration)?)
}

/// What a declaration of nets leaves in a scope (IEEE 1800-2017, 6.7), once the nodes of their type and dimensions are counted. First
/// values are no constants, and count nothing.
///
/// # Errors
/// `Over` exactly where the nodes pass the most that may be evaluated, and `NoMemory`.
pub fn nets_in(
    alloc: Global,
    text: Text<'_>,
    contents: Contents,
    declaration: &NetDeclaration,
    fuel: &mut Fuel,
) -> Result<Contents, Halted>
    requires { IsFuel fuel.old }
    ensures { Meters fuel.old fuel.new (counted_nets text.entry.packages.now text.entry.words.now contents declaration.now) result }
{
    count_nets(declaration, &around(alloc, text, &contents), fuel)?;
    Ok(with_nets(alloc, text, contents, declaration)?)
}

/// What a declaration of variables with `var` leaves in a scope (IEEE 1800-2017, 6.8), once the nodes of their type and dimensions are
/// counted.
///
/// # Errors
/// `Over` exactly where the nodes pass the most that may be evaluated, and `NoMemory`.
pub fn variables_in(
    alloc: Global,
    text: Text<'_>,
    contents: Contents,
    declaration: &VariableDeclaration,
    fuel: &mut Fuel,
) -> Result<Contents, Halted>
    requires { IsFuel fuel.old }
    ensures { Meters fuel.old fuel.new (counted_variables text.entry.packages.now text.entry.words.now contents declaration.now) result }
{
    count_variables(declaration, &around(alloc, text, &contents), fuel)?;
    Ok(with_variables(alloc, text, contents, declaration)?)
}

/// What a declaration of data that begins with its type leaves in a scope (IEEE 1800-2017, 6.8), once the nodes of the type and of
/// dimensions are counted.
///
/// # Errors
/// `Over` exactly where the nodes pass the most that may be evaluated, and `NoMemory`.
pub fn data_in(
    alloc: Global,
    text: Text<'_>,
    contents: Contents,
    declaration: &DataDeclaration,
    fuel: &mut Fuel,
) -> Result<Contents, Halted>
    requires { IsFuel fuel.old }
    ensures { Meters fuel.old fuel.new (counted_data text.entry.packages.now text.entry.words.now contents declaration.now) result }
{
    count_data(declaration, &around(alloc, text, &contents), fuel)?;
    Ok(with_data(alloc, text, contents, declaration)?)
}

ghost use Rattle.std.specs.Prelude.{◌≡◌, ◌++◌, IfOk, OnOk, map};
ghost use Rattle.sve_heading.specs.Items.{function_headings, headings, item_headings, parameter_heading, parameters_headings, result_headings, typedef_headings};

use crate::heading::Heading;
use crate::types::{in_declared_type, in_type_ref};
use std::alloc::Global;
use sve_bytes::NoMemory;
use sve_tree::{Func, FunctionResult, ParameterAssignment, Parameters, Typedef, UnitItem};

/// Adds the names of parameters.
fn in_assignments(
    assignments: &[ParameterAssignment],
    found: &mut Vec<Heading>,
) -> Result<(), NoMemory>
    ensures { OnOk result (found.new.items ≡ found.old.items ++ map parameter_heading assignments.now) }
{
    for assignment in assignments {
        found.push(Heading {
            token: assignment.declarator.name,
            is_function: false,
        })?;
    }
    Ok(())
}

/// Adds the names that a declaration of parameters declares, and its type (IEEE 1800-2017, 6.20).
///
/// # Errors
/// For want of memory alone.
pub fn in_parameters(declaration: &Parameters, found: &mut Vec<Heading>) -> Result<(), NoMemory>
    ensures { OnOk result (found.new.items ≡ found.old.items ++ parameters_headings declaration.now) }
{
    in_declared_type(&declaration.data_type, found)?;
    in_assignments(declaration.assignments.as_slice(), found)
}

/// Adds the names that the declaration of a type declares (6.18).
///
/// # Errors
/// For want of memory alone.
pub fn in_typedef(declaration: &Typedef, found: &mut Vec<Heading>) -> Result<(), NoMemory>
    ensures { OnOk result (found.new.items ≡ found.old.items ++ typedef_headings declaration.now) }
{
    in_type_ref(&declaration.data_type, found)?;
    found.push(Heading {
        token: declaration.declarator.name,
        is_function: false,
    })?;
    Ok(())
}

/// Adds the names that the type of a function's result declares.
fn in_result(result_type: &FunctionResult, found: &mut Vec<Heading>) -> Result<(), NoMemory>
    ensures { OnOk result (found.new.items ≡ found.old.items ++ result_headings result_type.now) }
{
    match result_type {
        FunctionResult::Void { .. } => Ok(()),
        FunctionResult::Typed { result } => in_declared_type(&result.data_type, found),
    }
}

/// Adds the name of a function, behind those that the type of its result declares (13.4).
///
/// # Errors
/// For want of memory alone.
pub fn in_function(function: &Func, found: &mut Vec<Heading>) -> Result<(), NoMemory>
    ensures { OnOk result (found.new.items ≡ found.old.items ++ function_headings function.now) }
{
    in_result(&function.result_type, found)?;
    found.push(Heading {
        token: function.name(),
        is_function: true,
    })?;
    Ok(())
}

/// Adds the names that an item declares.
fn in_item(item: &UnitItem, found: &mut Vec<Heading>) -> Result<(), NoMemory>
    ensures { OnOk result (found.new.items ≡ found.old.items ++ item_headings item.now) }
{
    match item {
        UnitItem::Empty { .. } | UnitItem::Import { .. } => Ok(()),
        UnitItem::Parameters { declaration } => in_parameters(declaration, found),
        UnitItem::Typedef { declaration } => in_typedef(declaration, found),
        UnitItem::Function { function } => in_function(function, found),
    }
}

/// The names that items of a package or of a compilation unit's scope declare, in the order of the text, each time that one is
/// declared (IEEE 1800-2017, 3.12.1 and clause 26): parameters, types, the names of enumerations, also of those within structures,
/// and functions. The names within a function are none of them. It goes over the items once.
///
/// # Errors
/// For want of memory alone.
pub fn headings(alloc: Global, items: &[UnitItem]) -> Result<Vec<Heading>, NoMemory>
    ensures { IfOk result (λ found. found.items ≡ headings items.now) }
{
    let mut found = Vec::new(alloc);
    for item in items {
        in_item(item, &mut found)?;
    }
    Ok(found)
}

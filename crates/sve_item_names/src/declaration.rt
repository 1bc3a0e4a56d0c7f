ghost use Rattle.std.specs.Prelude.{◌≡◌, ◌∷◌, ◌++◌, [], OnOk, map};
ghost use Rattle.sve_heading.specs.Types.{declared_type_headings, name_heading, type_ref_headings};
ghost use Rattle.sve_item_names.specs.declared.name.ItemName.TheVariants as is_name;
ghost use Rattle.sve_item_names.specs.Declarations.{declaration_headings, declarator_heading, declarators_headings, modport_heading};

use crate::name::ItemName;
use std::alloc::Global;
use sve_bytes::NoMemory;
use sve_heading::{Heading, in_declared_type, in_function, in_parameters, in_type_ref, in_typedef};
use sve_tree::{
    DataDeclaration, InitializedDeclarator, Item, Modport, NetDeclaration, VariableDeclaration,
};

/// Adds the name at a token, which is not that of a function.
pub(crate) fn add_name(token: u32, found: &mut Vec<Heading>) -> Result<(), NoMemory>
    ensures { OnOk result (found.new.items ≡ found.old.items ++ name_heading token ∷ []) }
{
    found.push(Heading {
        token,
        is_function: false,
    })?;
    Ok(())
}

/// Adds names.
fn in_names(names: &[u32], found: &mut Vec<Heading>) -> Result<(), NoMemory>
    ensures { OnOk result (found.new.items ≡ found.old.items ++ map name_heading names.now) }
{
    for name in names {
        add_name(*name, found)?;
    }
    Ok(())
}

/// Adds the names of declarators.
fn in_declarators(
    declarators: &[InitializedDeclarator],
    found: &mut Vec<Heading>,
) -> Result<(), NoMemory>
    ensures { OnOk result (found.new.items ≡ found.old.items ++ map declarator_heading declarators.now) }
{
    for declarator in declarators {
        add_name(declarator.declarator.name, found)?;
    }
    Ok(())
}

/// Adds the names of modports.
fn in_modports(modports: &[Modport], found: &mut Vec<Heading>) -> Result<(), NoMemory>
    ensures { OnOk result (found.new.items ≡ found.old.items ++ map modport_heading modports.now) }
{
    for modport in modports {
        add_name(modport.name, found)?;
    }
    Ok(())
}

/// Adds the names that a declaration of nets declares.
fn in_nets(declaration: &NetDeclaration, found: &mut Vec<Heading>) -> Result<(), NoMemory>
    ensures { OnOk result (found.new.items ≡ found.old.items ++ declarators_headings (declared_type_headings declaration.now.data_type) declaration.now.declarators.items.items) }
{
    in_declared_type(&declaration.data_type, found)?;
    in_declarators(declaration.declarators.as_slice(), found)
}

/// Adds the names that a declaration of variables with `var` declares.
fn in_variables(declaration: &VariableDeclaration, found: &mut Vec<Heading>) -> Result<(), NoMemory>
    ensures { OnOk result (found.new.items ≡ found.old.items ++ declarators_headings (declared_type_headings declaration.now.data_type) declaration.now.declarators.items.items) }
{
    in_declared_type(&declaration.data_type, found)?;
    in_declarators(declaration.declarators.as_slice(), found)
}

/// Adds the names that a declaration of data by their type declares.
fn in_data(declaration: &DataDeclaration, found: &mut Vec<Heading>) -> Result<(), NoMemory>
    ensures { OnOk result (found.new.items ≡ found.old.items ++ declarators_headings (type_ref_headings declaration.now.data_type) declaration.now.declarators.items.items) }
{
    in_type_ref(&declaration.data_type, found)?;
    in_declarators(declaration.declarators.as_slice(), found)
}

/// Adds what an item declares that is no construct and no instantiation.
fn in_declaration(item: &Item, found: &mut Vec<Heading>) -> Result<(), NoMemory>
    ensures { OnOk result (found.new.items ≡ found.old.items ++ declaration_headings item.now) }
{
    match item {
        Item::Parameters { declaration } => in_parameters(declaration, found),
        Item::Typedef { declaration } => in_typedef(declaration, found),
        Item::Function { function } => in_function(function, found),
        Item::Genvars { declaration } => in_names(declaration.names.as_slice(), found),
        Item::Net { declaration } => in_nets(declaration, found),
        Item::Variable { declaration } => in_variables(declaration, found),
        Item::Data { declaration } => in_data(declaration, found),
        Item::Modports { declaration } => in_modports(declaration.modports.as_slice(), found),
        Item::Empty { .. } | Item::Import { .. } | Item::Assign { .. } => Ok(()),
        Item::Clocked { .. } | Item::Plain { .. } | Item::SystemTask { .. } => Ok(()),
        Item::Region { .. } | Item::LoopGenerate { .. } | Item::IfGenerate { .. } => Ok(()),
        Item::CaseGenerate { .. } | Item::Instances { .. } => Ok(()),
    }
}

/// Adds names of declarations.
fn add_headings(headings: &[Heading], found: &mut Vec<ItemName>) -> Result<(), NoMemory>
    ensures { OnOk result (found.new.items ≡ found.old.items ++ map is_name.Declared headings.now) }
{
    for heading in headings {
        found.push(ItemName::Declared { heading: *heading })?;
    }
    Ok(())
}

/// Adds what an item declares that is no construct and no instantiation, among the names of its scope.
pub(crate) fn add_declaration(
    alloc: Global,
    item: &Item,
    found: &mut Vec<ItemName>,
) -> Result<(), NoMemory>
    ensures { OnOk result (found.new.items ≡ found.old.items ++ map is_name.Declared (declaration_headings item.now)) }
{
    let mut headings = Vec::new(alloc);
    in_declaration(item, &mut headings)?;
    add_headings(&headings, found)
}

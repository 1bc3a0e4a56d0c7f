ghost use Rattle.std.specs.Prelude.{◌≡◌, ◌++◌, IfOk, OnOk};
ghost use Rattle.std.specs.List.{flat_map, list_any};
ghost use Rattle.sve_mention.specs.InElements.{definition_mentions, design_mentions, element_mentions, lacks_default, lacks_value, package_mentions, unit_item_mentions};

use crate::item::in_items;
use crate::mention::{Mention, add_end_label};
use crate::statement::in_function;
use std::alloc::Global;
use sve_bytes::NoMemory;
use sve_tree::{Definition, Design, Element, Package, ParameterPort, UnitItem};

/// Adds what the items of the compilation unit's scope or of a package mention.
fn in_unit_items(items: &[UnitItem], found: &mut Vec<Mention>) -> Result<(), NoMemory>
    ensures { OnOk result (found.new.items ≡ found.old.items ++ flat_map unit_item_mentions items.now) }
{
    for item in items {
        in_unit_item(item, found)?;
    }
    Ok(())
}

/// Adds what such an item mentions.
fn in_unit_item(item: &UnitItem, found: &mut Vec<Mention>) -> Result<(), NoMemory>
    ensures { OnOk result (found.new.items ≡ found.old.items ++ unit_item_mentions item.now) }
{
    match item {
        UnitItem::Function { function } => in_function(function, found),
        UnitItem::Empty { .. } | UnitItem::Import { .. } => Ok(()),
        UnitItem::Parameters { .. } | UnitItem::Typedef { .. } => Ok(()),
    }
}

/// Adds what a module or an interface mentions.
fn in_definition(definition: &Definition, found: &mut Vec<Mention>) -> Result<(), NoMemory>
    ensures { OnOk result (found.new.items ≡ found.old.items ++ definition_mentions definition.now) }
{
    in_items(&definition.items, found)?;
    add_end_label(Some(definition.header.name), &definition.label, found)
}

/// Adds what a package mentions.
fn in_package(unit: &Package, found: &mut Vec<Mention>) -> Result<(), NoMemory>
    ensures { OnOk result (found.new.items ≡ found.old.items ++ package_mentions unit.now) }
{
    in_unit_items(&unit.items, found)?;
    add_end_label(Some(unit.name), &unit.label, found)
}

/// Adds what a module, an interface or a package mentions.
fn in_design(design: &Design, found: &mut Vec<Mention>) -> Result<(), NoMemory>
    ensures { OnOk result (found.new.items ≡ found.old.items ++ design_mentions design.now) }
{
    match design {
        Design::Module { definition, .. } => in_definition(definition, found),
        Design::Interface { definition, .. } => in_definition(definition, found),
        Design::Package { unit } => in_package(unit, found),
    }
}

/// What an element mentions at any depth, in the order of its text: the definitions that it instantiates, also in generate blocks
/// that are never selected, and its labels behind end words (IEEE 1800-2017, 23.3.2 and 9.3.4). It goes over the tree once.
///
/// # Errors
/// For want of memory alone.
pub fn mentions(alloc: Global, element: &Element) -> Result<Vec<Mention>, NoMemory>
    ensures { IfOk result (λ found. found.items ≡ element_mentions element.now) }
{
    let mut found = Vec::new(alloc);
    in_unit_items(&element.items, &mut found)?;
    if let Some(design) = &element.design {
        in_design(design, &mut found)?;
    }
    Ok(found)
}

/// Whether a parameter of a header has no value.
fn lacks_value(port: &ParameterPort) -> bool
    ensures { result ≡ lacks_value port.now }
{
    port.value.is_none()
}

/// Whether one of these parameters has no value.
#[tactic(auto, using(crate::proofs::Ports::lacking_here, crate::proofs::Ports::passed, crate::proofs::Ports::nowhere))]
fn one_lacks_value(ports: &[ParameterPort]) -> bool
    ensures { result ≡ list_any lacks_value ports.now }
{
    for port in ports {
        if lacks_value(port) {
            return true;
        }
    }
    false
}

/// Whether a module or an interface has a parameter without a default, so that each of its instances must override it (6.20.1).
/// Such a parameter stands in the list of the header; a `localparam` without a value counts too (own). It takes no memory.
pub fn lacks_default(definition: &Definition) -> bool
    ensures { result ≡ lacks_default definition.now }
{
    match &definition.header.parameters {
        Some(list) => one_lacks_value(list.parameters.as_slice()),
        None => false,
    }
}

ghost use Rattle.std.specs.Prelude.{◌≡◌, ◌++◌, IfOk, OnOk, map};
ghost use Rattle.std.specs.List.{flat_map};
ghost use Rattle.sve_item_names.specs.Items.{block_names, case_item_names, if_names, instance_name, item_names, label_names, loop_block_names, names_of, nested_names};

use crate::declaration::add_declaration;
use crate::name::ItemName;
use std::alloc::Global;
use sve_bytes::NoMemory;
use sve_tree::{CaseGenerateItem, GenerateBlock, IfGenerate, Instance, Item, Label};

/// Adds the names of instances.
fn in_instances(instances: &[Instance], found: &mut Vec<ItemName>) -> Result<(), NoMemory>
    ensures { OnOk result (found.new.items ≡ found.old.items ++ map instance_name instances.now) }
{
    for instance in instances {
        found.push(ItemName::Instance {
            token: instance.name,
        })?;
    }
    Ok(())
}

/// Adds the label of a block, where it has one.
fn in_label(label: &Option<Label>, found: &mut Vec<ItemName>) -> Result<(), NoMemory>
    ensures { OnOk result (found.new.items ≡ found.old.items ++ label_names label.now) }
{
    if let Some(label) = label {
        found.push(ItemName::Block { token: label.name })?;
    }
    Ok(())
}

/// Adds the label of the block of a loop.
#[tactic(auto, using(crate::proofs::InScope::of_loop_body, crate::proofs::InScope::of_loop_item, std::proofs::lemmas::Grind::common_steps))]
fn in_loop_block(block: &GenerateBlock, found: &mut Vec<ItemName>) -> Result<(), NoMemory>
    ensures { OnOk result (found.new.items ≡ found.old.items ++ loop_block_names block.now) }
{
    match block {
        GenerateBlock::Block { block } => in_label(&block.label, found),
        GenerateBlock::Item { .. } => Ok(()),
    }
}

/// Adds the names that an item declares in its scope.
#[cycle(items)]
#[tactic(auto, using(crate::proofs::InScope::of_region, crate::proofs::InScope::of_loop, crate::proofs::InScope::of_if, crate::proofs::InScope::of_case, std::proofs::lemmas::Grind::common_steps), unfolding(crate::specs::Items::item_names))]
fn in_item(alloc: Global, item: &Item, found: &mut Vec<ItemName>) -> Result<(), NoMemory>
    ensures { OnOk result (found.new.items ≡ found.old.items ++ item_names item.now) }
{
    match item {
        Item::Region { region } => in_items(alloc, &region.items, found),
        Item::LoopGenerate { construct } => in_loop_block(&construct.block, found),
        Item::IfGenerate { construct } => in_if(alloc, construct, found),
        Item::CaseGenerate { construct } => in_case_items(alloc, &construct.items, found),
        Item::Instances { instantiation } => {
            in_instances(instantiation.instances.as_slice(), found)
        }
        Item::Empty { .. } | Item::Import { .. } => add_declaration(alloc, item, found),
        Item::Parameters { .. } | Item::Typedef { .. } => add_declaration(alloc, item, found),
        Item::Function { .. } | Item::Genvars { .. } => add_declaration(alloc, item, found),
        Item::Net { .. } | Item::Variable { .. } => add_declaration(alloc, item, found),
        Item::Data { .. } | Item::Assign { .. } => add_declaration(alloc, item, found),
        Item::Clocked { .. } | Item::Plain { .. } => add_declaration(alloc, item, found),
        Item::Modports { .. } | Item::SystemTask { .. } => add_declaration(alloc, item, found),
    }
}

/// Adds the names that items declare in their scope.
#[cycle(items)]
fn in_items(alloc: Global, items: &[Item], found: &mut Vec<ItemName>) -> Result<(), NoMemory>
    ensures { OnOk result (found.new.items ≡ found.old.items ++ flat_map item_names items.now) }
{
    for item in items {
        in_item(alloc, item, found)?;
    }
    Ok(())
}

/// Adds the names that a block of a conditional declares in the scope around it.
#[cycle(conditionals)]
#[tactic(auto, using(crate::proofs::InScope::of_body, crate::proofs::InScope::of_item, std::proofs::lemmas::Grind::common_steps))]
fn in_block(alloc: Global, block: &GenerateBlock, found: &mut Vec<ItemName>) -> Result<(), NoMemory>
    ensures { OnOk result (found.new.items ≡ found.old.items ++ block_names block.now) }
{
    match block {
        GenerateBlock::Block { block } => in_label(&block.label, found),
        GenerateBlock::Item { item } => in_nested(alloc, item, found),
    }
}

/// Adds the names that an item without `begin` declares in the scope around its block: those of a conditional.
#[cycle(conditionals)]
#[tactic(auto, using(crate::proofs::InScope::of_nested_if, crate::proofs::InScope::of_nested_case, std::proofs::lemmas::Grind::common_steps), unfolding(crate::specs::Items::item_names))]
fn in_nested(alloc: Global, item: &Item, found: &mut Vec<ItemName>) -> Result<(), NoMemory>
    ensures { OnOk result (found.new.items ≡ found.old.items ++ nested_names item.now) }
{
    match item {
        Item::IfGenerate { construct } => in_if(alloc, construct, found),
        Item::CaseGenerate { construct } => in_case_items(alloc, &construct.items, found),
        Item::Empty { .. } | Item::Import { .. } | Item::Parameters { .. } => Ok(()),
        Item::Typedef { .. } | Item::Function { .. } | Item::Genvars { .. } => Ok(()),
        Item::Net { .. } | Item::Variable { .. } | Item::Data { .. } => Ok(()),
        Item::Assign { .. } | Item::Clocked { .. } | Item::Plain { .. } => Ok(()),
        Item::Modports { .. } | Item::SystemTask { .. } | Item::Instances { .. } => Ok(()),
        Item::Region { .. } | Item::LoopGenerate { .. } => Ok(()),
    }
}

/// Adds the names that the two blocks of an `if` declare in the scope around them.
#[cycle(conditionals)]
#[tactic(auto, using(crate::proofs::InScope::of_branches, std::proofs::lemmas::Grind::common_steps))]
fn in_if(alloc: Global, construct: &IfGenerate, found: &mut Vec<ItemName>) -> Result<(), NoMemory>
    ensures { OnOk result (found.new.items ≡ found.old.items ++ if_names construct.now) }
{
    in_block(alloc, &construct.chosen, found)?;
    match &construct.otherwise {
        Some(branch) => in_block(alloc, &branch.block, found),
        None => Ok(()),
    }
}

/// Adds the names that the blocks of a `case` declare in the scope around them.
#[cycle(conditionals)]
fn in_case_items(
    alloc: Global,
    items: &[CaseGenerateItem],
    found: &mut Vec<ItemName>,
) -> Result<(), NoMemory>
    ensures { OnOk result (found.new.items ≡ found.old.items ++ flat_map case_item_names items.now) }
{
    for item in items {
        in_case_item(alloc, item, found)?;
    }
    Ok(())
}

/// Adds the names that a block of a `case` declares in the scope around it.
#[cycle(conditionals)]
#[tactic(auto, using(crate::proofs::InScope::of_default, crate::proofs::InScope::of_labels, std::proofs::lemmas::Grind::common_steps))]
fn in_case_item(
    alloc: Global,
    item: &CaseGenerateItem,
    found: &mut Vec<ItemName>,
) -> Result<(), NoMemory>
    ensures { OnOk result (found.new.items ≡ found.old.items ++ case_item_names item.now) }
{
    match item {
        CaseGenerateItem::Default { block, .. } => in_block(alloc, block, found),
        CaseGenerateItem::Labels { block, .. } => in_block(alloc, block, found),
    }
}

/// The names that items declare in their scope, in the order of the text, each time that one is declared (IEEE 1800-2017, 23.9):
/// those of declarations, of instances, and the labels of generate blocks, selected or not. Items between `generate` and
/// `endgenerate` stand in the scope itself, those of a block in a scope of their own; a conditional that is the whole of a branch of
/// another one without `begin` belongs to that construct (27.5). It goes over the items once and evaluates nothing.
///
/// # Errors
/// For want of memory alone.
pub fn item_names(alloc: Global, items: &[Item]) -> Result<Vec<ItemName>, NoMemory>
    ensures { IfOk result (λ found. found.items ≡ names_of items.now) }
{
    let mut found = Vec::new(alloc);
    in_items(alloc, items, &mut found)?;
    Ok(found)
}

/// The same for one item, as the labels of the blocks of a generate construct.
///
/// # Errors
/// For want of memory alone.
pub fn names_of_item(alloc: Global, item: &Item) -> Result<Vec<ItemName>, NoMemory>
    ensures { IfOk result (λ found. found.items ≡ item_names item.now) }
{
    let mut found = Vec::new(alloc);
    in_item(alloc, item, &mut found)?;
    Ok(found)
}

ghost use Rattle.std.specs.Prelude.{◌≡◌, ◌++◌, OnOk};
ghost use Rattle.std.specs.List.{flat_map};
ghost use Rattle.sve_mention.specs.InItems.{case_generate_item_mentions, generate_block_mentions, generate_body_mentions, if_generate_mentions, item_mentions};

use crate::mention::{Mention, add_end_label, label_name};
use crate::statement::{in_function, in_statement};
use sve_bytes::NoMemory;
use sve_tree::{CaseGenerateItem, GenerateBlock, GenerateBody, IfGenerate, Item};

/// Adds what an item mentions.
#[cycle(item)]
#[tactic(auto, using(crate::proofs::Items::of_function, crate::proofs::Items::of_clocked, crate::proofs::Items::of_plain, crate::proofs::Items::of_region, crate::proofs::Items::of_loop, crate::proofs::Items::of_if, crate::proofs::Items::of_case, crate::proofs::Items::of_instances, crate::proofs::Items::of_empty, crate::proofs::Items::of_import, crate::proofs::Items::of_parameters, crate::proofs::Items::of_typedef, crate::proofs::Items::of_genvars, crate::proofs::Items::of_net, crate::proofs::Items::of_variable, crate::proofs::Items::of_data, crate::proofs::Items::of_assign, crate::proofs::Items::of_modports, crate::proofs::Items::of_system_task, std::proofs::lemmas::Grind::common_steps))]
fn in_item(item: &Item, found: &mut Vec<Mention>) -> Result<(), NoMemory>
    ensures { OnOk result (found.new.items ≡ found.old.items ++ item_mentions item.now) }
{
    match item {
        Item::Function { function } => in_function(function, found),
        Item::Clocked { procedure } => in_statement(&procedure.statement, found),
        Item::Plain { procedure } => in_statement(&procedure.statement, found),
        Item::Region { region } => in_items(&region.items, found),
        Item::LoopGenerate { construct } => in_generate_block(&construct.block, found),
        Item::IfGenerate { construct } => in_if_generate(construct, found),
        Item::CaseGenerate { construct } => in_case_generate_items(&construct.items, found),
        Item::Instances { instantiation } => {
            found.push(Mention::Instance {
                definition: instantiation.definition,
            })?;
            Ok(())
        }
        Item::Empty { .. } | Item::Import { .. } | Item::Parameters { .. } => Ok(()),
        Item::Typedef { .. } | Item::Genvars { .. } | Item::Net { .. } => Ok(()),
        Item::Variable { .. } | Item::Data { .. } | Item::Assign { .. } => Ok(()),
        Item::Modports { .. } | Item::SystemTask { .. } => Ok(()),
    }
}

/// Adds what items mention.
#[cycle(item)]
pub(crate) fn in_items(items: &[Item], found: &mut Vec<Mention>) -> Result<(), NoMemory>
    ensures { OnOk result (found.new.items ≡ found.old.items ++ flat_map item_mentions items.now) }
{
    for item in items {
        in_item(item, found)?;
    }
    Ok(())
}

/// Adds what a block of a generate construct mentions, whether or not it is ever selected.
#[cycle(item)]
#[tactic(auto, using(crate::proofs::Items::of_body, crate::proofs::Items::of_item, std::proofs::lemmas::Grind::common_steps))]
fn in_generate_block(block: &GenerateBlock, found: &mut Vec<Mention>) -> Result<(), NoMemory>
    ensures { OnOk result (found.new.items ≡ found.old.items ++ generate_block_mentions block.now) }
{
    match block {
        GenerateBlock::Block { block } => in_generate_body(block, found),
        GenerateBlock::Item { item } => in_item(item, found),
    }
}

/// Adds what a generate block from `begin` to `end` mentions.
#[cycle(item)]
fn in_generate_body(body: &GenerateBody, found: &mut Vec<Mention>) -> Result<(), NoMemory>
    ensures { OnOk result (found.new.items ≡ found.old.items ++ generate_body_mentions body.now) }
{
    in_items(&body.items, found)?;
    add_end_label(label_name(&body.label), &body.end_label, found)
}

/// Adds what the two blocks of a generate `if` mention.
#[cycle(item)]
#[tactic(auto, using(crate::proofs::Items::of_branches, std::proofs::lemmas::Grind::common_steps))]
fn in_if_generate(construct: &IfGenerate, found: &mut Vec<Mention>) -> Result<(), NoMemory>
    ensures { OnOk result (found.new.items ≡ found.old.items ++ if_generate_mentions construct.now) }
{
    in_generate_block(&construct.chosen, found)?;
    match &construct.otherwise {
        Some(branch) => in_generate_block(&branch.block, found),
        None => Ok(()),
    }
}

/// Adds what the items of a generate `case` mention.
#[cycle(item)]
fn in_case_generate_items(
    items: &[CaseGenerateItem],
    found: &mut Vec<Mention>,
) -> Result<(), NoMemory>
    ensures { OnOk result (found.new.items ≡ found.old.items ++ flat_map case_generate_item_mentions items.now) }
{
    for item in items {
        in_case_generate_item(item, found)?;
    }
    Ok(())
}

/// Adds what an item of a generate `case` mentions.
#[cycle(item)]
#[tactic(auto, using(crate::proofs::Items::of_default, crate::proofs::Items::of_labels, std::proofs::lemmas::Grind::common_steps))]
fn in_case_generate_item(item: &CaseGenerateItem, found: &mut Vec<Mention>) -> Result<(), NoMemory>
    ensures { OnOk result (found.new.items ≡ found.old.items ++ case_generate_item_mentions item.now) }
{
    match item {
        CaseGenerateItem::Default { block, .. } => in_generate_block(block, found),
        CaseGenerateItem::Labels { block, .. } => in_generate_block(block, found),
    }
}

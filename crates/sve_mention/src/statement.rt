ghost use Rattle.std.specs.Prelude.{◌≡◌, ◌++◌, OnOk};
ghost use Rattle.std.specs.List.{flat_map};
ghost use Rattle.sve_mention.specs.InStatements.{block_item_mentions, block_mentions, case_item_mentions, function_mentions, if_mentions, statement_mentions};

use crate::mention::{Mention, add_end_label, label_name};
use sve_bytes::NoMemory;
use sve_tree::{Block, BlockItem, CaseItem, Func, IfStatement, Stmt};

/// Adds what a statement mentions.
#[cycle(statement)]
#[tactic(auto, using(crate::proofs::Statements::of_block, crate::proofs::Statements::of_if, crate::proofs::Statements::of_case, crate::proofs::Statements::of_for, crate::proofs::Statements::of_foreach, crate::proofs::Statements::of_loop, crate::proofs::Statements::of_do, crate::proofs::Statements::of_empty, crate::proofs::Statements::of_return, crate::proofs::Statements::of_break, crate::proofs::Statements::of_continue, crate::proofs::Statements::of_system_task, crate::proofs::Statements::of_void_call, crate::proofs::Statements::of_step, crate::proofs::Statements::of_concatenation, crate::proofs::Statements::of_name, std::proofs::lemmas::Grind::common_steps))]
pub(crate) fn in_statement(statement: &Stmt, found: &mut Vec<Mention>) -> Result<(), NoMemory>
    ensures { OnOk result (found.new.items ≡ found.old.items ++ statement_mentions statement.now) }
{
    match statement {
        Stmt::Block { block } => in_block(block, found),
        Stmt::If { statement, .. } => in_if(statement, found),
        Stmt::Case { statement, .. } => in_case_items(&statement.items, found),
        Stmt::For { statement } => in_statement(&statement.body, found),
        Stmt::Foreach { statement } => in_statement(&statement.body, found),
        Stmt::Loop { statement } => in_statement(&statement.body, found),
        Stmt::Do { statement } => in_statement(&statement.body, found),
        Stmt::Empty { .. } | Stmt::Return { .. } | Stmt::Break { .. } => Ok(()),
        Stmt::Continue { .. } | Stmt::SystemTask { .. } | Stmt::VoidCall { .. } => Ok(()),
        Stmt::Step { .. } | Stmt::Concatenation { .. } | Stmt::Name { .. } => Ok(()),
    }
}

/// Adds what a block mentions.
#[cycle(statement)]
fn in_block(block: &Block, found: &mut Vec<Mention>) -> Result<(), NoMemory>
    ensures { OnOk result (found.new.items ≡ found.old.items ++ block_mentions block.now) }
{
    in_block_items(&block.items, found)?;
    add_end_label(label_name(&block.label), &block.end_label, found)
}

/// Adds what the declarations and statements of a block or of a function mention.
#[cycle(statement)]
fn in_block_items(items: &[BlockItem], found: &mut Vec<Mention>) -> Result<(), NoMemory>
    ensures { OnOk result (found.new.items ≡ found.old.items ++ flat_map block_item_mentions items.now) }
{
    for item in items {
        in_block_item(item, found)?;
    }
    Ok(())
}

/// Adds what a declaration or a statement of a block mentions.
#[cycle(statement)]
#[tactic(auto, using(crate::proofs::Statements::of_statement, crate::proofs::Statements::of_local, crate::proofs::Statements::of_variable, crate::proofs::Statements::of_data, crate::proofs::Statements::of_parameters, crate::proofs::Statements::of_typedef, crate::proofs::Statements::of_named_data, crate::proofs::Statements::of_name_item, std::proofs::lemmas::Grind::common_steps))]
fn in_block_item(item: &BlockItem, found: &mut Vec<Mention>) -> Result<(), NoMemory>
    ensures { OnOk result (found.new.items ≡ found.old.items ++ block_item_mentions item.now) }
{
    match item {
        BlockItem::Statement { statement } => in_statement(statement, found),
        BlockItem::Local { .. } | BlockItem::Variable { .. } | BlockItem::Data { .. } => Ok(()),
        BlockItem::Parameters { .. } | BlockItem::Typedef { .. } => Ok(()),
        BlockItem::NamedData { .. } | BlockItem::Name { .. } => Ok(()),
    }
}

/// Adds what the two branches of an `if` mention.
#[cycle(statement)]
#[tactic(auto, using(crate::proofs::Statements::of_branches, std::proofs::lemmas::Grind::common_steps))]
fn in_if(statement: &IfStatement, found: &mut Vec<Mention>) -> Result<(), NoMemory>
    ensures { OnOk result (found.new.items ≡ found.old.items ++ if_mentions statement.now) }
{
    in_statement(&statement.chosen, found)?;
    match &statement.otherwise {
        Some(branch) => in_statement(&branch.statement, found),
        None => Ok(()),
    }
}

/// Adds what the items of a `case` mention.
#[cycle(statement)]
fn in_case_items(items: &[CaseItem], found: &mut Vec<Mention>) -> Result<(), NoMemory>
    ensures { OnOk result (found.new.items ≡ found.old.items ++ flat_map case_item_mentions items.now) }
{
    for item in items {
        in_case_item(item, found)?;
    }
    Ok(())
}

/// Adds what an item of a `case` mentions.
#[cycle(statement)]
#[tactic(auto, using(crate::proofs::Statements::of_default, crate::proofs::Statements::of_labels, std::proofs::lemmas::Grind::common_steps))]
fn in_case_item(item: &CaseItem, found: &mut Vec<Mention>) -> Result<(), NoMemory>
    ensures { OnOk result (found.new.items ≡ found.old.items ++ case_item_mentions item.now) }
{
    match item {
        CaseItem::Default { statement, .. } => in_statement(statement, found),
        CaseItem::Labels { statement, .. } => in_statement(statement, found),
    }
}

/// Adds what a function mentions.
pub(crate) fn in_function(function: &Func, found: &mut Vec<Mention>) -> Result<(), NoMemory>
    ensures { OnOk result (found.new.items ≡ found.old.items ++ function_mentions function.now) }
{
    in_block_items(&function.items, found)?;
    add_end_label(Some(function.name()), &function.label, found)
}

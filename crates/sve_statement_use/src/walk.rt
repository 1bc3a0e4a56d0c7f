ghost use Rattle.std.specs.Prelude.{◌≡◌, OnOk};
ghost use Rattle.std.specs.List.{flat_map, fold};
ghost use Rattle.sve_statement_use.specs.Steps.{happens};
ghost use Rattle.sve_statement_use.specs.Statements.{block_item_steps, block_steps, case_item_steps, case_steps, do_steps, for_steps_of, foreach_steps, if_steps, loop_steps, statement_steps};

use crate::lifted::{expression, for_head, foreach_head, labels, name_statement, simple};
use crate::scopes::Scopes;
use sve_bytes::NoMemory;
use sve_tree::{
    Block, BlockItem, CaseItem, CaseStatement, DoStatement, ForStatement, ForeachStatement,
    IfStatement, LoopStatement, Stmt,
};

/// The names that a statement uses, in the order of the text, each with how it is used, and the scopes that open and the declarations
/// that stand on the way are handed on (IEEE 1800-2017, clause 12 and 23.9). It goes over the tree once.
///
/// # Errors
/// For want of memory alone.
#[cycle(statement)]
#[tactic(auto, using(crate::proofs::Rows::of_block, crate::proofs::Rows::of_if, crate::proofs::Rows::of_case, crate::proofs::Rows::of_for, crate::proofs::Rows::of_foreach, crate::proofs::Rows::of_loop, crate::proofs::Rows::of_do), unfolding(crate::specs::Statements::statement_steps))]
pub fn names_in_statement<S: Scopes>(statement: &Stmt, scopes: &mut S) -> Result<(), NoMemory>
    ensures { OnOk result (scopes.new ≡ fold (happens S.after S.does) scopes.old (statement_steps statement.now)) }
{
    match statement {
        Stmt::Block { block } => in_block(block, scopes),
        Stmt::If { statement, .. } => in_if(statement, scopes),
        Stmt::Case { statement, .. } => in_case(statement, scopes),
        Stmt::For { statement } => in_for(statement, scopes),
        Stmt::Foreach { statement } => in_foreach(statement, scopes),
        Stmt::Loop { statement } => in_loop(statement, scopes),
        Stmt::Do { statement } => in_do(statement, scopes),
        Stmt::Empty { .. } | Stmt::Break { .. } => simple(statement, scopes),
        Stmt::Return { .. } | Stmt::Continue { .. } => simple(statement, scopes),
        Stmt::SystemTask { .. } | Stmt::VoidCall { .. } => simple(statement, scopes),
        Stmt::Step { .. } | Stmt::Concatenation { .. } => simple(statement, scopes),
        Stmt::Name { .. } => simple(statement, scopes),
    }
}

/// A block in its scope.
#[cycle(statement)]
#[tactic(auto, using(std::proofs::lemmas::Grind::common_steps))]
fn in_block<S: Scopes>(block: &Block, scopes: &mut S) -> Result<(), NoMemory>
    ensures { OnOk result (scopes.new ≡ fold (happens S.after S.does) scopes.old (block_steps block.now)) }
{
    scopes.open_scope(block.begin)?;
    names_in_block_items(&block.items, scopes)?;
    scopes.close_scope()
}

/// The same for the declarations and statements of a block or of a function, one after another, in the scope that is open.
///
/// # Errors
/// For want of memory alone.
#[cycle(statement)]
#[tactic(auto, using(crate::proofs::Rows::block_item_step, crate::proofs::Rows::block_item_end, std::proofs::lemmas::Grind::common_steps))]
pub fn names_in_block_items<S: Scopes>(items: &[BlockItem], scopes: &mut S) -> Result<(), NoMemory>
    ensures { OnOk result (scopes.new ≡ fold (happens S.after S.does) scopes.old (flat_map block_item_steps items.now)) }
{
    'items: for item in items {
        in_block_item(item, scopes)?;
    }
    Ok(())
}

/// A declaration or a statement of a block.
#[cycle(statement)]
#[tactic(auto, unfolding(crate::specs::Statements::statement_steps))]
fn in_block_item<S: Scopes>(item: &BlockItem, scopes: &mut S) -> Result<(), NoMemory>
    ensures { OnOk result (scopes.new ≡ fold (happens S.after S.does) scopes.old (block_item_steps item.now)) }
{
    match item {
        BlockItem::Local { declaration, .. } => scopes.declare_data(declaration),
        BlockItem::Variable { declaration } => scopes.declare_variables(declaration),
        BlockItem::Data { declaration } => scopes.declare_data(declaration),
        BlockItem::Parameters { declaration } => scopes.declare_parameters(declaration),
        BlockItem::Typedef { declaration } => scopes.declare_type(declaration),
        BlockItem::NamedData { declaration } => scopes.declare_named(declaration),
        BlockItem::Name { statement } => name_statement(statement, scopes),
        BlockItem::Statement { statement } => names_in_statement(statement, scopes),
    }
}

/// An `if` with its branches.
#[cycle(statement)]
#[tactic(auto, using(crate::proofs::Rows::of_branches, std::proofs::lemmas::Grind::common_steps))]
fn in_if<S: Scopes>(statement: &IfStatement, scopes: &mut S) -> Result<(), NoMemory>
    ensures { OnOk result (scopes.new ≡ fold (happens S.after S.does) scopes.old (if_steps statement.now)) }
{
    expression(&statement.condition.value, scopes)?;
    names_in_statement(&statement.chosen, scopes)?;
    match &statement.otherwise {
        Some(branch) => names_in_statement(&branch.statement, scopes),
        None => Ok(()),
    }
}

/// A `case` with its items.
#[cycle(statement)]
#[tactic(auto, using(std::proofs::lemmas::Grind::common_steps))]
fn in_case<S: Scopes>(statement: &CaseStatement, scopes: &mut S) -> Result<(), NoMemory>
    ensures { OnOk result (scopes.new ≡ fold (happens S.after S.does) scopes.old (case_steps statement.now)) }
{
    expression(&statement.selector.value, scopes)?;
    in_case_items(&statement.items, scopes)
}

/// The items of a `case`.
#[cycle(statement)]
#[tactic(auto, using(crate::proofs::Rows::case_item_step, crate::proofs::Rows::case_item_end, std::proofs::lemmas::Grind::common_steps))]
fn in_case_items<S: Scopes>(items: &[CaseItem], scopes: &mut S) -> Result<(), NoMemory>
    ensures { OnOk result (scopes.new ≡ fold (happens S.after S.does) scopes.old (flat_map case_item_steps items.now)) }
{
    'items: for item in items {
        in_case_item(item, scopes)?;
    }
    Ok(())
}

/// An item of a `case`.
#[cycle(statement)]
#[tactic(auto, using(std::proofs::lemmas::Grind::common_steps), unfolding(crate::specs::Statements::statement_steps))]
fn in_case_item<S: Scopes>(item: &CaseItem, scopes: &mut S) -> Result<(), NoMemory>
    ensures { OnOk result (scopes.new ≡ fold (happens S.after S.does) scopes.old (case_item_steps item.now)) }
{
    match item {
        CaseItem::Default { statement, .. } => names_in_statement(statement, scopes),
        CaseItem::Labels {
            labels: row,
            statement,
            ..
        } => {
            labels(row, scopes)?;
            names_in_statement(statement, scopes)
        }
    }
}

/// A `for` in its scope.
#[cycle(statement)]
#[tactic(auto, using(std::proofs::lemmas::Grind::common_steps))]
fn in_for<S: Scopes>(statement: &ForStatement, scopes: &mut S) -> Result<(), NoMemory>
    ensures { OnOk result (scopes.new ≡ fold (happens S.after S.does) scopes.old (for_steps_of statement.now)) }
{
    for_head(statement, scopes)?;
    names_in_statement(&statement.body, scopes)?;
    scopes.close_scope()
}

/// A `foreach` in its scope.
#[cycle(statement)]
#[tactic(auto, using(std::proofs::lemmas::Grind::common_steps))]
fn in_foreach<S: Scopes>(statement: &ForeachStatement, scopes: &mut S) -> Result<(), NoMemory>
    ensures { OnOk result (scopes.new ≡ fold (happens S.after S.does) scopes.old (foreach_steps statement.now)) }
{
    foreach_head(statement, scopes)?;
    names_in_statement(&statement.body, scopes)?;
    scopes.close_scope()
}

/// A `while` or a `repeat`.
#[cycle(statement)]
#[tactic(auto, using(std::proofs::lemmas::Grind::common_steps))]
fn in_loop<S: Scopes>(statement: &LoopStatement, scopes: &mut S) -> Result<(), NoMemory>
    ensures { OnOk result (scopes.new ≡ fold (happens S.after S.does) scopes.old (loop_steps statement.now)) }
{
    expression(&statement.condition.value, scopes)?;
    names_in_statement(&statement.body, scopes)
}

/// A `do`.
#[cycle(statement)]
#[tactic(auto, using(std::proofs::lemmas::Grind::common_steps))]
fn in_do<S: Scopes>(statement: &DoStatement, scopes: &mut S) -> Result<(), NoMemory>
    ensures { OnOk result (scopes.new ≡ fold (happens S.after S.does) scopes.old (do_steps statement.now)) }
{
    names_in_statement(&statement.body, scopes)?;
    expression(&statement.condition.value, scopes)
}

//! What a for loop does at first and after each turn (IEEE 1800-2017, 12.7.1 and A.6.8).

ghost use Rattle.std.specs.Prelude.{◌<◌, ◌≤◌, ◌+◌, ◌^◌, length, IfOk};
ghost use Rattle.sve_grammar.specs.Rule.{sym, ◌∙◌, opt};
ghost use Rattle.sve_grammar.specs.Reading.{leaf, at_depth, with_left, with_right};
ghost use Rattle.sve_grammar.specs.Gives.{Gives};
ghost use Rattle.sve_grammar.specs.Expressions.{scoped_name, selects};
ghost use Rattle.sve_grammar.specs.Types.{declared_name, initializer};
ghost use Rattle.sve_grammar.specs.Statements.{for_initialization_end, more_for_variables, for_initialization, for_step, more_for_steps, for_steps};
ghost use Rattle.sve_tree.specs.Shape.{optional_tree, optional_row, row_rest, IsRow};
ghost use Rattle.sve_tree.specs.Types.{data_type_tree};
ghost use Rattle.sve_tree.specs.Statements.{for_initialization_tree, for_variable_tree, for_step_tree};

use std::alloc::Global;
use sve_grammar::{Stop, Symbol, accept, expect, is_kind, is_one_of, opens_here};
use sve_parse_assign::{assignment_mark, change};
use sve_parse_expr::{boxed_expr, selects};
use sve_parse_type::{data_type, declared_name, initializer};
use sve_parse_word::{scoped_name, step_operator};
use sve_token::{Kind, Token};
use sve_tree::{DataType, ForInitialization, ForStep, ForVariable, Mark, Row};

/// What a for loop does at first (IEEE 1800-2017, 12.7.1), and the place behind it: the variables that it declares, or the name that
/// it assigns to. It stops where the grammar's machine stops and where memory runs out, as every parser here does.
#[tactic(auto, using(crate::proofs::Ways::declaring_loop, crate::proofs::Ways::naming_loop))]
pub fn for_initialization(
    alloc: Global,
    tokens: &[Token],
    from: u32,
    depth: u32,
) -> Result<(ForInitialization, u32), Stop>
    requires few { length tokens.now < 2 ^ 32 }
    requires from { from ≤ length tokens.now }
    requires depth { depth ≤ 512 }
    ensures tree { Gives (λ x. (for_initialization_tree x.0, x.1)) result (at_depth tokens.now depth for_initialization from) }
    ensures end { IfOk result (λ x. (from < x.1) × (x.1 ≤ length tokens.now)) }
{
    if opens_here(tokens, from, Symbol::DataType) {
        return declaring_initialization(alloc, tokens, from, depth);
    }
    naming_initialization(alloc, tokens, from, depth)
}

/// The variables that a loop declares, the first with a type that begins with a keyword, and the place behind them.
#[tactic(auto, using(sve_tree::proofs::Shapes::first_is))]
fn declaring_initialization(
    alloc: Global,
    tokens: &[Token],
    from: u32,
    depth: u32,
) -> Result<(ForInitialization, u32), Stop>
    requires few { length tokens.now < 2 ^ 32 }
    requires from { from ≤ length tokens.now }
    requires depth { depth ≤ 512 }
    ensures tree { Gives (λ x. (for_initialization_tree x.0, x.1)) result (with_left (at_depth tokens.now depth (sym Symbol.DataType ∙ declared_name ∙ initializer ∙ more_for_variables) from)) }
    ensures end { IfOk result (λ x. (from < x.1) × (x.1 ≤ length tokens.now)) }
{
    let (data_type, at) = data_type(alloc, tokens, from, depth)?;
    let (declarator, at) = declared_name(alloc, tokens, at, depth)?;
    let (value, at) = initializer(alloc, tokens, at, depth)?;
    let first = ForVariable {
        data_type: Some(data_type),
        declarator,
        value,
    };
    let (variables, end) = more_for_variables(alloc, tokens, at, depth, first)?;
    Ok((ForInitialization::Declared { variables }, end))
}

/// What a loop does at first that begins with a name, and the place behind it: it assigns to the name, or declares a variable of
/// that type where a second name follows.
#[tactic(auto, using(crate::proofs::Ways::loop_variable, crate::proofs::Ways::loop_assignment))]
fn naming_initialization(
    alloc: Global,
    tokens: &[Token],
    from: u32,
    depth: u32,
) -> Result<(ForInitialization, u32), Stop>
    requires few { length tokens.now < 2 ^ 32 }
    requires from { from ≤ length tokens.now }
    requires depth { depth ≤ 512 }
    ensures tree { Gives (λ x. (for_initialization_tree x.0, x.1)) result (with_right (at_depth tokens.now depth (scoped_name ∙ selects ∙ for_initialization_end) from)) }
    ensures end { IfOk result (λ x. (from < x.1) × (x.1 ≤ length tokens.now)) }
{
    let (name, at) = scoped_name(tokens, from, depth)?;
    let (selects, at) = selects(alloc, tokens, at, depth)?;
    if is_kind(tokens, at, Kind::Identifier) {
        let (declarator, at) = declared_name(alloc, tokens, at, depth)?;
        let (value, end) = initializer(alloc, tokens, at, depth)?;
        return Ok((
            ForInitialization::NamedType {
                name,
                selects,
                declarator,
                value,
            },
            end,
        ));
    }
    let (operator, at) = assignment_mark(tokens, at, depth)?;
    let (value, end) = boxed_expr(alloc, tokens, at, depth)?;
    Ok((
        ForInitialization::Assigned {
            name,
            selects,
            operator,
            value,
        },
        end,
    ))
}

/// The further variables of a loop behind the first, and the place behind them.
fn more_for_variables(
    alloc: Global,
    tokens: &[Token],
    from: u32,
    depth: u32,
    first: ForVariable,
) -> Result<(Row<ForVariable>, u32), Stop>
    requires few { length tokens.now < 2 ^ 32 }
    requires from { from ≤ length tokens.now }
    requires depth { depth ≤ 512 }
    ensures tree { Gives (λ x. (row_rest for_variable_tree leaf x.0, x.1)) result (at_depth tokens.now depth more_for_variables from) }
    ensures first { IfOk result (λ x. IsRow first x.0.items.items x.0.separators.items) }
    ensures end { IfOk result (λ x. (from ≤ x.1) × (x.1 ≤ length tokens.now)) }
{
    let mut items = Vec::new(alloc);
    items.push(first)?;
    let mut separators = Vec::new(alloc);
    let mut at = from;
    'turns: while let Some(next) = accept(tokens, at, Kind::Comma) {
        let (item, end) = for_variable(alloc, tokens, next, depth)?;
        separators.push(at)?;
        items.push(item)?;
        at = end;
    }
    Ok((Row { items, separators }, at))
}

/// A variable of a loop with its type, where one is written, and its value; and the place behind it.
fn for_variable(
    alloc: Global,
    tokens: &[Token],
    from: u32,
    depth: u32,
) -> Result<(ForVariable, u32), Stop>
    requires few { length tokens.now < 2 ^ 32 }
    requires from { from ≤ length tokens.now }
    requires depth { depth ≤ 512 }
    ensures tree { Gives (λ x. (for_variable_tree x.0, x.1)) result (at_depth tokens.now depth (opt (sym Symbol.DataType) ∙ declared_name ∙ initializer) from) }
    ensures end { IfOk result (λ x. (from < x.1) × (x.1 ≤ length tokens.now)) }
{
    let (data_type, at) = optional_type(alloc, tokens, from, depth)?;
    let (declarator, at) = declared_name(alloc, tokens, at, depth)?;
    let (value, end) = initializer(alloc, tokens, at, depth)?;
    Ok((
        ForVariable {
            data_type,
            declarator,
            value,
        },
        end,
    ))
}

/// A type that begins with a keyword, where one is written, and the place behind it.
fn optional_type(
    alloc: Global,
    tokens: &[Token],
    from: u32,
    depth: u32,
) -> Result<(Option<DataType>, u32), Stop>
    requires few { length tokens.now < 2 ^ 32 }
    requires from { from ≤ length tokens.now }
    requires depth { depth ≤ 512 }
    ensures tree { Gives (λ x. (optional_tree data_type_tree x.0, x.1)) result (at_depth tokens.now depth (opt (sym Symbol.DataType)) from) }
    ensures end { IfOk result (λ x. (from ≤ x.1) × (x.1 ≤ length tokens.now)) }
{
    if opens_here(tokens, from, Symbol::DataType) {
        let (data_type, end) = data_type(alloc, tokens, from, depth)?;
        return Ok((Some(data_type), end));
    }
    Ok((None, from))
}

/// The steps of a for loop (12.7.1), and the place behind them. There may be none, which is the row without items.
#[tactic(auto, using(crate::proofs::Starts::for_steps_begins, sve_grammar::proofs::StartsOfStatements::for_steps_full, sve_tree::proofs::Shapes::listed_none))]
pub fn optional_for_steps(
    alloc: Global,
    tokens: &[Token],
    from: u32,
    depth: u32,
) -> Result<(Row<ForStep>, u32), Stop>
    requires few { length tokens.now < 2 ^ 32 }
    requires from { from ≤ length tokens.now }
    requires depth { depth ≤ 512 }
    ensures tree { Gives (λ x. (optional_row for_step_tree leaf x.0, x.1)) result (at_depth tokens.now depth (opt for_steps) from) }
    ensures end { IfOk result (λ x. (from ≤ x.1) × (x.1 ≤ length tokens.now)) }
{
    if is_one_of(tokens, from, &STEP_FIRSTS) {
        return for_steps(alloc, tokens, from, depth);
    }
    let none = Row {
        items: Vec::new(alloc),
        separators: Vec::new(alloc),
    };
    Ok((none, from))
}

/// What a step begins with.
const STEP_FIRSTS: [Kind; 3] = [Kind::PlusPlus, Kind::MinusMinus, Kind::Identifier];

/// Steps, one or more, and the place behind them.
#[tactic(auto, using(sve_tree::proofs::Shapes::listed_is), unfolding(sve_grammar::specs::Statements::for_steps))]
fn for_steps(
    alloc: Global,
    tokens: &[Token],
    from: u32,
    depth: u32,
) -> Result<(Row<ForStep>, u32), Stop>
    requires few { length tokens.now < 2 ^ 32 }
    requires from { from ≤ length tokens.now }
    requires depth { depth ≤ 512 }
    ensures tree { Gives (λ x. (optional_row for_step_tree leaf x.0, x.1)) result (with_left (at_depth tokens.now depth for_steps from)) }
    ensures end { IfOk result (λ x. (from < x.1) × (x.1 ≤ length tokens.now)) }
{
    let (first, at) = for_step(alloc, tokens, from, depth)?;
    more_for_steps(alloc, tokens, at, depth, first)
}

/// The further steps of a loop behind the first, and the place behind them.
fn more_for_steps(
    alloc: Global,
    tokens: &[Token],
    from: u32,
    depth: u32,
    first: ForStep,
) -> Result<(Row<ForStep>, u32), Stop>
    requires few { length tokens.now < 2 ^ 32 }
    requires from { from ≤ length tokens.now }
    requires depth { depth ≤ 512 }
    ensures tree { Gives (λ x. (row_rest for_step_tree leaf x.0, x.1)) result (at_depth tokens.now depth more_for_steps from) }
    ensures first { IfOk result (λ x. IsRow first x.0.items.items x.0.separators.items) }
    ensures end { IfOk result (λ x. (from ≤ x.1) × (x.1 ≤ length tokens.now)) }
{
    let mut items = Vec::new(alloc);
    items.push(first)?;
    let mut separators = Vec::new(alloc);
    let mut at = from;
    'turns: while let Some(next) = accept(tokens, at, Kind::Comma) {
        let (item, end) = for_step(alloc, tokens, next, depth)?;
        separators.push(at)?;
        items.push(item)?;
        at = end;
    }
    Ok((Row { items, separators }, at))
}

/// A step of a for loop, and the place behind it: an increment with its operator in front, or a name and how it is changed.
#[tactic(auto, using(crate::proofs::Ways::step_before, crate::proofs::Ways::step_behind))]
fn for_step(alloc: Global, tokens: &[Token], from: u32, depth: u32) -> Result<(ForStep, u32), Stop>
    requires few { length tokens.now < 2 ^ 32 }
    requires from { from ≤ length tokens.now }
    requires depth { depth ≤ 512 }
    ensures tree { Gives (λ x. (for_step_tree x.0, x.1)) result (at_depth tokens.now depth for_step from) }
    ensures end { IfOk result (λ x. (from < x.1) × (x.1 ≤ length tokens.now)) }
{
    if let Some(kind) = step_operator(tokens, from) {
        let name = from + 1;
        let at = expect(tokens, name, Kind::Identifier)?;
        let (selects, end) = selects(alloc, tokens, at, depth)?;
        let operator = Mark { kind, token: from };
        return Ok((
            ForStep::Before {
                operator,
                name,
                selects,
            },
            end,
        ));
    }
    let at = expect(tokens, from, Kind::Identifier)?;
    let (selects, at) = selects(alloc, tokens, at, depth)?;
    let (change, end) = change(alloc, tokens, at, depth)?;
    Ok((
        ForStep::Change {
            name: from,
            selects,
            change,
        },
        end,
    ))
}

//! Arguments in parentheses, assignment patterns, and rows of expressions (IEEE 1800-2017, A.8.2, A.6.7.1 and A.8.1).

ghost use Rattle.std.specs.Prelude.{◌≡◌, ◌<◌, ◌≤◌, ◌^◌, length, IfOk};
ghost use Rattle.sve_grammar.specs.Expressions.{argument, more_arguments, argument_list, pattern_item, more_pattern_items, pattern, braced_expressions, more_expressions};
ghost use Rattle.sve_grammar.specs.Reading.{leaf, at_depth};
ghost use Rattle.sve_grammar.specs.Gives.{Gives};
ghost use Rattle.sve_tree.specs.Shape.{◌▸◌, row_first, row_rest};
ghost use Rattle.sve_tree.specs.Expressions.{tree_at, arg_tree, argument_list_tree, pattern_item_tree, pattern_tree};

use crate::operators::{boxed_expr, expr};
use std::alloc::Global;
use sve_grammar::{Stop, Symbol, accept, expect, is_kind, opens_here};
use sve_token::{Keyword, Kind, Token};
use sve_tree::{Arg, ArgumentList, Expr, Pattern, PatternItem, Row};

/// An argument of a call, or a connection or an override of an instance: by its name, by its place, or nothing in its place
/// (A.8.2, A.4.1.1). It may be empty.
#[cycle(expression)]
#[tactic(auto, using(sve_tree::proofs::ExpressionTrees::wildcard_arg, sve_tree::proofs::ExpressionTrees::implicit_arg, sve_tree::proofs::ExpressionTrees::named_arg, sve_tree::proofs::ExpressionTrees::unconnected_arg, sve_tree::proofs::ExpressionTrees::ordered_arg, sve_tree::proofs::ExpressionTrees::empty_arg), unfolding(sve_grammar::specs::Expressions::argument, sve_grammar::specs::Expressions::connection))]
pub fn argument(alloc: Global, tokens: &[Token], from: u32, depth: u32) -> Result<(Arg, u32), Stop>
    requires few { length tokens.now < 2 ^ 32 }
    requires from { from ≤ length tokens.now }
    requires depth { depth ≤ 512 }
    ensures tree { Gives (λ x. (arg_tree x.0, x.1)) result (at_depth tokens.now depth argument from) }
    ensures end { IfOk result (λ x. (from ≤ x.1) × (x.1 ≤ length tokens.now)) }
{
    if let Some(end) = accept(tokens, from, Kind::DotStar) {
        return Ok((Arg::Wildcard { token: from }, end));
    }
    if let Some(name) = accept(tokens, from, Kind::Dot) {
        let at = expect(tokens, name, Kind::Identifier)?;
        let Some(next) = accept(tokens, at, Kind::LeftParen) else {
            return Ok((Arg::Implicit { dot: from, name }, at));
        };
        if opens_here(tokens, next, Symbol::Expression) {
            let (value, closing) = boxed_expr(alloc, tokens, next, depth)?;
            let end = expect(tokens, closing, Kind::RightParen)?;
            return Ok((
                Arg::Named {
                    dot: from,
                    name,
                    opening: at,
                    value,
                    closing,
                },
                end,
            ));
        }
        let end = expect(tokens, next, Kind::RightParen)?;
        return Ok((
            Arg::Unconnected {
                dot: from,
                name,
                opening: at,
                closing: next,
            },
            end,
        ));
    }
    if opens_here(tokens, from, Symbol::Expression) {
        let (value, end) = boxed_expr(alloc, tokens, from, depth)?;
        return Ok((Arg::Ordered { value }, end));
    }
    Ok((Arg::Empty, from))
}

/// The row of arguments whose first stands in front of `from`: what follows it, each behind a comma.
#[cycle(expression)]
#[tactic(auto, unfolding(sve_grammar::specs::Expressions::more_arguments))]
fn more_arguments(
    alloc: Global,
    tokens: &[Token],
    from: u32,
    depth: u32,
    first: Arg,
) -> Result<(Row<Arg>, u32), Stop>
    requires few { length tokens.now < 2 ^ 32 }
    requires from { from ≤ length tokens.now }
    requires depth { depth ≤ 512 }
    ensures tree { Gives (λ x. (row_rest arg_tree leaf x.0, x.1)) result (at_depth tokens.now depth more_arguments from) }
    ensures first { IfOk result (λ x. row_first arg_tree x.0 ≡ arg_tree first) }
    ensures end { IfOk result (λ x. (from ≤ x.1) × (x.1 ≤ length tokens.now)) }
{
    let mut items = Vec::new(alloc);
    let mut separators = Vec::new(alloc);
    let mut at = from;
    items.push(first)?;
    'turns: while let Some(next) = accept(tokens, at, Kind::Comma) {
        let (argument, end) = argument(alloc, tokens, next, depth)?;
        separators.push(at)?;
        items.push(argument)?;
        at = end;
    }
    Ok((Row { items, separators }, at))
}

/// Arguments in parentheses, at least one; the one of `()` is empty: list_of_arguments (A.8.2).
#[cycle(expression)]
#[tactic(auto, unfolding(sve_grammar::specs::Expressions::argument_list, sve_grammar::specs::Expressions::arguments))]
pub fn argument_list(
    alloc: Global,
    tokens: &[Token],
    from: u32,
    depth: u32,
) -> Result<(ArgumentList, u32), Stop>
    requires few { length tokens.now < 2 ^ 32 }
    requires from { from ≤ length tokens.now }
    requires depth { depth ≤ 512 }
    ensures tree { Gives (λ x. (argument_list_tree x.0, x.1)) result (at_depth tokens.now depth argument_list from) }
    ensures end { IfOk result (λ x. (from < x.1) × (x.1 ≤ length tokens.now)) }
{
    let next = expect(tokens, from, Kind::LeftParen)?;
    let (first, at) = argument(alloc, tokens, next, depth)?;
    let (arguments, closing) = more_arguments(alloc, tokens, at, depth, first)?;
    let end = expect(tokens, closing, Kind::RightParen)?;
    Ok((
        ArgumentList {
            opening: from,
            arguments,
            closing,
        },
        end,
    ))
}

/// An item of an assignment pattern: `default: e`, a value by its place, a value of a member, an index or a type, or values that are
/// repeated (A.6.7.1).
#[cycle(expression)]
#[tactic(auto, using(sve_tree::proofs::ExpressionTrees::default_pattern_item, sve_tree::proofs::ExpressionTrees::keyed_pattern_item, sve_tree::proofs::ExpressionTrees::repeated_pattern_item, sve_tree::proofs::ExpressionTrees::value_pattern_item, crate::proofs::Ways::pattern_item_default, crate::proofs::Ways::pattern_item_value, sve_grammar::proofs::StartsOfExpressions::braced_expressions_starts, sve_grammar::proofs::StartsOfExpressions::braced_expressions_full), unfolding(sve_grammar::specs::Expressions::pattern_item_end))]
fn pattern_item(
    alloc: Global,
    tokens: &[Token],
    from: u32,
    depth: u32,
) -> Result<(PatternItem, u32), Stop>
    requires few { length tokens.now < 2 ^ 32 }
    requires from { from ≤ length tokens.now }
    requires depth { depth ≤ 512 }
    ensures tree { Gives (λ x. (pattern_item_tree x.0, x.1)) result (at_depth tokens.now depth pattern_item from) }
    ensures end { IfOk result (λ x. (from < x.1) × (x.1 ≤ length tokens.now)) }
{
    if let Some(colon) = accept(tokens, from, Kind::Keyword(Keyword::KwDefault)) {
        let next = expect(tokens, colon, Kind::Colon)?;
        let (value, end) = boxed_expr(alloc, tokens, next, depth)?;
        return Ok((
            PatternItem::Default {
                keyword: from,
                colon,
                value,
            },
            end,
        ));
    }
    let (first, at) = boxed_expr(alloc, tokens, from, depth)?;
    if let Some(next) = accept(tokens, at, Kind::Colon) {
        let (value, end) = boxed_expr(alloc, tokens, next, depth)?;
        return Ok((
            PatternItem::Keyed {
                key: first,
                colon: at,
                value,
            },
            end,
        ));
    }
    if is_kind(tokens, at, Kind::LeftBrace) {
        let (repeated, end) = braced_expressions(alloc, tokens, at, depth)?;
        return Ok((
            PatternItem::Repeated {
                count: first,
                opening: repeated.opening,
                values: repeated.values,
                closing: repeated.closing,
            },
            end,
        ));
    }
    Ok((PatternItem::Value { value: first }, at))
}

/// The row of items whose first stands in front of `from`: what follows it, each behind a comma.
#[cycle(expression)]
#[tactic(auto, unfolding(sve_grammar::specs::Expressions::more_pattern_items))]
fn more_pattern_items(
    alloc: Global,
    tokens: &[Token],
    from: u32,
    depth: u32,
    first: PatternItem,
) -> Result<(Row<PatternItem>, u32), Stop>
    requires few { length tokens.now < 2 ^ 32 }
    requires from { from ≤ length tokens.now }
    requires depth { depth ≤ 512 }
    ensures tree { Gives (λ x. (row_rest pattern_item_tree leaf x.0, x.1)) result (at_depth tokens.now depth more_pattern_items from) }
    ensures first { IfOk result (λ x. row_first pattern_item_tree x.0 ≡ pattern_item_tree first) }
    ensures end { IfOk result (λ x. (from ≤ x.1) × (x.1 ≤ length tokens.now)) }
{
    let mut items = Vec::new(alloc);
    let mut separators = Vec::new(alloc);
    let mut at = from;
    items.push(first)?;
    'turns: while let Some(next) = accept(tokens, at, Kind::Comma) {
        let (item, end) = pattern_item(alloc, tokens, next, depth)?;
        separators.push(at)?;
        items.push(item)?;
        at = end;
    }
    Ok((Row { items, separators }, at))
}

/// An assignment pattern: assignment_pattern (A.6.7.1).
#[cycle(expression)]
#[tactic(auto, unfolding(sve_grammar::specs::Expressions::pattern))]
pub fn pattern(
    alloc: Global,
    tokens: &[Token],
    from: u32,
    depth: u32,
) -> Result<(Pattern, u32), Stop>
    requires few { length tokens.now < 2 ^ 32 }
    requires from { from ≤ length tokens.now }
    requires depth { depth ≤ 512 }
    ensures tree { Gives (λ x. (pattern_tree x.0, x.1)) result (at_depth tokens.now depth pattern from) }
    ensures end { IfOk result (λ x. (from < x.1) × (x.1 ≤ length tokens.now)) }
{
    let next = expect(tokens, from, Kind::ApostropheLeftBrace)?;
    let (first, at) = pattern_item(alloc, tokens, next, depth)?;
    let (items, closing) = more_pattern_items(alloc, tokens, at, depth, first)?;
    let end = expect(tokens, closing, Kind::RightBrace)?;
    Ok((
        Pattern {
            opening: from,
            items,
            closing,
        },
        end,
    ))
}

/// Expressions in braces: what a replication or an item of a pattern repeats.
#[derive(Drop)]
pub(crate) struct Braced {
    /// `{`.
    pub(crate) opening: u32,
    /// The expressions.
    pub(crate) values: Row<Expr>,
    /// `}`.
    pub(crate) closing: u32,
}

/// Expressions in braces, at least one.
#[cycle(expression)]
#[tactic(auto, unfolding(sve_grammar::specs::Expressions::braced_expressions))]
pub(crate) fn braced_expressions(
    alloc: Global,
    tokens: &[Token],
    from: u32,
    depth: u32,
) -> Result<(Braced, u32), Stop>
    requires few { length tokens.now < 2 ^ 32 }
    requires from { from ≤ length tokens.now }
    requires depth { depth ≤ 512 }
    ensures tree { Gives (λ x. (leaf x.0.opening ▸ row_first (tree_at 13) x.0.values ▸ row_rest (tree_at 13) leaf x.0.values ▸ leaf x.0.closing, x.1)) result (at_depth tokens.now depth braced_expressions from) }
    ensures end { IfOk result (λ x. (from < x.1) × (x.1 ≤ length tokens.now)) }
{
    let next = expect(tokens, from, Kind::LeftBrace)?;
    let (first, at) = expr(alloc, tokens, next, depth)?;
    let (values, closing) = more_expressions(alloc, tokens, at, depth, first)?;
    let end = expect(tokens, closing, Kind::RightBrace)?;
    Ok((
        Braced {
            opening: from,
            values,
            closing,
        },
        end,
    ))
}

/// The row of expressions whose first stands in front of `from`: what follows it, each behind a comma.
#[cycle(expression)]
#[tactic(auto, unfolding(sve_grammar::specs::Expressions::more_expressions))]
pub fn more_expressions(
    alloc: Global,
    tokens: &[Token],
    from: u32,
    depth: u32,
    first: Expr,
) -> Result<(Row<Expr>, u32), Stop>
    requires few { length tokens.now < 2 ^ 32 }
    requires from { from ≤ length tokens.now }
    requires depth { depth ≤ 512 }
    ensures tree { Gives (λ x. (row_rest (tree_at 13) leaf x.0, x.1)) result (at_depth tokens.now depth more_expressions from) }
    ensures first { IfOk result (λ x. row_first (tree_at 13) x.0 ≡ tree_at 13 first) }
    ensures end { IfOk result (λ x. (from ≤ x.1) × (x.1 ≤ length tokens.now)) }
{
    let mut items = Vec::new(alloc);
    let mut separators = Vec::new(alloc);
    let mut at = from;
    items.push(first)?;
    'turns: while let Some(next) = accept(tokens, at, Kind::Comma) {
        let (value, end) = expr(alloc, tokens, next, depth)?;
        separators.push(at)?;
        items.push(value)?;
        at = end;
    }
    Ok((Row { items, separators }, at))
}

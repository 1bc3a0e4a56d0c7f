//! Operands: numbers, names, calls, concatenations and casts (IEEE 1800-2017, A.8.1, A.8.2 and A.8.4).

ghost use Rattle.std.specs.Prelude.{◌≡◌, ◌<◌, ◌≤◌, ◌^◌, length, IfOk};
ghost use Rattle.sve_grammar.specs.Rule.{◌∙◌, opt};
ghost use Rattle.sve_grammar.specs.Expressions.{primary, decimal, typed_primary, system_call, concatenation, signing, parenthesized, cast};
ghost use Rattle.sve_grammar.specs.Reading.{at_depth, with_right};
ghost use Rattle.sve_grammar.specs.Gives.{Gives};
ghost use Rattle.sve_tree.specs.Expressions.{tree_at, height, parenthesized_tree, cast_tree};
ghost use Rattle.sve_parse_expr.specs.Alternatives.{alternative};

use crate::begins::{Operand, operand_here};
use crate::lists::{argument_list, braced_expressions, more_expressions, pattern};
use crate::operators::boxed_expr;
use crate::parts::{bracket_selects, dimensions, postfixes, selects};
use std::alloc::Global;
use sve_grammar::{Stop, accept, expect, is_kind};
use sve_parse_word::{integer_keyword, optional_sign, scoped_name, sign};
use sve_token::{Kind, Token};
use sve_tree::{Cast, Expr, Mark, Parenthesized};

/// An operand without operators before it: primary (A.8.4).
#[cycle(expression)]
#[tactic(auto, using(sve_tree::proofs::ExpressionTrees::based_expr, sve_tree::proofs::ExpressionTrees::unbased_expr, sve_tree::proofs::ExpressionTrees::text_expr, sve_tree::proofs::ExpressionTrees::pattern_expr, sve_tree::proofs::ExpressionTrees::name_expr))]
pub(crate) fn primary(
    alloc: Global,
    tokens: &[Token],
    from: u32,
    depth: u32,
) -> Result<(Expr, u32), Stop>
    requires few { length tokens.now < 2 ^ 32 }
    requires from { from ≤ length tokens.now }
    requires depth { depth ≤ 512 }
    ensures tree { Gives (λ x. (tree_at 0 x.0, x.1)) result (with_right (at_depth tokens.now depth primary from)) }
    ensures end { IfOk result (λ x. (from < x.1) × (x.1 ≤ length tokens.now)) }
    ensures height { IfOk result (λ x. height x.0 ≡ 0) }
{
    match operand_here(tokens, from) {
        Operand::Decimal => decimal(alloc, tokens, from, depth),
        Operand::Based => {
            let end = expect(tokens, from, Kind::Based)?;
            Ok((Expr::Based { token: from }, end))
        }
        Operand::Unbased => {
            let end = expect(tokens, from, Kind::Unbased)?;
            Ok((Expr::Unbased { token: from }, end))
        }
        Operand::Text => {
            let end = expect(tokens, from, Kind::Text)?;
            Ok((Expr::Text { token: from }, end))
        }
        Operand::Parenthesized => parenthesized_operand(alloc, tokens, from, depth),
        Operand::Pattern => {
            let (pattern, end) = pattern(alloc, tokens, from, depth)?;
            Ok((Expr::Pattern { pattern }, end))
        }
        Operand::Concatenation => concatenation(alloc, tokens, from, depth),
        Operand::SignCast => sign_cast(alloc, tokens, from, depth),
        Operand::Type => typed_primary(alloc, tokens, from, depth),
        Operand::System => system_call(alloc, tokens, from, depth),
        Operand::Name => {
            let (name, at) = scoped_name(tokens, from, depth)?;
            let (postfixes, end) = postfixes(alloc, tokens, at, depth)?;
            Ok((Expr::Name { name, postfixes }, end))
        }
    }
}

/// A decimal number: alone, as the size of the based number behind it, or as the size of a cast (5.7.1, 6.24.1).
#[cycle(expression)]
#[tactic(auto, using(sve_tree::proofs::ExpressionTrees::sized_expr, sve_tree::proofs::ExpressionTrees::size_cast_expr, sve_tree::proofs::ExpressionTrees::decimal_expr, sve_grammar::proofs::StartsOfExpressions::cast_starts, sve_grammar::proofs::StartsOfExpressions::cast_full), unfolding(sve_grammar::specs::Expressions::decimal))]
fn decimal(alloc: Global, tokens: &[Token], from: u32, depth: u32) -> Result<(Expr, u32), Stop>
    requires few { length tokens.now < 2 ^ 32 }
    requires from { from ≤ length tokens.now }
    requires depth { depth ≤ 512 }
    ensures tree { Gives (λ x. (tree_at 0 x.0, x.1)) result (with_right (alternative 0 (at_depth tokens.now depth decimal from))) }
    ensures end { IfOk result (λ x. (from < x.1) × (x.1 ≤ length tokens.now)) }
    ensures height { IfOk result (λ x. height x.0 ≡ 0) }
{
    let at = expect(tokens, from, Kind::Decimal)?;
    if let Some(end) = accept(tokens, at, Kind::Based) {
        return Ok((
            Expr::Sized {
                size: from,
                based: at,
            },
            end,
        ));
    }
    if is_kind(tokens, at, Kind::Apostrophe) {
        let (cast, end) = cast(alloc, tokens, at, depth)?;
        return Ok((Expr::SizeCast { size: from, cast }, end));
    }
    Ok((Expr::Decimal { token: from }, at))
}

/// An expression in parentheses, alone or as the size of a cast (6.24.1).
#[cycle(expression)]
#[tactic(auto, using(sve_tree::proofs::ExpressionTrees::parenthesized_cast_expr, sve_tree::proofs::ExpressionTrees::parenthesized_expr, sve_grammar::proofs::StartsOfExpressions::cast_starts, sve_grammar::proofs::StartsOfExpressions::cast_full))]
fn parenthesized_operand(
    alloc: Global,
    tokens: &[Token],
    from: u32,
    depth: u32,
) -> Result<(Expr, u32), Stop>
    requires few { length tokens.now < 2 ^ 32 }
    requires from { from ≤ length tokens.now }
    requires depth { depth ≤ 512 }
    ensures tree { Gives (λ x. (tree_at 0 x.0, x.1)) result (with_right (alternative 4 (at_depth tokens.now depth (parenthesized ∙ opt cast) from))) }
    ensures end { IfOk result (λ x. (from < x.1) × (x.1 ≤ length tokens.now)) }
    ensures height { IfOk result (λ x. height x.0 ≡ 0) }
{
    let (inner, at) = parenthesized(alloc, tokens, from, depth)?;
    if is_kind(tokens, at, Kind::Apostrophe) {
        let (cast, end) = cast(alloc, tokens, at, depth)?;
        return Ok((Expr::ParenthesizedCast { size: inner, cast }, end));
    }
    Ok((Expr::Parenthesized { inner }, at))
}

/// A cast to a sign: `signed'(e)` (6.24.1).
#[cycle(expression)]
#[tactic(auto, using(sve_tree::proofs::ExpressionTrees::sign_cast_expr))]
fn sign_cast(alloc: Global, tokens: &[Token], from: u32, depth: u32) -> Result<(Expr, u32), Stop>
    requires few { length tokens.now < 2 ^ 32 }
    requires from { from ≤ length tokens.now }
    requires depth { depth ≤ 512 }
    ensures tree { Gives (λ x. (tree_at 0 x.0, x.1)) result (with_right (alternative 7 (at_depth tokens.now depth (signing ∙ cast) from))) }
    ensures end { IfOk result (λ x. (from < x.1) × (x.1 ≤ length tokens.now)) }
    ensures height { IfOk result (λ x. height x.0 ≡ 0) }
{
    let Some(kind) = sign(tokens, from) else {
        return Err(Stop::At {
            index: from,
            deep: false,
        });
    };
    let (cast, end) = cast(alloc, tokens, from + 1, depth)?;
    let sign = Mark { kind, token: from };
    Ok((Expr::SignCast { sign, cast }, end))
}

/// An integer type, alone or before a cast: casting_type (A.2.2.1), `$bits` (20.6.2).
#[cycle(expression)]
#[tactic(auto, using(sve_tree::proofs::ExpressionTrees::type_cast_expr, sve_tree::proofs::ExpressionTrees::type_expr, sve_grammar::proofs::StartsOfExpressions::cast_starts, sve_grammar::proofs::StartsOfExpressions::cast_full), unfolding(sve_grammar::specs::Expressions::typed_primary))]
fn typed_primary(
    alloc: Global,
    tokens: &[Token],
    from: u32,
    depth: u32,
) -> Result<(Expr, u32), Stop>
    requires few { length tokens.now < 2 ^ 32 }
    requires from { from ≤ length tokens.now }
    requires depth { depth ≤ 512 }
    ensures tree { Gives (λ x. (tree_at 0 x.0, x.1)) result (with_right (alternative 8 (at_depth tokens.now depth typed_primary from))) }
    ensures end { IfOk result (λ x. (from < x.1) × (x.1 ≤ length tokens.now)) }
    ensures height { IfOk result (λ x. height x.0 ≡ 0) }
{
    let Some(kind) = integer_keyword(tokens, from) else {
        return Err(Stop::At {
            index: from,
            deep: false,
        });
    };
    let keyword = Mark { kind, token: from };
    let (sign, at) = optional_sign(tokens, from + 1);
    let (dimensions, at) = dimensions(alloc, tokens, at, depth)?;
    if is_kind(tokens, at, Kind::Apostrophe) {
        let (cast, end) = cast(alloc, tokens, at, depth)?;
        return Ok((
            Expr::TypeCast {
                keyword,
                sign,
                dimensions,
                cast,
            },
            end,
        ));
    }
    Ok((
        Expr::Type {
            keyword,
            sign,
            dimensions,
        },
        at,
    ))
}

/// A system function, with or without a list of arguments, and selects of its result: system_tf_call (A.8.2).
#[cycle(expression)]
#[tactic(auto, using(sve_tree::proofs::ExpressionTrees::system_call_expr, sve_tree::proofs::ExpressionTrees::system_name_expr, sve_grammar::proofs::StartsOfExpressions::argument_list_starts, sve_grammar::proofs::StartsOfExpressions::argument_list_full), unfolding(sve_grammar::specs::Expressions::system_call))]
fn system_call(alloc: Global, tokens: &[Token], from: u32, depth: u32) -> Result<(Expr, u32), Stop>
    requires few { length tokens.now < 2 ^ 32 }
    requires from { from ≤ length tokens.now }
    requires depth { depth ≤ 512 }
    ensures tree { Gives (λ x. (tree_at 0 x.0, x.1)) result (with_right (alternative 9 (at_depth tokens.now depth system_call from))) }
    ensures end { IfOk result (λ x. (from < x.1) × (x.1 ≤ length tokens.now)) }
    ensures height { IfOk result (λ x. height x.0 ≡ 0) }
{
    let at = expect(tokens, from, Kind::SystemName)?;
    if is_kind(tokens, at, Kind::LeftParen) {
        let (arguments, at) = argument_list(alloc, tokens, at, depth)?;
        let (selects, end) = selects(alloc, tokens, at, depth)?;
        return Ok((
            Expr::SystemCall {
                name: from,
                arguments,
                selects,
            },
            end,
        ));
    }
    let (selects, end) = selects(alloc, tokens, at, depth)?;
    Ok((
        Expr::SystemName {
            name: from,
            selects,
        },
        end,
    ))
}

/// A concatenation or a replication, and selects of its bits: concatenation, multiple_concatenation (A.8.1).
#[cycle(expression)]
#[tactic(auto, using(sve_tree::proofs::ExpressionTrees::replication_expr, sve_tree::proofs::ExpressionTrees::concatenation_expr, crate::proofs::Ways::concatenation_end_braced, crate::proofs::Ways::concatenation_end_more), unfolding(sve_grammar::specs::Expressions::concatenation))]
fn concatenation(
    alloc: Global,
    tokens: &[Token],
    from: u32,
    depth: u32,
) -> Result<(Expr, u32), Stop>
    requires few { length tokens.now < 2 ^ 32 }
    requires from { from ≤ length tokens.now }
    requires depth { depth ≤ 512 }
    ensures tree { Gives (λ x. (tree_at 0 x.0, x.1)) result (with_right (alternative 6 (at_depth tokens.now depth concatenation from))) }
    ensures end { IfOk result (λ x. (from < x.1) × (x.1 ≤ length tokens.now)) }
    ensures height { IfOk result (λ x. height x.0 ≡ 0) }
{
    let next = expect(tokens, from, Kind::LeftBrace)?;
    let (first, at) = boxed_expr(alloc, tokens, next, depth)?;
    if is_kind(tokens, at, Kind::LeftBrace) {
        let (repeated, closing) = braced_expressions(alloc, tokens, at, depth)?;
        let next = expect(tokens, closing, Kind::RightBrace)?;
        let (selects, end) = bracket_selects(alloc, tokens, next, depth)?;
        return Ok((
            Expr::Replication {
                opening: from,
                count: first,
                inner_opening: repeated.opening,
                operands: repeated.values,
                inner_closing: repeated.closing,
                closing,
                selects,
            },
            end,
        ));
    }
    let first = Box::into_inner(first);
    let (operands, closing) = more_expressions(alloc, tokens, at, depth, first)?;
    let next = expect(tokens, closing, Kind::RightBrace)?;
    let (selects, end) = bracket_selects(alloc, tokens, next, depth)?;
    Ok((
        Expr::Concatenation {
            opening: from,
            operands,
            closing,
            selects,
        },
        end,
    ))
}

/// An expression in parentheses.
#[cycle(expression)]
#[tactic(auto, unfolding(sve_grammar::specs::Expressions::parenthesized))]
pub fn parenthesized(
    alloc: Global,
    tokens: &[Token],
    from: u32,
    depth: u32,
) -> Result<(Parenthesized, u32), Stop>
    requires few { length tokens.now < 2 ^ 32 }
    requires from { from ≤ length tokens.now }
    requires depth { depth ≤ 512 }
    ensures tree { Gives (λ x. (parenthesized_tree x.0, x.1)) result (at_depth tokens.now depth parenthesized from) }
    ensures end { IfOk result (λ x. (from < x.1) × (x.1 ≤ length tokens.now)) }
{
    let next = expect(tokens, from, Kind::LeftParen)?;
    let (value, closing) = boxed_expr(alloc, tokens, next, depth)?;
    let end = expect(tokens, closing, Kind::RightParen)?;
    Ok((
        Parenthesized {
            opening: from,
            value,
            closing,
        },
        end,
    ))
}

/// An apostrophe and, in parentheses, what is cast to the type or the size before it: cast (A.8.4).
#[cycle(expression)]
#[tactic(auto, unfolding(sve_grammar::specs::Expressions::cast))]
pub fn cast(alloc: Global, tokens: &[Token], from: u32, depth: u32) -> Result<(Cast, u32), Stop>
    requires few { length tokens.now < 2 ^ 32 }
    requires from { from ≤ length tokens.now }
    requires depth { depth ≤ 512 }
    ensures tree { Gives (λ x. (cast_tree x.0, x.1)) result (at_depth tokens.now depth cast from) }
    ensures end { IfOk result (λ x. (from < x.1) × (x.1 ≤ length tokens.now)) }
{
    let at = expect(tokens, from, Kind::Apostrophe)?;
    let (value, end) = parenthesized(alloc, tokens, at, depth)?;
    Ok((
        Cast {
            apostrophe: from,
            value,
        },
        end,
    ))
}

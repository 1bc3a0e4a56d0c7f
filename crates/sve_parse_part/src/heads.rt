//! What stands in front of the statement of a loop (IEEE 1800-2017, 12.7.1, 12.7.3 and A.6.8).

ghost use Rattle.std.specs.Prelude.{◌<◌, ◌≤◌, ◌^◌, length, IfOk};
ghost use Rattle.sve_parse_part.specs.Heads.{Heads, for_front, foreach_front, for_head_tree, foreach_head_tree};

use std::alloc::Global;
use sve_grammar::{Stop, expect};
use sve_parse_loop::{for_initialization, optional_for_steps};
use sve_parse_simple_stmt::optional_expr;
use sve_parse_word::more_names;
use sve_token::{Keyword, Kind, Token};
use sve_tree::{Expr, ForInitialization, ForStep, Row};

/// What stands in front of the statement of a `for` loop, behind the keyword.
#[derive(Drop)]
pub struct ForHead {
    /// `(`.
    pub opening: u32,
    /// What is done at first.
    pub initialization: ForInitialization,
    /// The first `;`.
    pub first_semicolon: u32,
    /// The condition, where one is written.
    pub condition: Option<Box<Expr>>,
    /// The second `;`.
    pub second_semicolon: u32,
    /// What is done after each turn.
    pub steps: Row<ForStep>,
    /// `)`.
    pub closing: u32,
}

/// What stands in front of the statement of a `foreach` loop, behind the keyword.
#[derive(Drop)]
pub struct ForeachHead {
    /// `(`.
    pub opening: u32,
    /// The array.
    pub array: u32,
    /// `[`.
    pub opening_bracket: u32,
    /// The loop variables.
    pub names: Row<u32>,
    /// `]`.
    pub closing_bracket: u32,
    /// `)`.
    pub closing: u32,
}

/// What stands in front of the statement of a `for` loop, and the place behind it.
#[inline(never)]
pub fn for_head(
    alloc: Global,
    tokens: &[Token],
    from: u32,
    depth: u32,
) -> Result<(ForHead, u32), Stop>
    requires few { length tokens.now < 2 ^ 32 }
    requires from { from ≤ length tokens.now }
    requires depth { depth ≤ 512 }
    ensures tree { Heads (for_head_tree from) tokens.now depth for_front from result }
    ensures end { IfOk result (λ x. (from < x.1) × (x.1 ≤ length tokens.now)) }
{
    let opening = expect(tokens, from, Kind::Keyword(Keyword::KwFor))?;
    let at = expect(tokens, opening, Kind::LeftParen)?;
    let (initialization, first_semicolon) = for_initialization(alloc, tokens, at, depth)?;
    let at = expect(tokens, first_semicolon, Kind::Semicolon)?;
    let (condition, second_semicolon) = optional_expr(alloc, tokens, at, depth)?;
    let at = expect(tokens, second_semicolon, Kind::Semicolon)?;
    let (steps, closing) = optional_for_steps(alloc, tokens, at, depth)?;
    let end = expect(tokens, closing, Kind::RightParen)?;
    Ok((
        ForHead {
            opening,
            initialization,
            first_semicolon,
            condition,
            second_semicolon,
            steps,
            closing,
        },
        end,
    ))
}

/// What stands in front of the statement of a `foreach` loop, and the place behind it.
#[inline(never)]
pub fn foreach_head(
    alloc: Global,
    tokens: &[Token],
    from: u32,
    depth: u32,
) -> Result<(ForeachHead, u32), Stop>
    requires few { length tokens.now < 2 ^ 32 }
    requires from { from ≤ length tokens.now }
    requires depth { depth ≤ 512 }
    ensures tree { Heads (foreach_head_tree from) tokens.now depth foreach_front from result }
    ensures end { IfOk result (λ x. (from < x.1) × (x.1 ≤ length tokens.now)) }
{
    let opening = expect(tokens, from, Kind::Keyword(Keyword::KwForeach))?;
    let array = expect(tokens, opening, Kind::LeftParen)?;
    let opening_bracket = expect(tokens, array, Kind::Identifier)?;
    let first = expect(tokens, opening_bracket, Kind::LeftBracket)?;
    let at = expect(tokens, first, Kind::Identifier)?;
    let (names, closing_bracket) = more_names(alloc, tokens, at, depth, first)?;
    let closing = expect(tokens, closing_bracket, Kind::RightBracket)?;
    let end = expect(tokens, closing, Kind::RightParen)?;
    Ok((
        ForeachHead {
            opening,
            array,
            opening_bracket,
            names,
            closing_bracket,
            closing,
        },
        end,
    ))
}

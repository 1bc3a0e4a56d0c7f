//! The level at which an operation goes on behind an operand (IEEE 1800-2017, Table 11-2; the tightest level is 1).

ghost use Rattle.std.specs.Prelude.{ℕ, ◌≡◌, ◌≤◌, true, false, Some};
ghost use Rattle.sve_parse_expr.specs.Levels.{begins_level, goes_on, IsNextLevel};

use sve_grammar::{is_kind, kind_here};
use sve_parse_word::binary_operator;
use sve_token::{Keyword, Kind, Token};

/// The tightest level above `done`, and up to `level`, at which an operation goes on here, if there is one.
pub(crate) fn looser_level(tokens: &[Token], at: u32, done: u32, level: u32) -> Option<u32>
    requires { level ≤ 11 }
    ensures { IsNextLevel tokens.now at done level result }
{
    // what stands behind most operands
    let closes = closes_operand(tokens, at);
    if closes {
        return None;
    }
    for below in done..level {
        if begins_operation(tokens, at, below + 1) {
            return Some(below + 1);
        }
    }
    None
}

/// Whether an operation of this level goes on here: an operator of the level, or `inside` on that of the comparisons by order.
pub(crate) fn begins_operation(tokens: &[Token], at: u32, level: u32) -> bool
    requires { (1 ≤ level) × (level ≤ 11) }
    ensures { result ≡ goes_on tokens.now at level }
{
    let operator = binary_operator(tokens, at, level).is_some();
    if operator {
        return true;
    }
    let relational = level == 5;
    if relational {
        return is_kind(tokens, at, Kind::Keyword(Keyword::KwInside));
    }
    false
}

/// Whether a token stands here that often ends an operand, and with which no operation goes on.
fn closes_operand(tokens: &[Token], at: u32) -> bool
    ensures { result ≡ true → (level : ℕ) → 1 ≤ level → level ≤ 11 → goes_on tokens.now at level ≡ false }
{
    match kind_here(tokens, at) {
        Some(kind) => is_closing(kind),
        None => false,
    }
}

/// Whether tokens of this kind often end an operand.
fn is_closing(kind: Kind) -> bool
    ensures { result ≡ true → (level : ℕ) → 1 ≤ level → level ≤ 11 → begins_level (Some kind) level ≡ false }
{
    match kind {
        Kind::Semicolon
        | Kind::Comma
        | Kind::RightParen
        | Kind::RightBracket
        | Kind::RightBrace
        | Kind::Colon => true,
        _ => false,
    }
}

//! Keywords that may be left out.

ghost use Rattle.std.specs.Prelude.{◌≡◌, ◌<◌, ◌≤◌, ◌^◌, length};
ghost use Rattle.sve_grammar.specs.Rule.{opt};
ghost use Rattle.sve_grammar.specs.Expressions.{signing};
ghost use Rattle.sve_grammar.specs.Types.{parameter_keyword, direction};
ghost use Rattle.sve_grammar.specs.Declarations.{lifetime};
ghost use Rattle.sve_tree.specs.Shape.{optional_tree, mark_tree};
ghost use Rattle.sve_tree.specs.Words.{sign_tree, lifetime_tree, parameter_keyword_tree, dir_tree};
ghost use Rattle.sve_parse_word.specs.Takes.{Takes};

use crate::types::{direction, lifetime, parameter_keyword, sign};
use sve_bytes::Dir;
use sve_token::Token;
use sve_tree::{Lifetime, Mark, ParameterKeyword, Sign};

/// A sign, where one is written (IEEE 1800-2017, 6.8), and the place behind it.
#[tactic(auto, using(sve_grammar::proofs::StartsOfExpressions::signing_full))]
pub fn optional_sign(tokens: &[Token], from: u32) -> (Option<Mark<Sign>>, u32)
    requires few { length tokens.now < 2 ^ 32 }
    requires from { from ≤ length tokens.now }
    ensures tree { Takes tokens.now (opt signing) (λ x. (optional_tree (mark_tree sign_tree) x.0, x.1)) from result }
    ensures end { (from ≤ result.1) × (result.1 ≤ length tokens.now) }
{
    match sign(tokens, from) {
        Some(kind) => (Some(Mark { kind, token: from }), from + 1),
        None => (None, from),
    }
}

/// A lifetime, where one is written (6.21), and the place behind it.
#[tactic(auto, using(sve_grammar::proofs::StartsOfStatements::lifetime_full))]
pub fn optional_lifetime(tokens: &[Token], from: u32) -> (Option<Mark<Lifetime>>, u32)
    requires few { length tokens.now < 2 ^ 32 }
    requires from { from ≤ length tokens.now }
    ensures tree { Takes tokens.now (opt lifetime) (λ x. (optional_tree (mark_tree lifetime_tree) x.0, x.1)) from result }
    ensures end { (from ≤ result.1) × (result.1 ≤ length tokens.now) }
{
    match lifetime(tokens, from) {
        Some(kind) => (Some(Mark { kind, token: from }), from + 1),
        None => (None, from),
    }
}

/// A direction, where one is written (23.2.2), and the place behind it.
#[tactic(auto, using(sve_grammar::proofs::StartsOfTypes::direction_full))]
pub fn optional_direction(tokens: &[Token], from: u32) -> (Option<Mark<Dir>>, u32)
    requires few { length tokens.now < 2 ^ 32 }
    requires from { from ≤ length tokens.now }
    ensures tree { Takes tokens.now (opt direction) (λ x. (optional_tree (mark_tree dir_tree) x.0, x.1)) from result }
    ensures end { (from ≤ result.1) × (result.1 ≤ length tokens.now) }
{
    match direction(tokens, from) {
        Some(kind) => (Some(Mark { kind, token: from }), from + 1),
        None => (None, from),
    }
}

/// `parameter` or `localparam`, where one is written (6.20), and the place behind it.
#[tactic(auto, using(sve_grammar::proofs::StartsOfTypes::parameter_keyword_full))]
pub fn optional_parameter_keyword(
    tokens: &[Token],
    from: u32,
) -> (Option<Mark<ParameterKeyword>>, u32)
    requires few { length tokens.now < 2 ^ 32 }
    requires from { from ≤ length tokens.now }
    ensures tree { Takes tokens.now (opt parameter_keyword) (λ x. (optional_tree (mark_tree parameter_keyword_tree) x.0, x.1)) from result }
    ensures end { (from ≤ result.1) × (result.1 ≤ length tokens.now) }
{
    match parameter_keyword(tokens, from) {
        Some(kind) => (Some(Mark { kind, token: from }), from + 1),
        None => (None, from),
    }
}

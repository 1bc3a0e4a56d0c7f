//! Parts of statements that hold no statement.

ghost use Rattle.std.specs.Prelude.{◌≡◌, ◌<◌, ◌≤◌, ◌+◌, ◌^◌, length, Ok, IfOk};
ghost use Rattle.sve_token.specs.declared.kind.Kind.TheVariants.{Semicolon};
ghost use Rattle.sve_token.specs.declared.keywords.Keyword.TheVariants.{KwWhile};
ghost use Rattle.sve_grammar.specs.Token.{kind_at};
ghost use Rattle.sve_grammar.specs.Rule.{tok, word, ◌∙◌, opt, starts};
ghost use Rattle.sve_grammar.specs.Reading.{leaf, at_depth};
ghost use Rattle.sve_grammar.specs.Gives.{Gives};
ghost use Rattle.sve_grammar.specs.Expressions.{parenthesized};
ghost use Rattle.sve_grammar.specs.Declarations.{label};
ghost use Rattle.sve_grammar.specs.Statements.{uniqueness, case_keyword, case_item, loop_keyword};
ghost use Rattle.sve_grammar.specs.Items.{case_generate_item};
ghost use Rattle.sve_tree.specs.Shape.{◌▸◌, optional_tree, mark_tree};
ghost use Rattle.sve_tree.specs.Words.{label_tree, uniqueness_tree, case_keyword_tree, loop_keyword_tree};
ghost use Rattle.sve_tree.specs.Expressions.{parenthesized_tree};
ghost use Rattle.sve_parse_word.specs.Takes.{Takes};

use std::alloc::Global;
use sve_grammar::{Stop, Symbol, accept, expect, is_kind, opens_here};
use sve_parse_expr::parenthesized;
use sve_parse_word::{case_keyword, loop_keyword, optional_label, uniqueness};
use sve_token::{Keyword, Kind, Token};
use sve_tree::{CaseKeyword, Label, LoopKeyword, Mark, Parenthesized, Uniqueness};

/// `unique`, `unique0` or `priority`, where one is written (IEEE 1800-2017, 12.4.2 and 12.5.3), and the place behind it.
#[tactic(auto, using(sve_grammar::proofs::StartsOfStatements::uniqueness_full))]
pub fn optional_uniqueness(tokens: &[Token], from: u32) -> (Option<Mark<Uniqueness>>, u32)
    requires few { length tokens.now < 2 ^ 32 }
    requires from { from ≤ length tokens.now }
    ensures tree { Takes tokens.now (opt uniqueness) (λ x. (optional_tree (mark_tree uniqueness_tree) x.0, x.1)) from result }
    ensures end { (from ≤ result.1) × (result.1 ≤ length tokens.now) }
{
    match uniqueness(tokens, from) {
        Some(kind) => (Some(Mark { kind, token: from }), from + 1),
        None => (None, from),
    }
}

/// A token of this kind, where one is written, and the place behind it.
pub fn optional_token(tokens: &[Token], from: u32, depth: u32, kind: Kind) -> (Option<u32>, u32)
    requires few { length tokens.now < 2 ^ 32 }
    requires from { from ≤ length tokens.now }
    ensures tree { at_depth tokens.now depth (opt (tok kind)) from ≡ Ok (optional_tree leaf result.0, result.1) }
    ensures end { (from ≤ result.1) × (result.1 ≤ length tokens.now) }
{
    match accept(tokens, from, kind) {
        Some(end) => (Some(from), end),
        None => (None, from),
    }
}

/// Whether an item of a `case` begins here, of a statement (12.5) or of a generate construct (27.5): both begin with the same
/// tokens.
#[tactic(auto, using(sve_grammar::proofs::StartsOfStatements::case_item_starts, sve_grammar::proofs::StartsOfItems::case_generate_item_starts))]
pub fn begins_case_item(tokens: &[Token], at: u32) -> bool
    ensures statement { result ≡ starts case_item (kind_at tokens.now at) }
    ensures generate { result ≡ starts case_generate_item (kind_at tokens.now at) }
{
    is_kind(tokens, at, Kind::Keyword(Keyword::KwDefault))
        || opens_here(tokens, at, Symbol::Expression)
}

/// The keyword of a case statement (12.5), and the place behind it.
#[tactic(auto, using(crate::proofs::Ways::case_keyword_stops))]
pub fn case_mark(tokens: &[Token], from: u32, depth: u32) -> Result<(Mark<CaseKeyword>, u32), Stop>
    requires few { length tokens.now < 2 ^ 32 }
    requires from { from ≤ length tokens.now }
    requires depth { depth ≤ 512 }
    ensures tree { Gives (λ x. (mark_tree case_keyword_tree x.0, x.1)) result (at_depth tokens.now depth case_keyword from) }
    ensures end { IfOk result (λ x. (from < x.1) × (x.1 ≤ length tokens.now)) }
{
    if let Some(kind) = case_keyword(tokens, from) {
        return Ok((Mark { kind, token: from }, from + 1));
    }
    Err(Stop::At {
        index: from,
        deep: false,
    })
}

/// `while` or `repeat` (12.7), and the place behind it.
#[tactic(auto, using(crate::proofs::Ways::loop_keyword_stops))]
pub fn loop_mark(tokens: &[Token], from: u32, depth: u32) -> Result<(Mark<LoopKeyword>, u32), Stop>
    requires few { length tokens.now < 2 ^ 32 }
    requires from { from ≤ length tokens.now }
    requires depth { depth ≤ 512 }
    ensures tree { Gives (λ x. (mark_tree loop_keyword_tree x.0, x.1)) result (at_depth tokens.now depth loop_keyword from) }
    ensures end { IfOk result (λ x. (from < x.1) × (x.1 ≤ length tokens.now)) }
{
    if let Some(kind) = loop_keyword(tokens, from) {
        return Ok((Mark { kind, token: from }, from + 1));
    }
    Err(Stop::At {
        index: from,
        deep: false,
    })
}

/// An end word and the label behind it, where one is written (9.3.4), and the place behind them.
pub fn end_label(
    tokens: &[Token],
    from: u32,
    depth: u32,
    end: Keyword,
) -> Result<(Option<Label>, u32), Stop>
    requires few { length tokens.now < 2 ^ 32 }
    requires from { from ≤ length tokens.now }
    requires depth { depth ≤ 512 }
    ensures tree { Gives (λ x. (leaf from ▸ optional_tree label_tree x.0, x.1)) result (at_depth tokens.now depth (word end ∙ opt label) from) }
    ensures end { IfOk result (λ x. (from < x.1) × (x.1 ≤ length tokens.now)) }
{
    let at = expect(tokens, from, Kind::Keyword(end))?;
    optional_label(tokens, at, depth)
}

/// What stands behind the statement of a `do` loop.
#[derive(Drop)]
pub struct DoEnd {
    /// `while`.
    pub keyword: u32,
    /// The condition.
    pub condition: Parenthesized,
    /// `;`.
    pub semicolon: u32,
}

/// `while`, the condition and `;` of a `do` loop (12.7.5), and the place behind them.
pub fn do_end(alloc: Global, tokens: &[Token], from: u32, depth: u32) -> Result<(DoEnd, u32), Stop>
    requires few { length tokens.now < 2 ^ 32 }
    requires from { from ≤ length tokens.now }
    requires depth { depth ≤ 512 }
    ensures tree { Gives (λ x. (leaf x.0.keyword ▸ parenthesized_tree x.0.condition ▸ leaf x.0.semicolon, x.1)) result (at_depth tokens.now depth (word KwWhile ∙ parenthesized ∙ tok Semicolon) from) }
    ensures end { IfOk result (λ x. (from < x.1) × (x.1 ≤ length tokens.now)) }
{
    let at = expect(tokens, from, Kind::Keyword(Keyword::KwWhile))?;
    let (condition, semicolon) = parenthesized(alloc, tokens, at, depth)?;
    let end = expect(tokens, semicolon, Kind::Semicolon)?;
    Ok((
        DoEnd {
            keyword: from,
            condition,
            semicolon,
        },
        end,
    ))
}

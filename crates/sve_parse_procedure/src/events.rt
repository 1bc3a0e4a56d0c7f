//! What a procedure waits for (IEEE 1800-2017, 9.4.2 and A.6.5).

ghost use Rattle.std.specs.Prelude.{◌<◌, ◌≤◌, ◌^◌, length, Ok, IfOk};
ghost use Rattle.sve_parse_word.specs.Takes.{Takes};
ghost use Rattle.sve_grammar.specs.Rule.{tok, ◌∙◌, opt};
ghost use Rattle.sve_grammar.specs.Reading.{leaf, at_depth, both, with_left, with_right};
ghost use Rattle.sve_grammar.specs.Gives.{Gives};
ghost use Rattle.sve_grammar.specs.Items.{edge, event_expression, more_events, event_list, event_control};
ghost use Rattle.sve_tree.specs.Shape.{optional_tree, row_tree, row_rest, IsRow, mark_tree};
ghost use Rattle.sve_tree.specs.Words.{edge_tree, event_separator_tree};
ghost use Rattle.sve_tree.specs.Items.{event_tree, event_control_tree};

use std::alloc::Global;
use sve_grammar::{Stop, accept, expect};
use sve_parse_expr::{boxed_expr, selects};
use sve_parse_word::{edge, event_separator};
use sve_token::{Kind, Token};
use sve_tree::{Edge, Event, EventControl, EventSeparator, Mark, Row};

/// What is waited for behind `@`: everything that the statement reads, events in parentheses, or a name with selects; and the
/// place behind it.
#[tactic(auto, unfolding(sve_grammar::specs::Items::event_control))]
pub(crate) fn event_control(
    alloc: Global,
    tokens: &[Token],
    from: u32,
    depth: u32,
) -> Result<(EventControl, u32), Stop>
    requires few { length tokens.now < 2 ^ 32 }
    requires from { from ≤ length tokens.now }
    requires depth { depth ≤ 512 }
    ensures tree { Gives (λ x. (event_control_tree x.0, x.1)) result (at_depth tokens.now depth event_control from) }
    ensures end { IfOk result (λ x. (from < x.1) × (x.1 ≤ length tokens.now)) }
{
    if let Some(end) = accept(tokens, from, Kind::Star) {
        return Ok((EventControl::Any { star: from }, end));
    }
    if let Some(at) = accept(tokens, from, Kind::LeftParen) {
        return parenthesized_events(alloc, tokens, at, depth, from);
    }
    if let Some(at) = accept(tokens, from, Kind::Identifier) {
        let (selects, end) = selects(alloc, tokens, at, depth)?;
        return Ok((
            EventControl::Name {
                name: from,
                selects,
            },
            end,
        ));
    }
    Err(Stop::At {
        index: from,
        deep: false,
    })
}

/// `*` or events and the parenthesis behind them, where `opening` is the one in front of them, and the place behind it. Of an event
/// control it is the second alternative.
#[tactic(auto, using(crate::proofs::Ways::everything, crate::proofs::Ways::some_events))]
fn parenthesized_events(
    alloc: Global,
    tokens: &[Token],
    from: u32,
    depth: u32,
    opening: u32,
) -> Result<(EventControl, u32), Stop>
    requires few { length tokens.now < 2 ^ 32 }
    requires from { from ≤ length tokens.now }
    requires depth { depth ≤ 512 }
    ensures tree { Gives (λ x. (event_control_tree x.0, x.1)) result (with_right (with_left (both (Ok (leaf opening, from)) (at_depth tokens.now depth (event_list ∙ tok Kind.RightParen))))) }
    ensures end { IfOk result (λ x. (from < x.1) × (x.1 ≤ length tokens.now)) }
{
    if let Some(closing) = accept(tokens, from, Kind::Star) {
        let end = expect(tokens, closing, Kind::RightParen)?;
        return Ok((
            EventControl::AnyParenthesized {
                opening,
                star: from,
                closing,
            },
            end,
        ));
    }
    let (events, closing) = events(alloc, tokens, from, depth)?;
    let end = expect(tokens, closing, Kind::RightParen)?;
    Ok((
        EventControl::Events {
            opening,
            events,
            closing,
        },
        end,
    ))
}

/// Events, one or more, and the place behind them.
#[tactic(auto, using(sve_tree::proofs::Shapes::first_is))]
fn events(
    alloc: Global,
    tokens: &[Token],
    from: u32,
    depth: u32,
) -> Result<(Row<Event, Mark<EventSeparator>>, u32), Stop>
    requires few { length tokens.now < 2 ^ 32 }
    requires from { from ≤ length tokens.now }
    requires depth { depth ≤ 512 }
    ensures tree { Gives (λ x. (row_tree event_tree (mark_tree event_separator_tree) x.0, x.1)) result (at_depth tokens.now depth (event_expression ∙ more_events) from) }
    ensures end { IfOk result (λ x. (from < x.1) × (x.1 ≤ length tokens.now)) }
{
    let (first, at) = event(alloc, tokens, from, depth)?;
    more_events(alloc, tokens, at, depth, first)
}

/// The further events behind the first, and the place behind them.
fn more_events(
    alloc: Global,
    tokens: &[Token],
    from: u32,
    depth: u32,
    first: Event,
) -> Result<(Row<Event, Mark<EventSeparator>>, u32), Stop>
    requires few { length tokens.now < 2 ^ 32 }
    requires from { from ≤ length tokens.now }
    requires depth { depth ≤ 512 }
    ensures tree { Gives (λ x. (row_rest event_tree (mark_tree event_separator_tree) x.0, x.1)) result (at_depth tokens.now depth more_events from) }
    ensures first { IfOk result (λ x. IsRow first x.0.items.items x.0.separators.items) }
    ensures end { IfOk result (λ x. (from ≤ x.1) × (x.1 ≤ length tokens.now)) }
{
    let mut items = Vec::new(alloc);
    items.push(first)?;
    let mut separators = Vec::new(alloc);
    let mut at = from;
    'turns: while let Some(kind) = event_separator(tokens, at) {
        let (item, end) = event(alloc, tokens, at + 1, depth)?;
        separators.push(Mark { kind, token: at })?;
        items.push(item)?;
        at = end;
    }
    Ok((Row { items, separators }, at))
}

/// An event: a value, perhaps behind an edge, and the place behind it.
#[tactic(auto, unfolding(sve_grammar::specs::Items::event_expression))]
fn event(alloc: Global, tokens: &[Token], from: u32, depth: u32) -> Result<(Event, u32), Stop>
    requires few { length tokens.now < 2 ^ 32 }
    requires from { from ≤ length tokens.now }
    requires depth { depth ≤ 512 }
    ensures tree { Gives (λ x. (event_tree x.0, x.1)) result (at_depth tokens.now depth event_expression from) }
    ensures end { IfOk result (λ x. (from < x.1) × (x.1 ≤ length tokens.now)) }
{
    let (edge, at) = optional_edge(tokens, from);
    let (value, end) = boxed_expr(alloc, tokens, at, depth)?;
    Ok((Event { edge, value }, end))
}

/// An edge, where one is written, and the place behind it.
#[tactic(auto, using(sve_grammar::proofs::StartsOfItems::edge_full))]
fn optional_edge(tokens: &[Token], from: u32) -> (Option<Mark<Edge>>, u32)
    requires few { length tokens.now < 2 ^ 32 }
    requires from { from ≤ length tokens.now }
    ensures tree { Takes tokens.now (opt edge) (λ x. (optional_tree (mark_tree edge_tree) x.0, x.1)) from result }
    ensures end { (from ≤ result.1) × (result.1 ≤ length tokens.now) }
{
    match edge(tokens, from) {
        Some(kind) => (Some(Mark { kind, token: from }), from + 1),
        None => (None, from),
    }
}

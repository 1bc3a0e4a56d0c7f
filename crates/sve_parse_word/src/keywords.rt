//! Keywords of statements and items.

ghost use Rattle.std.specs.Prelude.{◌≡◌};
ghost use Rattle.sve_grammar.specs.Statements.{uniqueness, case_keyword, loop_keyword};
ghost use Rattle.sve_grammar.specs.Items.{clocked_keyword, plain_keyword, edge, event_separator, module_keyword};
ghost use Rattle.sve_grammar.specs.Gives.{Finds};
ghost use Rattle.sve_tree.specs.Words.{uniqueness_tree, case_keyword_tree, loop_keyword_tree, clocked_keyword_tree, plain_keyword_tree, edge_tree, event_separator_tree, module_keyword_tree};

use sve_grammar::is_kind;
use sve_token::{Keyword, Kind, Token};
use sve_tree::{
    CaseKeyword, ClockedKeyword, Edge, EventSeparator, LoopKeyword, ModuleKeyword, PlainKeyword,
    Uniqueness,
};

/// How many cases or conditions may hold, where it is written here (IEEE 1800-2017, 12.4.2 and 12.5.3).
#[tactic(auto, unfolding(sve_grammar::specs::Statements::uniqueness, sve_grammar::specs::Reading::token))]
pub fn uniqueness(tokens: &[Token], at: u32) -> Option<Uniqueness>
    ensures { Finds tokens.now uniqueness uniqueness_tree at result }
{
    if is_kind(tokens, at, Kind::Keyword(Keyword::KwUnique)) {
        Some(Uniqueness::Unique)
    } else if is_kind(tokens, at, Kind::Keyword(Keyword::KwUnique0)) {
        Some(Uniqueness::Unique0)
    } else if is_kind(tokens, at, Kind::Keyword(Keyword::KwPriority)) {
        Some(Uniqueness::Priority)
    } else {
        None
    }
}

/// The keyword here that begins a case statement (12.5).
#[tactic(auto, unfolding(sve_grammar::specs::Statements::case_keyword, sve_grammar::specs::Reading::token))]
pub fn case_keyword(tokens: &[Token], at: u32) -> Option<CaseKeyword>
    ensures { Finds tokens.now case_keyword case_keyword_tree at result }
{
    if is_kind(tokens, at, Kind::Keyword(Keyword::KwCase)) {
        Some(CaseKeyword::Case)
    } else if is_kind(tokens, at, Kind::Keyword(Keyword::KwCasez)) {
        Some(CaseKeyword::Casez)
    } else if is_kind(tokens, at, Kind::Keyword(Keyword::KwCasex)) {
        Some(CaseKeyword::Casex)
    } else {
        None
    }
}

/// The keyword here that begins a loop with its condition or its count at the front (12.7).
#[tactic(auto, unfolding(sve_grammar::specs::Statements::loop_keyword, sve_grammar::specs::Reading::token))]
pub fn loop_keyword(tokens: &[Token], at: u32) -> Option<LoopKeyword>
    ensures { Finds tokens.now loop_keyword loop_keyword_tree at result }
{
    if is_kind(tokens, at, Kind::Keyword(Keyword::KwWhile)) {
        Some(LoopKeyword::While)
    } else if is_kind(tokens, at, Kind::Keyword(Keyword::KwRepeat)) {
        Some(LoopKeyword::Repeat)
    } else {
        None
    }
}

/// The keyword here of a procedure with an event control (9.2).
#[tactic(auto, unfolding(sve_grammar::specs::Items::clocked_keyword, sve_grammar::specs::Reading::token))]
pub fn clocked_keyword(tokens: &[Token], at: u32) -> Option<ClockedKeyword>
    ensures { Finds tokens.now clocked_keyword clocked_keyword_tree at result }
{
    if is_kind(tokens, at, Kind::Keyword(Keyword::KwAlways)) {
        Some(ClockedKeyword::Always)
    } else if is_kind(tokens, at, Kind::Keyword(Keyword::KwAlwaysFf)) {
        Some(ClockedKeyword::AlwaysFf)
    } else {
        None
    }
}

/// The keyword here of a procedure without an event control (9.2).
#[tactic(auto, unfolding(sve_grammar::specs::Items::plain_keyword, sve_grammar::specs::Reading::token))]
pub fn plain_keyword(tokens: &[Token], at: u32) -> Option<PlainKeyword>
    ensures { Finds tokens.now plain_keyword plain_keyword_tree at result }
{
    if is_kind(tokens, at, Kind::Keyword(Keyword::KwAlwaysComb)) {
        Some(PlainKeyword::AlwaysComb)
    } else if is_kind(tokens, at, Kind::Keyword(Keyword::KwAlwaysLatch)) {
        Some(PlainKeyword::AlwaysLatch)
    } else if is_kind(tokens, at, Kind::Keyword(Keyword::KwInitial)) {
        Some(PlainKeyword::Initial)
    } else {
        None
    }
}

/// Which change of a value is written here as an event (9.4.2).
#[tactic(auto, unfolding(sve_grammar::specs::Items::edge, sve_grammar::specs::Reading::token))]
pub fn edge(tokens: &[Token], at: u32) -> Option<Edge>
    ensures { Finds tokens.now edge edge_tree at result }
{
    if is_kind(tokens, at, Kind::Keyword(Keyword::KwPosedge)) {
        Some(Edge::Posedge)
    } else if is_kind(tokens, at, Kind::Keyword(Keyword::KwNegedge)) {
        Some(Edge::Negedge)
    } else if is_kind(tokens, at, Kind::Keyword(Keyword::KwEdge)) {
        Some(Edge::Edge)
    } else {
        None
    }
}

/// What stands here between two events (9.4.2.1).
#[tactic(auto, unfolding(sve_grammar::specs::Items::event_separator, sve_grammar::specs::Reading::token))]
pub fn event_separator(tokens: &[Token], at: u32) -> Option<EventSeparator>
    ensures { Finds tokens.now event_separator event_separator_tree at result }
{
    if is_kind(tokens, at, Kind::Keyword(Keyword::KwOr)) {
        Some(EventSeparator::Or)
    } else if is_kind(tokens, at, Kind::Comma) {
        Some(EventSeparator::Comma)
    } else {
        None
    }
}

/// The keyword here that begins a module (23.2).
#[tactic(auto, unfolding(sve_grammar::specs::Items::module_keyword, sve_grammar::specs::Reading::token))]
pub fn module_keyword(tokens: &[Token], at: u32) -> Option<ModuleKeyword>
    ensures { Finds tokens.now module_keyword module_keyword_tree at result }
{
    if is_kind(tokens, at, Kind::Keyword(Keyword::KwModule)) {
        Some(ModuleKeyword::Module)
    } else if is_kind(tokens, at, Kind::Keyword(Keyword::KwMacromodule)) {
        Some(ModuleKeyword::Macromodule)
    } else {
        None
    }
}

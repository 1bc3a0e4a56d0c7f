//! How parsers take tokens: the words of which their bodies are made.

ghost use Rattle.std.specs.Prelude.{◌≡◌, ◌<◌, ◌≤◌, ◌+◌, ◌^◌, length, IfOk};
ghost use Rattle.sve_grammar.specs.Token.{kind_at, has_kind, IsKeyword};
ghost use Rattle.sve_grammar.specs.Rule.{opens, is_among};
ghost use Rattle.sve_grammar.specs.Reading.{leaf, token};
ghost use Rattle.sve_grammar.specs.Gives.{Gives, Accepts, Enters};

use crate::{Stop, Symbol};
use sve_token::{Keyword, Kind, Token};

/// The kind of the token at this place; behind the last token there is none.
pub fn kind_here(tokens: &[Token], at: u32) -> Option<Kind>
    ensures { result ≡ kind_at tokens.now at }
{
    match tokens.get(at as usize) {
        Some(token) => Some(token.kind),
        None => None,
    }
}

/// The keyword at this place, if a keyword stands here.
#[tactic(auto, unfolding(crate::specs::Token::same_kind))]
pub fn keyword_here(tokens: &[Token], at: u32) -> Option<Keyword>
    ensures { IsKeyword tokens.now at result }
{
    match kind_here(tokens, at)? {
        Kind::Keyword(word) => Some(word),
        _ => None,
    }
}

/// Whether the token at this place is of this kind; behind the last token it is of none.
#[tactic(auto, unfolding(crate::specs::Token::same_kind))]
pub fn is_kind(tokens: &[Token], at: u32, kind: Kind) -> bool
    ensures { result ≡ has_kind (kind_at tokens.now at) kind }
{
    match tokens.get(at as usize) {
        Some(token) => token.kind == kind,
        None => false,
    }
}

/// Whether the token at this place is of one of these kinds.
pub fn is_one_of(tokens: &[Token], at: u32, kinds: &[Kind]) -> bool
    ensures { result ≡ is_among kinds.now (kind_at tokens.now at) }
{
    for kind in kinds {
        if is_kind(tokens, at, *kind) {
            return true;
        }
    }
    false
}

/// The place behind the token here, if it is of this kind.
#[tactic(auto, unfolding(crate::specs::Reading::token))]
pub fn accept(tokens: &[Token], at: u32, kind: Kind) -> Option<u32>
    requires { length tokens.now < 2 ^ 32 }
    ensures { Accepts tokens.now kind at result }
{
    if is_kind(tokens, at, kind) {
        Some(at + 1)
    } else {
        None
    }
}

/// The place behind the token here, which has to be of this kind; else the machine stops here.
#[tactic(auto, unfolding(crate::specs::Reading::token))]
pub fn expect(tokens: &[Token], at: u32, kind: Kind) -> Result<u32, Stop>
    requires { length tokens.now < 2 ^ 32 }
    ensures token { Gives (λ next. (leaf at, next)) result (token tokens.now kind at) }
    ensures end { IfOk result (λ next. (next ≡ at + 1) × (next ≤ length tokens.now)) }
{
    match accept(tokens, at, kind) {
        Some(next) => Ok(next),
        None => Err(Stop::At {
            index: at,
            deep: false,
        }),
    }
}

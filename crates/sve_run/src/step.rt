//! One step of the machine.

ghost use Rattle.std.specs.Prelude.{◌≡◌};
ghost use Rattle.sve_grammar.specs.Token.{kind_at};
ghost use Rattle.sve_grammar.specs.Rule.{sym, ◌∣◌, many, starts, empties};
ghost use Rattle.sve_run.specs.Meaning.{meaning};
ghost use Rattle.sve_run.specs.Step.{Takes};

use crate::entry::{Entry, Step};
use crate::part::Part;
use crate::table::{replacement, written};
use sve_grammar::{Symbol, is_kind, opens_here};
use sve_token::Token;

/// Whether the part can be empty.
fn can_be_empty(part: Part) -> bool
    ensures { result ≡ empties (meaning part) }
{
    match written(part) {
        Part::Token(_) | Part::Symbol(_) => false,
        Part::Then(first, second) => can_be_empty(*first) && can_be_empty(*second),
        Part::Or(first, second) => can_be_empty(*first) || can_be_empty(*second),
        Part::Nothing | Part::Many(_) => true,
        Part::Rule(_) => unreachable!(),
    }
}

/// Whether the part can begin with the token at this place.
fn can_start(tokens: &[Token], at: u32, part: Part) -> bool
    ensures { result ≡ starts (meaning part) (kind_at tokens.now at) }
{
    match written(part) {
        Part::Token(kind) => is_kind(tokens, at, kind),
        Part::Symbol(symbol) => opens_here(tokens, at, symbol),
        Part::Then(first, second) => {
            can_start(tokens, at, *first)
                || (can_be_empty(*first) && can_start(tokens, at, *second))
        }
        Part::Or(first, second) => can_start(tokens, at, *first) || can_start(tokens, at, *second),
        Part::Nothing => false,
        Part::Many(turn) => can_start(tokens, at, *turn),
        Part::Rule(_) => unreachable!(),
    }
}

/// The step with a symbol on top: its rule stands in its place, one deeper.
fn enter(tokens: &[Token], at: u32, top: Entry, symbol: Symbol) -> Step
    requires { meaning top.part ≡ sym symbol }
    ensures { Takes tokens.now top at result }
{
    if !opens_here(tokens, at, symbol) {
        Step::Stop(false)
    } else if top.depth == 512 {
        Step::Stop(true)
    } else {
        Step::One(Entry::of(replacement(symbol), top.depth + 1))
    }
}

/// The step with two ways on top: the way that can begin here stands in their place, else the way that can be empty.
fn choose(tokens: &[Token], at: u32, top: Entry, first: Part, second: Part) -> Step
    requires { meaning top.part ≡ meaning first ∣ meaning second }
    ensures { Takes tokens.now top at result }
{
    if can_start(tokens, at, first) {
        Step::One(Entry::of(first, top.depth))
    } else if can_start(tokens, at, second) {
        Step::One(Entry::of(second, top.depth))
    } else if can_be_empty(first) {
        Step::One(Entry::of(first, top.depth))
    } else if can_be_empty(second) {
        Step::One(Entry::of(second, top.depth))
    } else {
        Step::Stop(false)
    }
}

/// The step with a repetition on top: a turn stands above it, or it is taken away.
fn repeat(tokens: &[Token], at: u32, top: Entry, turn: Part) -> Step
    requires { meaning top.part ≡ many (meaning turn) }
    ensures { Takes tokens.now top at result }
{
    if can_start(tokens, at, turn) {
        Step::Two(Entry::of(turn, top.depth), top)
    } else {
        Step::Nothing
    }
}

/// The step with this entry on top of the stack and the token at this place next.
pub fn take_step(tokens: &[Token], at: u32, top: Entry) -> Step
    ensures { Takes tokens.now top at result }
{
    let depth = top.depth;
    match written(top.part) {
        Part::Token(kind) => {
            if is_kind(tokens, at, kind) {
                Step::Token
            } else {
                Step::Stop(false)
            }
        }
        Part::Symbol(symbol) => enter(tokens, at, top, symbol),
        Part::Then(first, second) => Step::Two(Entry::of(*first, depth), Entry::of(*second, depth)),
        Part::Or(first, second) => choose(tokens, at, top, *first, *second),
        Part::Nothing => Step::Nothing,
        Part::Many(turn) => repeat(tokens, at, top, *turn),
        Part::Rule(_) => unreachable!(),
    }
}

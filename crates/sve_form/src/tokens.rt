ghost use Rattle.std.specs.Prelude.{◌≡◌};
ghost use Rattle.sve_form.specs.Tokens.{name_token, token_of, unsized_at, count_token, empty_at, has_no_dimensions, opening_of};

use sve_tree::{Dimension, Expr, Row, ScopedName};

/// The first token of a name.
pub fn name_token(name: ScopedName) -> u32
    ensures { result ≡ name_token name }
{
    match name.scope {
        Some(scope) => scope.name,
        None => name.name,
    }
}

/// The first token of an expression.
#[tactic(auto, unfolding(crate::specs::Tokens::token_of))]
pub fn token_of(expr: &Expr) -> u32
    ensures { result ≡ token_of expr.now }
{
    expr.first_token()
}

/// The token of a number without a size, in brackets too.
#[cycle(unsized_at)]
#[tactic(auto, unfolding(crate::specs::Tokens::unsized_at))]
pub fn unsized_at(expr: &Expr) -> Option<u32>
    ensures { result ≡ unsized_at expr.now }
{
    match expr {
        Expr::Decimal { token } => Some(*token),
        Expr::Based { token } => Some(*token),
        Expr::Parenthesized { inner } => unsized_at(&inner.value),
        _ => None,
    }
}

/// The token at which an operand of a concatenation without a bit is a fault: the first of its count.
#[tactic(auto, unfolding(crate::specs::Tokens::count_token))]
fn count_token(expr: &Expr) -> u32
    ensures { result ≡ count_token expr.now }
{
    match expr {
        Expr::Replication { count, .. } => token_of(count),
        _ => token_of(expr),
    }
}

/// The token at which operands without a bit are a fault: that of the first one.
#[tactic(auto, using(crate::proofs::Rows::no_operands))]
pub fn empty_at(opening: u32, operands: &Row<Expr>) -> u32
    ensures { result ≡ empty_at opening operands.now }
{
    if operands.items.is_empty() {
        return opening;
    }
    count_token(&operands.items[0])
}

/// Whether a type has no dimensions.
#[tactic(auto, using(crate::proofs::Rows::plain_are))]
pub fn is_plain(dimensions: &Vec<Dimension>) -> bool
    ensures { result ≡ has_no_dimensions dimensions.now }
{
    dimensions.is_empty()
}

/// The bracket with which a dimension begins.
pub fn opening_of(dimension: &Dimension) -> u32
    ensures { result ≡ opening_of dimension.now }
{
    match dimension {
        Dimension::Size { opening, .. } => *opening,
        Dimension::Range { opening, .. } => *opening,
    }
}

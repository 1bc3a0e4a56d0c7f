//! Expressions that may stand for an interface.
ghost use Rattle.std.specs.Prelude.{◌≡◌};
ghost use Rattle.sve_use.specs.Use.{is_member};
ghost use Rattle.sve_around.specs.References.{is_reference, member_behind, member_if, plain_token, reference_of, token_if};

use sve_tree::{Expr, Postfix, ScopedName, Select};
use sve_use::first_member;

/// Whether what is applied to a name is a member.
fn is_member(postfix: &Postfix) -> bool
    ensures { result ≡ is_member postfix.now }
{
    match postfix {
        Postfix::Select { select } => match select {
            Select::Member { .. } => true,
            Select::Range { .. } => false,
        },
        Postfix::Call { .. } => false,
        Postfix::Cast { .. } => false,
        Postfix::Pattern { .. } => false,
    }
}

/// Whether nothing is applied to a name but perhaps one member.
fn is_reference(postfixes: &[Postfix]) -> bool
    ensures { result ≡ is_reference postfixes.now }
{
    match postfixes {
        [] => true,
        [postfix] => is_member(postfix),
        _ => false,
    }
}

/// The token of a name that names no package.
fn plain_token(name: ScopedName) -> Option<u32>
    ensures { result ≡ plain_token name }
{
    match name.scope {
        Some(_) => None,
        None => Some(name.name),
    }
}

/// The token of such a name, where nothing is applied to it but perhaps one member.
fn token_if(name: ScopedName, postfixes: &[Postfix]) -> Option<u32>
    ensures { result ≡ token_if name postfixes.now }
{
    if is_reference(postfixes) {
        plain_token(name)
    } else {
        None
    }
}

/// The token of the name that an expression is, by itself or with one member behind a dot, which may be a modport (IEEE 1800-2017, 25.5). It
/// takes no memory.
#[tactic(auto, using(crate::proofs::Rows::of_name), unfolding(crate::specs::References::reference_of))]
pub fn reference_of(expr: &Expr) -> Option<u32>
    ensures { result ≡ reference_of expr.now }
{
    match expr {
        Expr::Name { name, postfixes } => token_if(*name, postfixes),
        _ => None,
    }
}

/// The token of the one member that is applied to a name, where nothing else is.
fn member_if(postfixes: &[Postfix]) -> Option<u32>
    ensures { result ≡ member_if postfixes.now }
{
    if is_reference(postfixes) {
        first_member(postfixes)
    } else {
        None
    }
}

/// The token of the member behind the dot, where an expression is a name with one member. It takes no memory.
#[tactic(auto, using(crate::proofs::Rows::member_of_name), unfolding(crate::specs::References::member_behind))]
pub fn member_behind(expr: &Expr) -> Option<u32>
    ensures { result ≡ member_behind expr.now }
{
    match expr {
        Expr::Name { name: _, postfixes } => member_if(postfixes),
        _ => None,
    }
}

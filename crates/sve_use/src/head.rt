ghost use Rattle.std.specs.Prelude.{◌≡◌, OnOk};
ghost use Rattle.std.specs.List.{list_any};
ghost use Rattle.sve_use.specs.Use.{has_member, is_call, is_called, is_member, is_member_select, is_select_postfix, left_use, use_of};
ghost use Rattle.sve_use.specs.Uses.{is_name_alone, is_plain, is_plain_name};

use crate::resolver::Resolver;
use sve_bytes::NoMemory;
use sve_tree::{Expr, Postfix, ScopedName, Select};

/// Whether arguments are applied.
fn is_call(postfix: &Postfix) -> bool
    ensures { result ≡ is_call postfix.now }
{
    match postfix {
        Postfix::Call { .. } => true,
        Postfix::Select { .. } | Postfix::Cast { .. } | Postfix::Pattern { .. } => false,
    }
}

/// Whether the first thing that is applied is a list of arguments.
fn is_called(postfixes: &[Postfix]) -> bool
    ensures { result ≡ is_called postfixes.now }
{
    match postfixes.first() {
        Some(postfix) => is_call(postfix),
        None => false,
    }
}

/// Whether a select is that of a member.
fn is_member_select(select: &Select) -> bool
    ensures { result ≡ is_member_select select.now }
{
    match select {
        Select::Member { .. } => true,
        Select::Range { .. } => false,
    }
}

/// Whether what is applied is a select.
fn is_select_postfix(postfix: &Postfix) -> bool
    ensures { result ≡ is_select_postfix postfix.now }
{
    match postfix {
        Postfix::Select { .. } => true,
        Postfix::Call { .. } | Postfix::Cast { .. } | Postfix::Pattern { .. } => false,
    }
}

/// Whether what is applied is a select of a member.
fn is_member(postfix: &Postfix) -> bool
    ensures { result ≡ is_member postfix.now }
{
    match postfix {
        Postfix::Select { select } => is_member_select(select),
        Postfix::Call { .. } | Postfix::Cast { .. } | Postfix::Pattern { .. } => false,
    }
}

/// Whether a member is among the selects that are applied first.
#[tactic(auto, using(crate::proofs::Heads::member_here, crate::proofs::Heads::ended_here, crate::proofs::Heads::passed, crate::proofs::Heads::nowhere))]
fn has_member(postfixes: &[Postfix]) -> bool
    ensures { result ≡ has_member postfixes.now }
{
    for postfix in postfixes {
        if is_member(postfix) {
            return true;
        }
        if !is_select_postfix(postfix) {
            return false;
        }
    }
    false
}

/// Whether a member is among selects.
#[tactic(auto, using(crate::proofs::Heads::select_here, crate::proofs::Heads::select_passed, crate::proofs::Heads::no_select))]
fn has_member_select(selects: &[Select]) -> bool
    ensures { result ≡ list_any is_member_select selects.now }
{
    for select in selects {
        if is_member_select(select) {
            return true;
        }
    }
    false
}

/// Hands on a name of an expression, with how it is used.
pub(crate) fn hand_on<R: Resolver>(
    name: ScopedName,
    postfixes: &[Postfix],
    names: &mut R,
) -> Result<(), NoMemory>
    ensures { OnOk result (names.new ≡ R.after names.old (use_of name postfixes.now)) }
{
    if is_called(postfixes) {
        return names.called(name);
    }
    match name.scope {
        Some(_) => names.named(name),
        None => {
            if has_member(postfixes) {
                return names.dotted(name.name, postfixes);
            }
            names.named(name)
        }
    }
}

/// Hands on a plain name on the left of an assignment.
pub(crate) fn hand_on_left<R: Resolver>(
    name: u32,
    selects: &[Select],
    names: &mut R,
) -> Result<(), NoMemory>
    ensures { OnOk result (names.new ≡ R.after names.old (left_use name selects.now)) }
{
    if has_member_select(selects) {
        return names.selected(name, selects);
    }
    names.named(ScopedName { scope: None, name })
}

/// Whether nothing is applied to a name.
#[tactic(auto, using(crate::proofs::Heads::alone_is))]
fn is_alone(postfixes: &Vec<Postfix>) -> bool
    ensures { result ≡ is_name_alone postfixes.now }
{
    postfixes.is_empty()
}

/// Whether a name is one of no package.
fn is_plain(name: ScopedName, alone: bool) -> bool
    ensures { result ≡ is_plain name alone }
{
    match name.scope {
        Some(_) => false,
        None => alone,
    }
}

/// Whether a key of a pattern is a plain name, which is that of a member (10.9.2).
pub(crate) fn is_plain_name(key: &Expr) -> bool
    ensures { result ≡ is_plain_name key.now }
{
    match key {
        Expr::Name { name, postfixes } => is_plain(*name, is_alone(postfixes)),
        _ => false,
    }
}

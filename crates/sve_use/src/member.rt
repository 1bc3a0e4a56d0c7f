//! The member right behind a name.
ghost use Rattle.std.specs.Prelude.{◌≡◌};
ghost use Rattle.sve_use.specs.Use.{applied, applied_member, first_member, selected_member};

use sve_tree::{Postfix, Select};

/// The token of the member that a select is.
fn selected_member(select: &Select) -> Option<u32>
    ensures { result ≡ selected_member select.now }
{
    match select {
        Select::Member { name, .. } => Some(*name),
        Select::Range { .. } => None,
    }
}

/// The token of the member that is applied.
fn applied_member(postfix: &Postfix) -> Option<u32>
    ensures { result ≡ applied_member postfix.now }
{
    match postfix {
        Postfix::Select { select } => selected_member(select),
        Postfix::Call { .. } | Postfix::Cast { .. } | Postfix::Pattern { .. } => None,
    }
}

/// The token of the member right behind a name to which this is applied, where there is one. It takes no memory.
pub fn first_member(postfixes: &[Postfix]) -> Option<u32>
    ensures { result ≡ first_member postfixes.now }
{
    match postfixes.first() {
        Some(postfix) => applied_member(postfix),
        None => None,
    }
}

/// The same, where these selects are applied. It takes no memory.
pub fn first_selected(selects: &[Select]) -> Option<u32>
    ensures { result ≡ first_member (applied selects.now) }
{
    match selects.first() {
        Some(select) => selected_member(select),
        None => None,
    }
}

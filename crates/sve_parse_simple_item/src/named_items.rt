//! Items that begin with a name: instances, and variables of a type by its name (IEEE 1800-2017, 6.8, 23.3.2, A.2.1.3 and A.4.1.1).

ghost use Rattle.std.specs.Prelude.{◌≡◌, ◌<◌, ◌≤◌, ◌^◌, true, false, length, IfOk};
ghost use Rattle.sve_grammar.specs.Token.{kind_at, has_kind};
ghost use Rattle.sve_grammar.specs.Reading.{at_depth};
ghost use Rattle.sve_grammar.specs.Gives.{Gives};
ghost use Rattle.sve_grammar.specs.Items.{named_item, item};
ghost use Rattle.sve_tree.specs.Items.{item_tree};
ghost use Rattle.sve_parse_simple_item.specs.Named.{behind_name};

use crate::instances::{overridden_instances, plain_instances};
use crate::variables::{package_variables, plain_variables, ranged_variables};
use std::alloc::Global;
use sve_grammar::{Stop, expect, is_kind};
use sve_token::{Kind, Token};
use sve_tree::Item;

/// The item that begins with the name here, and the place behind it: instances of that module or interface, with overrides
/// of its parameters or without (IEEE 1800-2017, A.4.1.1), or variables of a type that begins with that name (A.2.1.3). No other
/// item begins with a name.
#[tactic(auto, using(crate::proofs::Ways::item_way))]
pub fn named_item(
    alloc: Global,
    tokens: &[Token],
    from: u32,
    depth: u32,
) -> Result<(Item, u32), Stop>
    requires few { length tokens.now < 2 ^ 32 }
    requires from { from ≤ length tokens.now }
    requires depth { depth ≤ 512 }
    requires name { has_kind (kind_at tokens.now from) Kind.Identifier ≡ true }
    ensures tree { Gives (λ x. (item_tree x.0, x.1)) result (at_depth tokens.now depth item from) }
    ensures end { IfOk result (λ x. (from < x.1) × (x.1 ≤ length tokens.now)) }
{
    let at = expect(tokens, from, Kind::Identifier)?;
    if is_kind(tokens, at, Kind::Hash) {
        return overridden_instances(alloc, tokens, at, depth, from);
    }
    if is_kind(tokens, at, Kind::ColonColon) {
        return package_variables(alloc, tokens, at, depth, from);
    }
    if is_kind(tokens, at, Kind::LeftBracket) {
        return ranged_variables(alloc, tokens, at, depth, from);
    }
    instances_or_variables(alloc, tokens, at, depth, from)
}

/// The same behind the first name, where a second name has to stand: an instance or a variable, and further ones. A parenthesis
/// behind the second name tells them.
#[tactic(auto, using(crate::proofs::Ways::twice_named_way))]
fn instances_or_variables(
    alloc: Global,
    tokens: &[Token],
    from: u32,
    depth: u32,
    first: u32,
) -> Result<(Item, u32), Stop>
    requires few { length tokens.now < 2 ^ 32 }
    requires from { from ≤ length tokens.now }
    requires depth { depth ≤ 512 }
    requires hash { has_kind (kind_at tokens.now from) Kind.Hash ≡ false }
    requires colons { has_kind (kind_at tokens.now from) Kind.ColonColon ≡ false }
    requires opening { has_kind (kind_at tokens.now from) Kind.LeftBracket ≡ false }
    ensures tree { Gives (λ x. (item_tree x.0, x.1)) result (behind_name first from (at_depth tokens.now depth named_item)) }
    ensures end { IfOk result (λ x. (from < x.1) × (x.1 ≤ length tokens.now)) }
{
    let at = expect(tokens, from, Kind::Identifier)?;
    if is_kind(tokens, at, Kind::LeftParen) {
        return plain_instances(alloc, tokens, at, depth, first, from);
    }
    plain_variables(alloc, tokens, at, depth, first, from)
}

//! Instances of modules and of interfaces (IEEE 1800-2017, 23.3.2, 25.3 and A.4.1.1).

ghost use Rattle.std.specs.Prelude.{◌≡◌, ◌<◌, ◌≤◌, ◌^◌, true, length, IfOk};
ghost use Rattle.sve_grammar.specs.Token.{kind_at, has_kind};
ghost use Rattle.sve_grammar.specs.Reading.{leaf, at_depth};
ghost use Rattle.sve_grammar.specs.Gives.{Gives};
ghost use Rattle.sve_grammar.specs.Items.{instance, more_instances, instances_or_variables, named_item};
ghost use Rattle.sve_tree.specs.Shape.{row_rest, IsRow};
ghost use Rattle.sve_tree.specs.Items.{instance_tree, item_tree};
ghost use Rattle.sve_parse_simple_item.specs.Named.{behind_name, behind_names};

use std::alloc::Global;
use sve_grammar::{Stop, accept, expect};
use sve_parse_expr::argument_list;
use sve_token::{Kind, Token};
use sve_tree::{Instance, Instantiation, Item, Overrides, Row};

/// Instances of `definition`, from the `#` of their overrides on (IEEE 1800-2017, A.4.1.1), and the place behind them.
#[tactic(auto, using(crate::proofs::Ways::overridden_way, sve_tree::proofs::Shapes::first_is, sve_tree::proofs::ItemTrees::instances_item))]
pub(crate) fn overridden_instances(
    alloc: Global,
    tokens: &[Token],
    from: u32,
    depth: u32,
    definition: u32,
) -> Result<(Item, u32), Stop>
    requires few { length tokens.now < 2 ^ 32 }
    requires from { from ≤ length tokens.now }
    requires depth { depth ≤ 512 }
    requires hash { has_kind (kind_at tokens.now from) Kind.Hash ≡ true }
    ensures tree { Gives (λ x. (item_tree x.0, x.1)) result (behind_name definition from (at_depth tokens.now depth named_item)) }
    ensures end { IfOk result (λ x. (from < x.1) × (x.1 ≤ length tokens.now)) }
{
    let at = expect(tokens, from, Kind::Hash)?;
    let (arguments, at) = argument_list(alloc, tokens, at, depth)?;
    let (first, at) = instance(alloc, tokens, at, depth)?;
    let (instances, semicolon) = more_instances(alloc, tokens, at, depth, first)?;
    let end = expect(tokens, semicolon, Kind::Semicolon)?;
    let overrides = Some(Overrides {
        hash: from,
        arguments,
    });
    let instantiation = Box::new(
        alloc,
        Instantiation {
            definition,
            overrides,
            instances,
            semicolon,
        },
    )?;
    Ok((Item::Instances { instantiation }, end))
}

/// Instances of `definition` without overrides, from the connections of the first on, whose name is `name`; and the place behind
/// them.
#[tactic(auto, using(crate::proofs::Ways::instances_way, sve_tree::proofs::Shapes::first_is, sve_tree::proofs::ItemTrees::instances_item))]
pub(crate) fn plain_instances(
    alloc: Global,
    tokens: &[Token],
    from: u32,
    depth: u32,
    definition: u32,
    name: u32,
) -> Result<(Item, u32), Stop>
    requires few { length tokens.now < 2 ^ 32 }
    requires from { from ≤ length tokens.now }
    requires depth { depth ≤ 512 }
    requires opening { has_kind (kind_at tokens.now from) Kind.LeftParen ≡ true }
    ensures tree { Gives (λ x. (item_tree x.0, x.1)) result (behind_names definition name from (at_depth tokens.now depth instances_or_variables)) }
    ensures end { IfOk result (λ x. (from < x.1) × (x.1 ≤ length tokens.now)) }
{
    let (connections, at) = argument_list(alloc, tokens, from, depth)?;
    let first = Instance { name, connections };
    let (instances, semicolon) = more_instances(alloc, tokens, at, depth, first)?;
    let end = expect(tokens, semicolon, Kind::Semicolon)?;
    let instantiation = Box::new(
        alloc,
        Instantiation {
            definition,
            overrides: None,
            instances,
            semicolon,
        },
    )?;
    Ok((Item::Instances { instantiation }, end))
}

/// The further instances behind the first, and the place behind them.
fn more_instances(
    alloc: Global,
    tokens: &[Token],
    from: u32,
    depth: u32,
    first: Instance,
) -> Result<(Row<Instance>, u32), Stop>
    requires few { length tokens.now < 2 ^ 32 }
    requires from { from ≤ length tokens.now }
    requires depth { depth ≤ 512 }
    ensures tree { Gives (λ x. (row_rest instance_tree leaf x.0, x.1)) result (at_depth tokens.now depth more_instances from) }
    ensures first { IfOk result (λ x. IsRow first x.0.items.items x.0.separators.items) }
    ensures end { IfOk result (λ x. (from ≤ x.1) × (x.1 ≤ length tokens.now)) }
{
    let mut items = Vec::new(alloc);
    items.push(first)?;
    let mut separators = Vec::new(alloc);
    let mut at = from;
    'turns: while let Some(next) = accept(tokens, at, Kind::Comma) {
        let (item, end) = instance(alloc, tokens, next, depth)?;
        separators.push(at)?;
        items.push(item)?;
        at = end;
    }
    Ok((Row { items, separators }, at))
}

/// The name of an instance and its connections, and the place behind them.
#[tactic(auto, unfolding(sve_grammar::specs::Items::instance))]
fn instance(alloc: Global, tokens: &[Token], from: u32, depth: u32) -> Result<(Instance, u32), Stop>
    requires few { length tokens.now < 2 ^ 32 }
    requires from { from ≤ length tokens.now }
    requires depth { depth ≤ 512 }
    ensures tree { Gives (λ x. (instance_tree x.0, x.1)) result (at_depth tokens.now depth instance from) }
    ensures end { IfOk result (λ x. (from < x.1) × (x.1 ≤ length tokens.now)) }
{
    let at = expect(tokens, from, Kind::Identifier)?;
    let (connections, end) = argument_list(alloc, tokens, at, depth)?;
    Ok((
        Instance {
            name: from,
            connections,
        },
        end,
    ))
}

//! Names behind a package, behind a colon, and in rows.

ghost use Rattle.std.specs.Prelude.{◌≡◌, ◌<◌, ◌≤◌, ◌^◌, length, IfOk};
ghost use Rattle.sve_grammar.specs.Rule.{opt};
ghost use Rattle.sve_grammar.specs.Expressions.{scoped_name};
ghost use Rattle.sve_grammar.specs.Types.{more_identifiers};
ghost use Rattle.sve_grammar.specs.Declarations.{label};
ghost use Rattle.sve_grammar.specs.Reading.{leaf, at_depth};
ghost use Rattle.sve_grammar.specs.Gives.{Gives};
ghost use Rattle.sve_tree.specs.Shape.{optional_tree, row_first, row_rest};
ghost use Rattle.sve_tree.specs.Words.{scoped_name_tree, label_tree};

use std::alloc::Global;
use sve_grammar::{Stop, accept, expect, is_kind};
use sve_token::{Kind, Token};
use sve_tree::{Label, PackageScope, Row, ScopedName};

/// A name, perhaps behind the name of a package (IEEE 1800-2017, 26.3), and the place behind it.
#[tactic(auto, unfolding(sve_grammar::specs::Expressions::scoped_name))]
pub fn scoped_name(tokens: &[Token], from: u32, depth: u32) -> Result<(ScopedName, u32), Stop>
    requires few { length tokens.now < 2 ^ 32 }
    requires from { from ≤ length tokens.now }
    requires depth { depth ≤ 512 }
    ensures tree { Gives (λ x. (scoped_name_tree x.0, x.1)) result (at_depth tokens.now depth scoped_name from) }
    ensures end { IfOk result (λ x. (from < x.1) × (x.1 ≤ length tokens.now)) }
{
    let at = expect(tokens, from, Kind::Identifier)?;
    if let Some(name) = accept(tokens, at, Kind::ColonColon) {
        let end = expect(tokens, name, Kind::Identifier)?;
        let scope = Some(PackageScope {
            name: from,
            colons: at,
        });
        return Ok((ScopedName { scope, name }, end));
    }
    Ok((
        ScopedName {
            scope: None,
            name: from,
        },
        at,
    ))
}

/// A colon and the name of a block (9.3.4), and the place behind it.
#[tactic(auto, unfolding(sve_grammar::specs::Declarations::label))]
pub fn label(tokens: &[Token], from: u32, depth: u32) -> Result<(Label, u32), Stop>
    requires few { length tokens.now < 2 ^ 32 }
    requires from { from ≤ length tokens.now }
    requires depth { depth ≤ 512 }
    ensures tree { Gives (λ x. (label_tree x.0, x.1)) result (at_depth tokens.now depth label from) }
    ensures end { IfOk result (λ x. (from < x.1) × (x.1 ≤ length tokens.now)) }
{
    let name = expect(tokens, from, Kind::Colon)?;
    let end = expect(tokens, name, Kind::Identifier)?;
    Ok((Label { colon: from, name }, end))
}

/// A colon and the name of a block, where they are written (9.3.4), and the place behind them.
#[tactic(auto, using(sve_grammar::proofs::StartsOfStatements::label_starts, sve_grammar::proofs::StartsOfStatements::label_full))]
pub fn optional_label(tokens: &[Token], from: u32, depth: u32) -> Result<(Option<Label>, u32), Stop>
    requires few { length tokens.now < 2 ^ 32 }
    requires from { from ≤ length tokens.now }
    requires depth { depth ≤ 512 }
    ensures tree { Gives (λ x. (optional_tree label_tree x.0, x.1)) result (at_depth tokens.now depth (opt label) from) }
    ensures end { IfOk result (λ x. (from ≤ x.1) × (x.1 ≤ length tokens.now)) }
{
    if is_kind(tokens, from, Kind::Colon) {
        let (label, end) = label(tokens, from, depth)?;
        return Ok((Some(label), end));
    }
    Ok((None, from))
}

/// The names of a list whose first was read: that name and those behind it, each behind a comma, and the place behind them.
pub fn more_names(
    alloc: Global,
    tokens: &[Token],
    from: u32,
    depth: u32,
    first: u32,
) -> Result<(Row<u32>, u32), Stop>
    requires few { length tokens.now < 2 ^ 32 }
    requires from { from ≤ length tokens.now }
    requires depth { depth ≤ 512 }
    ensures tree { Gives (λ x. (row_rest leaf leaf x.0, x.1)) result (at_depth tokens.now depth more_identifiers from) }
    ensures first { IfOk result (λ x. row_first leaf x.0 ≡ leaf first) }
    ensures end { IfOk result (λ x. (from ≤ x.1) × (x.1 ≤ length tokens.now)) }
{
    let mut items = Vec::new(alloc);
    items.push(first)?;
    let mut separators = Vec::new(alloc);
    let mut at = from;
    'turns: while let Some(name) = accept(tokens, at, Kind::Comma) {
        let end = expect(tokens, name, Kind::Identifier)?;
        separators.push(at)?;
        items.push(name)?;
        at = end;
    }
    Ok((Row { items, separators }, at))
}

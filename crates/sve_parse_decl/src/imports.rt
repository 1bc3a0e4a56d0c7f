//! Imports of a package's names (IEEE 1800-2017, 26.3 and A.2.1.3).

ghost use Rattle.std.specs.Prelude.{◌≡◌, ◌<◌, ◌≤◌, ◌^◌, length, IfOk};
ghost use Rattle.sve_grammar.specs.Reading.{leaf, at_depth};
ghost use Rattle.sve_grammar.specs.Gives.{Gives};
ghost use Rattle.sve_grammar.specs.Declarations.{import_item, more_import_items, import_declaration, imports};
ghost use Rattle.sve_tree.specs.Shape.{repeated_tree, row_rest, row_first};
ghost use Rattle.sve_tree.specs.Declarations.{import_item_tree, import_tree, decl_tree};

use std::alloc::Global;
use sve_grammar::{Stop, accept, expect, is_kind};
use sve_token::{Keyword, Kind, Token};
use sve_tree::{Decl, Import, ImportItem, PackageScope, Row};

/// A declaration of imports, and the place behind it. The tree is `Import`.
pub fn import(alloc: Global, tokens: &[Token], from: u32, depth: u32) -> Result<(Decl, u32), Stop>
    requires few { length tokens.now < 2 ^ 32 }
    requires from { from ≤ length tokens.now }
    requires depth { depth ≤ 512 }
    ensures tree { Gives (λ x. (decl_tree x.0, x.1)) result (at_depth tokens.now depth import_declaration from) }
    ensures end { IfOk result (λ x. (from < x.1) × (x.1 ≤ length tokens.now)) }
{
    let (declaration, end) = import_declaration(alloc, tokens, from, depth)?;
    Ok((Decl::Import { declaration }, end))
}

/// A declaration of imports by itself, and the place behind it.
#[tactic(auto, unfolding(sve_grammar::specs::Declarations::import_declaration))]
pub fn import_declaration(
    alloc: Global,
    tokens: &[Token],
    from: u32,
    depth: u32,
) -> Result<(Import, u32), Stop>
    requires few { length tokens.now < 2 ^ 32 }
    requires from { from ≤ length tokens.now }
    requires depth { depth ≤ 512 }
    ensures tree { Gives (λ x. (import_tree x.0, x.1)) result (at_depth tokens.now depth import_declaration from) }
    ensures end { IfOk result (λ x. (from < x.1) × (x.1 ≤ length tokens.now)) }
{
    let at = expect(tokens, from, Kind::Keyword(Keyword::KwImport))?;
    let (first, at) = import_item(tokens, at, depth)?;
    let (items, semicolon) = more_import_items(alloc, tokens, at, depth, first)?;
    let end = expect(tokens, semicolon, Kind::Semicolon)?;
    Ok((
        Import {
            keyword: from,
            items,
            semicolon,
        },
        end,
    ))
}

/// The declarations of imports that stand here, none or more, and the place behind them.
pub(crate) fn imports(
    alloc: Global,
    tokens: &[Token],
    from: u32,
    depth: u32,
) -> Result<(Vec<Import>, u32), Stop>
    requires few { length tokens.now < 2 ^ 32 }
    requires from { from ≤ length tokens.now }
    requires depth { depth ≤ 512 }
    ensures tree { Gives (λ x. (repeated_tree import_tree x.0.items, x.1)) result (at_depth tokens.now depth imports from) }
    ensures end { IfOk result (λ x. (from ≤ x.1) × (x.1 ≤ length tokens.now)) }
{
    let mut items = Vec::new(alloc);
    let mut at = from;
    'turns: while is_kind(tokens, at, Kind::Keyword(Keyword::KwImport)) {
        let (item, end) = import_declaration(alloc, tokens, at, depth)?;
        items.push(item)?;
        at = end;
    }
    Ok((items, at))
}

/// A name of a package, or all of its names, and the place behind it.
#[tactic(auto, unfolding(sve_grammar::specs::Declarations::import_item, sve_grammar::specs::Declarations::imported_name))]
fn import_item(tokens: &[Token], from: u32, depth: u32) -> Result<(ImportItem, u32), Stop>
    requires few { length tokens.now < 2 ^ 32 }
    requires from { from ≤ length tokens.now }
    requires depth { depth ≤ 512 }
    ensures tree { Gives (λ x. (import_item_tree x.0, x.1)) result (at_depth tokens.now depth import_item from) }
    ensures end { IfOk result (λ x. (from < x.1) × (x.1 ≤ length tokens.now)) }
{
    let colons = expect(tokens, from, Kind::Identifier)?;
    let at = expect(tokens, colons, Kind::ColonColon)?;
    let scope = PackageScope { name: from, colons };
    if let Some(end) = accept(tokens, at, Kind::Identifier) {
        return Ok((ImportItem::Name { scope, name: at }, end));
    }
    if let Some(end) = accept(tokens, at, Kind::Star) {
        return Ok((ImportItem::All { scope, star: at }, end));
    }
    Err(Stop::At {
        index: at,
        deep: false,
    })
}

/// The further items of an import behind the first, and the place behind them.
fn more_import_items(
    alloc: Global,
    tokens: &[Token],
    from: u32,
    depth: u32,
    first: ImportItem,
) -> Result<(Row<ImportItem>, u32), Stop>
    requires few { length tokens.now < 2 ^ 32 }
    requires from { from ≤ length tokens.now }
    requires depth { depth ≤ 512 }
    ensures tree { Gives (λ x. (row_rest import_item_tree leaf x.0, x.1)) result (at_depth tokens.now depth more_import_items from) }
    ensures first { IfOk result (λ x. row_first import_item_tree x.0 ≡ import_item_tree first) }
    ensures end { IfOk result (λ x. (from ≤ x.1) × (x.1 ≤ length tokens.now)) }
{
    let mut items = Vec::new(alloc);
    items.push(first)?;
    let mut separators = Vec::new(alloc);
    let mut at = from;
    'turns: while let Some(next) = accept(tokens, at, Kind::Comma) {
        let (item, end) = import_item(tokens, next, depth)?;
        separators.push(at)?;
        items.push(item)?;
        at = end;
    }
    Ok((Row { items, separators }, at))
}

//! Items that packages and the compilation unit's scope have, and modules and interfaces too (IEEE 1800-2017, A.1.11).

ghost use Rattle.std.specs.Prelude.{◌≡◌, ◌<◌, ◌≤◌, ◌^◌, length, IfOk};
ghost use Rattle.sve_grammar.specs.Reading.{at_depth};
ghost use Rattle.sve_grammar.specs.Gives.{Gives};
ghost use Rattle.sve_grammar.specs.Items.{item, unit_item, unit_items};
ghost use Rattle.sve_tree.specs.Shape.{way, repeated_tree};
ghost use Rattle.sve_tree.specs.Items.{item_tree};
ghost use Rattle.sve_tree.specs.Elements.{unit_item_tree};
ghost use Rattle.sve_parse_flat_item.specs.Alternatives.{package_number, package_rule, PackageLeads, UnitLeads};
ghost use Rattle.sve_parse_flat_item.specs.Parts.{form_of, part_tree};

use crate::begins::{PackageForm, package_item_here};
use std::alloc::Global;
use sve_grammar::{Stop, expect};
use sve_parse_decl::{import_declaration, parameter_declaration, type_declaration};
use sve_parse_procedure::function;
use sve_token::{Kind, Token};
use sve_tree::{Item, UnitItem};

/// The items of the compilation unit's scope or of a package that stand here, none or more, and the place behind them. No token
/// need be there.
pub fn unit_items(
    alloc: Global,
    tokens: &[Token],
    from: u32,
    depth: u32,
) -> Result<(Vec<UnitItem>, u32), Stop>
    requires few { length tokens.now < 2 ^ 32 }
    requires from { from ≤ length tokens.now }
    requires depth { depth ≤ 512 }
    ensures tree { Gives (λ x. (repeated_tree unit_item_tree x.0.items, x.1)) result (at_depth tokens.now depth unit_items from) }
    ensures end { IfOk result (λ x. (from ≤ x.1) × (x.1 ≤ length tokens.now)) }
{
    let mut items = Vec::new(alloc);
    let mut at = from;
    'turns: while let Some(form) = package_item_here(tokens, at) {
        let (item, end) = unit_item(alloc, tokens, at, depth, form)?;
        items.push(item)?;
        at = end;
    }
    Ok((items, at))
}

/// The item of a package of this form, which begins here, and the place behind it.
fn unit_item(
    alloc: Global,
    tokens: &[Token],
    from: u32,
    depth: u32,
    form: PackageForm,
) -> Result<(UnitItem, u32), Stop>
    requires few { length tokens.now < 2 ^ 32 }
    requires from { from ≤ length tokens.now }
    requires depth { depth ≤ 512 }
    requires form { UnitLeads tokens.now from form }
    ensures tree { Gives (λ x. (unit_item_tree x.0, x.1)) result (at_depth tokens.now depth unit_item from) }
    ensures end { IfOk result (λ x. (from < x.1) × (x.1 ≤ length tokens.now)) }
{
    package_part(alloc, tokens, from, depth, form)
}

/// The item of a module or an interface of this form, which begins here, and the place behind it.
#[inline(never)]
pub fn package_item(
    alloc: Global,
    tokens: &[Token],
    from: u32,
    depth: u32,
    form: PackageForm,
) -> Result<(Item, u32), Stop>
    requires few { length tokens.now < 2 ^ 32 }
    requires from { from ≤ length tokens.now }
    requires depth { depth ≤ 512 }
    requires form { PackageLeads tokens.now from form }
    ensures tree { Gives (λ x. (item_tree x.0, x.1)) result (at_depth tokens.now depth item from) }
    ensures end { IfOk result (λ x. (from < x.1) × (x.1 ≤ length tokens.now)) }
{
    let (part, end) = package_part(alloc, tokens, from, depth, form)?;
    Ok((as_item(part), end))
}

/// The same item in a module or an interface.
#[tactic(auto, using(sve_tree::proofs::ItemTrees::empty_item, sve_tree::proofs::ItemTrees::import_item, sve_tree::proofs::ItemTrees::parameters_item, sve_tree::proofs::ItemTrees::typedef_item, sve_tree::proofs::ItemTrees::function_item))]
fn as_item(part: UnitItem) -> Item
    ensures { item_tree result ≡ way (package_number (form_of part)) (part_tree part) }
{
    match part {
        UnitItem::Empty { semicolon } => Item::Empty { semicolon },
        UnitItem::Import { declaration } => Item::Import { declaration },
        UnitItem::Parameters { declaration } => Item::Parameters { declaration },
        UnitItem::Typedef { declaration } => Item::Typedef { declaration },
        UnitItem::Function { function } => Item::Function { function },
    }
}

/// The declaration of this form that stands here, by its own rule, and the place behind it.
fn package_part(
    alloc: Global,
    tokens: &[Token],
    from: u32,
    depth: u32,
    form: PackageForm,
) -> Result<(UnitItem, u32), Stop>
    requires few { length tokens.now < 2 ^ 32 }
    requires from { from ≤ length tokens.now }
    requires depth { depth ≤ 512 }
    ensures tree { Gives (λ x. (part_tree x.0, x.1)) result (at_depth tokens.now depth (package_rule form) from) }
    ensures form { IfOk result (λ x. form_of x.0 ≡ form) }
    ensures end { IfOk result (λ x. (from < x.1) × (x.1 ≤ length tokens.now)) }
{
    match form {
        PackageForm::Empty => {
            let end = expect(tokens, from, Kind::Semicolon)?;
            Ok((UnitItem::Empty { semicolon: from }, end))
        }
        PackageForm::Import => {
            let (declaration, end) = import_declaration(alloc, tokens, from, depth)?;
            let declaration = Box::new(alloc, declaration)?;
            Ok((UnitItem::Import { declaration }, end))
        }
        PackageForm::Parameters => {
            let (declaration, end) = parameter_declaration(alloc, tokens, from, depth)?;
            let declaration = Box::new(alloc, declaration)?;
            Ok((UnitItem::Parameters { declaration }, end))
        }
        PackageForm::Typedef => {
            let (declaration, end) = type_declaration(alloc, tokens, from, depth)?;
            let declaration = Box::new(alloc, declaration)?;
            Ok((UnitItem::Typedef { declaration }, end))
        }
        PackageForm::Function => {
            let (function, end) = function(alloc, tokens, from, depth)?;
            let function = Box::new(alloc, function)?;
            Ok((UnitItem::Function { function }, end))
        }
    }
}

//! Items, and the generate constructs that hold them (IEEE 1800-2017, clause 27, A.1.4 and A.4.2).

ghost use Rattle.std.specs.Prelude.{◌≡◌, ◌<◌, ◌≤◌, ◌^◌, length, IfOk};
ghost use Rattle.sve_grammar.specs.Rule.{sym, word, ◌∙◌, opt};
ghost use Rattle.sve_grammar.specs.Reading.{at_depth};
ghost use Rattle.sve_grammar.specs.Gives.{Gives};
ghost use Rattle.sve_grammar.specs.Declarations.{label};
ghost use Rattle.sve_grammar.specs.Items.{item, items, generate_region, generate_block, loop_generate, else_generate, if_generate, case_generate_item, case_generate_items, case_generate};
ghost use Rattle.sve_tree.specs.Shape.{optional_tree, repeated_tree, first_tree, others_tree};
ghost use Rattle.sve_tree.specs.Items.{item_tree, generate_block_tree, generate_body_tree, generate_region_tree, loop_generate_tree, if_generate_tree, else_generate_tree, case_generate_tree, case_generate_item_tree};
ghost use Rattle.sve_parse_flat_item.specs.Alternatives.{ConstructLeads};

use crate::boxes::boxed;
use std::alloc::Global;
use sve_grammar::{Stop, Symbol, accept, expect, is_kind};
use sve_parse_expr::{boxed_expr, expr, more_expressions, parenthesized};
use sve_parse_flat_item::{
    ConstructForm, ItemForm, begins_item, declaration_item, enter_item, package_item, process_item,
};
use sve_parse_part::{begins_case_item, end_label, optional_token};
use sve_parse_simple_item::genvar_iteration;
use sve_parse_word::optional_label;
use sve_token::{Keyword, Kind, Token};
use sve_tree::{
    CaseGenerate, CaseGenerateItem, ElseGenerate, GenerateBlock, GenerateBody, GenerateRegion,
    IfGenerate, Item, LoopGenerate,
};

/// An item of a module, an interface or a generate block (A.1.4), and the place behind it. Generate constructs nest, so what
/// other items need of the stack is taken by functions of their own.
#[cycle(item)]
#[tactic(auto, unfolding(sve_grammar::specs::Grammar::rule))]
pub fn item(alloc: Global, tokens: &[Token], from: u32, depth: u32) -> Result<(Item, u32), Stop>
    requires few { length tokens.now < 2 ^ 32 }
    requires from { from ≤ length tokens.now }
    requires depth { depth ≤ 512 }
    ensures tree { Gives (λ x. (item_tree x.0, x.1)) result (at_depth tokens.now depth (sym Symbol.Item) from) }
    ensures end { IfOk result (λ x. (from < x.1) × (x.1 ≤ length tokens.now)) }
{
    let (form, depth) = enter_item(tokens, from, depth)?;
    match form {
        ItemForm::Package(form) => package_item(alloc, tokens, from, depth, form),
        ItemForm::Declaration(form) => declaration_item(alloc, tokens, from, depth, form),
        ItemForm::Process(form) => process_item(alloc, tokens, from, depth, form),
        ItemForm::Construct(form) => construct(alloc, tokens, from, depth, form),
    }
}

/// The item of this form, which begins here and holds items, and the place behind it.
#[cycle(item)]
#[tactic(auto, using(sve_tree::proofs::ItemTrees::region_item, sve_tree::proofs::ItemTrees::loop_generate_item, sve_tree::proofs::ItemTrees::if_generate_item, sve_tree::proofs::ItemTrees::case_generate_item))]
fn construct(
    alloc: Global,
    tokens: &[Token],
    from: u32,
    depth: u32,
    form: ConstructForm,
) -> Result<(Item, u32), Stop>
    requires few { length tokens.now < 2 ^ 32 }
    requires from { from ≤ length tokens.now }
    requires depth { depth ≤ 512 }
    requires form { ConstructLeads tokens.now from form }
    ensures tree { Gives (λ x. (item_tree x.0, x.1)) result (at_depth tokens.now depth item from) }
    ensures end { IfOk result (λ x. (from < x.1) × (x.1 ≤ length tokens.now)) }
{
    match form {
        ConstructForm::Region => {
            let (region, end) = generate_region(alloc, tokens, from, depth)?;
            Ok((Item::Region { region }, end))
        }
        ConstructForm::Loop => {
            let (construct, end) = loop_generate(alloc, tokens, from, depth)?;
            Ok((Item::LoopGenerate { construct }, end))
        }
        ConstructForm::If => {
            let (construct, end) = if_generate(alloc, tokens, from, depth)?;
            Ok((Item::IfGenerate { construct }, end))
        }
        ConstructForm::Case => {
            let (construct, end) = case_generate(alloc, tokens, from, depth)?;
            Ok((Item::CaseGenerate { construct }, end))
        }
    }
}

/// The items that stand here, none or more, and the place behind them. No token need be there.
#[cycle(item)]
pub fn items(
    alloc: Global,
    tokens: &[Token],
    from: u32,
    depth: u32,
) -> Result<(Vec<Item>, u32), Stop>
    requires few { length tokens.now < 2 ^ 32 }
    requires from { from ≤ length tokens.now }
    requires depth { depth ≤ 512 }
    ensures tree { Gives (λ x. (repeated_tree item_tree x.0.items, x.1)) result (at_depth tokens.now depth items from) }
    ensures end { IfOk result (λ x. (from ≤ x.1) × (x.1 ≤ length tokens.now)) }
{
    let mut items = Vec::new(alloc);
    let mut at = from;
    'turns: while begins_item(tokens, at) {
        let (item, end) = item(alloc, tokens, at, depth)?;
        items.push(item)?;
        at = end;
    }
    Ok((items, at))
}

/// A generate region (27.3), and the place behind it.
#[cycle(item)]
#[tactic(auto, unfolding(sve_grammar::specs::Items::generate_region))]
fn generate_region(
    alloc: Global,
    tokens: &[Token],
    from: u32,
    depth: u32,
) -> Result<(Box<GenerateRegion>, u32), Stop>
    requires few { length tokens.now < 2 ^ 32 }
    requires from { from ≤ length tokens.now }
    requires depth { depth ≤ 512 }
    ensures tree { Gives (λ x. (generate_region_tree x.0.value, x.1)) result (at_depth tokens.now depth generate_region from) }
    ensures end { IfOk result (λ x. (from < x.1) × (x.1 ≤ length tokens.now)) }
{
    let at = expect(tokens, from, Kind::Keyword(Keyword::KwGenerate))?;
    let (items, last) = items(alloc, tokens, at, depth)?;
    let end = expect(tokens, last, Kind::Keyword(Keyword::KwEndgenerate))?;
    let region = GenerateRegion {
        keyword: from,
        items,
        end: last,
    };
    Ok((Box::new(alloc, region)?, end))
}

/// A block of a generate construct (27.3): items from `begin` to `end`, or one item; and the place behind it.
#[cycle(item)]
#[tactic(auto, using(crate::proofs::Ways::block_body, crate::proofs::Ways::block_item, sve_tree::proofs::ItemTrees::block_generate_block, sve_tree::proofs::ItemTrees::item_generate_block))]
fn generate_block(
    alloc: Global,
    tokens: &[Token],
    from: u32,
    depth: u32,
) -> Result<(GenerateBlock, u32), Stop>
    requires few { length tokens.now < 2 ^ 32 }
    requires from { from ≤ length tokens.now }
    requires depth { depth ≤ 512 }
    ensures tree { Gives (λ x. (generate_block_tree x.0, x.1)) result (at_depth tokens.now depth generate_block from) }
    ensures end { IfOk result (λ x. (from < x.1) × (x.1 ≤ length tokens.now)) }
{
    if is_kind(tokens, from, Kind::Keyword(Keyword::KwBegin)) {
        let (block, end) = generate_body(alloc, tokens, from, depth)?;
        return Ok((GenerateBlock::Block { block }, end));
    }
    let (item, end) = item(alloc, tokens, from, depth)?;
    let item = boxed(alloc, item)?;
    Ok((GenerateBlock::Item { item }, end))
}

/// The items of a generate block from `begin` to `end` with its labels (27.3), and the place behind it.
#[cycle(item)]
fn generate_body(
    alloc: Global,
    tokens: &[Token],
    from: u32,
    depth: u32,
) -> Result<(Box<GenerateBody>, u32), Stop>
    requires few { length tokens.now < 2 ^ 32 }
    requires from { from ≤ length tokens.now }
    requires depth { depth ≤ 512 }
    ensures tree { Gives (λ x. (generate_body_tree x.0.value, x.1)) result (at_depth tokens.now depth (word Keyword.KwBegin ∙ opt label ∙ items ∙ word Keyword.KwEnd ∙ opt label) from) }
    ensures end { IfOk result (λ x. (from < x.1) × (x.1 ≤ length tokens.now)) }
{
    let at = expect(tokens, from, Kind::Keyword(Keyword::KwBegin))?;
    let (label, at) = optional_label(tokens, at, depth)?;
    let (items, last) = items(alloc, tokens, at, depth)?;
    let (end_label, end) = end_label(tokens, last, depth, Keyword::KwEnd)?;
    let body = GenerateBody {
        begin: from,
        label,
        items,
        end: last,
        end_label,
    };
    Ok((Box::new(alloc, body)?, end))
}

/// A generate loop (27.4), and the place behind it.
#[cycle(item)]
#[tactic(auto, unfolding(sve_grammar::specs::Items::loop_generate))]
fn loop_generate(
    alloc: Global,
    tokens: &[Token],
    from: u32,
    depth: u32,
) -> Result<(Box<LoopGenerate>, u32), Stop>
    requires few { length tokens.now < 2 ^ 32 }
    requires from { from ≤ length tokens.now }
    requires depth { depth ≤ 512 }
    ensures tree { Gives (λ x. (loop_generate_tree x.0.value, x.1)) result (at_depth tokens.now depth loop_generate from) }
    ensures end { IfOk result (λ x. (from < x.1) × (x.1 ≤ length tokens.now)) }
{
    let opening = expect(tokens, from, Kind::Keyword(Keyword::KwFor))?;
    let at = expect(tokens, opening, Kind::LeftParen)?;
    let (genvar, name) = optional_token(tokens, at, depth, Kind::Keyword(Keyword::KwGenvar));
    let equals = expect(tokens, name, Kind::Identifier)?;
    let at = expect(tokens, equals, Kind::Assign)?;
    let (start, first_semicolon) = boxed_expr(alloc, tokens, at, depth)?;
    let at = expect(tokens, first_semicolon, Kind::Semicolon)?;
    let (condition, second_semicolon) = boxed_expr(alloc, tokens, at, depth)?;
    let at = expect(tokens, second_semicolon, Kind::Semicolon)?;
    let (step, closing) = genvar_iteration(alloc, tokens, at, depth)?;
    let at = expect(tokens, closing, Kind::RightParen)?;
    let (block, end) = generate_block(alloc, tokens, at, depth)?;
    let construct = LoopGenerate {
        keyword: from,
        opening,
        genvar,
        name,
        equals,
        start,
        first_semicolon,
        condition,
        second_semicolon,
        step,
        closing,
        block,
    };
    Ok((Box::new(alloc, construct)?, end))
}

/// A generate `if` (27.5), and the place behind it. An `else` belongs to the last `if` that it can belong to.
#[cycle(item)]
#[tactic(auto, using(sve_tree::proofs::ItemTrees::if_generate_made), unfolding(sve_grammar::specs::Items::if_generate))]
fn if_generate(
    alloc: Global,
    tokens: &[Token],
    from: u32,
    depth: u32,
) -> Result<(Box<IfGenerate>, u32), Stop>
    requires few { length tokens.now < 2 ^ 32 }
    requires from { from ≤ length tokens.now }
    requires depth { depth ≤ 512 }
    ensures tree { Gives (λ x. (if_generate_tree x.0.value, x.1)) result (at_depth tokens.now depth if_generate from) }
    ensures end { IfOk result (λ x. (from < x.1) × (x.1 ≤ length tokens.now)) }
{
    let at = expect(tokens, from, Kind::Keyword(Keyword::KwIf))?;
    let (condition, at) = parenthesized(alloc, tokens, at, depth)?;
    let (chosen, at) = generate_block(alloc, tokens, at, depth)?;
    let (otherwise, end) = optional_else(alloc, tokens, at, depth)?;
    let construct = IfGenerate {
        keyword: from,
        condition,
        chosen,
        otherwise,
    };
    Ok((Box::new(alloc, construct)?, end))
}

/// `else` and its generate block where they stand here (27.5), and the place behind them.
#[cycle(item)]
#[tactic(auto, using(sve_grammar::proofs::StartsOfItems::else_generate_starts, sve_grammar::proofs::StartsOfItems::else_generate_full), unfolding(sve_grammar::specs::Items::else_generate))]
fn optional_else(
    alloc: Global,
    tokens: &[Token],
    from: u32,
    depth: u32,
) -> Result<(Option<ElseGenerate>, u32), Stop>
    requires few { length tokens.now < 2 ^ 32 }
    requires from { from ≤ length tokens.now }
    requires depth { depth ≤ 512 }
    ensures tree { Gives (λ x. (optional_tree else_generate_tree x.0, x.1)) result (at_depth tokens.now depth (opt else_generate) from) }
    ensures end { IfOk result (λ x. (from ≤ x.1) × (x.1 ≤ length tokens.now)) }
{
    if let Some(at) = accept(tokens, from, Kind::Keyword(Keyword::KwElse)) {
        let (block, end) = generate_block(alloc, tokens, at, depth)?;
        let branch = ElseGenerate {
            keyword: from,
            block,
        };
        return Ok((Some(branch), end));
    }
    Ok((None, from))
}

/// A generate `case` (27.5), and the place behind it.
#[cycle(item)]
#[tactic(auto, unfolding(sve_grammar::specs::Items::case_generate))]
fn case_generate(
    alloc: Global,
    tokens: &[Token],
    from: u32,
    depth: u32,
) -> Result<(Box<CaseGenerate>, u32), Stop>
    requires few { length tokens.now < 2 ^ 32 }
    requires from { from ≤ length tokens.now }
    requires depth { depth ≤ 512 }
    ensures tree { Gives (λ x. (case_generate_tree x.0.value, x.1)) result (at_depth tokens.now depth case_generate from) }
    ensures end { IfOk result (λ x. (from < x.1) × (x.1 ≤ length tokens.now)) }
{
    let at = expect(tokens, from, Kind::Keyword(Keyword::KwCase))?;
    let (selector, at) = parenthesized(alloc, tokens, at, depth)?;
    let (first, at) = case_item(alloc, tokens, at, depth)?;
    let (items, last) = more_case_items(alloc, tokens, at, depth, first)?;
    let end = expect(tokens, last, Kind::Keyword(Keyword::KwEndcase))?;
    let construct = CaseGenerate {
        keyword: from,
        selector,
        items,
        end: last,
    };
    Ok((Box::new(alloc, construct)?, end))
}

/// The items of a generate `case` whose first was read: that item and those behind it, and the place behind them.
#[cycle(item)]
fn more_case_items(
    alloc: Global,
    tokens: &[Token],
    from: u32,
    depth: u32,
    first: CaseGenerateItem,
) -> Result<(Vec<CaseGenerateItem>, u32), Stop>
    requires few { length tokens.now < 2 ^ 32 }
    requires from { from ≤ length tokens.now }
    requires depth { depth ≤ 512 }
    ensures tree { Gives (λ x. (others_tree case_generate_item_tree x.0.items, x.1)) result (at_depth tokens.now depth case_generate_items from) }
    ensures first { IfOk result (λ x. first_tree case_generate_item_tree x.0.items ≡ case_generate_item_tree first) }
    ensures end { IfOk result (λ x. (from ≤ x.1) × (x.1 ≤ length tokens.now)) }
{
    let mut items = Vec::new(alloc);
    items.push(first)?;
    let mut at = from;
    'turns: while begins_case_item(tokens, at) {
        let (item, end) = case_item(alloc, tokens, at, depth)?;
        items.push(item)?;
        at = end;
    }
    Ok((items, at))
}

/// An item of a generate `case` (27.5): `default` or labels, and a block; and the place behind it.
#[cycle(item)]
#[tactic(auto, using(crate::proofs::Ways::case_default, crate::proofs::Ways::case_labels, sve_tree::proofs::ItemTrees::default_case_generate_item, sve_tree::proofs::ItemTrees::labels_case_generate_item))]
fn case_item(
    alloc: Global,
    tokens: &[Token],
    from: u32,
    depth: u32,
) -> Result<(CaseGenerateItem, u32), Stop>
    requires few { length tokens.now < 2 ^ 32 }
    requires from { from ≤ length tokens.now }
    requires depth { depth ≤ 512 }
    ensures tree { Gives (λ x. (case_generate_item_tree x.0, x.1)) result (at_depth tokens.now depth case_generate_item from) }
    ensures end { IfOk result (λ x. (from < x.1) × (x.1 ≤ length tokens.now)) }
{
    if let Some(at) = accept(tokens, from, Kind::Keyword(Keyword::KwDefault)) {
        let (colon, at) = optional_token(tokens, at, depth, Kind::Colon);
        let (block, end) = generate_block(alloc, tokens, at, depth)?;
        return Ok((
            CaseGenerateItem::Default {
                keyword: from,
                colon,
                block,
            },
            end,
        ));
    }
    let (first, at) = expr(alloc, tokens, from, depth)?;
    let (labels, colon) = more_expressions(alloc, tokens, at, depth, first)?;
    let at = expect(tokens, colon, Kind::Colon)?;
    let (block, end) = generate_block(alloc, tokens, at, depth)?;
    Ok((
        CaseGenerateItem::Labels {
            labels,
            colon,
            block,
        },
        end,
    ))
}

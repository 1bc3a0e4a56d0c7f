//! Declarations of a block, and what begins with a name there, by their forms (IEEE 1800-2017, A.2.8).

ghost use Rattle.std.specs.Prelude.{◌<◌, ◌≤◌, ◌^◌, length, IfOk};
ghost use Rattle.sve_token.specs.declared.kind.Kind.TheVariants.{Semicolon};
ghost use Rattle.sve_grammar.specs.Rule.{tok, ◌∙◌};
ghost use Rattle.sve_grammar.specs.Reading.{at_depth};
ghost use Rattle.sve_grammar.specs.Gives.{Gives};
ghost use Rattle.sve_grammar.specs.Declarations.{lifetime, variable_declaration, data_declaration, parameter_declaration, type_declaration};
ghost use Rattle.sve_grammar.specs.Statements.{block_item, local_declaration};
ghost use Rattle.sve_tree.specs.Statements.{block_item_tree};
ghost use Rattle.sve_parse_expr.specs.Alternatives.{alternative};
ghost use Rattle.sve_parse_form.specs.Forms.{ItemLeads};

use crate::forms::{Declared, ItemForm};
use std::alloc::Global;
use sve_grammar::Stop;
use sve_parse_data::{data_declaration, variable_declaration};
use sve_parse_decl::{parameter_declaration, type_declaration};
use sve_parse_simple_stmt::{local_declaration, named_block_item};
use sve_parse_word::lifetime;
use sve_token::Token;
use sve_tree::BlockItem;

/// A declaration of a block, or what begins with a name there, of the form that begins here, and the place behind it.
#[inline(never)]
pub fn declared_item(
    alloc: Global,
    tokens: &[Token],
    from: u32,
    depth: u32,
    form: Declared,
) -> Result<(BlockItem, u32), Stop>
    requires few { length tokens.now < 2 ^ 32 }
    requires from { from ≤ length tokens.now }
    requires depth { depth ≤ 512 }
    requires form { ItemLeads tokens.now from (ItemForm.Declared form) }
    ensures tree { Gives (λ x. (block_item_tree x.0, x.1)) result (at_depth tokens.now depth block_item from) }
    ensures end { IfOk result (λ x. (from < x.1) × (x.1 ≤ length tokens.now)) }
{
    match form {
        Declared::Local => local_item(alloc, tokens, from, depth),
        Declared::Variable => variable_item(alloc, tokens, from, depth),
        Declared::Data => data_item(alloc, tokens, from, depth),
        Declared::Parameters => parameters_item(alloc, tokens, from, depth),
        Declared::Typedef => typedef_item(alloc, tokens, from, depth),
        Declared::Name => named_block_item(alloc, tokens, from, depth),
    }
}

/// A declaration with a lifetime (6.21), and the place behind it.
#[tactic(auto, using(crate::proofs::Ways::local_stops))]
fn local_item(
    alloc: Global,
    tokens: &[Token],
    from: u32,
    depth: u32,
) -> Result<(BlockItem, u32), Stop>
    requires few { length tokens.now < 2 ^ 32 }
    requires from { from ≤ length tokens.now }
    requires depth { depth ≤ 512 }
    ensures tree { Gives (λ x. (block_item_tree x.0, x.1)) result (alternative 0 (at_depth tokens.now depth (lifetime ∙ local_declaration ∙ tok Semicolon) from)) }
    ensures end { IfOk result (λ x. (from < x.1) × (x.1 ≤ length tokens.now)) }
{
    let Some(kind) = lifetime(tokens, from) else {
        return Err(Stop::At {
            index: from,
            deep: false,
        });
    };
    local_declaration(alloc, tokens, from, kind, depth)
}

/// Variables that are declared with `var` (6.8), and the place behind them.
#[tactic(auto, using(sve_tree::proofs::StatementTrees::variable_block_item))]
fn variable_item(
    alloc: Global,
    tokens: &[Token],
    from: u32,
    depth: u32,
) -> Result<(BlockItem, u32), Stop>
    requires few { length tokens.now < 2 ^ 32 }
    requires from { from ≤ length tokens.now }
    requires depth { depth ≤ 512 }
    ensures tree { Gives (λ x. (block_item_tree x.0, x.1)) result (alternative 1 (at_depth tokens.now depth variable_declaration from)) }
    ensures end { IfOk result (λ x. (from < x.1) × (x.1 ≤ length tokens.now)) }
{
    let (declaration, end) = variable_declaration(alloc, tokens, from, depth)?;
    let declaration = Box::new(alloc, declaration)?;
    Ok((BlockItem::Variable { declaration }, end))
}

/// Variables whose type begins with a keyword (6.8), and the place behind them.
#[tactic(auto, using(sve_tree::proofs::StatementTrees::data_block_item, sve_parse_data::proofs::Views::block_data_view))]
fn data_item(
    alloc: Global,
    tokens: &[Token],
    from: u32,
    depth: u32,
) -> Result<(BlockItem, u32), Stop>
    requires few { length tokens.now < 2 ^ 32 }
    requires from { from ≤ length tokens.now }
    requires depth { depth ≤ 512 }
    ensures tree { Gives (λ x. (block_item_tree x.0, x.1)) result (alternative 2 (at_depth tokens.now depth data_declaration from)) }
    ensures end { IfOk result (λ x. (from < x.1) × (x.1 ≤ length tokens.now)) }
{
    let (declaration, end) = data_declaration(alloc, tokens, from, depth)?;
    let declaration = Box::new(alloc, declaration)?;
    Ok((BlockItem::Data { declaration }, end))
}

/// Parameters of a block (6.20), and the place behind them.
#[tactic(auto, using(sve_tree::proofs::StatementTrees::parameters_block_item))]
fn parameters_item(
    alloc: Global,
    tokens: &[Token],
    from: u32,
    depth: u32,
) -> Result<(BlockItem, u32), Stop>
    requires few { length tokens.now < 2 ^ 32 }
    requires from { from ≤ length tokens.now }
    requires depth { depth ≤ 512 }
    ensures tree { Gives (λ x. (block_item_tree x.0, x.1)) result (alternative 3 (at_depth tokens.now depth parameter_declaration from)) }
    ensures end { IfOk result (λ x. (from < x.1) × (x.1 ≤ length tokens.now)) }
{
    let (declaration, end) = parameter_declaration(alloc, tokens, from, depth)?;
    let declaration = Box::new(alloc, declaration)?;
    Ok((BlockItem::Parameters { declaration }, end))
}

/// A type of a block (6.18), and the place behind it.
#[tactic(auto, using(sve_tree::proofs::StatementTrees::typedef_block_item))]
fn typedef_item(
    alloc: Global,
    tokens: &[Token],
    from: u32,
    depth: u32,
) -> Result<(BlockItem, u32), Stop>
    requires few { length tokens.now < 2 ^ 32 }
    requires from { from ≤ length tokens.now }
    requires depth { depth ≤ 512 }
    ensures tree { Gives (λ x. (block_item_tree x.0, x.1)) result (alternative 4 (at_depth tokens.now depth type_declaration from)) }
    ensures end { IfOk result (λ x. (from < x.1) × (x.1 ≤ length tokens.now)) }
{
    let (declaration, end) = type_declaration(alloc, tokens, from, depth)?;
    let declaration = Box::new(alloc, declaration)?;
    Ok((BlockItem::Typedef { declaration }, end))
}

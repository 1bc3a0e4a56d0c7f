//! Items that declare names and hold neither statements nor items (IEEE 1800-2017, A.1.4, A.2.1.3 and A.2.9).

ghost use Rattle.std.specs.Prelude.{◌<◌, ◌≤◌, ◌^◌, length, IfOk};
ghost use Rattle.sve_grammar.specs.Reading.{at_depth};
ghost use Rattle.sve_grammar.specs.Gives.{Gives};
ghost use Rattle.sve_grammar.specs.Items.{item};
ghost use Rattle.sve_tree.specs.Items.{item_tree};
ghost use Rattle.sve_parse_flat_item.specs.Alternatives.{DeclarationLeads};

use crate::begins::DeclarationForm;
use std::alloc::Global;
use sve_grammar::Stop;
use sve_parse_data::{data_declaration, net_declaration, variable_declaration};
use sve_parse_simple_item::{genvar_declaration, modport_declaration};
use sve_token::Token;
use sve_tree::Item;

/// The declaration of this form that begins here, and the place behind it.
#[inline(never)]
#[tactic(auto, using(sve_tree::proofs::ItemTrees::genvars_item, sve_tree::proofs::ItemTrees::net_item, sve_tree::proofs::ItemTrees::variable_item, sve_tree::proofs::ItemTrees::data_item, sve_parse_data::proofs::Views::data_item_view, sve_tree::proofs::ItemTrees::modports_item))]
pub fn declaration_item(
    alloc: Global,
    tokens: &[Token],
    from: u32,
    depth: u32,
    form: DeclarationForm,
) -> Result<(Item, u32), Stop>
    requires few { length tokens.now < 2 ^ 32 }
    requires from { from ≤ length tokens.now }
    requires depth { depth ≤ 512 }
    requires form { DeclarationLeads tokens.now from form }
    ensures tree { Gives (λ x. (item_tree x.0, x.1)) result (at_depth tokens.now depth item from) }
    ensures end { IfOk result (λ x. (from < x.1) × (x.1 ≤ length tokens.now)) }
{
    match form {
        DeclarationForm::Genvars => {
            let (declaration, end) = genvar_declaration(alloc, tokens, from, depth)?;
            let declaration = Box::new(alloc, declaration)?;
            Ok((Item::Genvars { declaration }, end))
        }
        DeclarationForm::Net => {
            let (declaration, end) = net_declaration(alloc, tokens, from, depth)?;
            let declaration = Box::new(alloc, declaration)?;
            Ok((Item::Net { declaration }, end))
        }
        DeclarationForm::Variable => {
            let (declaration, end) = variable_declaration(alloc, tokens, from, depth)?;
            let declaration = Box::new(alloc, declaration)?;
            Ok((Item::Variable { declaration }, end))
        }
        DeclarationForm::Data => {
            let (declaration, end) = data_declaration(alloc, tokens, from, depth)?;
            let declaration = Box::new(alloc, declaration)?;
            Ok((Item::Data { declaration }, end))
        }
        DeclarationForm::Modports => {
            let (declaration, end) = modport_declaration(alloc, tokens, from, depth)?;
            let declaration = Box::new(alloc, declaration)?;
            Ok((Item::Modports { declaration }, end))
        }
    }
}

ghost use Rattle.std.specs.Prelude.{◌≡◌, ℕ, ◌<◌, ◌^◌, List, length, IfOk, Ok};
ghost use Rattle.sve_token.specs.declared.token.Token.{Token};
ghost use Rattle.sve_grammar.specs.Items.{chunk};
ghost use Rattle.sve_grammar.specs.Reading.{leaves, at_depth, Numbered};
ghost use Rattle.sve_tree.specs.Elements.{element_tree};
ghost use Rattle.sve_tree.specs.declared.element.Element.{Element};

use crate::Element;
use std::alloc::Global;
use sve_bytes::NoMemory;
use sve_token::Token;

/// Lists the numbers of the element's tokens, from left to right, where the element is what reading its chunk gives: they are 0,
/// 1, 2 and so on, each once, as many as the chunk has tokens.
pub fn spell(alloc: Global, element: &Element, tokens: &[Token]) -> Result<Vec<u32>, NoMemory>
    requires few { length tokens.now < 2 ^ 32 }
    requires read { at_depth tokens.now 0 chunk 0 ≡ Ok (element_tree element.now, length tokens.now) }
    ensures { IfOk result (λ v. v.items ≡ leaves (element_tree element.now)) }
{
    let mut numbers = Vec::with_capacity(alloc, tokens.len())?;
    'numbers: for i in 0..tokens.len() as u32 {
        numbers.push(i)?;
    }
    Ok(numbers)
}

/// Where an element is what reading a chunk gives, its tokens are numbered 0, 1, 2 and so on, each once, up to the token at which
/// reading ends.
#[tactic(auto, using(crate::proofs::Numbers::element_in_order))]
pub fn tokens_of_an_element_are_in_order()
    ensures { (tokens : List Token) (element : Element) (end : ℕ) → at_depth tokens 0 chunk 0 ≡ Ok (element_tree element, end) → Numbered 0 end (leaves (element_tree element)) }
{}

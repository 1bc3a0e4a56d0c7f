//! The element of a chunk: its tree and its words (IEEE 1800-2017, 3.12.1 and A.1.2).

ghost use Rattle.std.specs.Prelude.{◌≡◌, ◌<◌, ◌^◌, List, Ok, length, IfOk, IfErr};
ghost use Rattle.sve_token.specs.declared.token.Token.{Token};
ghost use Rattle.sve_grammar.specs.declared.stop.Stop.TheVariants.{NoMemory};
ghost use Rattle.sve_grammar.specs.Reading.{at_depth, leaves, Numbered};
ghost use Rattle.sve_grammar.specs.Gives.{Fails};
ghost use Rattle.sve_grammar.specs.Items.{chunk};
ghost use Rattle.sve_tree.specs.TokenWords.{words_of};
ghost use Rattle.sve_tree.specs.Elements.{element_tree};
ghost use Rattle.sve_element.specs.Chunk.{read_whole};

use crate::designs::optional_design;
use std::alloc::Global;
use sve_grammar::Stop;
use sve_parse_item::unit_items;
use sve_token::Token;
use sve_tree::{Element, Word};

/// The element of a chunk: items of the compilation unit's scope, and at most one module, interface or package behind them. It
/// is refused exactly where the grammar's machine does not come to the end of the chunk: where the machine stops, or in front
/// of the first token that no part of the chunk takes, which is then not deep. Its tokens are numbered 0, 1, 2 and so on to the
/// last, each once. The words decide its tree: each chunk with the same words is read as the same tree.
pub fn element(alloc: Global, tokens: &[Token]) -> Result<Element, Stop>
    requires few { length tokens.now < 2 ^ 32 }
    ensures tree { IfOk result (λ e. at_depth tokens.now 0 chunk 0 ≡ Ok (element_tree e, length tokens.now)) }
    ensures stop { IfErr result (λ e. Fails e (read_whole tokens.now)) }
    ensures words { IfOk result (λ e. e.words.items ≡ words_of tokens.now) }
    ensures order { IfOk result (λ e. Numbered 0 (length tokens.now) (leaves (element_tree e))) }
    ensures decided { IfOk result (λ e. (others : List Token) → words_of others ≡ words_of tokens.now → at_depth others 0 chunk 0 ≡ Ok (element_tree e, length others)) }
{
    let (items, at) = unit_items(alloc, tokens, 0, 0)?;
    let (design, end) = optional_design(alloc, tokens, at, 0)?;
    if (end as usize) < tokens.len() {
        return Err(Stop::At {
            index: end,
            deep: false,
        });
    }
    let words = words(alloc, tokens)?;
    Ok(Element {
        items,
        design,
        words,
    })
}

/// The words of the tokens, in order.
fn words(alloc: Global, tokens: &[Token]) -> Result<Vec<Word>, Stop>
    ensures words { IfOk result (λ v. v.items ≡ words_of tokens.now) }
    ensures stop { IfErr result (λ e. e ≡ NoMemory) }
{
    let mut words = Vec::with_capacity(alloc, tokens.len())?;
    'words: for token in tokens {
        let word = Word::of(alloc, token)?;
        words.push(word)?;
    }
    Ok(words)
}

//! A chunk, judged by the machine and read by the parsers.

ghost use Rattle.std.specs.Prelude.{◌≡◌, ◌<◌, ◌^◌, Ok, length, IfOk};
ghost use Rattle.sve_grammar.specs.Reading.{at_depth};
ghost use Rattle.sve_grammar.specs.Items.{chunk};
ghost use Rattle.sve_run.specs.Verdict.{SaysOnly};
ghost use Rattle.sve_tree.specs.TokenWords.{words_of};
ghost use Rattle.sve_tree.specs.Elements.{element_tree};
ghost use Rattle.sve_agree.specs.Agree.{Agree};

use std::alloc::{AllocError, Global};
use sve_bytes::NoMemory;
use sve_element::element;
use sve_grammar::Stop;
use sve_run::{Verdict, run};
use sve_token::Token;
use sve_tree::Element;

/// What the grammar's machine says of a chunk, and the chunk's element.
#[derive(Drop)]
pub struct Judged {
    /// What the machine says.
    pub verdict: Verdict,
    /// The element, or where the parsers stop.
    pub element: Result<Element, Stop>,
}

/// Runs the grammar's machine over the tokens of a chunk and reads its element (IEEE 1800-2017, Annex A). The two agree, whatever
/// the tokens are: there is an element exactly where the machine accepts, and else the parsers stop at the token at which the
/// machine stops, and both or neither because of the depth alone. The element has the chunk's tree and words. It fails for want
/// of memory alone.
#[tactic(auto, using(crate::proofs::Agreement::accepted, crate::proofs::Agreement::stopped))]
pub fn judge(alloc: Global, tokens: &[Token]) -> Result<Judged, NoMemory>
    requires few { length tokens.now < 2 ^ 32 }
    ensures machine { IfOk result (λ judged. SaysOnly tokens.now judged.verdict) }
    ensures agree { IfOk result (λ judged. Agree judged.verdict judged.element) }
    ensures tree { IfOk result (λ judged. IfOk judged.element (λ e. at_depth tokens.now 0 chunk 0 ≡ Ok (element_tree e, length tokens.now))) }
    ensures words { IfOk result (λ judged. IfOk judged.element (λ e. e.words.items ≡ words_of tokens.now)) }
{
    let verdict = run(alloc, tokens)?;
    match element(alloc, tokens) {
        Ok(element) => Ok(Judged {
            verdict,
            element: Ok(element),
        }),
        Err(Stop::At { index, deep }) => Ok(Judged {
            verdict,
            element: Err(Stop::At { index, deep }),
        }),
        Err(Stop::NoMemory) => Err(AllocError),
    }
}

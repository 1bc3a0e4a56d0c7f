//! The machine, from the start to its end.

ghost use Rattle.std.specs.Prelude.{◌≡◌, ◌<◌, ◌≤◌, ◌+◌, ◌*◌, ◌^◌, length, IfOk};
ghost use Rattle.sve_grammar.specs.Items.{chunk};
ghost use Rattle.sve_grammar.specs.Machine.{State, Comes};
ghost use Rattle.sve_grammar.specs.Reading.{at_depth};
ghost use Rattle.sve_run.specs.Runs.{steps_of};
ghost use Rattle.sve_run.specs.Verdict.{start, SaysOnly, judged};

use crate::entry::{Entry, Step};
use crate::items::ItemSign;
use crate::part::{Part, Sign};
use crate::step::take_step;
use crate::verdict::Verdict;
use std::alloc::Global;
use sve_bytes::NoMemory;
use sve_token::Token;

/// Runs the grammar's machine over the tokens of a chunk (IEEE 1800-2017, Annex A), from the rule of a chunk at depth 0. It
/// accepts exactly where the machine comes to the empty stack behind the last token, and else says where the machine stops.
/// It fails for want of memory alone. The machine ends: whatever the tokens are, no run of it is longer than so many steps for
/// each of them and for the end.
#[tactic(auto, using(crate::proofs::Bound::bounded))]
pub fn run(alloc: Global, tokens: &[Token]) -> Result<Verdict, NoMemory>
    requires few { length tokens.now < 2 ^ 32 }
    ensures machine { IfOk result (λ verdict. SaysOnly tokens.now verdict) }
    ensures linear { (s : State) (c : Comes tokens.now start s) → steps_of c ≤ 209 * 513 * (length tokens.now + 1) }
    ensures reading { IfOk result (λ verdict. verdict ≡ judged (length tokens.now) (at_depth tokens.now 0 chunk 0)) }
{
    let mut stack = Vec::new(alloc);
    stack.push(Entry::of(Part::Rule(Sign::Item(ItemSign::Chunk)), 0))?;
    let mut at = 0u32;
    'steps: while let Some(top) = stack.pop() {
        match take_step(tokens, at, top) {
            Step::Token => at += 1,
            Step::Nothing => {}
            Step::One(first) => {
                stack.push(first)?;
            }
            Step::Two(first, second) => {
                stack.push(second)?;
                stack.push(first)?;
            }
            Step::Stop(deep) => return Ok(Verdict::Stop { index: at, deep }),
        }
    }
    if at as usize == tokens.len() {
        return Ok(Verdict::Accept);
    }
    Ok(Verdict::Stop {
        index: at,
        deep: false,
    })
}

ghost use Rattle.std.specs.Prelude.{◌≡◌, ℕ, Bool, IfOk};
ghost use Rattle.sve_operand.specs.Pending.{value_in, linked, meaning_of};
ghost use Rattle.sve_operand.specs.Meaning.{unary_meaning, binary_meaning, choice_meaning};

use crate::context::settled;
use crate::evaluation::value;
use crate::operand::Operand;
use crate::pending::{Link, Pending};
use crate::sharing::{Sharing, shared_by, takes_context};
use std::alloc::{AllocError, Global};
use sve_value::{Binary, Unary};

/// A unary operator and its operand (IEEE 1800-2017, 11.4). It fails for want of memory alone.
#[tactic(auto, unfolding(crate::specs::Pending::value_in))]
pub fn unary(alloc: Global, operator: Unary, a: Operand) -> Result<Operand, AllocError>
    ensures { IfOk result (λ r. meaning_of r ≡ unary_meaning operator (meaning_of a)) }
{
    if !takes_context(operator) {
        return Ok(settled(sve_value::unary(operator, a.own_value())));
    }
    let (width, signed) = (a.width, a.signed);
    let operand = Box::new(alloc, a.into_pending())?;
    Ok(Operand {
        width,
        signed,
        pending: Pending::Unary { operator, operand },
    })
}

/// A binary operator and its operands (11.4). It fails for want of memory alone.
pub fn binary(
    alloc: Global,
    operator: Binary,
    a: Operand,
    b: Operand,
) -> Result<Operand, AllocError>
    ensures { IfOk result (λ r. meaning_of r ≡ binary_meaning operator (meaning_of a) (meaning_of b)) }
{
    match shared_by(operator) {
        Sharing::Shared => {
            let (width, signed) = (a.width.max(b.width), a.signed & b.signed);
            let link = Link::Shared {
                operator,
                right: b.into_pending(),
            };
            Ok(Operand {
                width,
                signed,
                pending: behind(alloc, a.into_pending(), link)?,
            })
        }
        Sharing::Compared => {
            let (width, signed) = (a.width.max(b.width), a.signed & b.signed);
            let left = value(&a.pending, width, signed);
            let right = value(&b.pending, width, signed);
            Ok(settled(sve_value::binary(operator, left, right)))
        }
        Sharing::Shifted(operator) => {
            let link = Link::Shifted {
                operator,
                right: b.own_value(),
            };
            let (width, signed) = (a.width, a.signed);
            Ok(Operand {
                width,
                signed,
                pending: behind(alloc, a.into_pending(), link)?,
            })
        }
        Sharing::Separate(operator) => { Ok(settled(operator.apply(a.own_value(), b.own_value()))) }
    }
}

/// One more operator behind what is left to do: a chain grows in place, so that a long one stays flat.
#[tactic(auto, using(crate::proofs::Pendings::chain_grows, crate::proofs::Pendings::chain_begins))]
fn behind(alloc: Global, pending: Pending, link: Link) -> Result<Pending, AllocError>
    ensures { IfOk result (λ r. (w : ℕ) (s : Bool) → value_in w s r ≡ linked w s link (value_in w s pending)) }
{
    match pending {
        Pending::Chain { first, mut links } => {
            links.push(link)?;
            Ok(Pending::Chain { first, links })
        }
        pending => {
            let mut links = Vec::new(alloc);
            links.push(link)?;
            let first = Box::new(alloc, pending)?;
            Ok(Pending::Chain { first, links })
        }
    }
}

/// `c ? a : b` (11.4.11). It fails for want of memory alone.
#[tactic(auto, unfolding(crate::specs::Pending::value_in))]
pub fn choice(alloc: Global, c: Operand, a: Operand, b: Operand) -> Result<Operand, AllocError>
    ensures { IfOk result (λ r. meaning_of r ≡ choice_meaning (meaning_of c) (meaning_of a) (meaning_of b)) }
{
    let condition = c.own_value();
    let (width, signed) = (a.width.max(b.width), a.signed & b.signed);
    let chosen = Box::new(alloc, a.into_pending())?;
    let otherwise = Box::new(alloc, b.into_pending())?;
    Ok(Operand {
        width,
        signed,
        pending: Pending::Choice {
            condition,
            chosen,
            otherwise,
        },
    })
}

ghost use Rattle.std.specs.Prelude.{◌≡◌, IfOk};
ghost use Rattle.sve_rule.specs.Judged.{judged, armed};
ghost use Rattle.sve_rule.specs.Rules.{unary_judged, binary_judged, arms_judged, choice_judged, outside_judged, inside_judged};

use std::alloc::{AllocError, Global};
use sve_diag::Code;
use sve_fault::Fault;
use sve_operand::Operand;
use sve_value::{Binary, Unary};

/// What an expression means, or its first fault in token order.
pub type Judged = Result<Operand, Fault>;

/// A unary operator and its operand (IEEE 1800-2017, 11.4). It fails for want of memory alone.
#[tactic(auto, unfolding(crate::specs::Rules::unary_judged))]
pub fn unary(alloc: Global, operator: Unary, a: Judged) -> Result<Judged, AllocError>
    ensures { IfOk result (λ r. judged r ≡ unary_judged operator (judged a)) }
{
    match a {
        Ok(a) => Ok(Ok(sve_operand::unary(alloc, operator, a)?)),
        Err(fault) => Ok(Err(fault)),
    }
}

/// A binary operator and its operands (11.4). It fails for want of memory alone.
#[tactic(auto, unfolding(crate::specs::Rules::binary_judged))]
pub fn binary(alloc: Global, operator: Binary, a: Judged, b: Judged) -> Result<Judged, AllocError>
    ensures { IfOk result (λ r. judged r ≡ binary_judged operator (judged a) (judged b)) }
{
    match a {
        Ok(a) => match b {
            Ok(b) => Ok(Ok(sve_operand::binary(alloc, operator, a, b)?)),
            Err(b) => Ok(Err(b)),
        },
        Err(a) => match b {
            Err(b) => Ok(Err(a.first(b))),
            Ok(_) => Ok(Err(a)),
        },
    }
}

/// The two arms of a choice, or the first fault of them.
fn arms(a: Judged, b: Judged) -> Result<(Operand, Operand), Fault>
    ensures { armed result ≡ arms_judged (judged a) (judged b) }
{
    match a {
        Ok(a) => match b {
            Ok(b) => Ok((a, b)),
            Err(b) => Err(b),
        },
        Err(a) => match b {
            Err(b) => Err(a.first(b)),
            Ok(_) => Err(a),
        },
    }
}

/// `c ? a : b` (11.4.11). It fails for want of memory alone.
#[tactic(auto, unfolding(crate::specs::Rules::choice_judged))]
pub fn choice(alloc: Global, c: Judged, a: Judged, b: Judged) -> Result<Judged, AllocError>
    ensures { IfOk result (λ r. judged r ≡ choice_judged (judged c) (judged a) (judged b)) }
{
    let arms = arms(a, b);
    match c {
        Ok(c) => match arms {
            Ok((a, b)) => Ok(Ok(sve_operand::choice(alloc, c, a, b)?)),
            Err(b) => Ok(Err(b)),
        },
        Err(a) => match arms {
            Err(b) => Ok(Err(a.first(b))),
            Ok(_) => Ok(Err(a)),
        },
    }
}

/// What is no constant of this profile, at its first token.
#[tactic(auto, unfolding(crate::specs::Rules::outside_judged))]
pub fn outside(token: u32) -> Judged
    ensures { judged result ≡ outside_judged token }
{
    Err(Fault::at(token, Code::C01))
}

/// What is no constant of this profile and begins with a part that may have an earlier fault, as `a inside {b}` does.
#[tactic(auto, unfolding(crate::specs::Rules::inside_judged))]
pub fn inside(token: u32, a: Judged) -> Judged
    ensures { judged result ≡ inside_judged token (judged a) }
{
    match a {
        Ok(_) => Err(Fault::at(token, Code::C01)),
        Err(fault) => Err(fault.first(Fault::at(token, Code::C01))),
    }
}

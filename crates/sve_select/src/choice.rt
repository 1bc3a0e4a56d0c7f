ghost use Rattle.std.specs.Prelude.{◌≡◌};
ghost use Rattle.sve_rule.specs.Judged.{judged};
ghost use Rattle.sve_select.specs.Choices.{place_judged, between_judged, upward_judged, downward_judged};

use sve_fault::Fault;
use sve_rule::Judged;
use sve_value::Bits;

/// What the brackets of a select say (IEEE 1800-2017, 11.5.1). The tokens are the first ones of bounds and widths that can be a fault.
#[derive(Clone, Copy)]
pub enum Choice {
    /// One place: `[i]`.
    Place(Bits),
    /// The places from one to another: `[l:r]`, each with its first token.
    Between(u32, Bits, u32, Bits),
    /// So many places, of which the first value is the lowest: `[b+:w]`, with the first token of the width.
    Upward(Bits, u32, Bits),
    /// So many places, of which the first value is the highest: `[b-:w]`, with the first token of the width.
    Downward(Bits, u32, Bits),
}

/// The values of two parts that stand by themselves, or their first fault.
macro_rules! both {
    ($a:expr, $b:expr, $x:ident, $y:ident, $choice:expr) => {
        match $a {
            Ok($x) => match $b {
                Ok($y) => Ok($choice),
                Err(b) => Err(b),
            },
            Err(a) => match $b {
                Err(b) => Err(a.first(b)),
                Ok(_) => Err(a),
            },
        }
    };
}

/// `[i]`.
#[tactic(auto, unfolding(crate::specs::Choices::place_judged))]
pub fn place(index: Judged) -> Result<Choice, Fault>
    ensures { result ≡ place_judged (judged index) }
{
    match index {
        Ok(index) => Ok(Choice::Place(index.own_value())),
        Err(fault) => Err(fault),
    }
}

/// `[l:r]`, each bound with its first token.
#[tactic(auto, unfolding(crate::specs::Choices::between_judged))]
pub fn between(
    left_token: u32,
    left: Judged,
    right_token: u32,
    right: Judged,
) -> Result<Choice, Fault>
    ensures { result ≡ between_judged left_token (judged left) right_token (judged right) }
{
    both!(
        left,
        right,
        l,
        r,
        Choice::Between(left_token, l.own_value(), right_token, r.own_value())
    )
}

/// `[b+:w]`, with the first token of the width.
#[tactic(auto, unfolding(crate::specs::Choices::upward_judged))]
pub fn upward(base: Judged, token: u32, width: Judged) -> Result<Choice, Fault>
    ensures { result ≡ upward_judged (judged base) token (judged width) }
{
    both!(
        base,
        width,
        b,
        w,
        Choice::Upward(b.own_value(), token, w.own_value())
    )
}

/// `[b-:w]`, with the first token of the width.
#[tactic(auto, unfolding(crate::specs::Choices::downward_judged))]
pub fn downward(base: Judged, token: u32, width: Judged) -> Result<Choice, Fault>
    ensures { result ≡ downward_judged (judged base) token (judged width) }
{
    both!(
        base,
        width,
        b,
        w,
        Choice::Downward(b.own_value(), token, w.own_value())
    )
}

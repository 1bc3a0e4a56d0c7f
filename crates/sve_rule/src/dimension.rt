ghost use Rattle.std.specs.Prelude.{◌≡◌};
ghost use Rattle.sve_types.specs.Dimensions.{place_count};
ghost use Rattle.sve_rule.specs.Judged.{judged};
ghost use Rattle.sve_rule.specs.Dimensions.{bound_of, between, range_judged, sized, size_judged, extended, extended_by};

use crate::operator::Judged;
use sve_diag::Code;
use sve_fault::Fault;
use sve_types::Range;
use sve_value::Bits;

/// The most places that the packed dimensions of a type have together.
const MAX_PLACES: u128 = 65_536;

/// The whole number of a bound: none where a bit is x or z, or where it is outside of 32 signed bits.
fn bound(value: Bits) -> Option<i32>
    ensures { result ≡ bound_of value }
{
    match value.integer() {
        None => None,
        Some(n) => {
            if n < -2_147_483_648 || n > 2_147_483_647 {
                return None;
            }
            Some(n as i32)
        }
    }
}

/// A dimension by the numbers of its bounds.
fn between(opening: u32, left: Option<i32>, right: Option<i32>) -> Result<Range, Fault>
    ensures { result ≡ between opening left right }
{
    match left {
        None => Err(Fault::at(opening, Code::C06)),
        Some(left) => match right {
            None => Err(Fault::at(opening, Code::C06)),
            Some(right) => Ok(Range { left, right }),
        },
    }
}

/// A dimension by its bounds, at its bracket (IEEE 1800-2017, 7.4).
#[tactic(auto, unfolding(crate::specs::Dimensions::range_judged))]
pub fn range(opening: u32, left: Judged, right: Judged) -> Result<Range, Fault>
    ensures { result ≡ range_judged opening (judged left) (judged right) }
{
    match left {
        Ok(a) => match right {
            Ok(b) => between(opening, bound(a.own_value()), bound(b.own_value())),
            Err(b) => Err(b),
        },
        Err(a) => match right {
            Err(b) => Err(a.first(b)),
            Ok(_) => Err(a),
        },
    }
}

/// A dimension by the number of its places, which is 1 at least.
fn sized(opening: u32, number: Option<i32>) -> Result<Range, Fault>
    ensures { result ≡ sized opening number }
{
    match number {
        None => Err(Fault::at(opening, Code::C06)),
        Some(n) => {
            if n < 1 {
                return Err(Fault::at(opening, Code::C06));
            }
            Ok(Range {
                left: 0,
                right: n - 1,
            })
        }
    }
}

/// A dimension by its size, at its bracket: `[n]` is `[0:n-1]` (7.4.2).
#[tactic(auto, unfolding(crate::specs::Dimensions::size_judged))]
pub fn size(opening: u32, number: Judged) -> Result<Range, Fault>
    ensures { result ≡ size_judged opening (judged number) }
{
    match number {
        Ok(a) => sized(opening, bound(a.own_value())),
        Err(a) => Err(a),
    }
}

/// How many places a dimension has, 1 to 2^32.
fn places(range: Range) -> u64
    ensures { result ≡ place_count range }
{
    (i64::from(range.left) - i64::from(range.right)).unsigned_abs() + 1
}

/// So many places, and a dimension more.
fn extended_by(opening: u32, count: u64, range: Range) -> Result<u64, Fault>
    ensures { result ≡ extended_by opening count range }
{
    let product = u128::from(count) * u128::from(places(range));
    if product > MAX_PLACES {
        return Err(Fault::at(opening, Code::C06));
    }
    Ok(product as u64)
}

/// The places of dimensions together, by those of the dimensions so far and a further one, at its bracket. They are 65,536 at the
/// most.
#[tactic(auto, unfolding(crate::specs::Dimensions::extended))]
pub fn extended(
    opening: u32,
    count: Result<u64, Fault>,
    range: Result<Range, Fault>,
) -> Result<u64, Fault>
    ensures { result ≡ extended opening count range }
{
    match count {
        Ok(count) => match range {
            Ok(range) => extended_by(opening, count, range),
            Err(b) => Err(b),
        },
        Err(a) => match range {
            Err(b) => Err(a.first(b)),
            Ok(_) => Err(a),
        },
    }
}

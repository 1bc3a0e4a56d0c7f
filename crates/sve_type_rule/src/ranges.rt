ghost use Rattle.std.specs.Prelude.{◌≡◌, IfOk};
ghost use Rattle.sve_types.specs.Dimensions.{place_count};
ghost use Rattle.sve_type_rule.specs.Ranges.{dimensioned, no_ranges, known_range, ranged};

use std::alloc::Global;
use sve_bytes::NoMemory;
use sve_diag::Code;
use sve_fault::Fault;
use sve_types::Range;

/// The most places that dimensions have together.
const MAX_PLACES: u128 = 65_536;

/// Dimensions in a row, as far as they stand (IEEE 1800-2017, 7.4).
#[derive(Drop)]
pub struct Ranges {
    /// Those that stand, from left to right.
    pub ranges: Vec<Range>,
    /// The places of them together, and of those behind them; 2^64 - 1 where there are as many or more.
    pub places: u64,
    /// All that is wrong so far, in the order of the text.
    pub faults: Vec<Fault>,
}

/// No dimension, before so many places. It takes no memory.
pub fn no_ranges(alloc: Global, places: u64, faults: Vec<Fault>) -> Ranges
    ensures { dimensioned result ≡ no_ranges places faults.items }
{
    Ranges {
        ranges: Vec::new(alloc),
        places,
        faults,
    }
}

/// How many places a dimension has, 1 to 2^32.
fn place_count(range: Range) -> u64
    ensures { result ≡ place_count range }
{
    (i64::from(range.left) - i64::from(range.right)).unsigned_abs() + 1
}

/// A dimension more, at its bracket.
fn known_range(opening: u32, before: Ranges, range: Range) -> Result<Ranges, NoMemory>
    ensures { IfOk result (λ r. dimensioned r ≡ known_range opening (dimensioned before) range) }
{
    let Ranges {
        mut ranges,
        places,
        mut faults,
    } = before;
    let product = u128::from(places) * u128::from(place_count(range));
    if product > MAX_PLACES {
        faults.push(Fault::at(opening, Code::C06))?;
        return Ok(Ranges {
            ranges,
            places,
            faults,
        });
    }
    ranges.push(range)?;
    Ok(Ranges {
        ranges,
        places: product as u64,
        faults,
    })
}

/// A dimension more, at its bracket, or what is wrong with it, which is left out. All have 65,536 places together at the most (C06). It
/// fails for want of memory alone.
#[tactic(auto, unfolding(crate::specs::Ranges::ranged))]
pub fn ranged(opening: u32, before: Ranges, range: Result<Range, Fault>) -> Result<Ranges, NoMemory>
    ensures { IfOk result (λ r. dimensioned r ≡ ranged opening (dimensioned before) range) }
{
    match range {
        Ok(range) => known_range(opening, before, range),
        Err(fault) => {
            let Ranges {
                ranges,
                places,
                mut faults,
            } = before;
            faults.push(fault)?;
            Ok(Ranges {
                ranges,
                places,
                faults,
            })
        }
    }
}

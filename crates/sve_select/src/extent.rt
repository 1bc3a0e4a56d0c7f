ghost use Rattle.std.specs.Prelude.{◌≡◌, IfOk};
ghost use Rattle.std.specs.Result.{result_map_both};
ghost use Rattle.sve_types.specs.Dimensions.{element_count};
ghost use Rattle.sve_types.specs.Widths.{counted};
ghost use Rattle.sve_select.specs.Extents.{can_be_packed, own_extent, extent_of, extent_judged, enlarged_by, enlarged_judged, extent_bits};

use crate::places::place_count;
use std::alloc::Global;
use sve_bytes::NoMemory;
use sve_diag::Code;
use sve_fault::Fault;
use sve_types::{Base, Range, Ty, width};

/// The most places that the packed dimensions of a type have together.
const MAX_PLACES: u128 = 65_536;

/// How much a type with packed dimensions holds.
#[derive(Clone, Copy)]
pub struct Extent {
    /// The places of its packed dimensions together; 2^64 - 1 where there are as many or more.
    pub places: u64,
    /// Its bits; 2^64 - 1 where there are as many or more.
    pub bits: u64,
}

/// How many elements dimensions have together; 2^64 - 1 where there are as many or more (IEEE 1800-2017, 7.4.2).
pub fn element_count(dimensions: &[Range]) -> u64
    ensures { result ≡ counted (element_count dimensions.now) }
{
    let mut total = 1u64;
    'dimensions: for range in dimensions {
        total = total.saturating_mul(place_count(*range));
    }
    total
}

/// Whether packed dimensions can stand before those of a type (7.4.1).
pub fn can_be_packed(ty: &Ty) -> bool
    ensures { result ≡ can_be_packed ty.now }
{
    if !ty.unpacked.items().is_empty() {
        return false;
    }
    match &ty.base {
        Base::Vector(..) => true,
        Base::Enum { .. } => true,
        Base::Struct { .. } => true,
        Base::Atom(..) => false,
        Base::Text => false,
    }
}

/// What a type holds by itself.
fn own_extent(ty: &Ty) -> Extent
    ensures { result ≡ own_extent ty.now }
{
    Extent {
        places: element_count(ty.packed.items()),
        bits: width(ty),
    }
}

/// A type that a name stands for, before which packed dimensions can stand.
fn extent_of(
    alloc: Global,
    token: u32,
    name: &[u8],
    ty: &Ty,
) -> Result<Result<Extent, Fault>, NoMemory>
    ensures { IfOk result (λ r. r ≡ extent_of token name.now ty.now) }
{
    if can_be_packed(ty) {
        return Ok(Ok(own_extent(ty)));
    }
    Ok(Err(Fault::about(alloc, token, Code::N11, name)?))
}

/// What the type holds that a name stands for, at the name's token, before packed dimensions are put before its own: so `$bits` of
/// `t[3:0]` begins (20.6.2). An integer type with a width of its own, a string, and a type with unpacked dimensions take none (N11). It
/// fails for want of memory alone.
#[tactic(auto, unfolding(crate::specs::Extents::extent_judged))]
pub fn type_extent(
    alloc: Global,
    token: u32,
    name: &[u8],
    ty: Result<&Ty, Fault>,
) -> Result<Result<Extent, Fault>, NoMemory>
    ensures { IfOk result (λ r. r ≡ extent_judged token name.now (result_map_both (λ t. t.now) (λ f. f) ty.entry)) }
{
    match ty {
        Ok(ty) => extent_of(alloc, token, name, ty),
        Err(fault) => Ok(Err(fault)),
    }
}

/// What a type holds with one dimension more, at its bracket.
fn enlarged_by(opening: u32, extent: Extent, range: Range) -> Result<Extent, Fault>
    ensures { result ≡ enlarged_by opening extent range }
{
    let count = place_count(range);
    let places = u128::from(extent.places) * u128::from(count);
    if places > MAX_PLACES {
        return Err(Fault::at(opening, Code::C06));
    }
    Ok(Extent {
        places: places as u64,
        bits: extent.bits.saturating_mul(count),
    })
}

/// What a type holds with a further packed dimension, at its bracket. All packed dimensions have 65,536 places together at the most
/// (C06).
#[tactic(auto, unfolding(crate::specs::Extents::enlarged_judged))]
pub fn enlarged(
    opening: u32,
    before: Result<Extent, Fault>,
    range: Result<Range, Fault>,
) -> Result<Extent, Fault>
    ensures { result ≡ enlarged_judged opening before range }
{
    match before {
        Ok(extent) => match range {
            Ok(range) => enlarged_by(opening, extent, range),
            Err(b) => Err(b),
        },
        Err(a) => match range {
            Err(b) => Err(a.first(b)),
            Ok(_) => Err(a),
        },
    }
}

/// The bits of a type, or what is wrong with it.
pub fn extent_bits(extent: Result<Extent, Fault>) -> Result<u64, Fault>
    ensures { result ≡ extent_bits extent }
{
    match extent {
        Ok(extent) => Ok(extent.bits),
        Err(fault) => Err(fault),
    }
}

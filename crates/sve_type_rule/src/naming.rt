ghost use Rattle.std.specs.Prelude.{◌≡◌, IfOk};
ghost use Rattle.std.specs.Result.{result_map_both};
ghost use Rattle.sve_types.specs.View.{form_of};
ghost use Rattle.sve_type_rule.specs.Ranges.{dimensioned};
ghost use Rattle.sve_type_rule.specs.Outcomes.{outcome, behind, scalar, named_type, named, array_form, packed_before, packed_outcome, unpacked_outcome};

use crate::noted::noted;
use crate::ranges::Ranges;
use crate::typed::Typed;
use std::alloc::Global;
use sve_bytes::{List, NoMemory};
use sve_diag::Code;
use sve_fault::Fault;
use sve_select::{can_be_packed, element_count};
use sve_types::{Base, Range, Ty, Vec_};

/// A type by its name, before its dimensions (IEEE 1800-2017, 6.18).
#[derive(Drop)]
pub struct NamedType {
    /// The type, which is one bit where the name is no type.
    pub ty: Ty,
    /// Whether packed dimensions stand before its own.
    pub is_packed: bool,
    /// How many places its own have together; 2^64 - 1 where there are as many or more.
    pub places: u64,
    /// All that is wrong so far, in the order of the text.
    pub faults: Vec<Fault>,
}

/// What stands for a type that is not there.
fn scalar(alloc: Global) -> Ty
    ensures { result ≡ scalar }
{
    Ty {
        base: Base::Vector(Vec_::Logic, false),
        packed: List::of(Vec::new(alloc)),
        unpacked: List::of(Vec::new(alloc)),
    }
}

/// A type that a name stands for.
fn named_type(
    alloc: Global,
    token: u32,
    name: &[u8],
    is_plain: bool,
    faults: Vec<Fault>,
    ty: &Ty,
) -> Result<NamedType, NoMemory>
    ensures { IfOk result (λ n. behind n ≡ named_type token name.now is_plain faults.items ty.now) }
{
    let is_packed = can_be_packed(ty);
    Ok(NamedType {
        ty: ty.copy(alloc)?,
        is_packed,
        places: element_count(ty.packed.items()),
        faults: noted(alloc, is_plain | is_packed, token, Code::N11, name, faults)?,
    })
}

/// What a name stands for as a type, at its token, by whether dimensions stand behind it. Dimensions before a type that takes none are
/// the wrong thing (N11); a name that is no type stands for one bit. It fails for want of memory alone.
#[tactic(auto, unfolding(crate::specs::Outcomes::named))]
pub fn named(
    alloc: Global,
    token: u32,
    name: &[u8],
    is_plain: bool,
    faults: Vec<Fault>,
    ty: Result<&Ty, Fault>,
) -> Result<NamedType, NoMemory>
    ensures { IfOk result (λ n. behind n ≡ named token name.now is_plain faults.items (result_map_both (λ t. t.now) (λ f. f) ty.entry)) }
{
    match ty {
        Ok(ty) => named_type(alloc, token, name, is_plain, faults, ty),
        Err(fault) => {
            let mut faults = faults;
            faults.push(fault)?;
            Ok(NamedType {
                ty: scalar(alloc),
                is_packed: false,
                places: 1,
                faults,
            })
        }
    }
}

/// What an array is of: a vector is then unsigned.
fn array_base(base: Base) -> Base
    ensures { form_of result ≡ array_form (form_of base) }
{
    match base {
        Base::Vector(kind, _) => Base::Vector(kind, false),
        other => other,
    }
}

/// A type with packed dimensions before its own.
fn packed_before(ty: Ty, ranges: Vec<Range>) -> Result<Ty, NoMemory>
    ensures { IfOk result (λ t. t ≡ packed_before ranges.items ty) }
{
    if ranges.is_empty() {
        return Ok(ty);
    }
    let Ty {
        base,
        packed,
        unpacked,
    } = ty;
    let mut ranges = ranges;
    ranges.extend_from_slice(packed.items())?;
    Ok(Ty {
        base: array_base(base),
        packed: List::of(ranges),
        unpacked,
    })
}

/// A type with packed dimensions before its own, where it takes them (7.4.1). An array of a signed vector is unsigned as a whole. It
/// fails for want of memory alone.
#[tactic(auto, unfolding(crate::specs::Outcomes::packed_outcome))]
pub fn packed(ty: Ty, is_packed: bool, ranges: Ranges) -> Result<Typed, NoMemory>
    ensures { IfOk result (λ t. outcome t ≡ packed_outcome ty is_packed (dimensioned ranges)) }
{
    let Ranges {
        ranges,
        places: _,
        faults,
    } = ranges;
    if !is_packed {
        return Ok(Typed { ty, faults });
    }
    Ok(Typed {
        ty: packed_before(ty, ranges)?,
        faults,
    })
}

/// A type with unpacked dimensions before its own (7.4.2). It fails for want of memory alone.
#[tactic(auto, unfolding(crate::specs::Outcomes::unpacked_outcome))]
pub fn unpacked(ty: Ty, ranges: Ranges) -> Result<Typed, NoMemory>
    ensures { IfOk result (λ t. outcome t ≡ unpacked_outcome ty (dimensioned ranges)) }
{
    let Ranges {
        mut ranges,
        places: _,
        faults,
    } = ranges;
    let Ty {
        base,
        packed,
        unpacked,
    } = ty;
    ranges.extend_from_slice(unpacked.items())?;
    Ok(Typed {
        ty: Ty {
            base,
            packed,
            unpacked: List::of(ranges),
        },
        faults,
    })
}

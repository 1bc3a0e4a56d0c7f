ghost use Rattle.std.specs.Prelude.{◌≡◌};
ghost use Rattle.sve_types.specs.View.{form_of};
ghost use Rattle.sve_types.specs.DataType.{atom};
ghost use Rattle.sve_type_rule.specs.Ranges.{dimensioned};
ghost use Rattle.sve_type_rule.specs.Outcomes.{outcome, plain, vector_outcome};

use crate::ranges::Ranges;
use std::alloc::Global;
use sve_bytes::List;
use sve_fault::Fault;
use sve_types::{Atom, Base, Ty, Vec_};

/// A type, and all that is wrong so far.
#[derive(Drop)]
pub struct Typed {
    /// The type.
    pub ty: Ty,
    /// All that is wrong so far, in the order of the text.
    pub faults: Vec<Fault>,
}

/// A type without dimensions. It takes no memory.
pub fn plain(alloc: Global, base: Base, faults: Vec<Fault>) -> Typed
    ensures { outcome result ≡ plain (form_of base) faults.items }
{
    Typed {
        ty: Ty {
            base,
            packed: List::of(Vec::new(alloc)),
            unpacked: List::of(Vec::new(alloc)),
        },
        faults,
    }
}

/// An integer type with a width of its own (IEEE 1800-2017, 6.11). It takes no memory.
pub fn atom(alloc: Global, kind: Atom, signed: bool, faults: Vec<Fault>) -> Typed
    ensures { outcome result ≡ plain (atom kind signed) faults.items }
{
    plain(alloc, Base::Atom(kind, signed), faults)
}

/// A type of a bit for each place of its packed dimensions (6.11). It takes no memory.
pub fn vector(alloc: Global, kind: Vec_, signed: bool, ranges: Ranges) -> Typed
    ensures { outcome result ≡ vector_outcome kind signed (dimensioned ranges) }
{
    let Ranges {
        ranges,
        places: _,
        faults,
    } = ranges;
    Typed {
        ty: Ty {
            base: Base::Vector(kind, signed),
            packed: List::of(ranges),
            unpacked: List::of(Vec::new(alloc)),
        },
        faults,
    }
}

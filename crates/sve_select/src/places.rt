ghost use Rattle.std.specs.Prelude.{◌≡◌, drop};
ghost use Rattle.std.specs.Option.{option_map};
ghost use Rattle.sve_value.specs.Vector.{IsWidth};
ghost use Rattle.sve_types.specs.DataType.{form_of_type, packed_dimensions};
ghost use Rattle.sve_types.specs.Dimensions.{place_count};
ghost use Rattle.sve_select.specs.Pieces.{selectable_of, has_two_states, bits_in, packed_places, places_of, seen_places};

use crate::part::Rest;
use sve_types::{Base, Range, Ty, four_state};

/// The places of which a select takes some, and what each of them is.
#[derive(Clone, Copy)]
pub(crate) struct Places<'t> {
    pub(crate) range: Range,
    pub(crate) each: Rest<'t>,
}

/// Whether x and z are no bits of what is left.
#[tactic(auto, using(crate::proofs::Types::states_of_form))]
pub(crate) fn has_two_states(rest: Rest) -> bool
    ensures { result ≡ has_two_states (selectable_of rest.entry) }
{
    match rest {
        Rest::Typed(ty, _) => !four_state(ty),
        Rest::Row => false,
        Rest::Bit => false,
        Rest::Run => false,
    }
}

/// The places of a vector of so many bits.
fn bits_in<'t>(width: u32, each: Rest<'t>) -> Places<'t>
    requires { IsWidth width }
    ensures { seen_places result ≡ bits_in width (selectable_of each.entry) }
{
    Places {
        range: Range {
            left: width as i32 - 1,
            right: 0,
        },
        each,
    }
}

/// The places of a type of so many bits, without so many of its packed dimensions.
#[tactic(auto, using(crate::proofs::Types::places_taken, crate::proofs::Types::places_left, crate::proofs::Types::places_of_type), unfolding(crate::specs::Pieces::form_places))]
fn typed_places<'t>(ty: &'t Ty, taken: usize, width: u32) -> Option<Places<'t>>
    requires { IsWidth width }
    ensures { option_map seen_places result ≡ packed_places width (form_of_type ty.now) (drop taken (packed_dimensions ty.now)) }
{
    let packed = ty.packed.items();
    if taken < packed.len() {
        return Some(Places {
            range: packed[taken],
            each: Rest::Typed(ty, taken + 1),
        });
    }
    match &ty.base {
        Base::Atom(..) => Some(bits_in(width, Rest::Bit)),
        Base::Vector(..) => None,
        Base::Enum { of, .. } => typed_places(of, 0, width),
        Base::Struct { .. } => Some(bits_in(width, Rest::Bit)),
        Base::Text => None,
    }
}

/// The places of what is left of a value of so many bits.
pub(crate) fn places_of<'t>(rest: Rest<'t>, width: u32) -> Option<Places<'t>>
    requires { IsWidth width }
    ensures { option_map seen_places result ≡ places_of width (selectable_of rest.entry) }
{
    match rest {
        Rest::Typed(ty, taken) => typed_places(ty, taken, width),
        Rest::Row => Some(bits_in(width, Rest::Run)),
        Rest::Bit => None,
        Rest::Run => None,
    }
}

/// How many places a dimension has, 1 to 2^32.
pub(crate) fn place_count(range: Range) -> u64
    ensures { result ≡ place_count range }
{
    (i64::from(range.left) - i64::from(range.right)).unsigned_abs() + 1
}

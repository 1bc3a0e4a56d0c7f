ghost use Rattle.std.specs.Prelude.{◌≡◌, ◌↔◌, IsTrue, map};
ghost use Rattle.sve_types.specs.View.{form_of};
ghost use Rattle.sve_types.specs.Dimensions.{place_count};
ghost use Rattle.sve_types.specs.Equivalence.{form_declaration, IsEquivalent};

use crate::signs::signed;
use crate::states::four_state;
use crate::ty::{Base, Range, Ty};
use crate::widths::{places, width};

fn have_same_sizes(a: &[Range], b: &[Range]) -> bool
    ensures { IsTrue result ↔ (map place_count a.now ≡ map place_count b.now) }
{
    if a.len() != b.len() {
        return false;
    }
    'dimensions: for (i, range) in a.iter().enumerate() {
        if places(*range) != places(b[i]) {
            return false;
        }
    }
    true
}

fn have_same_declaration(a: &Base, b: &Base) -> bool
    ensures { IsTrue result ↔ (form_declaration (form_of a.now) ≡ form_declaration (form_of b.now)) }
{
    match (a, b) {
        (Base::Enum { id, .. }, Base::Enum { id: other, .. }) => {
            id.0 == other.0 && id.1 == other.1 && id.2 == other.2
        }
        (Base::Enum { .. }, _) | (_, Base::Enum { .. }) => false,
        _ => true,
    }
}

/// Whether two types are equivalent (IEEE 1800-2017, 6.22.2): their unpacked dimensions agree in number and sizes, and
/// their widths, states and signs agree; and an enumeration is equivalent only to one of the same declaration (own). It
/// takes no memory.
pub fn equivalent(a: &Ty, b: &Ty) -> bool
    ensures { IsTrue result ↔ IsEquivalent a.now b.now }
{
    have_same_sizes(a.unpacked.items(), b.unpacked.items())
        && width(a) == width(b)
        && four_state(a) == four_state(b)
        && signed(a) == signed(b)
        && have_same_declaration(&a.base, &b.base)
}

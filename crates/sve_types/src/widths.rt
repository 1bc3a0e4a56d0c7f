ghost use Rattle.std.specs.Prelude.{◌≡◌, ℕ, ◌*◌};
ghost use Rattle.sve_types.specs.View.{form_of, members_of};
ghost use Rattle.sve_types.specs.Dimensions.{place_count, element_count};
ghost use Rattle.sve_types.specs.Widths.{atom_bits, bits_of, form_bits, members_bits, counted};

use crate::ty::{Atom, Base, Range, Ty};
use sve_bytes::Name;

fn atom_width(atom: Atom) -> u64
    ensures { result ≡ atom_bits atom }
{
    match atom {
        Atom::Byte => 8,
        Atom::ShortInt => 16,
        Atom::Int | Atom::Integer => 32,
        Atom::LongInt | Atom::Time => 64,
    }
}

/// How many places a dimension has, 1 to 2^32.
pub(crate) fn places(range: Range) -> u64
    ensures { result ≡ place_count range }
{
    (i64::from(range.left) - i64::from(range.right)).unsigned_abs() + 1
}

/// The width of as many elements as the dimensions have.
fn repeated(width: u64, dimensions: &[Range]) -> u64
    ensures { (bits : ℕ) → width ≡ counted bits → result ≡ counted (bits * element_count dimensions.now) }
{
    let mut total = width;
    'dimensions: for range in dimensions {
        total = total.saturating_mul(places(*range));
    }
    total
}

/// The number of bits of a type, packed and unpacked dimensions included; 2^64 - 1 where there are as many or more (own).
/// A string has none (own). It goes as deep as the type nests, and takes no memory.
#[cycle(width)]
#[tactic(auto, using(crate::proofs::Rows::size_of_member), unfolding(crate::specs::Widths::bits_of))]
pub fn width(t: &Ty) -> u64
    ensures { result ≡ counted (bits_of t.now) }
{
    let packed = repeated(base_width(&t.base), t.packed.items());
    repeated(packed, t.unpacked.items())
}

#[cycle(width)]
#[tactic(auto, using(crate::proofs::Rows::size_of_member), unfolding(crate::specs::Widths::bits_of))]
fn base_width(base: &Base) -> u64
    ensures { result ≡ counted (form_bits (form_of base.now)) }
{
    match base {
        Base::Atom(atom, _) => atom_width(*atom),
        Base::Vector(..) => 1,
        Base::Enum { of, .. } => width(of),
        Base::Struct { members, .. } => members_width(members.as_slice()),
        Base::Text => 0,
    }
}

#[cycle(width)]
#[tactic(auto, using(crate::proofs::Rows::size_of_member), unfolding(crate::specs::Widths::bits_of))]
fn members_width(members: &[(Name, Ty)]) -> u64
    ensures { result ≡ counted (members_bits (members_of members.now)) }
{
    let mut total = 0u64;
    'members: for (_, member) in members {
        total = total.saturating_add(width(member));
    }
    total
}

ghost use Rattle.std.specs.Prelude.{◌≡◌};
ghost use Rattle.sve_types.specs.Signs.{is_signed};

use crate::ty::{Base, Ty};

/// Whether a type is signed: as it is declared, an enumeration as its base, a string never (own). Dimensions change nothing
/// (own). It takes no memory.
#[tactic(auto, unfolding(crate::specs::Signs::is_signed))]
pub fn signed(t: &Ty) -> bool
    ensures { result ≡ is_signed t.now }
{
    match &t.base {
        Base::Atom(_, signed) | Base::Vector(_, signed) => *signed,
        Base::Enum { of, .. } => signed(of),
        Base::Struct { signed, .. } => *signed,
        Base::Text => false,
    }
}

ghost use Rattle.std.specs.Prelude.{◌≡◌};
ghost use Rattle.sve_types.specs.View.{form_of, members_of};
ghost use Rattle.sve_types.specs.States.{atom_has_four_states, vec_has_four_states, has_four_states, form_has_four_states, a_member_has_four_states};

use crate::ty::{Atom, Base, Ty, Vec_};
use sve_bytes::Name;

fn atom_has_four_states(atom: Atom) -> bool
    ensures { result ≡ atom_has_four_states atom }
{
    matches!(atom, Atom::Integer | Atom::Time)
}

fn vec_has_four_states(vec: Vec_) -> bool
    ensures { result ≡ vec_has_four_states vec }
{
    matches!(vec, Vec_::Logic | Vec_::Reg)
}

/// Whether the bits of a type can be x and z: those of an enumeration where its base's can, those of a structure where a
/// member's can, those of a string never (own). It goes as deep as the type nests, and takes no memory.
#[cycle(states)]
#[tactic(auto, using(crate::proofs::Rows::size_of_member), unfolding(crate::specs::States::has_four_states))]
pub fn four_state(t: &Ty) -> bool
    ensures { result ≡ has_four_states t.now }
{
    base_has_four_states(&t.base)
}

#[cycle(states)]
#[tactic(auto, using(crate::proofs::Rows::size_of_member), unfolding(crate::specs::States::has_four_states))]
fn base_has_four_states(base: &Base) -> bool
    ensures { result ≡ form_has_four_states (form_of base.now) }
{
    match base {
        Base::Atom(atom, _) => atom_has_four_states(*atom),
        Base::Vector(vec, _) => vec_has_four_states(*vec),
        Base::Enum { of, .. } => four_state(of),
        Base::Struct { members, .. } => a_member_has_four_states(members.as_slice()),
        Base::Text => false,
    }
}

#[cycle(states)]
#[tactic(auto, using(crate::proofs::Rows::size_of_member), unfolding(crate::specs::States::has_four_states))]
fn a_member_has_four_states(members: &[(Name, Ty)]) -> bool
    ensures { result ≡ a_member_has_four_states (members_of members.now) }
{
    'members: for (_, member) in members {
        if four_state(member) {
            return true;
        }
    }
    false
}

ghost use Rattle.std.specs.Prelude.{◌≡◌, ℕ};
ghost use Rattle.sve_bytes.specs.TreeOrder.{tree_cmp};
ghost use Rattle.sve_types.specs.View.{form_of};
ghost use Rattle.sve_spec.specs.Trees.{atom_number, form_tree, list_tree, member_tree, place_tree, type_tree, vec_number};

use crate::row_order::row_order;
use crate::value_order::{bool_order, name_order};
use std::cmp::Ordering;
use sve_bytes::Name;
use sve_types::{Atom, Base, Ty, Vec_};

/// The number of a word for an integer type with a width of its own.
fn atom_number(atom: Atom) -> u32
    ensures { result ≡ atom_number atom }
{
    match atom {
        Atom::Byte => 0,
        Atom::ShortInt => 1,
        Atom::Int => 2,
        Atom::LongInt => 3,
        Atom::Integer => 4,
        Atom::Time => 5,
    }
}

/// The number of a word for an integer type of a bit for each place.
fn vec_number(vec: Vec_) -> u32
    ensures { result ≡ vec_number vec }
{
    match vec {
        Vec_::Bit => 0,
        Vec_::Logic => 1,
        Vec_::Reg => 2,
    }
}

/// How the place of a declaration stands to another.
fn place_order(place: &(Name, u32, u32), other: &(Name, u32, u32)) -> Ordering
    ensures { result ≡ tree_cmp (place_tree place.now) (place_tree other.now) }
{
    name_order(&place.0, &other.0).then(place.1.cmp(&other.1).then(place.2.cmp(&other.2)))
}

/// How a type stands to another.
#[cycle(types)]
#[tactic(auto, using(crate::proofs::Rows::size_of_member, crate::proofs::TreeOrders::members_list))]
pub(crate) fn type_order(ty: &Ty, other: &Ty) -> Ordering
    ensures { result ≡ tree_cmp (type_tree ty.now) (type_tree other.now) }
{
    let dimensions = row_order(ty.packed.items(), other.packed.items()).then(row_order(
        ty.unpacked.items(),
        other.unpacked.items(),
    ));
    form_order(&ty.base, &other.base).then(dimensions)
}

/// How what stands before the dimensions of a type stands to another.
#[cycle(types)]
#[tactic(auto, using(crate::proofs::Rows::size_of_member, crate::proofs::TreeOrders::members_list))]
fn form_order(base: &Base, other: &Base) -> Ordering
    ensures { result ≡ tree_cmp (form_tree (form_of base.now)) (form_tree (form_of other.now)) }
{
    match base {
        Base::Atom(atom, signed) => match other {
            Base::Atom(opposite, sign) => atom_number(*atom)
                .cmp(&atom_number(*opposite))
                .then(bool_order(*signed, *sign)),
            Base::Vector(_, _) => Ordering::Less,
            Base::Enum { .. } => Ordering::Less,
            Base::Struct { .. } => Ordering::Less,
            Base::Text => Ordering::Less,
        },
        Base::Vector(vec, signed) => match other {
            Base::Atom(_, _) => Ordering::Greater,
            Base::Vector(opposite, sign) => vec_number(*vec)
                .cmp(&vec_number(*opposite))
                .then(bool_order(*signed, *sign)),
            Base::Enum { .. } => Ordering::Less,
            Base::Struct { .. } => Ordering::Less,
            Base::Text => Ordering::Less,
        },
        Base::Enum { id, of, names } => match other {
            Base::Atom(_, _) => Ordering::Greater,
            Base::Vector(_, _) => Ordering::Greater,
            Base::Enum {
                id: place,
                of: over,
                names: opposite,
            } => place_order(id, place).then(type_order(of, over).then(row_order(
                names.items(),
                opposite.items(),
            ))),
            Base::Struct { .. } => Ordering::Less,
            Base::Text => Ordering::Less,
        },
        Base::Struct { signed, members } => match other {
            Base::Atom(_, _) => Ordering::Greater,
            Base::Vector(_, _) => Ordering::Greater,
            Base::Enum { .. } => Ordering::Greater,
            Base::Struct {
                signed: sign,
                members: opposite,
            } => bool_order(*signed, *sign).then(members_order(
                members.as_slice(),
                opposite.as_slice(),
            )),
            Base::Text => Ordering::Less,
        },
        Base::Text => match other {
            Base::Atom(_, _) => Ordering::Greater,
            Base::Vector(_, _) => Ordering::Greater,
            Base::Enum { .. } => Ordering::Greater,
            Base::Struct { .. } => Ordering::Greater,
            Base::Text => Ordering::Equal,
        },
    }
}

/// How the members of a structure stand to those of another.
#[cycle(types)]
#[tactic(auto, using(crate::proofs::Rows::size_of_member, crate::proofs::TreeOrders::members_list))]
fn members_order(members: &[(Name, Ty)], other: &[(Name, Ty)]) -> Ordering
    ensures { result ≡ tree_cmp (list_tree member_tree members.now) (list_tree member_tree other.now) }
{
    'members: for (place, member) in members.iter().enumerate() {
        let Some(opposite) = other.get(place) else {
            return Ordering::Greater;
        };
        let order = name_order(&member.0, &opposite.0).then(type_order(&member.1, &opposite.1));
        if order.is_ne() {
            return order;
        }
    }
    if members.len() < other.len() {
        Ordering::Less
    } else {
        Ordering::Equal
    }
}

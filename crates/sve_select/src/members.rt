ghost use Rattle.std.specs.Prelude.{◌≡◌, drop, IfOk};
ghost use Rattle.std.specs.Option.{option_map};
ghost use Rattle.sve_types.specs.DataType.{form_of_type, packed_dimensions};
ghost use Rattle.sve_types.specs.View.{members_of};
ghost use Rattle.sve_types.specs.Widths.{members_bits, counted};
ghost use Rattle.sve_select.specs.Pieces.{selectable_of, piece_of, pieced};
ghost use Rattle.sve_select.specs.Members.{member_of, packed_members, members_in, member_piece, found_member, in_members, dotted, member_judged, seen_member};

use crate::part::{Part, Rest, Selected};
use crate::places::has_two_states;
use std::alloc::Global;
use sve_bytes::{Name, NoMemory};
use sve_diag::Code;
use sve_fault::{Fault, Said};
use sve_types::{Base, Ty, signed, width};
use sve_value::{Bits, select};

/// A member, and how many bits stand behind it.
#[derive(Clone, Copy)]
struct FoundMember<'t> {
    behind: u64,
    ty: &'t Ty,
}

/// How many bits members have together.
#[tactic(auto, unfolding(sve_types::specs::Widths::members_bits))]
fn bits_of(members: &[(Name, Ty)]) -> u64
    ensures { result ≡ counted (members_bits (members_of members.now)) }
{
    let mut total = 0u64;
    'members: for (_, member) in members {
        total = total.saturating_add(width(member));
    }
    total
}

/// The first member of a name.
#[tactic(auto, using(crate::proofs::Types::member_further, crate::proofs::Types::member_nowhere))]
fn member_of<'t>(name: &[u8], members: &'t [(Name, Ty)]) -> Option<FoundMember<'t>>
    ensures { option_map seen_member result ≡ member_of name.now (members_of members.now) }
{
    'members: for (i, (other, ty)) in members.iter().enumerate() {
        if other.bytes() == name {
            return Some(FoundMember {
                behind: bits_of(&members[i + 1..]),
                ty,
            });
        }
    }
    None
}

/// The members of a structure without so many of its packed dimensions, which are all of them.
#[tactic(auto, using(crate::proofs::Types::members_taken, crate::proofs::Types::members_left))]
fn typed_members<'t>(ty: &'t Ty, taken: usize) -> Option<&'t [(Name, Ty)]>
    ensures { option_map (λ ms. members_of ms.now) result ≡ packed_members (form_of_type ty.now) (drop taken (packed_dimensions ty.now)) }
{
    if taken < ty.packed.items().len() {
        return None;
    }
    match &ty.base {
        Base::Struct { members, .. } => Some(members.as_slice()),
        Base::Atom(..) => None,
        Base::Vector(..) => None,
        Base::Enum { .. } => None,
        Base::Text => None,
    }
}

/// The members of what is left.
fn members_in<'t>(rest: Rest<'t>) -> Option<&'t [(Name, Ty)]>
    ensures { option_map (λ ms. members_of ms.now) result ≡ members_in (selectable_of rest.entry) }
{
    match rest {
        Rest::Typed(ty, taken) => typed_members(ty, taken),
        Rest::Row => None,
        Rest::Bit => None,
        Rest::Run => None,
    }
}

/// A member of a value, with its own size and sign.
fn member_part<'t>(
    first: u32,
    value: Bits,
    two_states: bool,
    behind: u64,
    ty: &'t Ty,
) -> Selected<'t>
    ensures { pieced result ≡ member_piece first value two_states behind ty.now }
{
    let size = width(ty);
    if size == 0 {
        return Err(Fault::at(first, Code::C01));
    }
    if size > 128 {
        return Err(Fault::at(first, Code::C03));
    }
    let size = size as u32;
    let low = behind.min(128) as i64;
    let value = select(value, low, size, two_states).extend(size, signed(ty));
    Ok(Part {
        value,
        rest: Rest::Typed(ty, 0),
    })
}

/// A member of a name among those of a structure.
fn found_member<'t>(
    alloc: Global,
    first: u32,
    token: u32,
    name: &[u8],
    part: &Part<'t>,
    members: &'t [(Name, Ty)],
) -> Result<Selected<'t>, NoMemory>
    ensures { IfOk result (λ r. pieced r ≡ found_member first token name.now (piece_of part.now) (member_of name.now (members_of members.now))) }
{
    match member_of(name, members) {
        None => Ok(Err(Fault::about(alloc, token, Code::E12, name)?)),
        Some(member) => Ok(member_part(
            first,
            part.value,
            has_two_states(part.rest),
            member.behind,
            member.ty,
        )),
    }
}

/// A member of what is left, where that is a structure.
fn in_members<'t>(
    alloc: Global,
    first: u32,
    token: u32,
    name: &[u8],
    part: &Part<'t>,
) -> Result<Selected<'t>, NoMemory>
    ensures { IfOk result (λ r. pieced r ≡ in_members first token name.now (piece_of part.now) (members_in (selectable_of part.now.rest))) }
{
    match members_in(part.rest) {
        None => Ok(Err(Fault::at(first, Code::C01))),
        Some(members) => found_member(alloc, first, token, name, part, members),
    }
}

/// What is wrong with a name before a dot.
fn dotted(first: u32, last: u32, fault: Fault) -> Fault
    ensures { result ≡ dotted first last fault }
{
    if fault.token > last {
        return fault;
    }
    match fault.said {
        Said::Nothing => fault,
        Said::Here { .. } => Fault::at(first, Code::C01),
        Said::Elsewhere(_) => Fault::at(first, Code::C01),
    }
}

/// A member of what earlier selects have led to (IEEE 1800-2017, 7.2.1). The tokens are the first one of the whole, the last one of
/// its name, and that of the member. What is no structure has no member (C01), whatever is wrong with its name; and a structure can
/// have none of this name (E12). It fails for want of memory alone.
#[tactic(auto, unfolding(crate::specs::Members::member_judged))]
pub fn member<'t>(
    alloc: Global,
    first: u32,
    last: u32,
    token: u32,
    name: &[u8],
    before: Selected<'t>,
) -> Result<Selected<'t>, NoMemory>
    ensures { IfOk result (λ r. pieced r ≡ member_judged first last token name.now (pieced before.entry)) }
{
    match before {
        Ok(part) => in_members(alloc, first, token, name, &part),
        Err(fault) => Ok(Err(dotted(first, last, fault))),
    }
}

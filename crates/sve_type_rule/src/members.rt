ghost use Rattle.std.specs.Prelude.{◌≡◌, [], IfOk};
ghost use Rattle.sve_fault.specs.Faults.{argument_of};
ghost use Rattle.sve_type_rule.specs.Members.{membered, no_members, can_be_member, with_member, member_after};

use crate::noted::noted;
use std::alloc::Global;
use sve_bytes::{Name, NoMemory};
use sve_diag::Code;
use sve_fault::{Fault, argument};
use sve_types::{Base, Ty};

/// The members of a packed structure, the most significant first (IEEE 1800-2017, 7.2.1).
#[derive(Drop)]
pub struct Members {
    /// The members.
    pub members: Vec<(Name, Ty)>,
    /// All that is wrong so far, in the order of the text.
    pub faults: Vec<Fault>,
}

/// No member. It takes no memory.
pub fn no_members(alloc: Global, faults: Vec<Fault>) -> Members
    ensures { membered result ≡ no_members faults.items }
{
    Members {
        members: Vec::new(alloc),
        faults,
    }
}

/// Whether a member can be of a type.
fn can_be_member(ty: &Ty) -> bool
    ensures { result ≡ can_be_member ty.now }
{
    if !ty.unpacked.items().is_empty() {
        return false;
    }
    match &ty.base {
        Base::Text => false,
        Base::Atom(..) => true,
        Base::Vector(..) => true,
        Base::Enum { .. } => true,
        Base::Struct { .. } => true,
    }
}

/// The members, and behind them one more.
fn with_member(
    alloc: Global,
    members: Vec<(Name, Ty)>,
    name: &[u8],
    ty: &Ty,
) -> Result<Vec<(Name, Ty)>, NoMemory>
    ensures { IfOk result (λ m. m.items ≡ with_member members.items (argument_of name.now) ty.now) }
{
    match argument(alloc, name)? {
        None => Ok(members),
        Some(name) => {
            let mut members = members;
            members.push((name, ty.copy(alloc)?))?;
            Ok(members)
        }
    }
}

/// A member more, at its token, of a type: a string, and what has unpacked dimensions, is out for this place (E06). It fails for want
/// of memory alone.
#[tactic(auto, unfolding(crate::specs::Members::member_after))]
pub fn member_after(
    alloc: Global,
    token: u32,
    name: &[u8],
    ty: &Ty,
    before: Members,
) -> Result<Members, NoMemory>
    ensures { IfOk result (λ m. membered m ≡ member_after token name.now ty.now (membered before)) }
{
    let Members { members, faults } = before;
    let is_fine = can_be_member(ty);
    Ok(Members {
        members: with_member(alloc, members, name, ty)?,
        faults: noted(alloc, is_fine, token, Code::E06, name, faults)?,
    })
}

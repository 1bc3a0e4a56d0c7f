//! Enumerations within a type.
ghost use Rattle.std.specs.Prelude.{◌≡◌, IfOk, option_map};
ghost use Rattle.sve_types.specs.View.{form_of, members_of};
ghost use Rattle.sve_enumerated.specs.Found.{alone, enumeration_in, in_form, in_members, is_it, value_next, values_of};

use std::alloc::Global;
use sve_bytes::{List, Name, NoMemory};
use sve_types::{Base, Ty};
use sve_value::Bits;

/// Whether an enumeration is the one whose keyword is this token of a chunk of a file.
fn is_it(id: &(Name, u32, u32), file: &Name, chunk: u32, token: u32) -> bool
    ensures { result ≡ is_it file.now chunk token id.now }
{
    id.0 == *file && id.1 == chunk && id.2 == token
}

/// The enumeration whose keyword is this token of a chunk of a file, in a type: the type itself, or one in the members of a structure.
/// It goes as deep as the type nests, and takes no memory.
#[cycle(found)]
#[tactic(auto, using(sve_types::proofs::Rows::size_of_member), unfolding(crate::specs::Found::enumeration_in))]
pub(crate) fn enumeration_in<'a>(file: &Name, chunk: u32, token: u32, ty: &'a Ty) -> Option<&'a Ty>
    ensures { option_map (λ t. t.now) result ≡ enumeration_in file.now chunk token ty.now }
{
    match &ty.base {
        Base::Enum { id, .. } => {
            if is_it(id, file, chunk, token) {
                return Some(ty);
            }
            None
        }
        Base::Struct { members, .. } => in_members(file, chunk, token, members.as_slice()),
        Base::Atom(..) => None,
        Base::Vector(..) => None,
        Base::Text => None,
    }
}

/// The enumeration in the types of members.
#[cycle(found)]
#[tactic(auto, using(sve_types::proofs::Rows::size_of_member), unfolding(crate::specs::Found::enumeration_in))]
fn in_members<'a>(file: &Name, chunk: u32, token: u32, members: &'a [(Name, Ty)]) -> Option<&'a Ty>
    ensures { option_map (λ t. t.now) result ≡ in_members file.now chunk token (members_of members.now) }
{
    'members: for (_, member) in members {
        if let Some(found) = enumeration_in(file, chunk, token, member) {
            return Some(found);
        }
    }
    None
}

/// The type of the names of an enumeration: the enumeration without dimensions.
pub(crate) fn alone(alloc: Global, ty: &Ty) -> Result<Ty, NoMemory>
    ensures { IfOk result (λ t. t ≡ alone ty.now) }
{
    let Ty {
        base,
        packed: _,
        unpacked: _,
    } = ty.copy(alloc)?;
    Ok(Ty {
        base,
        packed: List::of(Vec::new(alloc)),
        unpacked: List::of(Vec::new(alloc)),
    })
}

/// The names of an enumeration that have a value, each with it.
pub(crate) fn values_of(found: Option<&Ty>) -> &[(Name, Bits)]
    ensures { result.now ≡ values_of (option_map (λ t. t.now) found.entry) }
{
    match found {
        Some(ty) => match &ty.base {
            Base::Enum { names, .. } => names.items(),
            _ => &[],
        },
        None => &[],
    }
}

/// The value of a name, where the next of those that have one is of this name.
pub(crate) fn value_next(values: &[(Name, Bits)], next: usize, name: &Name) -> Option<Bits>
    ensures { result ≡ value_next values.now next name.now }
{
    match values.get(next) {
        Some(value) => {
            if value.0 == *name {
                Some(value.1)
            } else {
                None
            }
        }
        None => None,
    }
}

//! What may be connected to a port by its name.
ghost use Rattle.std.specs.Prelude.{◌≡◌, option_map};
ghost use Rattle.sve_connect.specs.Seen.{stands_for};
ghost use Rattle.sve_connect.specs.Fitting.{are_equivalent, data_misfit, face_misfit, is_interface, misfit, same_text};

use crate::Thing;
use sve_bytes::Name;
use sve_diag::Code;
use sve_facts::Port;
use sve_types::{Ty, equivalent};

/// Whether two types are equivalent.
fn are_equivalent(ty: &Ty, other: &Ty) -> bool
    ensures { result ≡ are_equivalent ty.now other.now }
{
    equivalent(ty, other)
}

/// Whether two names are the same.
fn is_same(name: &Name, other: &Name) -> bool
    ensures { result ≡ same_text name.now other.now }
{
    name == other
}

/// Whether an interface that was found is this one.
pub(crate) fn is_interface(interface: &Name, found: Option<&Name>) -> bool
    ensures { result ≡ is_interface interface.now (option_map (λ n. n.now) found.entry) }
{
    match found {
        Some(found) => is_same(interface, found),
        None => false,
    }
}

/// What is wrong with a thing as the connection of a port of a type.
fn data_misfit(ty: &Ty, thing: Thing<'_>) -> Option<Code>
    ensures { result ≡ data_misfit ty.now (stands_for thing.entry) }
{
    match thing {
        Thing::Data(other) => {
            if are_equivalent(ty, other) {
                None
            } else {
                Some(Code::E09)
            }
        }
        Thing::Unknown => Some(Code::E09),
        Thing::Interface(_) => Some(Code::E09),
        Thing::Other => Some(Code::E09),
    }
}

/// What is wrong with a thing as the connection of an interface port.
fn face_misfit(interface: &Name, thing: Thing<'_>) -> Option<Code>
    ensures { result ≡ face_misfit interface.now (stands_for thing.entry) }
{
    match thing {
        Thing::Interface(found) => {
            if is_same(interface, found) {
                None
            } else {
                Some(Code::E10)
            }
        }
        Thing::Unknown => Some(Code::E09),
        Thing::Data(_) => Some(Code::E10),
        Thing::Other => Some(Code::E10),
    }
}

/// What is wrong with what the name of a port stands for around its instance, as the connection of the port.
pub(crate) fn misfit(port: &Port, thing: Thing<'_>) -> Option<Code>
    ensures { result ≡ misfit port.now (stands_for thing.entry) }
{
    match &port.face {
        Some(face) => face_misfit(&face.interface, thing),
        None => data_misfit(port.ty.ty(), thing),
    }
}

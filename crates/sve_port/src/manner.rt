//! What a port hands on to a port that says nothing.
ghost use Rattle.std.specs.Prelude.{◌≡◌, IfOk};
ghost use Rattle.sve_type_rule.specs.Outcomes.{scalar};
ghost use Rattle.sve_port.specs.Manners.{direction_or, first_manner, is_net, is_typed, manner_of_face};

use std::alloc::Global;
use sve_bytes::{Dir, List, NoMemory};
use sve_scope::{FaceName, SharedType};
use sve_tree::{DeclaredType, Mark, PortKind};
use sve_types::{Base, Ty, Vec_};

/// The direction, the kind and the type of a port, without the unpacked dimensions behind its name; of an interface port its interface.
#[derive(Drop)]
pub(crate) struct Manner {
    pub(crate) direction: Dir,
    pub(crate) net: bool,
    pub(crate) ty: SharedType,
    pub(crate) face: Option<FaceName>,
}

/// A bit of four states.
pub(crate) fn scalar(alloc: Global) -> Ty
    ensures { result ≡ scalar }
{
    Ty {
        base: Base::Vector(Vec_::Logic, false),
        packed: List::of(Vec::new(alloc)),
        unpacked: List::of(Vec::new(alloc)),
    }
}

/// An inout net of one bit: what a first port takes that says nothing (own).
pub(crate) fn first_manner(alloc: Global) -> Result<Manner, NoMemory>
    ensures { IfOk result (λ m. m ≡ first_manner) }
{
    Ok(Manner {
        direction: Dir::Inout,
        net: true,
        ty: SharedType::of(alloc, scalar(alloc))?,
        face: None,
    })
}

/// An interface port. A port behind it that does not say its direction is an inout.
pub(crate) fn manner_of_face(alloc: Global, face: FaceName) -> Result<Manner, NoMemory>
    ensures { IfOk result (λ m. m ≡ manner_of_face face) }
{
    Ok(Manner {
        direction: Dir::Inout,
        net: false,
        ty: SharedType::of(alloc, scalar(alloc))?,
        face: Some(face),
    })
}

/// The direction that is written, or that of the port before (IEEE 1800-2017, 23.2.2.3).
pub(crate) fn direction_or(direction: Option<Mark<Dir>>, before: Dir) -> Dir
    ensures { result ≡ direction_or direction before }
{
    match direction {
        Some(mark) => mark.kind,
        None => before,
    }
}

/// Whether a type is written, and not a range or a sign alone.
pub(crate) fn is_typed(data_type: &DeclaredType) -> bool
    ensures { result ≡ is_typed data_type.now }
{
    match data_type {
        DeclaredType::Explicit { .. } => true,
        DeclaredType::Implicit { .. } => false,
    }
}

/// Whether a port is a net: where that is not said, an input and an inout are, and an output for which no type is written
/// (23.2.2.3).
pub(crate) fn is_net(kind: Option<PortKind>, direction: Dir, is_typed: bool) -> bool
    ensures { result ≡ is_net kind direction is_typed }
{
    match kind {
        Some(PortKind::Variable { .. }) => false,
        Some(PortKind::Net { .. }) => true,
        None => match direction {
            Dir::Input => true,
            Dir::Inout => true,
            Dir::Output => !is_typed,
        },
    }
}

//! What each port is.
ghost use Rattle.std.specs.Prelude.{◌≡◌, [], ◌∷◌, ◌++◌, IfOk};
ghost use Rattle.sve_diag.specs.declared.code.Code.TheVariants.{E06};
ghost use Rattle.sve_fault.specs.Counts.{Counts, IsFuel};
ghost use Rattle.sve_env.specs.Nodes.{dimension_count};
ghost use Rattle.sve_type_of.specs.Nodes.{declared_nodes};
ghost use Rattle.sve_port.specs.Headings.{meaning_of_heading};
ghost use Rattle.sve_port.specs.Ports.{IsMannered, IsShaped, face_manner, heading_nodes, is_out, is_text, mannered, modport_name, note_about, shape_of, shaped, typed_manner};

use crate::heading::Heading;
use crate::manner::{Manner, direction_or, first_manner, is_net, is_typed, manner_of_face};
use std::alloc::Global;
use sve_bytes::{List, Name, NoMemory};
use sve_diag::{Code, Note};
use sve_env::Env;
use sve_fault::{Fuel, Halted, argument};
use sve_scope::{FaceName, SharedType};
use sve_tree::{Declarator, DeclaredType, Port};
use sve_type_of::{Typed, declared_type, with_unpacked};
use sve_types::{Base, Ty};

/// What a port is in front of its name, and what there is to say of it.
#[derive(Drop)]
pub(crate) struct Mannered {
    pub(crate) manner: Manner,
    pub(crate) notes: List<Note>,
}

/// The type of a port, and what there is to say of it.
#[derive(Drop)]
pub(crate) struct Shaped {
    pub(crate) ty: SharedType,
    pub(crate) notes: List<Note>,
}

/// What is said of the name at a token.
pub(crate) fn note_about<E: Env>(
    alloc: Global,
    env: &E,
    token: u32,
    code: Code,
) -> Result<Note, NoMemory>
    ensures { IfOk result (λ n. n ≡ note_about (E.told env.now) token code) }
{
    Ok(Note {
        file: env.file().copy()?,
        chunk: env.chunk(),
        token,
        code,
        arg: argument(alloc, env.text(token))?,
    })
}

/// A note more.
fn with_note(notes: List<Note>, note: Note) -> Result<List<Note>, NoMemory>
    ensures { IfOk result (λ l. l ≡ notes ++ note ∷ []) }
{
    let mut notes = notes.into_vec();
    notes.push(note)?;
    Ok(List::of(notes))
}

/// No note.
fn no_notes(alloc: Global) -> List<Note>
    ensures { result ≡ [] }
{
    List::of(Vec::new(alloc))
}

/// The name of a modport, where one is written.
fn modport_name<E: Env>(
    alloc: Global,
    env: &E,
    modport: Option<u32>,
) -> Result<Option<Name>, NoMemory>
    ensures { IfOk result (λ n. n ≡ modport_name (E.told env.now) modport) }
{
    match modport {
        Some(token) => argument(alloc, env.text(token)),
        None => Ok(None),
    }
}

/// An interface port. Without a name it is as a port of one bit.
fn face_manner<E: Env>(
    alloc: Global,
    env: &E,
    interface: u32,
    modport: Option<u32>,
) -> Result<Manner, NoMemory>
    ensures { IfOk result (λ m. m ≡ face_manner (E.told env.now) interface modport) }
{
    match argument(alloc, env.text(interface))? {
        Some(interface) => {
            let modport = modport_name(alloc, env, modport)?;
            manner_of_face(alloc, FaceName { interface, modport })
        }
        None => first_manner(alloc),
    }
}

/// A port of which a direction, a kind or a type is written.
fn typed_manner<E: Env>(
    alloc: Global,
    env: &E,
    before: Manner,
    port: &Port,
    data_type: &DeclaredType,
    fuel: &mut Fuel,
) -> Result<Mannered, Halted>
    requires { IsFuel fuel.old }
    ensures meaning { IfOk result (λ r. IsMannered r (E.told env.now) (typed_manner (E.told env.now) before.direction port.now.direction port.now.kind data_type.now)) }
    ensures count { Counts result fuel.old fuel.new (declared_nodes (E.told env.now) data_type.now) }
{
    let direction = direction_or(port.direction, before.direction);
    let net = is_net(port.kind, direction, is_typed(data_type));
    let Typed { ty, notes } = declared_type(alloc, data_type, env, fuel)?;
    Ok(Mannered {
        manner: Manner {
            direction,
            net,
            ty: SharedType::of(alloc, ty)?,
            face: None,
        },
        notes,
    })
}

/// What a port is in front of its name: where nothing is said what the one before is.
pub(crate) fn manner_after<E: Env>(
    alloc: Global,
    env: &E,
    before: Manner,
    port: &Port,
    heading: Heading<'_>,
    fuel: &mut Fuel,
) -> Result<Mannered, Halted>
    requires { IsFuel fuel.old }
    ensures meaning { IfOk result (λ r. IsMannered r (E.told env.now) (mannered (E.told env.now) before port.now.direction port.now.kind (meaning_of_heading heading.entry))) }
    ensures count { Counts result fuel.old fuel.new (heading_nodes (E.told env.now) (meaning_of_heading heading.entry)) }
{
    match heading {
        Heading::Nothing => Ok(Mannered {
            manner: before,
            notes: no_notes(alloc),
        }),
        Heading::Face(interface, modport) => Ok(Mannered {
            manner: face_manner(alloc, env, interface, modport)?,
            notes: no_notes(alloc),
        }),
        Heading::Wrong(interface, modport, code) => Ok(Mannered {
            manner: face_manner(alloc, env, interface, Some(modport))?,
            notes: with_note(no_notes(alloc), note_about(alloc, env, interface, code)?)?,
        }),
        Heading::Data(data_type) => typed_manner(alloc, env, before, port, data_type, fuel),
    }
}

/// Whether a type is a string.
fn is_text(ty: &Ty) -> bool
    ensures { result ≡ is_text ty.now }
{
    match &ty.base {
        Base::Text => true,
        Base::Atom(..) => false,
        Base::Vector(..) => false,
        Base::Enum { .. } => false,
        Base::Struct { .. } => false,
    }
}

/// Whether a port may not be of its type: a string, and an interface with unpacked dimensions (own).
fn is_out(manner: &Manner, is_plain: bool) -> bool
    ensures { result ≡ is_out manner.now is_plain }
{
    match &manner.face {
        Some(_) => !is_plain,
        None => is_text(manner.ty.ty()),
    }
}

/// A type with the unpacked dimensions behind the name of a port.
#[tactic(auto, using(crate::proofs::Dimensions::none_counted))]
fn shape_of<E: Env>(
    alloc: Global,
    env: &E,
    ty: &SharedType,
    declarator: &Declarator,
    fuel: &mut Fuel,
) -> Result<Shaped, Halted>
    requires { IsFuel fuel.old }
    ensures meaning { IfOk result (λ s. IsShaped s (E.told env.now) (shape_of (E.told env.now) ty.now declarator.now.dimensions.items)) }
    ensures count { Counts result fuel.old fuel.new (dimension_count (E.told env.now) declarator.now.dimensions.items) }
{
    if declarator.dimensions.is_empty() {
        return Ok(Shaped {
            ty: ty.copy()?,
            notes: no_notes(alloc),
        });
    }
    let Typed { ty, notes } = with_unpacked(alloc, ty.ty(), &declarator.dimensions, env, fuel)?;
    Ok(Shaped {
        ty: SharedType::of(alloc, ty)?,
        notes,
    })
}

/// These notes, and that a port may not be of its type, which is said at its name (E06).
fn out_of_place<E: Env>(
    alloc: Global,
    env: &E,
    name: u32,
    notes: List<Note>,
) -> Result<List<Note>, NoMemory>
    ensures { IfOk result (λ l. l ≡ notes ++ note_about (E.told env.now) name E06 ∷ []) }
{
    let note = note_about(alloc, env, name, Code::E06)?;
    with_note(notes, note)
}

/// The type of a port (IEEE 1800-2017, 23.2.2). One that no port may be of is said at the name (E06), and stays.
pub(crate) fn shape<E: Env>(
    alloc: Global,
    env: &E,
    manner: &Manner,
    declarator: &Declarator,
    fuel: &mut Fuel,
) -> Result<Shaped, Halted>
    requires { IsFuel fuel.old }
    ensures meaning { IfOk result (λ s. IsShaped s (E.told env.now) (shaped (E.told env.now) manner.now declarator.now)) }
    ensures count { Counts result fuel.old fuel.new (dimension_count (E.told env.now) declarator.now.dimensions.items) }
{
    let Shaped { ty, notes } = shape_of(alloc, env, &manner.ty, declarator, fuel)?;
    if !is_out(manner, declarator.dimensions.is_empty()) {
        return Ok(Shaped { ty, notes });
    }
    Ok(Shaped {
        ty,
        notes: out_of_place(alloc, env, declarator.name, notes)?,
    })
}

//! What a port says in front of its name.
ghost use Rattle.std.specs.Prelude.{◌≡◌, IfOk};
ghost use Rattle.sve_port.specs.Headings.{face_heading, heading, is_interface, is_undeclared, is_unfound, is_unsaid, kind_at, lone_name, lone_type, meaning_of_heading, typed_heading};

use crate::interfaces::{DesignKind, Interfaces};
use std::alloc::Global;
use sve_bytes::NoMemory;
use sve_diag::Code;
use sve_env::Env;
use sve_fault::{Said, argument};
use sve_formal::is_written;
use sve_tree::{DeclaredType, Port, PortType, ScopedName, TypeRef};

/// What a port says in front of its name.
#[derive(Clone, Copy)]
pub(crate) enum Heading<'a> {
    /// Nothing: it is as the port before.
    Nothing,
    /// An interface, and perhaps a modport, by their tokens.
    Face(u32, Option<u32>),
    /// A name that is that of no interface, and a modport, by their tokens, and what is said of the name.
    Wrong(u32, u32, Code),
    /// A direction, a kind or a type.
    Data(&'a DeclaredType),
}

/// What the module or the interface is whose name is at a token, where there is one.
fn kind_at<E: Env, I: Interfaces>(
    alloc: Global,
    env: &E,
    interfaces: &I,
    token: u32,
) -> Result<Option<DesignKind>, NoMemory>
    ensures { IfOk result (λ k. k ≡ kind_at (E.told env.now) (I.kinds interfaces.now) token) }
{
    match argument(alloc, env.text(token))? {
        Some(name) => Ok(interfaces.kind(&name)),
        None => Ok(None),
    }
}

/// An interface with a modport: another name there is said (N09), and that of a module (N11). The port is an interface port all the
/// same.
fn face_heading<'a>(interface: u32, modport: u32, kind: Option<DesignKind>) -> Heading<'a>
    ensures { meaning_of_heading result ≡ face_heading interface modport kind }
{
    match kind {
        Some(DesignKind::Interface) => Heading::Face(interface, Some(modport)),
        Some(DesignKind::Module) => Heading::Wrong(interface, modport, Code::N11),
        None => Heading::Wrong(interface, modport, Code::N09),
    }
}

/// The name that a type is, where it has no dimensions and names no package.
fn lone_name(data_type: &DeclaredType) -> Option<ScopedName>
    ensures { result ≡ lone_name data_type.now }
{
    match data_type {
        DeclaredType::Explicit { data_type } => lone_type(data_type),
        DeclaredType::Implicit { .. } => None,
    }
}

fn lone_type(data_type: &TypeRef) -> Option<ScopedName>
    ensures { result ≡ lone_type data_type.now }
{
    match data_type {
        TypeRef::Written { .. } => None,
        TypeRef::Named { named } => {
            if named.name.scope.is_none() && named.dimensions.is_empty() {
                Some(named.name)
            } else {
                None
            }
        }
    }
}

/// Whether a fault says that a name is not declared.
fn is_undeclared(said: &Said) -> bool
    ensures { result ≡ is_undeclared said.now }
{
    match said {
        Said::Here { code, .. } => matches!(code, Code::N01),
        Said::Nothing => false,
        Said::Elsewhere(_) => false,
    }
}

/// Whether a name stands for nothing.
fn is_unfound<E: Env>(env: &E, name: ScopedName) -> Result<bool, NoMemory>
    ensures { IfOk result (λ b. b ≡ is_unfound (E.told env.now) name) }
{
    if env.is_type(name) {
        return Ok(false);
    }
    match env.ty(name)? {
        Ok(_) => Ok(false),
        Err(fault) => Ok(is_undeclared(&fault.said)),
    }
}

/// A name by itself is that of a type where it is declared, else perhaps that of an interface (IEEE 1800-2017, 25.3).
fn is_interface<E: Env, I: Interfaces>(
    alloc: Global,
    env: &E,
    interfaces: &I,
    name: ScopedName,
) -> Result<bool, NoMemory>
    ensures { IfOk result (λ b. b ≡ is_interface (E.told env.now) (I.kinds interfaces.now) name) }
{
    if !is_unfound(env, name)? {
        return Ok(false);
    }
    match kind_at(alloc, env, interfaces, name.name)? {
        Some(DesignKind::Interface) => Ok(true),
        Some(DesignKind::Module) => Ok(false),
        None => Ok(false),
    }
}

/// A type in front of the name of a port, or an interface by its name alone.
fn typed_heading<'a, E: Env, I: Interfaces>(
    alloc: Global,
    env: &E,
    interfaces: &I,
    data_type: &'a DeclaredType,
) -> Result<Heading<'a>, NoMemory>
    ensures { IfOk result (λ h. meaning_of_heading h ≡ typed_heading (E.told env.now) (I.kinds interfaces.now) data_type.now) }
{
    let Some(name) = lone_name(data_type) else {
        return Ok(Heading::Data(data_type));
    };
    if is_interface(alloc, env, interfaces, name)? {
        Ok(Heading::Face(name.name, None))
    } else {
        Ok(Heading::Data(data_type))
    }
}

/// Whether a port says neither a direction nor a kind.
fn is_unsaid(port: &Port) -> bool
    ensures { result ≡ is_unsaid port.now }
{
    port.direction.is_none() && port.kind.is_none()
}

/// What a port says in front of its name.
pub(crate) fn heading_of<'a, E: Env, I: Interfaces>(
    alloc: Global,
    env: &E,
    interfaces: &I,
    port: &'a Port,
) -> Result<Heading<'a>, NoMemory>
    ensures { IfOk result (λ h. meaning_of_heading h ≡ heading (E.told env.now) (I.kinds interfaces.now) port.now) }
{
    match &port.port_type {
        PortType::Interface {
            interface,
            modport,
            ..
        } => {
            let kind = kind_at(alloc, env, interfaces, *interface)?;
            Ok(face_heading(*interface, *modport, kind))
        }
        PortType::Data { data_type } => {
            if is_unsaid(port) && !is_written(data_type) {
                Ok(Heading::Nothing)
            } else {
                typed_heading(alloc, env, interfaces, data_type)
            }
        }
    }
}

//! What a name stands for that may be connected to a port.
ghost use Rattle.std.specs.Prelude.{◌≡◌, option_map};
ghost use Rattle.sve_connect.specs.Seen.{stands_for};
ghost use Rattle.sve_scope.specs.Lookup.{meaning_of};
ghost use Rattle.sve_around.specs.Things.{constant_stands, face_in, face_or_other, stands_by, stands_found, stands_in};

use sve_bytes::Name;
use sve_connect::Thing;
use sve_known::{Known, package_member};
use sve_scope::{Constant, Declared, Found, What};
use sve_table::Table;

/// Which instances are those of interfaces. A scope says of an instance that it is one, and not of what.
pub trait Instances {
    ghost use Rattle.std.specs.Prelude.{◌≡◌, Bool, List, Option, option_map, ℕ};
    ghost use Rattle.sve_scope.specs.declared.declared.Declared.{Declared};

    // The interface of each declared instance, where it is that of one.
    ghost interfaces: { Self → Declared → Option (List ℕ) };

    // Whether that interface has a modport of a name.
    ghost modports: { Self → Declared → List ℕ → Bool };

    /// The interface of a declared instance, where it is one of an interface (IEEE 1800-2017, 25.3).
    fn interface(&self, declared: &Declared) -> Option<&Name>
        ensures { option_map (λ n. n.now) result ≡ interfaces self.now declared.now };

    /// Whether the interface of which something declared is an instance has a modport of this name (25.5).
    fn has_modport(&self, declared: &Declared, modport: &Name) -> bool
        ensures { result ≡ modports self.now declared.now modport.now };
}

/// A constant is a thing of its type, where that is known.
fn constant_thing(constant: &Constant) -> Thing<'_>
    ensures { stands_for result ≡ constant_stands constant.now }
{
    match &constant.ty {
        Some(ty) => Thing::Data(ty.ty()),
        None => Thing::Other,
    }
}

/// An instance of this interface, or of something else.
fn instance_thing(interface: Option<&Name>) -> Thing<'_>
    ensures { stands_for result ≡ face_or_other (option_map (λ n. n.now) interface.entry) }
{
    match interface {
        Some(interface) => Thing::Interface(interface),
        None => Thing::Other,
    }
}

/// What a declared name stands for, with the interface of an instance.
fn thing_by<'a>(interface: Option<&'a Name>, what: &'a What) -> Thing<'a>
    ensures { stands_for result ≡ stands_by (option_map (λ n. n.now) interface.entry) what.now }
{
    match what {
        What::Net(ty) => Thing::Data(ty.ty()),
        What::Variable(ty) => Thing::Data(ty.ty()),
        What::Parameter(constant) => constant_thing(constant),
        What::LocalParameter(constant) => constant_thing(constant),
        What::EnumName(constant) => constant_thing(constant),
        What::Instance => instance_thing(interface),
        What::InterfacePort(face) => Thing::Interface(&face.name.interface),
        What::Genvar => Thing::Other,
        What::Function(_) => Thing::Other,
        What::TypeName(_) => Thing::Other,
        What::Block => Thing::Other,
        What::Modport => Thing::Other,
    }
}

/// What a name of a package stands for.
fn member_thing<'a>(
    packages: &'a Table<Known>,
    at: u32,
    from: &'a Name,
    name: &'a Name,
) -> Thing<'a>
    ensures { stands_for result ≡ stands_in packages.now at from.now name.now }
{
    match package_member(packages, at, from, at, name) {
        Ok(what) => thing_by(None, what),
        Err(_) => Thing::Unknown,
    }
}

/// What a name stands for, by what lookup finds at a token.
pub(crate) fn thing_found<'a, I: Instances>(
    packages: &'a Table<Known>,
    instances: &'a I,
    at: u32,
    found: Found<'a>,
) -> Thing<'a>
    ensures { stands_for result ≡ stands_found packages.now (I.interfaces instances.now) at (meaning_of found.entry) }
{
    match found {
        Found::Local(declared) => thing_by(instances.interface(declared), &declared.what),
        Found::Imported(from, name, _) => member_thing(packages, at, from, name),
        Found::Two(_, _) => Thing::Other,
        Found::None => Thing::Unknown,
    }
}

/// The interface that a thing is an instance of, or an interface port.
pub(crate) fn face_in(thing: Thing<'_>) -> Option<&Name>
    ensures { option_map (λ n. n.now) result ≡ face_in (stands_for thing.entry) }
{
    match thing {
        Thing::Interface(interface) => Some(interface),
        Thing::Unknown => None,
        Thing::Data(_) => None,
        Thing::Other => None,
    }
}

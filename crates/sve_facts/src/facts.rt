ghost use Rattle.std.specs.Prelude.{◌≡◌};
ghost use Rattle.sve_facts.specs.Facts.{no_facts};

use std::alloc::Global;
use sve_bytes::{Dir, List, Name, Path};
use sve_diag::Note;
use sve_scope::{FaceName, Scope, SharedType};
use sve_spec::Spec;
use sve_types::Value;

/// A scope of a body: that of the module, the interface or the package itself, or of a generate block (IEEE 1800-2017, 23.9 and
/// clause 27).
pub struct BodyScope {
    /// Its path from the body, which for the body's own scope has no step.
    pub path: Path,
    /// The scope.
    pub scope: Scope,
}

impl Drop for BodyScope {
    fn drop(self) {
        let BodyScope { path: _, scope: _ } = self;
    }
}

/// A parameter that an instance may override, with its final type and value (6.20 and 23.10).
pub struct ParameterValue {
    /// Its name.
    pub name: Name,
    /// Its type.
    pub ty: SharedType,
    /// Its value.
    pub value: Value,
}

impl Drop for ParameterValue {
    fn drop(self) {
        let ParameterValue {
            name: _,
            ty: _,
            value: _,
        } = self;
    }
}

/// A port (23.2.2).
pub struct Port {
    /// Its name.
    pub name: Name,
    /// Its direction.
    pub direction: Dir,
    /// Whether it is a net; else it is a variable.
    pub net: bool,
    /// Its type.
    pub ty: SharedType,
    /// Of an interface port its interface, and perhaps a modport (25.3 and 25.5).
    pub face: Option<FaceName>,
    /// The number of the token of its name in its chunk.
    pub token: u32,
}

impl Drop for Port {
    fn drop(self) {
        let Port {
            name: _,
            direction: _,
            net: _,
            ty: _,
            face: _,
            token: _,
        } = self;
    }
}

/// An instance in a body (23.3).
pub struct Child {
    /// Its path from the body.
    pub path: Path,
    /// What it is an instance of.
    pub spec: Spec,
    /// The number of the token of its name in the body's chunk.
    pub token: u32,
    /// Its ports that are connected to nothing, in the order of its ports.
    pub unconnected: List<Name>,
}

impl Drop for Child {
    fn drop(self) {
        let Child {
            path: _,
            spec: _,
            token: _,
            unconnected: _,
        } = self;
    }
}

/// A hierarchical name in a body (23.6), which is resolved once all bodies are known.
pub struct HierarchicalUse {
    /// The path, from the body, of the scope in which it is used.
    pub scope: Path,
    /// The name.
    pub name: Path,
    /// The number of its first token in the body's chunk.
    pub token: u32,
}

impl Drop for HierarchicalUse {
    fn drop(self) {
        let HierarchicalUse {
            scope: _,
            name: _,
            token: _,
        } = self;
    }
}

/// A net that is declared by its use (6.10).
pub struct ImplicitNet {
    /// The path, from the body, of the scope in which it is declared.
    pub scope: Path,
    /// Its name.
    pub name: Name,
    /// The number of the token of the use in the body's chunk.
    pub token: u32,
}

impl Drop for ImplicitNet {
    fn drop(self) {
        let ImplicitNet {
            scope: _,
            name: _,
            token: _,
        } = self;
    }
}

/// What is found of a package, or of a specialization of a module or an interface.
pub struct Facts {
    /// Its scopes: its own, then those of its generate blocks in the order of its text. Where a package has no round there is none.
    pub scopes: List<BodyScope>,
    /// Its parameters that can be overridden and have a value, in the order of its text.
    pub params: List<ParameterValue>,
    /// Its ports, in the order of its text.
    pub ports: List<Port>,
    /// Its instances, in the order of its text.
    pub children: List<Child>,
    /// The hierarchical names that are used in it, in the order of its text.
    pub hierarchical: List<HierarchicalUse>,
    /// The nets that are declared by their uses, in the order of its text.
    pub nets: List<ImplicitNet>,
    /// What is to be said of it, in the order of its definition.
    pub notes: List<Note>,
}

impl Drop for Facts {
    fn drop(self) {
        let Facts {
            scopes: _,
            params: _,
            ports: _,
            children: _,
            hierarchical: _,
            nets: _,
            notes: _,
        } = self;
    }
}

impl Facts {
    /// Nothing: what is found of a package on a cycle of imports, or of what is not there. It takes no memory.
    pub fn none(alloc: Global) -> Facts
        ensures { result ≡ no_facts }
    {
        Facts {
            scopes: List::of(Vec::new(alloc)),
            params: List::of(Vec::new(alloc)),
            ports: List::of(Vec::new(alloc)),
            children: List::of(Vec::new(alloc)),
            hierarchical: List::of(Vec::new(alloc)),
            nets: List::of(Vec::new(alloc)),
            notes: List::of(Vec::new(alloc)),
        }
    }
}

/// What threads may share: an `impl` is refused where they may not.
trait IsShared: Send + Sync {}

impl IsShared for Facts {}

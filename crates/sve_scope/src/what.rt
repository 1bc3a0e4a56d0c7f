ghost use Rattle.std.specs.Prelude.{◌≡◌, IfOk};
ghost use Rattle.sve_scope.specs.Declarations.{is_whole};

use crate::{SharedInterface, SharedType};
use std::alloc::Global;
use sve_bytes::{Name, NoMemory};
use sve_table::Named;
use sve_types::Value;

/// What a name of a constant stands for.
pub struct Constant {
    /// Its type, where it is known: a constant with neither a type of its own nor a value has none.
    pub ty: Option<SharedType>,
    /// Its value, where it has one: it has none where something was said of it.
    pub value: Option<Value>,
}

impl Drop for Constant {
    fn drop(self) {
        let Constant { ty: _, value: _ } = self;
    }
}

/// What an interface port is connected to: an interface, and perhaps one of its modports (IEEE 1800-2017, 25.3 and 25.5).
pub struct FaceName {
    /// The name of the interface.
    pub interface: Name,
    /// The name of the modport, where one is written.
    pub modport: Option<Name>,
}

impl Drop for FaceName {
    fn drop(self) {
        let FaceName {
            interface: _,
            modport: _,
        } = self;
    }
}

/// An interface port (IEEE 1800-2017, 25.3).
pub struct Face {
    /// Its interface, and the modport through which it is given what it is connected to, where there is one.
    pub name: FaceName,
    /// The names of the interface, where it is connected to something that fits. Of the members of one that is not, nothing is known.
    pub names: Option<SharedInterface>,
}

impl Drop for Face {
    fn drop(self) {
        let Face { name: _, names: _ } = self;
    }
}

/// An interface port by its name, and what it is connected to.
pub struct PortFace {
    /// The name of the port.
    pub port: Name,
    /// What it is connected to.
    pub face: Face,
}

impl Drop for PortFace {
    fn drop(self) {
        let PortFace { port: _, face: _ } = self;
    }
}

impl Named for PortFace {
    ghost called = { λ f. f.port };

    fn name(&self) -> &Name {
        &self.port
    }
}

/// What a declared name stands for.
pub enum What {
    /// A net, of this type (IEEE 1800-2017, 6.7).
    Net(SharedType),
    /// A variable, of this type (6.8).
    Variable(SharedType),
    /// A parameter that an instance may override (6.20.1).
    Parameter(Constant),
    /// A parameter that none may (6.20.4), or the genvar of a generate loop within a block of the loop (27.4).
    LocalParameter(Constant),
    /// A genvar outside of its loops (27.4).
    Genvar,
    /// A function, and the type of its result, which a `void` function has not (13.4).
    Function(Option<SharedType>),
    /// A type that was named (6.18).
    TypeName(SharedType),
    /// A name of an enumeration (6.19).
    EnumName(Constant),
    /// An instance (23.3).
    Instance,
    /// A block of a generate construct (27).
    Block,
    /// A modport of an interface (25.5).
    Modport,
    /// An interface port (25.3).
    InterfacePort(Face),
}

impl Drop for What {
    fn drop(self) {
        match self {
            What::Net(_) => {}
            What::Variable(_) => {}
            What::Parameter(_) => {}
            What::LocalParameter(_) => {}
            What::Genvar => {}
            What::Function(_) => {}
            What::TypeName(_) => {}
            What::EnumName(_) => {}
            What::Instance => {}
            What::Block => {}
            What::Modport => {}
            What::InterfacePort(_) => {}
        }
    }
}

fn copy_of_type(ty: &Option<SharedType>) -> Result<Option<SharedType>, NoMemory>
    ensures { IfOk result (λ t. t ≡ ty.now) }
{
    match ty {
        Some(ty) => Ok(Some(ty.copy()?)),
        None => Ok(None),
    }
}

fn copy_of_value(alloc: Global, value: &Option<Value>) -> Result<Option<Value>, NoMemory>
    ensures { IfOk result (λ v. v ≡ value.now) }
{
    match value {
        Some(value) => Ok(Some(value.copy(alloc)?)),
        None => Ok(None),
    }
}

fn copy_of_name(name: &Option<Name>) -> Result<Option<Name>, NoMemory>
    ensures { IfOk result (λ n. n ≡ name.now) }
{
    match name {
        Some(name) => Ok(Some(name.copy()?)),
        None => Ok(None),
    }
}

fn copy_of_names(names: &Option<SharedInterface>) -> Result<Option<SharedInterface>, NoMemory>
    ensures { IfOk result (λ n. n ≡ names.now) }
{
    match names {
        Some(names) => Ok(Some(names.copy()?)),
        None => Ok(None),
    }
}

impl Constant {
    /// The same, whose type is shared.
    pub fn copy(&self, alloc: Global) -> Result<Constant, NoMemory>
        ensures { IfOk result (λ c. c ≡ self.now) }
    {
        Ok(Constant {
            ty: copy_of_type(&self.ty)?,
            value: copy_of_value(alloc, &self.value)?,
        })
    }
}

impl FaceName {
    /// The same, whose names share their bytes.
    pub fn copy(&self) -> Result<FaceName, NoMemory>
        ensures { IfOk result (λ f. f ≡ self.now) }
    {
        Ok(FaceName {
            interface: self.interface.copy()?,
            modport: copy_of_name(&self.modport)?,
        })
    }
}

impl Face {
    /// The same, whose names are shared.
    pub fn copy(&self) -> Result<Face, NoMemory>
        ensures { IfOk result (λ f. f ≡ self.now) }
    {
        Ok(Face {
            name: self.name.copy()?,
            names: copy_of_names(&self.names)?,
        })
    }
}

impl What {
    /// The same, whose types are shared.
    pub fn copy(&self, alloc: Global) -> Result<What, NoMemory>
        ensures { IfOk result (λ w. w ≡ self.now) }
    {
        match self {
            What::Net(ty) => Ok(What::Net(ty.copy()?)),
            What::Variable(ty) => Ok(What::Variable(ty.copy()?)),
            What::Parameter(constant) => Ok(What::Parameter(constant.copy(alloc)?)),
            What::LocalParameter(constant) => Ok(What::LocalParameter(constant.copy(alloc)?)),
            What::Genvar => Ok(What::Genvar),
            What::Function(ty) => Ok(What::Function(copy_of_type(ty)?)),
            What::TypeName(ty) => Ok(What::TypeName(ty.copy()?)),
            What::EnumName(constant) => Ok(What::EnumName(constant.copy(alloc)?)),
            What::Instance => Ok(What::Instance),
            What::Block => Ok(What::Block),
            What::Modport => Ok(What::Modport),
            What::InterfacePort(face) => Ok(What::InterfacePort(face.copy()?)),
        }
    }

    /// Whether it is seen in its whole scope: a function, an instance or a generate block (6.5, 23.9). It takes no memory.
    pub fn is_whole(&self) -> bool
        ensures { result ≡ is_whole self.now }
    {
        matches!(self, What::Function(_) | What::Instance | What::Block)
    }
}

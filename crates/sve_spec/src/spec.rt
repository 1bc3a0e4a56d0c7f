ghost use Rattle.std.specs.Prelude.{◌≡◌, IfOk};

use crate::Given;
use std::alloc::Global;
use sve_bytes::{List, Name, NoMemory};
use sve_table::Named;

/// A specialization of a module or an interface.
#[derive(Drop)]
pub struct Spec {
    /// The name of the module or the interface.
    pub definition: Name,
    /// What each of its parameters that can be overridden is given, in the order of its text.
    pub values: List<Given>,
    /// What its interface ports are given, in the order of its text.
    pub faces: List<FaceGiven>,
}

/// What an interface port is given (IEEE 1800-2017, 25.3 and 25.5).
#[derive(Drop)]
pub struct FaceGiven {
    /// The name of the port.
    pub port: Name,
    /// The name of the interface of whose instance the port is.
    pub interface: Name,
    /// The modport through which it is given, where there is one.
    pub modport: Option<Name>,
}

impl Named for FaceGiven {
    ghost called = { λ f. f.port };

    fn name(&self) -> &Name {
        &self.port
    }
}

fn copy_of_modport(modport: &Option<Name>) -> Result<Option<Name>, NoMemory>
    ensures { IfOk result (λ n. n ≡ modport.now) }
{
    match modport {
        Some(modport) => Ok(Some(modport.copy()?)),
        None => Ok(None),
    }
}

fn copy_of_values(alloc: Global, values: &[Given]) -> Result<List<Given>, NoMemory>
    ensures { IfOk result (λ l. l ≡ values.now) }
{
    let mut copies = Vec::new(alloc);
    'values: for given in values {
        copies.push(given.copy(alloc)?)?;
    }
    Ok(List::of(copies))
}

fn copy_of_faces(alloc: Global, faces: &[FaceGiven]) -> Result<List<FaceGiven>, NoMemory>
    ensures { IfOk result (λ l. l ≡ faces.now) }
{
    let mut copies = Vec::new(alloc);
    'faces: for face in faces {
        copies.push(face.copy()?)?;
    }
    Ok(List::of(copies))
}

impl FaceGiven {
    /// The same, with memory of its own.
    pub fn copy(&self) -> Result<FaceGiven, NoMemory>
        ensures { IfOk result (λ f. f ≡ self.now) }
    {
        Ok(FaceGiven {
            port: self.port.copy()?,
            interface: self.interface.copy()?,
            modport: copy_of_modport(&self.modport)?,
        })
    }
}

impl Spec {
    /// The same specialization, with memory of its own.
    pub fn copy(&self, alloc: Global) -> Result<Spec, NoMemory>
        ensures { IfOk result (λ s. s ≡ self.now) }
    {
        Ok(Spec {
            definition: self.definition.copy()?,
            values: copy_of_values(alloc, self.values.items())?,
            faces: copy_of_faces(alloc, self.faces.items())?,
        })
    }
}

/// What threads may share: an `impl` is refused where they may not.
trait IsShared: Send + Sync {}

impl IsShared for Spec {}

ghost use Rattle.std.specs.Prelude.{◌≡◌, IfOk};

use crate::ty::Ty;
use std::alloc::Global;
use sve_bytes::{List, NoMemory};
use sve_value::Bits;

/// The value of a parameter (IEEE 1800-2017, 6.20).
#[derive(Drop)]
pub enum Value {
    /// A packed value.
    Bits(Bits),
    /// The bytes of a string.
    Text(List<u8>),
    /// A type, the value of a type parameter (6.20.3).
    OfType(Ty),
}

impl Value {
    /// The same value, with memory of its own.
    pub fn copy(&self, alloc: Global) -> Result<Value, NoMemory>
        ensures { IfOk result (λ v. v ≡ self.now) }
    {
        match self {
            Value::Bits(bits) => Ok(Value::Bits(*bits)),
            Value::Text(text) => Ok(Value::Text(List::of(Vec::from_slice(alloc, text.items())?))),
            Value::OfType(ty) => Ok(Value::OfType(ty.copy(alloc)?)),
        }
    }
}

/// What threads may share: an `impl` is refused where they may not.
trait IsShared: Send + Sync {}

impl IsShared for Ty {}

impl IsShared for Value {}

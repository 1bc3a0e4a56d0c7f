ghost use Rattle.std.specs.Prelude.{◌≡◌, IfOk};

use std::alloc::Global;
use std::marker::Model;
use std::sync::Arc;
use sve_bytes::NoMemory;
use sve_types::Ty;

/// A type that declarations share, since many are of one type: each name of an enumeration is of its type, which holds all its
/// names. A clause sees the type itself.
#[derive(Drop)]
pub struct SharedType {
    ty: Arc<Ty>,
}

impl Model for SharedType {
    ghost use Rattle.std.specs.Arc.{arc_value};
    ghost use Rattle.sve_types.specs.Codes.{data_type_code};
    ghost use Rattle.sve_types.specs.DataType.{DataType};

    ghost Value = { DataType };

    ghost coded = { data_type_code };

    ghost view = { λ s. arc_value s.ty };
}

impl SharedType {
    /// The type, to be shared.
    pub fn of(alloc: Global, ty: Ty) -> Result<SharedType, NoMemory>
        ensures { IfOk result (λ s. s ≡ ty) }
    {
        Ok(SharedType {
            ty: Arc::new(alloc, ty)?,
        })
    }

    /// The type. It takes no memory.
    pub fn ty(&self) -> &Ty
        ensures { result.now ≡ self.now }
    {
        &self.ty
    }

    /// The same type, which is shared.
    pub fn copy(&self) -> Result<SharedType, NoMemory>
        ensures { IfOk result (λ s. s ≡ self.now) }
    {
        Ok(SharedType {
            ty: Arc::try_clone(&self.ty)?,
        })
    }
}

ghost use Rattle.std.specs.Prelude.{◌≡◌, IfOk};
ghost use Rattle.sve_types.specs.View.{form_of};

use crate::ty::{Base, Range, Ty};
use std::alloc::Global;
use std::sync::Arc;
use sve_bytes::{List, NoMemory};

fn copy_of_dimensions(alloc: Global, dimensions: &[Range]) -> Result<List<Range>, NoMemory>
    ensures { IfOk result (λ l. l ≡ dimensions.now) }
{
    let mut copies = Vec::new(alloc);
    'dimensions: for range in dimensions {
        copies.push(*range)?;
    }
    Ok(List::of(copies))
}

#[cycle(copy)]
#[tactic(auto, using(crate::proofs::Rows::size_of_member))]
pub(crate) fn copy_of(alloc: Global, t: &Ty) -> Result<Ty, NoMemory>
    ensures { IfOk result (λ copy. copy ≡ t.now) }
{
    Ok(Ty {
        base: copy_of_base(alloc, &t.base)?,
        packed: copy_of_dimensions(alloc, t.packed.items())?,
        unpacked: copy_of_dimensions(alloc, t.unpacked.items())?,
    })
}

#[cycle(copy)]
#[tactic(auto, using(crate::proofs::Rows::size_of_member))]
fn copy_of_base(alloc: Global, base: &Base) -> Result<Base, NoMemory>
    ensures { IfOk result (λ copy. form_of copy ≡ form_of base.now) }
{
    match base {
        Base::Atom(atom, signed) => Ok(Base::Atom(*atom, *signed)),
        Base::Vector(vec, signed) => Ok(Base::Vector(*vec, *signed)),
        Base::Enum { id, of, names } => Ok(Base::Enum {
            id: (id.0.copy()?, id.1, id.2),
            of: Box::new(alloc, copy_of(alloc, of)?)?,
            names: Arc::try_clone(names)?,
        }),
        Base::Struct { signed, members } => Ok(Base::Struct {
            signed: *signed,
            members: Arc::try_clone(members)?,
        }),
        Base::Text => Ok(Base::Text),
    }
}

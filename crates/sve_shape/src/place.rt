//! Where a value stands within another.
ghost use Rattle.std.specs.Prelude.{◌≡◌, [], Ok, Err, IfOk, decimal};
ghost use Rattle.sve_shape.specs.Shapes.{below};

use itoa::Buffer;
use std::alloc::{AllocError, Global};
use sve_bytes::List;

/// What a value is taken for, or else the path of the first value in it that is not as it should be. A path has `/` and
/// the member's name, or its index from 0, for each step; the path of the whole is empty.
pub type Shaped<T> = Result<T, List<u8>>;

/// What a value is taken for, with an error of its own for want of memory alone.
pub type Taken<T> = Result<Shaped<T>, AllocError>;

/// The value itself is not as it should be.
pub fn fault_here<T>(alloc: Global) -> Taken<T>
    ensures { IfOk result (λ shaped. shaped ≡ Err []) }
{
    Ok(Err(List::of(Vec::new(alloc))))
}

/// The value under this key is not as it should be.
///
/// # Errors
/// Only for want of memory.
pub fn fault_at<T>(alloc: Global, key: &str) -> Taken<T>
    ensures { IfOk result (λ shaped. shaped ≡ Err (below key.now [])) }
{
    Ok(Err(path(alloc, key.as_bytes(), &[])?))
}

/// The path that leads to the member of this key, and from there goes on as this one.
///
/// # Errors
/// Only for want of memory.
pub fn below_member(alloc: Global, key: &str, rest: List<u8>) -> Result<List<u8>, AllocError>
    ensures { IfOk result (λ path. path ≡ below key.now rest) }
{
    path(alloc, key.as_bytes(), rest.items())
}

/// The path that leads to the item of this index, and from there goes on as this one.
///
/// # Errors
/// Only for want of memory.
pub fn below_index(alloc: Global, index: usize, rest: List<u8>) -> Result<List<u8>, AllocError>
    ensures { IfOk result (λ path. path ≡ below (decimal index) rest) }
{
    path(alloc, Buffer::new().format(index).as_bytes(), rest.items())
}

/// The path that begins with this step.
fn path(alloc: Global, step: &[u8], rest: &[u8]) -> Result<List<u8>, AllocError>
    ensures { IfOk result (λ path. path ≡ below step.now rest.now) }
{
    let mut path = Vec::from_slice(alloc, b"/")?;
    path.extend_from_slice(step)?;
    path.extend_from_slice(rest)?;
    Ok(List::of(path))
}

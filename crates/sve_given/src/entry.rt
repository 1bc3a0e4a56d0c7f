use sve_bytes::Name;
use sve_types::{Ty, Value};

/// A name of a row.
#[derive(Drop)]
pub struct Entry {
    /// The name.
    pub name: Name,
    /// Its type, or the type that it is.
    pub ty: Ty,
    /// Whether it is a type.
    pub is_type: bool,
    /// Its value, where it has one.
    pub value: Option<Value>,
}

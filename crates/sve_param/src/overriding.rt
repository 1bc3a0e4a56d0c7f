use sve_bytes::Name;
use sve_spec::Given;

/// An override of an instance (IEEE 1800-2017, 23.10.2), whose value was found in the scope of the instance.
#[derive(Drop)]
pub struct Override {
    /// The name behind the dot; none where it is by order.
    pub name: Option<Name>,
    /// Its value, before it is converted to the parameter's type. An override without an expression, as in `.N()`, gives nothing.
    pub given: Given,
    /// The number of the token at which something is said of it, in the chunk of the instance: by name that of the name, by order
    /// its first, or the one behind it where it is empty.
    pub token: u32,
}

/// A name that a text declares, before anything is known of its type or its value.
#[derive(Clone, Copy, PartialEq, Eq)]
pub struct Heading {
    /// The number of the token of the name in its chunk.
    pub token: u32,
    /// Whether it is the name of a function, which is seen in its whole scope (IEEE 1800-2017, 13.4 and 23.9).
    pub is_function: bool,
}

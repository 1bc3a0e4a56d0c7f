use sve_heading::Heading;

/// A name that an item of a scope declares.
#[derive(Clone, Copy)]
pub enum ItemName {
    /// A parameter, a type, a name of an enumeration, a function, a genvar, a net, a variable or a modport. Of these functions alone
    /// are seen in their whole scope.
    Declared {
        /// The name, and whether it is that of a function.
        heading: Heading,
    },
    /// An instance, which is seen in its whole scope (23.3).
    Instance {
        /// The number of the token of its name in its chunk.
        token: u32,
    },
    /// The label of a generate block, which is seen in its whole scope where the block is there (27.6). Whether it is, is known once
    /// its construct was gone over.
    Block {
        /// The number of the token of the label in its chunk.
        token: u32,
    },
}

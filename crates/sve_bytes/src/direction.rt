/// The direction of a port or of a member of a modport (IEEE 1800-2017, 23.2.2 and 25.5).
#[derive(Clone, Copy, PartialEq, Eq, PartialOrd, Ord, Hash)]
pub enum Dir {
    /// `input`.
    Input,
    /// `output`.
    Output,
    /// `inout`.
    Inout,
}

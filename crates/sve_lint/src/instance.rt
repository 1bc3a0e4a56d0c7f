use sve_bytes::{Dir, List, Name, Path};

/// A port that an instance leaves unconnected (IEEE 1800-2017, 23.3.2).
#[derive(Drop)]
pub struct UnconnectedPort {
    /// Its name.
    pub name: Name,
    /// Its direction.
    pub direction: Dir,
}

/// An instance of a design, as rules see it.
#[derive(Drop)]
pub struct InstanceFacts {
    /// Its path from the root (IEEE 1800-2017, 23.6).
    pub path: Path,
    /// The name of its module or interface.
    pub module: Name,
    /// Its depth, which is 1 for a top.
    pub depth: u32,
    /// Its ports that are connected to nothing, in the order of its ports. No instance connects the ports of a top, so none stands
    /// here of a top.
    pub unconnected: List<UnconnectedPort>,
}

/// What a rule found.
#[derive(Drop)]
pub struct Finding {
    /// The path of the instance.
    pub path: Path,
    /// The name of what was found of it, of which each rule says what it is.
    pub detail: Name,
}

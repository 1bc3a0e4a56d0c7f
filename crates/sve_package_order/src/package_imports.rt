use sve_bytes::{List, Name};

/// A package, and the packages that its text names, by an import or before `::` (IEEE 1800-2017, 26.3).
#[derive(Drop)]
pub struct PackageImports {
    /// Its name.
    pub name: Name,
    /// The names of the packages that it names, in any order and as often as one likes.
    pub imports: List<Name>,
}

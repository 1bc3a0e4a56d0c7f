use sve_bytes::{Name, Path};
use sve_scope::Declared;

/// What a hierarchical name means (IEEE 1800-2017, 23.6 and 23.8).
pub enum Resolved {
    /// A top, which is declared nowhere: the name of its module.
    Top(Name),
    /// What is declared by a name in the scope of an instance or of a generate block.
    Declared {
        /// Its path from the root: that of the scope, and the step that leads on from there.
        path: Path,
        /// Its declaration. All blocks of a generate loop have one.
        declared: Declared,
    },
}

impl Drop for Resolved {
    fn drop(self) {
        match self {
            Resolved::Top(_) => {}
            Resolved::Declared {
                path: _,
                declared: _,
            } => {}
        }
    }
}

//! Where declarations are found.
ghost use Rattle.std.specs.Prelude.{◌≡◌};

use sve_bytes::Name;
use sve_scope::Declared;

/// In which scope a plain name is declared.
pub enum Where {
    /// In a scope of the body at which a way ends: in that at so many steps of the way behind the body's instance. With no step it is
    /// the body's own.
    Within(usize),
    /// In a package, through an import (IEEE 1800-2017, 26.3).
    Package(Name),
    /// In the scope of the compilation unit around the body (3.12.1).
    CompilationUnit,
}

impl Drop for Where {
    fn drop(self) {
        match self {
            Where::Within(_) => {}
            Where::Package(_) => {}
            Where::CompilationUnit => {}
        }
    }
}

/// A declaration, and where it is found.
pub struct Located {
    /// In which scope it stands.
    pub place: Where,
    /// The declaration.
    pub declared: Declared,
}

impl Drop for Located {
    fn drop(self) {
        let Located {
            place: _,
            declared: _,
        } = self;
    }
}

impl Located {
    /// The declaration by itself. It takes no memory.
    pub fn into_declared(self) -> Declared
        ensures { result ≡ self.declared }
    {
        let Located { place: _, declared } = self;
        declared
    }
}

/// What a plain name is found to mean.
#[derive(Drop)]
pub enum Sought {
    /// A declaration.
    At(Located),
    /// It is imported, but no one declaration is meant: two packages have it (26.3), or the package from which it is imported does not
    /// declare it.
    Unclear,
    /// It means nothing.
    Nothing,
}

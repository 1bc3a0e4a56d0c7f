use crate::data_type::{Declarator, DeclaredType, Initializer, TypeRef};
use crate::row::Row;
use crate::word::{Mark, Net, PackageScope, ParameterKeyword};
use sve_bytes::Dir;

/// A declaration of parameters, of a type, of imports or of a modport.
pub enum Decl {
    /// Parameters (IEEE 1800-2017, 6.20).
    Parameters {
        /// The declaration.
        declaration: Parameters,
    },
    /// A type (6.18).
    Typedef {
        /// The declaration.
        declaration: Typedef,
    },
    /// Imports of a package's names (26.3).
    Import {
        /// The declaration.
        declaration: Import,
    },
    /// A modport: one name with its members, as they stand after `modport` (25.5).
    Modport {
        /// The declaration.
        declaration: Modport,
    },
}

impl Drop for Decl {
    fn drop(self) {
        match self {
            Decl::Parameters { declaration: _ } => {}
            Decl::Typedef { declaration: _ } => {}
            Decl::Import { declaration: _ } => {}
            Decl::Modport { declaration: _ } => {}
        }
    }
}

/// A declaration of parameters: `localparam int A = 1, B = 2;` (6.20).
pub struct Parameters {
    /// `parameter` or `localparam`.
    pub keyword: Mark<ParameterKeyword>,
    /// Their type.
    pub data_type: DeclaredType,
    /// The names with their values.
    pub assignments: Row<ParameterAssignment>,
    /// `;`.
    pub semicolon: u32,
}

impl Drop for Parameters {
    fn drop(self) {
        let Parameters {
            keyword: _,
            data_type: _,
            assignments: _,
            semicolon: _,
        } = self;
    }
}

/// A parameter's name and its value (A.2.4).
pub struct ParameterAssignment {
    /// The name.
    pub declarator: Declarator,
    /// Its value.
    pub value: Initializer,
}

impl Drop for ParameterAssignment {
    fn drop(self) {
        let ParameterAssignment {
            declarator: _,
            value: _,
        } = self;
    }
}

/// A declaration of a type: `typedef logic [7:0] byte_t;` (6.18).
pub struct Typedef {
    /// `typedef`.
    pub keyword: u32,
    /// The type.
    pub data_type: TypeRef,
    /// The name, with unpacked dimensions.
    pub declarator: Declarator,
    /// `;`.
    pub semicolon: u32,
}

impl Drop for Typedef {
    fn drop(self) {
        let Typedef {
            keyword: _,
            data_type: _,
            declarator: _,
            semicolon: _,
        } = self;
    }
}

/// Imports of a package's names: `import p::a, q::*;` (26.3).
pub struct Import {
    /// `import`.
    pub keyword: u32,
    /// The items.
    pub items: Row<ImportItem>,
    /// `;`.
    pub semicolon: u32,
}

impl Drop for Import {
    fn drop(self) {
        let Import {
            keyword: _,
            items: _,
            semicolon: _,
        } = self;
    }
}

/// A name of a package, or all of its names (26.3).
#[derive(Clone, Copy)]
pub enum ImportItem {
    /// `p::n`.
    Name {
        /// The package.
        scope: PackageScope,
        /// The name.
        name: u32,
    },
    /// `p::*`.
    All {
        /// The package.
        scope: PackageScope,
        /// `*`.
        star: u32,
    },
}

/// A modport with its members: `m(input a, b, output c)` (25.5).
pub struct Modport {
    /// Its name.
    pub name: u32,
    /// `(`.
    pub opening: u32,
    /// The members. The first has a direction.
    pub members: Row<ModportMember>,
    /// `)`.
    pub closing: u32,
}

impl Drop for Modport {
    fn drop(self) {
        let Modport {
            name: _,
            opening: _,
            members: _,
            closing: _,
        } = self;
    }
}

/// A member of a modport (25.5).
#[derive(Clone, Copy)]
pub struct ModportMember {
    /// The direction; where none is written, that of the member before.
    pub direction: Option<Mark<Dir>>,
    /// The member.
    pub name: u32,
}

/// A declared name and its value: `a [3:0] = 1` (A.2.3).
pub struct InitializedDeclarator {
    /// The name.
    pub declarator: Declarator,
    /// Its value, where one is written.
    pub value: Option<Initializer>,
}

impl Drop for InitializedDeclarator {
    fn drop(self) {
        let InitializedDeclarator {
            declarator: _,
            value: _,
        } = self;
    }
}

/// A declaration of nets: `wire [3:0] a, b = 1;` (6.7).
pub struct NetDeclaration {
    /// The net type.
    pub net: Mark<Net>,
    /// Their type.
    pub data_type: DeclaredType,
    /// The names with their values.
    pub declarators: Row<InitializedDeclarator>,
    /// `;`.
    pub semicolon: u32,
}

impl Drop for NetDeclaration {
    fn drop(self) {
        let NetDeclaration {
            net: _,
            data_type: _,
            declarators: _,
            semicolon: _,
        } = self;
    }
}

/// A declaration of variables with `var`: `var logic a, b;` (6.8).
pub struct VariableDeclaration {
    /// `var`.
    pub keyword: u32,
    /// Their type.
    pub data_type: DeclaredType,
    /// The names with their values.
    pub declarators: Row<InitializedDeclarator>,
    /// `;`.
    pub semicolon: u32,
}

impl Drop for VariableDeclaration {
    fn drop(self) {
        let VariableDeclaration {
            keyword: _,
            data_type: _,
            declarators: _,
            semicolon: _,
        } = self;
    }
}

/// A declaration of variables without `var`: `int a = 1, b;`, `p::t [3:0] a, b;` (6.8).
pub struct DataDeclaration {
    /// Their type.
    pub data_type: TypeRef,
    /// The names with their values.
    pub declarators: Row<InitializedDeclarator>,
    /// `;`.
    pub semicolon: u32,
}

impl Drop for DataDeclaration {
    fn drop(self) {
        let DataDeclaration {
            data_type: _,
            declarators: _,
            semicolon: _,
        } = self;
    }
}

ghost use Rattle.std.specs.Prelude.{◌≡◌, Some};
ghost use Rattle.sve_tree.specs.Shape.{first_token_of};
ghost use Rattle.sve_tree.specs.Types.{data_type_tree, type_ref_tree};

use crate::expression::{Dimension, Expr};
use crate::row::Row;
use crate::word::{AtomKeyword, Mark, ScopedName, Sign, VectorKeyword};

/// A data type that begins with a keyword (IEEE 1800-2017, A.2.2.1).
#[cycle(data_type)]
pub enum DataType {
    /// An integer type with a width of its own (6.11).
    Atom {
        /// The type.
        atom: AtomType,
    },
    /// An integer type of as many bits as its packed dimensions say (6.11).
    Vector {
        /// The type.
        vector: VectorType,
    },
    /// `string` (6.16).
    Text {
        /// The keyword.
        keyword: u32,
    },
    /// An enumeration (6.19).
    Enum {
        /// The type.
        enumeration: Box<Enumeration>,
    },
    /// A packed structure (7.2.1).
    Struct {
        /// The type.
        structure: Box<Structure>,
    },
}

impl Drop for DataType {
    #[cycle(data_type)]
    fn drop(self) {
        match self {
            DataType::Atom { atom: _ } => {}
            DataType::Vector { vector: _ } => {}
            DataType::Text { keyword: _ } => {}
            DataType::Enum { enumeration: _ } => {}
            DataType::Struct { structure: _ } => {}
        }
    }
}

impl DataType {
    /// The number of its first token.
    #[tactic(auto, using(crate::proofs::Firsts::first_of_struct), unfolding(crate::specs::Types::data_type_tree))]
    pub fn first_token(&self) -> u32
        ensures { first_token_of (data_type_tree self.now) ≡ Some result }
    {
        match self {
            DataType::Atom { atom } => atom.keyword.token,
            DataType::Vector { vector } => vector.keyword.token,
            DataType::Text { keyword } => *keyword,
            DataType::Enum { enumeration } => enumeration.keyword,
            DataType::Struct { structure } => structure.keyword,
        }
    }
}

/// An integer type with a width of its own, and its sign (6.11).
#[derive(Clone, Copy)]
pub struct AtomType {
    /// The type's keyword.
    pub keyword: Mark<AtomKeyword>,
    /// The sign, where one is written.
    pub sign: Option<Mark<Sign>>,
}

/// An integer type of as many bits as its packed dimensions say, and its sign (6.11).
pub struct VectorType {
    /// The type's keyword.
    pub keyword: Mark<VectorKeyword>,
    /// The sign, where one is written.
    pub sign: Option<Mark<Sign>>,
    /// The packed dimensions, from left to right.
    pub dimensions: Vec<Dimension>,
}

impl Drop for VectorType {
    fn drop(self) {
        let VectorType {
            keyword: _,
            sign: _,
            dimensions: _,
        } = self;
    }
}

/// A type by its name, with packed dimensions (6.18): `t`, `p::t [7:0]`.
pub struct NamedType {
    /// The name.
    pub name: ScopedName,
    /// The packed dimensions, from left to right.
    pub dimensions: Vec<Dimension>,
}

impl Drop for NamedType {
    fn drop(self) {
        let NamedType {
            name: _,
            dimensions: _,
        } = self;
    }
}

/// An enumeration: `enum logic [1:0] {A, B = 2}` (6.19).
pub struct Enumeration {
    /// `enum`.
    pub keyword: u32,
    /// The base type, where one is written.
    pub base: Option<EnumBase>,
    /// `{`.
    pub opening: u32,
    /// The names.
    pub names: Row<EnumName>,
    /// `}`.
    pub closing: u32,
    /// The packed dimensions, from left to right.
    pub dimensions: Vec<Dimension>,
}

impl Drop for Enumeration {
    fn drop(self) {
        let Enumeration {
            keyword: _,
            base: _,
            opening: _,
            names: _,
            closing: _,
            dimensions: _,
        } = self;
    }
}

/// The base type of an enumeration (6.19).
pub enum EnumBase {
    /// An integer type with a width of its own.
    Atom {
        /// The type.
        atom: AtomType,
    },
    /// An integer type of as many bits as its packed dimensions say.
    Vector {
        /// The type.
        vector: VectorType,
    },
    /// A type by its name.
    Named {
        /// The type.
        named: NamedType,
    },
}

impl Drop for EnumBase {
    fn drop(self) {
        match self {
            EnumBase::Atom { atom: _ } => {}
            EnumBase::Vector { vector: _ } => {}
            EnumBase::Named { named: _ } => {}
        }
    }
}

/// A packed structure: `struct packed {logic a; int b;}` (7.2.1).
#[cycle(data_type)]
pub struct Structure {
    /// `struct`.
    pub keyword: u32,
    /// `packed`.
    pub packed: u32,
    /// The sign, where one is written.
    pub sign: Option<Mark<Sign>>,
    /// `{`.
    pub opening: u32,
    /// The members, at least one of them, the most significant first.
    pub members: Vec<Members>,
    /// `}`.
    pub closing: u32,
    /// The packed dimensions, from left to right.
    pub dimensions: Vec<Dimension>,
}

impl Drop for Structure {
    #[cycle(data_type)]
    fn drop(self) {
        let Structure {
            keyword: _,
            packed: _,
            sign: _,
            opening: _,
            members: _,
            closing: _,
            dimensions: _,
        } = self;
    }
}

/// A name of an enumeration (6.19).
pub struct EnumName {
    /// The name.
    pub name: u32,
    /// Its value, where one is written.
    pub value: Option<Initializer>,
}

impl Drop for EnumName {
    fn drop(self) {
        let EnumName { name: _, value: _ } = self;
    }
}

/// `=` and a value.
pub struct Initializer {
    /// `=`.
    pub equals: u32,
    /// The value.
    pub value: Box<Expr>,
}

impl Drop for Initializer {
    fn drop(self) {
        let Initializer {
            equals: _,
            value: _,
        } = self;
    }
}

/// Members of one type in a packed structure (7.2.1): `logic [7:0] a, b;`.
#[cycle(data_type)]
pub struct Members {
    /// Their type.
    pub data_type: TypeRef,
    /// The names.
    pub names: Row<u32>,
    /// `;`.
    pub semicolon: u32,
}

impl Drop for Members {
    #[cycle(data_type)]
    fn drop(self) {
        let Members {
            data_type: _,
            names: _,
            semicolon: _,
        } = self;
    }
}

/// A name that is declared, with its unpacked dimensions (7.4.2).
pub struct Declarator {
    /// The name.
    pub name: u32,
    /// The unpacked dimensions, from left to right.
    pub dimensions: Vec<Dimension>,
}

impl Drop for Declarator {
    fn drop(self) {
        let Declarator {
            name: _,
            dimensions: _,
        } = self;
    }
}

/// A type by itself (A.2.2.1).
#[cycle(data_type)]
pub enum TypeRef {
    /// A type that begins with a keyword.
    Written {
        /// The type.
        data_type: DataType,
    },
    /// A type by its name (6.18).
    Named {
        /// The type.
        named: NamedType,
    },
}

impl Drop for TypeRef {
    #[cycle(data_type)]
    fn drop(self) {
        match self {
            TypeRef::Written { data_type: _ } => {}
            TypeRef::Named { named: _ } => {}
        }
    }
}

impl TypeRef {
    /// The number of its first token.
    #[tactic(auto, using(crate::proofs::Firsts::first_of_named), unfolding(crate::specs::Types::data_type_tree))]
    pub fn first_token(&self) -> u32
        ensures { first_token_of (type_ref_tree self.now) ≡ Some result }
    {
        match self {
            TypeRef::Written { data_type } => data_type.first_token(),
            TypeRef::Named { named } => named.name.first_token(),
        }
    }
}

/// The type of a declared name, written or left out in part or in whole (A.2.2.1, data_type_or_implicit).
pub enum DeclaredType {
    /// A type: `int i`, `t [7:0] n`.
    Explicit {
        /// The type.
        data_type: TypeRef,
    },
    /// At most a sign and packed dimensions: `signed [7:0] n`, `[7:0] n`, `n` (6.10 and 6.20.2).
    Implicit {
        /// The sign, where one is written.
        sign: Option<Mark<Sign>>,
        /// The packed dimensions, from left to right.
        dimensions: Vec<Dimension>,
    },
}

impl Drop for DeclaredType {
    fn drop(self) {
        match self {
            DeclaredType::Explicit { data_type: _ } => {}
            DeclaredType::Implicit {
                sign: _,
                dimensions: _,
            } => {}
        }
    }
}

/// A declared name with its type, written or left out: `int i [4]`, `n`.
#[derive(Drop)]
pub struct TypedName {
    /// The type.
    pub data_type: DeclaredType,
    /// The name.
    pub declarator: Declarator,
}

impl TypedName {
    /// The number of the declared name.
    pub fn name(&self) -> u32
        ensures { result ≡ self.now.declarator.name }
    {
        self.declarator.name
    }
}

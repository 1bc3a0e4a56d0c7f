ghost use Rattle.std.specs.Prelude.{◌≡◌, IfOk};

use crate::copies::copy_of;
use std::alloc::Global;
use std::marker::Model;
use std::sync::Arc;
use sve_bytes::{List, Name, NoMemory};
use sve_value::Bits;

/// The integer types with a width of their own (IEEE 1800-2017, 6.11).
#[derive(Clone, Copy, PartialEq, Eq)]
pub enum Atom {
    /// `byte`: 8 bits of two states.
    Byte,
    /// `shortint`: 16 bits of two states.
    ShortInt,
    /// `int`: 32 bits of two states.
    Int,
    /// `longint`: 64 bits of two states.
    LongInt,
    /// `integer`: 32 bits of four states.
    Integer,
    /// `time`: 64 bits of four states.
    Time,
}

/// The integer types of one bit, or of as many as their packed dimensions have places (6.11).
#[derive(Clone, Copy, PartialEq, Eq)]
pub enum Vec_ {
    /// `bit`: two states.
    Bit,
    /// `logic`: four states.
    Logic,
    /// `reg`: four states.
    Reg,
}

/// A dimension `[left:right]`, of either order (7.4.1 and 7.4.2).
#[derive(Clone, Copy, PartialEq, Eq)]
pub struct Range {
    /// The leftmost place.
    pub left: i32,
    /// The rightmost place.
    pub right: i32,
}

/// A type: what stands before its dimensions, and the dimensions (IEEE 1800-2017, clause 6 and 7.4). A clause sees it as the
/// data type that it stands for, wherever its parts lie in memory, so a type is equal to its copy.
#[cycle(ty)]
#[derive(Drop)]
pub struct Ty {
    /// What stands before the dimensions.
    pub base: Base,
    /// The packed dimensions, from left to right.
    pub packed: List<Range>,
    /// The unpacked dimensions, from left to right.
    pub unpacked: List<Range>,
}

/// What a type is before its dimensions.
#[cycle(ty)]
#[derive(Drop)]
pub enum Base {
    /// An integer type with a width of its own, and whether it is signed (6.11).
    Atom(Atom, bool),
    /// A type of one bit, or of a bit for each place of its packed dimensions, and whether it is signed (6.11).
    Vector(Vec_, bool),
    /// An enumeration (6.19).
    Enum {
        /// The file, the chunk and the token of the keyword `enum` that declares it.
        id: (Name, u32, u32),
        /// Its base type.
        of: Box<Ty>,
        /// Those of its names that have a value, in the order in which they are declared, each with its value. Copies share them.
        names: Arc<List<(Name, Bits)>>,
    },
    /// A packed structure (7.2.1).
    Struct {
        /// Whether `signed` is written.
        signed: bool,
        /// Its members, the most significant first. Copies share them.
        members: Arc<Vec<(Name, Ty)>>,
    },
    /// A string, which only a parameter can be (6.16).
    Text,
}

impl Model for Ty {
    ghost use Rattle.sve_types.specs.DataType.{DataType};
    ghost use Rattle.sve_types.specs.Codes.{data_type_code};

    ghost Value = { DataType };

    ghost coded = { data_type_code };

    ghost use Rattle.sve_types.specs.View.{view_of, size_of};

    ghost view = { view_of };

    ghost size = { size_of };

    ghost use Rattle.sve_types.specs.Falls.{falls};

    ghost size_decreases = { λ a h. falls a };
}

impl Ty {
    /// The same type, which shares names and members with this one.
    pub fn copy(&self, alloc: Global) -> Result<Ty, NoMemory>
        ensures { IfOk result (λ t. t ≡ self.now) }
    {
        copy_of(alloc, self)
    }
}

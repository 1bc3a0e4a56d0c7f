ghost use Rattle.std.specs.Prelude.{◌≡◌, Some};
ghost use Rattle.sve_tree.specs.Shape.{first_token_of};
ghost use Rattle.sve_tree.specs.Words.{scoped_name_tree, package_of};

/// A token that says which of several things is meant: an operator, a direction, a keyword of a set.
#[derive(Clone, Copy)]
pub struct Mark<K> {
    /// What the token says.
    pub kind: K,
    /// Its number in the chunk, from 0.
    pub token: u32,
}

/// Whether numbers are read as signed (IEEE 1800-2017, 6.8).
#[derive(Clone, Copy, PartialEq, Eq)]
pub enum Sign {
    /// `signed`.
    Signed,
    /// `unsigned`.
    Unsigned,
}

/// How long variables live (6.21).
#[derive(Clone, Copy, PartialEq, Eq)]
pub enum Lifetime {
    /// `automatic`.
    Automatic,
    /// `static`.
    Static,
}

/// The net types that a declaration names (6.6).
#[derive(Clone, Copy, PartialEq, Eq)]
pub enum Net {
    /// `wire`.
    Wire,
    /// `tri`.
    Tri,
    /// `uwire`.
    Uwire,
    /// `wand`.
    Wand,
    /// `wor`.
    Wor,
    /// `triand`.
    Triand,
    /// `trior`.
    Trior,
    /// `tri0`.
    Tri0,
    /// `tri1`.
    Tri1,
    /// `supply0`.
    Supply0,
    /// `supply1`.
    Supply1,
}

/// The keywords of the integer types with a width of their own (6.11).
#[derive(Clone, Copy, PartialEq, Eq)]
pub enum AtomKeyword {
    /// `byte`.
    Byte,
    /// `shortint`.
    Shortint,
    /// `int`.
    Int,
    /// `longint`.
    Longint,
    /// `integer`.
    Integer,
    /// `time`.
    Time,
}

/// The keywords of the integer types of as many bits as their packed dimensions say (6.11).
#[derive(Clone, Copy, PartialEq, Eq)]
pub enum VectorKeyword {
    /// `bit`.
    Bit,
    /// `logic`.
    Logic,
    /// `reg`.
    Reg,
}

/// An integer type's keyword (6.11).
#[derive(Clone, Copy, PartialEq, Eq)]
pub enum IntegerKeyword {
    /// One with a width of its own.
    Atom(AtomKeyword),
    /// One of as many bits as its packed dimensions say.
    Vector(VectorKeyword),
}

/// Whether a declaration makes a parameter or a local one (6.20).
#[derive(Clone, Copy, PartialEq, Eq)]
pub enum ParameterKeyword {
    /// `parameter`.
    Parameter,
    /// `localparam`.
    Localparam,
}

/// The operators before one operand (11.3).
#[derive(Clone, Copy, PartialEq, Eq)]
pub enum UnaryOperator {
    /// `+`.
    Plus,
    /// `-`.
    Minus,
    /// `!`.
    LogicalNot,
    /// `~`.
    Not,
    /// `&`, the reduction.
    And,
    /// `~&`.
    Nand,
    /// `|`, the reduction.
    Or,
    /// `~|`.
    Nor,
    /// `^`, the reduction.
    Xor,
    /// `~^`.
    TildeXnor,
    /// `^~`.
    CaretXnor,
}

/// The operators between two operands whose chains are grouped from the left, those that bind tightest first (Table 11-2).
#[derive(Clone, Copy, PartialEq, Eq)]
pub enum BinaryOperator {
    /// `**`.
    Power,
    /// `*`.
    Times,
    /// `/`.
    Divide,
    /// `%`.
    Remainder,
    /// `+`.
    Plus,
    /// `-`.
    Minus,
    /// `<<`.
    LogicalShiftLeft,
    /// `>>`.
    LogicalShiftRight,
    /// `<<<`.
    ArithmeticShiftLeft,
    /// `>>>`.
    ArithmeticShiftRight,
    /// `<`.
    Less,
    /// `<=`.
    LessEqual,
    /// `>`.
    Greater,
    /// `>=`.
    GreaterEqual,
    /// `==`.
    Equal,
    /// `!=`.
    NotEqual,
    /// `===`.
    CaseEqual,
    /// `!==`.
    CaseNotEqual,
    /// `==?`.
    WildcardEqual,
    /// `!=?`.
    WildcardNotEqual,
    /// `&`.
    And,
    /// `^`.
    Xor,
    /// `~^`.
    TildeXnor,
    /// `^~`.
    CaretXnor,
    /// `|`.
    Or,
    /// `&&`.
    LogicalAnd,
    /// `||`.
    LogicalOr,
}

/// The operators of implication, grouped from the right (11.4.7).
#[derive(Clone, Copy, PartialEq, Eq)]
pub enum ImplicationOperator {
    /// `->`.
    Implies,
    /// `<->`.
    Equivalent,
}

/// The operators of assignment (11.4.1 and 10.4).
#[derive(Clone, Copy, PartialEq, Eq)]
pub enum AssignmentOperator {
    /// `=`.
    Assign,
    /// `<=`, an assignment that does not block.
    Nonblocking,
    /// `+=`.
    Plus,
    /// `-=`.
    Minus,
    /// `*=`.
    Times,
    /// `/=`.
    Divide,
    /// `%=`.
    Remainder,
    /// `&=`.
    And,
    /// `|=`.
    Or,
    /// `^=`.
    Xor,
    /// `<<=`.
    LogicalShiftLeft,
    /// `>>=`.
    LogicalShiftRight,
    /// `<<<=`.
    ArithmeticShiftLeft,
    /// `>>>=`.
    ArithmeticShiftRight,
}

/// The operators that count up or down by one (11.4.2).
#[derive(Clone, Copy, PartialEq, Eq)]
pub enum StepOperator {
    /// `++`.
    Increment,
    /// `--`.
    Decrement,
}

/// A package in front of a name of it: `p::` (26.3, A.9.3).
#[derive(Clone, Copy)]
pub struct PackageScope {
    /// The package.
    pub name: u32,
    /// `::`.
    pub colons: u32,
}

/// A name, or a package and a name of it (26.3): `n` or `p::n`.
#[derive(Clone, Copy)]
pub struct ScopedName {
    /// The package, where one is written.
    pub scope: Option<PackageScope>,
    /// The name.
    pub name: u32,
}

impl ScopedName {
    /// The number of the package's name, where one is written.
    pub fn package(&self) -> Option<u32>
        ensures { result ≡ package_of self.now.scope }
    {
        match self.scope {
            Some(scope) => Some(scope.name),
            None => None,
        }
    }

    /// The number of its first token.
    pub fn first_token(&self) -> u32
        ensures { first_token_of (scoped_name_tree self.now) ≡ Some result }
    {
        match self.scope {
            Some(scope) => scope.name,
            None => self.name,
        }
    }
}

/// A colon and the name of a block, after `begin` or an end word (9.3.4).
#[derive(Clone, Copy)]
pub struct Label {
    /// `:`.
    pub colon: u32,
    /// The name.
    pub name: u32,
}

/// How many cases or conditions may hold (12.4.2 and 12.5.3).
#[derive(Clone, Copy, PartialEq, Eq)]
pub enum Uniqueness {
    /// `unique`.
    Unique,
    /// `unique0`.
    Unique0,
    /// `priority`.
    Priority,
}

/// Which bits a case statement takes no notice of (12.5).
#[derive(Clone, Copy, PartialEq, Eq)]
pub enum CaseKeyword {
    /// `case`.
    Case,
    /// `casez`.
    Casez,
    /// `casex`.
    Casex,
}

/// A loop with its condition or count at the front (12.7).
#[derive(Clone, Copy, PartialEq, Eq)]
pub enum LoopKeyword {
    /// `while`.
    While,
    /// `repeat`.
    Repeat,
}

/// The procedures that begin with an event control (9.2).
#[derive(Clone, Copy, PartialEq, Eq)]
pub enum ClockedKeyword {
    /// `always`.
    Always,
    /// `always_ff`.
    AlwaysFf,
}

/// The procedures without an event control (9.2).
#[derive(Clone, Copy, PartialEq, Eq)]
pub enum PlainKeyword {
    /// `always_comb`.
    AlwaysComb,
    /// `always_latch`.
    AlwaysLatch,
    /// `initial`.
    Initial,
}

/// Which change of a value is an event (9.4.2).
#[derive(Clone, Copy, PartialEq, Eq)]
pub enum Edge {
    /// `posedge`.
    Posedge,
    /// `negedge`.
    Negedge,
    /// `edge`.
    Edge,
}

/// What stands between two events (9.4.2.1).
#[derive(Clone, Copy, PartialEq, Eq)]
pub enum EventSeparator {
    /// `or`.
    Or,
    /// `,`.
    Comma,
}

/// The keywords that begin a module (23.2).
#[derive(Clone, Copy, PartialEq, Eq)]
pub enum ModuleKeyword {
    /// `module`.
    Module,
    /// `macromodule`.
    Macromodule,
}

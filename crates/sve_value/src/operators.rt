/// A unary operator, by its name in IEEE 1800-2017, Table 11-1.
#[derive(Clone, Copy, PartialEq, Eq)]
pub enum Unary {
    /// `+` (11.4.3).
    Plus,
    /// `-` (11.4.3).
    Minus,
    /// `~` (11.4.8).
    BitwiseNot,
    /// `!` (11.4.7).
    LogicalNot,
    /// `&` (11.4.9).
    ReductionAnd,
    /// `~&` (11.4.9).
    ReductionNand,
    /// `|` (11.4.9).
    ReductionOr,
    /// `~|` (11.4.9).
    ReductionNor,
    /// `^` (11.4.9).
    ReductionXor,
    /// `~^` and `^~` (11.4.9).
    ReductionXnor,
}

/// A binary operator, by its name in IEEE 1800-2017, Table 11-1.
#[derive(Clone, Copy, PartialEq, Eq)]
pub enum Binary {
    /// `+` (11.4.3).
    Add,
    /// `-` (11.4.3).
    Subtract,
    /// `*` (11.4.3).
    Multiply,
    /// `/` (11.4.3).
    Divide,
    /// `%` (11.4.3).
    Modulus,
    /// `**` (11.4.3).
    Power,
    /// `&` (11.4.8).
    BitwiseAnd,
    /// `|` (11.4.8).
    BitwiseOr,
    /// `^` (11.4.8).
    BitwiseXor,
    /// `~^` and `^~` (11.4.8).
    BitwiseXnor,
    /// `==` (11.4.5).
    LogicalEqual,
    /// `!=` (11.4.5).
    LogicalNotEqual,
    /// `===` (11.4.5).
    CaseEqual,
    /// `!==` (11.4.5).
    CaseNotEqual,
    /// `==?` (11.4.6).
    WildcardEqual,
    /// `!=?` (11.4.6).
    WildcardNotEqual,
    /// `<` (11.4.4).
    Less,
    /// `<=` (11.4.4).
    LessOrEqual,
    /// `>` (11.4.4).
    Greater,
    /// `>=` (11.4.4).
    GreaterOrEqual,
    /// `&&` (11.4.7).
    LogicalAnd,
    /// `||` (11.4.7).
    LogicalOr,
    /// `->` (11.4.7).
    LogicalImplication,
    /// `<->` (11.4.7).
    LogicalEquivalence,
    /// `<<` (11.4.10).
    LogicalShiftLeft,
    /// `>>` (11.4.10).
    LogicalShiftRight,
    /// `<<<` (11.4.10).
    ArithmeticShiftLeft,
    /// `>>>` (11.4.10).
    ArithmeticShiftRight,
}

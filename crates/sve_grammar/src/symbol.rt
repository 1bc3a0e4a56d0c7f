/// The symbols of the grammar that may lead back to themselves. What stands for one of them is one deeper than it (own).
#[derive(Clone, Copy, PartialEq, Eq)]
pub enum Symbol {
    /// An expression (IEEE 1800-2017, A.8.3).
    Expression,
    /// An expression without an implication at its top: operations, or a choice by `?` (A.8.3).
    Conditional,
    /// An operand with its unary operators (A.8.3).
    Unary,
    /// A data type that begins with a keyword (A.2.2.1).
    DataType,
    /// What an assignment writes to (A.8.5).
    LeftSide,
    /// A statement (A.6.4).
    Statement,
    /// An item of a module, an interface or a generate block (A.1.4).
    Item,
}

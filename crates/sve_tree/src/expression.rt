ghost use Rattle.std.specs.Prelude.{◌≡◌, Some};
ghost use Rattle.sve_tree.specs.Shape.{first_token_of};
ghost use Rattle.sve_tree.specs.Expressions.{tree_at};

use crate::row::Row;
use crate::word::{
    BinaryOperator, ImplicationOperator, IntegerKeyword, Mark, ScopedName, Sign, UnaryOperator,
};

/// An expression (IEEE 1800-2017, clause 11, A.8.3 and A.8.4). Each number of a token is that within its chunk, from 0.
#[cycle(expression)]
pub enum Expr {
    /// A decimal number by itself: `12` (5.7.1).
    Decimal {
        /// The number.
        token: u32,
    },
    /// A based number with its size: `8'hff` (5.7.1).
    Sized {
        /// The size in bits.
        size: u32,
        /// The base and the digits.
        based: u32,
    },
    /// A cast to a size given by a number: `8'(e)` (6.24.1).
    SizeCast {
        /// The size in bits.
        size: u32,
        /// What is cast.
        cast: Cast,
    },
    /// A based number without a size: `'hff` (5.7.1).
    Based {
        /// The base and the digits.
        token: u32,
    },
    /// A bit that fills its context: `'0` (5.7.1).
    Unbased {
        /// The apostrophe and the bit.
        token: u32,
    },
    /// A string literal (5.9).
    Text {
        /// The literal.
        token: u32,
    },
    /// An expression in parentheses.
    Parenthesized {
        /// The parentheses and the expression.
        inner: Parenthesized,
    },
    /// A cast to a size given by an expression: `(e)'(f)` (6.24.1).
    ParenthesizedCast {
        /// The size in bits.
        size: Parenthesized,
        /// What is cast.
        cast: Cast,
    },
    /// An assignment pattern: `'{1, 2}` (10.9).
    Pattern {
        /// The pattern.
        pattern: Pattern,
    },
    /// A replication: `{n{a, b}}` (11.4.12.1).
    Replication {
        /// `{`.
        opening: u32,
        /// How often.
        count: Box<Expr>,
        /// The inner `{`.
        inner_opening: u32,
        /// What is repeated, the most significant first.
        operands: Row<Expr>,
        /// The inner `}`.
        inner_closing: u32,
        /// `}`.
        closing: u32,
        /// Selects of its bits.
        selects: Vec<RangeSelect>,
    },
    /// A concatenation: `{a, b}` (11.4.12).
    Concatenation {
        /// `{`.
        opening: u32,
        /// The operands, the most significant first.
        operands: Row<Expr>,
        /// `}`.
        closing: u32,
        /// Selects of its bits.
        selects: Vec<RangeSelect>,
    },
    /// A cast to a sign: `signed'(e)` (6.24.1).
    SignCast {
        /// The sign.
        sign: Mark<Sign>,
        /// What is cast.
        cast: Cast,
    },
    /// An integer type in the place of an expression: `logic [7:0]` (6.11), as an argument of `$bits` (20.6.2).
    Type {
        /// The type's keyword.
        keyword: Mark<IntegerKeyword>,
        /// The sign, where one is written.
        sign: Option<Mark<Sign>>,
        /// The packed dimensions, from left to right.
        dimensions: Vec<Dimension>,
    },
    /// A cast to an integer type: `int'(e)` (6.24.1).
    TypeCast {
        /// The type's keyword.
        keyword: Mark<IntegerKeyword>,
        /// The sign, where one is written.
        sign: Option<Mark<Sign>>,
        /// The packed dimensions, from left to right.
        dimensions: Vec<Dimension>,
        /// What is cast.
        cast: Cast,
    },
    /// A system function without a list of arguments: `$time` (clause 20).
    SystemName {
        /// Its name.
        name: u32,
        /// Selects of its result.
        selects: Vec<Select>,
    },
    /// A call of a system function: `$clog2(n)` (clause 20).
    SystemCall {
        /// Its name.
        name: u32,
        /// Its arguments.
        arguments: ArgumentList,
        /// Selects of its result.
        selects: Vec<Select>,
    },
    /// A name with what is applied to it, in order: selects, calls, casts and patterns (A.8.4).
    Name {
        /// The name.
        name: ScopedName,
        /// What is applied to it.
        postfixes: Vec<Postfix>,
    },
    /// An operator and its operand (11.4).
    Unary {
        /// The operator.
        operator: Mark<UnaryOperator>,
        /// The operand.
        operand: Box<Expr>,
    },
    /// A chain of operators of one level of Table 11-2, grouped from the left: `a + b - c` is `(a + b) - c`, so each operation
    /// applies to all that stands before it (11.3.2).
    Operations {
        /// The first operand.
        first: Box<Expr>,
        /// The operations, at least one, all of one level, from left to right.
        operations: Vec<Operation>,
    },
    /// One of two values by a condition: `c ? a : b` (11.4.11).
    Conditional {
        /// The condition.
        condition: Box<Expr>,
        /// `?`.
        question: u32,
        /// The value where the condition is true.
        chosen: Box<Expr>,
        /// `:`.
        colon: u32,
        /// The value where it is false.
        otherwise: Box<Expr>,
    },
    /// `a -> b` or `a <-> b`, grouped from the right (11.4.7).
    Implication {
        /// The left operand.
        left: Box<Expr>,
        /// The operator.
        operator: Mark<ImplicationOperator>,
        /// The right operand.
        right: Box<Expr>,
    },
}

impl Drop for Expr {
    #[cycle(expression)]
    fn drop(self) {
        match self {
            Expr::Decimal { token: _ } => {}
            Expr::Sized { size: _, based: _ } => {}
            Expr::SizeCast { size: _, cast: _ } => {}
            Expr::Based { token: _ } => {}
            Expr::Unbased { token: _ } => {}
            Expr::Text { token: _ } => {}
            Expr::Parenthesized { inner: _ } => {}
            Expr::ParenthesizedCast { size: _, cast: _ } => {}
            Expr::Pattern { pattern: _ } => {}
            Expr::Replication {
                opening: _,
                count: _,
                inner_opening: _,
                operands: _,
                inner_closing: _,
                closing: _,
                selects: _,
            } => {}
            Expr::Concatenation {
                opening: _,
                operands: _,
                closing: _,
                selects: _,
            } => {}
            Expr::SignCast { sign: _, cast: _ } => {}
            Expr::Type {
                keyword: _,
                sign: _,
                dimensions: _,
            } => {}
            Expr::TypeCast {
                keyword: _,
                sign: _,
                dimensions: _,
                cast: _,
            } => {}
            Expr::SystemName {
                name: _,
                selects: _,
            } => {}
            Expr::SystemCall {
                name: _,
                arguments: _,
                selects: _,
            } => {}
            Expr::Name {
                name: _,
                postfixes: _,
            } => {}
            Expr::Unary {
                operator: _,
                operand: _,
            } => {}
            Expr::Operations {
                first: _,
                operations: _,
            } => {}
            Expr::Conditional {
                condition: _,
                question: _,
                chosen: _,
                colon: _,
                otherwise: _,
            } => {}
            Expr::Implication {
                left: _,
                operator: _,
                right: _,
            } => {}
        }
    }
}

impl Expr {
    /// The number of its first token.
    #[tactic(auto, using(crate::proofs::Firsts::first_of_name), unfolding(crate::specs::Expressions::own, crate::specs::Expressions::raise))]
    pub fn first_token(&self) -> u32
        ensures { first_token_of (tree_at 13 self.now) ≡ Some result }
    {
        match self {
            Expr::Decimal { token } | Expr::Based { token } => *token,
            Expr::Unbased { token } | Expr::Text { token } => *token,
            Expr::Sized { size, .. } | Expr::SizeCast { size, .. } => *size,
            Expr::Parenthesized { inner } => inner.opening,
            Expr::ParenthesizedCast { size, .. } => size.opening,
            Expr::Pattern { pattern } => pattern.opening,
            Expr::Replication { opening, .. } | Expr::Concatenation { opening, .. } => *opening,
            Expr::SignCast { sign, .. } => sign.token,
            Expr::Type { keyword, .. } | Expr::TypeCast { keyword, .. } => keyword.token,
            Expr::SystemName { name, .. } | Expr::SystemCall { name, .. } => *name,
            Expr::Name { name, .. } => name.first_token(),
            Expr::Unary { operator, .. } => operator.token,
            Expr::Operations { first, .. } => first.first_token(),
            Expr::Conditional { condition, .. } => condition.first_token(),
            Expr::Implication { left, .. } => left.first_token(),
        }
    }
}

/// An operation of a chain, on what stands before it.
#[cycle(expression)]
pub enum Operation {
    /// An operator and its right operand (11.4).
    Binary {
        /// The operator.
        operator: Mark<BinaryOperator>,
        /// The right operand.
        right: Expr,
    },
    /// Whether the value is among others: `inside {1, [3:5]}` (11.4.13). It is of the level of the comparisons by order.
    Inside {
        /// `inside`.
        keyword: u32,
        /// `{`.
        opening: u32,
        /// The values and ranges.
        ranges: Row<ValueRange>,
        /// `}`.
        closing: u32,
    },
}

impl Drop for Operation {
    #[cycle(expression)]
    fn drop(self) {
        match self {
            Operation::Binary {
                operator: _,
                right: _,
            } => {}
            Operation::Inside {
                keyword: _,
                opening: _,
                ranges: _,
                closing: _,
            } => {}
        }
    }
}

/// An expression in parentheses.
#[cycle(expression)]
pub struct Parenthesized {
    /// `(`.
    pub opening: u32,
    /// The expression.
    pub value: Box<Expr>,
    /// `)`.
    pub closing: u32,
}

impl Drop for Parenthesized {
    #[cycle(expression)]
    fn drop(self) {
        let Parenthesized {
            opening: _,
            value: _,
            closing: _,
        } = self;
    }
}

/// An apostrophe and, in parentheses, what is cast (6.24.1).
#[cycle(expression)]
pub struct Cast {
    /// `'`.
    pub apostrophe: u32,
    /// The value.
    pub value: Parenthesized,
}

impl Drop for Cast {
    #[cycle(expression)]
    fn drop(self) {
        let Cast {
            apostrophe: _,
            value: _,
        } = self;
    }
}

/// A dimension of a type or of a name (7.4).
#[cycle(expression)]
pub enum Dimension {
    /// A size: `[n]`.
    Size {
        /// `[`.
        opening: u32,
        /// The number of places.
        size: Box<Expr>,
        /// `]`.
        closing: u32,
    },
    /// Two bounds: `[a:b]`.
    Range {
        /// `[`.
        opening: u32,
        /// The leftmost place.
        left: Box<Expr>,
        /// `:`.
        colon: u32,
        /// The rightmost place.
        right: Box<Expr>,
        /// `]`.
        closing: u32,
    },
}

impl Drop for Dimension {
    #[cycle(expression)]
    fn drop(self) {
        match self {
            Dimension::Size {
                opening: _,
                size: _,
                closing: _,
            } => {}
            Dimension::Range {
                opening: _,
                left: _,
                colon: _,
                right: _,
                closing: _,
            } => {}
        }
    }
}

/// Which places are selected (11.5.1).
#[cycle(expression)]
pub enum Range {
    /// One place.
    Index {
        /// The place.
        index: Box<Expr>,
    },
    /// Those from one to another: `a:b`.
    Between {
        /// The leftmost place.
        left: Box<Expr>,
        /// `:`.
        colon: u32,
        /// The rightmost place.
        right: Box<Expr>,
    },
    /// So many upward: `a +: n`.
    Upward {
        /// The lowest place.
        from: Box<Expr>,
        /// `+:`.
        at: u32,
        /// How many.
        width: Box<Expr>,
    },
    /// So many downward: `a -: n`.
    Downward {
        /// The highest place.
        from: Box<Expr>,
        /// `-:`.
        at: u32,
        /// How many.
        width: Box<Expr>,
    },
}

impl Drop for Range {
    #[cycle(expression)]
    fn drop(self) {
        match self {
            Range::Index { index: _ } => {}
            Range::Between {
                left: _,
                colon: _,
                right: _,
            } => {}
            Range::Upward {
                from: _,
                at: _,
                width: _,
            } => {}
            Range::Downward {
                from: _,
                at: _,
                width: _,
            } => {}
        }
    }
}

/// A range in brackets.
#[cycle(expression)]
pub struct RangeSelect {
    /// `[`.
    pub opening: u32,
    /// The range.
    pub range: Range,
    /// `]`.
    pub closing: u32,
}

impl Drop for RangeSelect {
    #[cycle(expression)]
    fn drop(self) {
        let RangeSelect {
            opening: _,
            range: _,
            closing: _,
        } = self;
    }
}

/// A step from a name to a part of what it names (11.5).
#[cycle(expression)]
pub enum Select {
    /// A member of a structure, or a name in a scope: `.m`.
    Member {
        /// `.`.
        dot: u32,
        /// The name.
        name: u32,
    },
    /// Bits or elements: `[3:0]`.
    Range {
        /// The range.
        select: RangeSelect,
    },
}

impl Drop for Select {
    #[cycle(expression)]
    fn drop(self) {
        match self {
            Select::Member { dot: _, name: _ } => {}
            Select::Range { select: _ } => {}
        }
    }
}

/// What is applied to a name.
#[cycle(expression)]
pub enum Postfix {
    /// A member, bits or elements.
    Select {
        /// The step.
        select: Select,
    },
    /// A call (13.5).
    Call {
        /// The arguments.
        arguments: ArgumentList,
    },
    /// A cast, where the name is a type or a constant size (6.24.1).
    Cast {
        /// What is cast.
        cast: Cast,
    },
    /// An assignment pattern of the type that the name is (10.9).
    Pattern {
        /// The pattern.
        pattern: Pattern,
    },
}

impl Drop for Postfix {
    #[cycle(expression)]
    fn drop(self) {
        match self {
            Postfix::Select { select: _ } => {}
            Postfix::Call { arguments: _ } => {}
            Postfix::Cast { cast: _ } => {}
            Postfix::Pattern { pattern: _ } => {}
        }
    }
}

/// Arguments in parentheses: of a call (13.5), or connections or overrides of an instance (23.3.2 and 23.10.2).
#[cycle(expression)]
pub struct ArgumentList {
    /// `(`.
    pub opening: u32,
    /// The arguments. The list `()` has one, which is empty.
    pub arguments: Row<Arg>,
    /// `)`.
    pub closing: u32,
}

impl Drop for ArgumentList {
    #[cycle(expression)]
    fn drop(self) {
        let ArgumentList {
            opening: _,
            arguments: _,
            closing: _,
        } = self;
    }
}

/// An argument of a call, or a connection or an override of an instance (13.5.4, 23.3.2).
#[cycle(expression)]
pub enum Arg {
    /// `.*`.
    Wildcard {
        /// `.*`.
        token: u32,
    },
    /// A name that is given the thing of the same name: `.n`.
    Implicit {
        /// `.`.
        dot: u32,
        /// The name.
        name: u32,
    },
    /// A name that is given nothing: `.n()`.
    Unconnected {
        /// `.`.
        dot: u32,
        /// The name.
        name: u32,
        /// `(`.
        opening: u32,
        /// `)`.
        closing: u32,
    },
    /// A name that is given a value: `.n(e)`.
    Named {
        /// `.`.
        dot: u32,
        /// The name.
        name: u32,
        /// `(`.
        opening: u32,
        /// The value.
        value: Box<Expr>,
        /// `)`.
        closing: u32,
    },
    /// A value by its place in the list.
    Ordered {
        /// The value.
        value: Box<Expr>,
    },
    /// Nothing, in its place in the list.
    Empty,
}

impl Drop for Arg {
    #[cycle(expression)]
    fn drop(self) {
        match self {
            Arg::Wildcard { token: _ } => {}
            Arg::Implicit { dot: _, name: _ } => {}
            Arg::Unconnected {
                dot: _,
                name: _,
                opening: _,
                closing: _,
            } => {}
            Arg::Named {
                dot: _,
                name: _,
                opening: _,
                value: _,
                closing: _,
            } => {}
            Arg::Ordered { value: _ } => {}
            Arg::Empty => {}
        }
    }
}

/// A value, or all values between two bounds (11.4.13).
#[cycle(expression)]
pub enum ValueRange {
    /// `[a:b]`.
    Between {
        /// `[`.
        opening: u32,
        /// The lower bound.
        low: Box<Expr>,
        /// `:`.
        colon: u32,
        /// The upper bound.
        high: Box<Expr>,
        /// `]`.
        closing: u32,
    },
    /// One value.
    Value {
        /// The value.
        value: Box<Expr>,
    },
}

impl Drop for ValueRange {
    #[cycle(expression)]
    fn drop(self) {
        match self {
            ValueRange::Between {
                opening: _,
                low: _,
                colon: _,
                high: _,
                closing: _,
            } => {}
            ValueRange::Value { value: _ } => {}
        }
    }
}

/// An assignment pattern (10.9).
#[cycle(expression)]
pub struct Pattern {
    /// `'{`.
    pub opening: u32,
    /// The items.
    pub items: Row<PatternItem>,
    /// `}`.
    pub closing: u32,
}

impl Drop for Pattern {
    #[cycle(expression)]
    fn drop(self) {
        let Pattern {
            opening: _,
            items: _,
            closing: _,
        } = self;
    }
}

/// An item of an assignment pattern (10.9).
#[cycle(expression)]
pub enum PatternItem {
    /// The value of all that is not given otherwise: `default: e`.
    Default {
        /// `default`.
        keyword: u32,
        /// `:`.
        colon: u32,
        /// The value.
        value: Box<Expr>,
    },
    /// A value by its place.
    Value {
        /// The value.
        value: Box<Expr>,
    },
    /// A value of a member, an index or a type: `k: e`.
    Keyed {
        /// The member, index or type.
        key: Box<Expr>,
        /// `:`.
        colon: u32,
        /// The value.
        value: Box<Expr>,
    },
    /// Values that are repeated: `n{a, b}`.
    Repeated {
        /// How often.
        count: Box<Expr>,
        /// `{`.
        opening: u32,
        /// The values.
        values: Row<Expr>,
        /// `}`.
        closing: u32,
    },
}

impl Drop for PatternItem {
    #[cycle(expression)]
    fn drop(self) {
        match self {
            PatternItem::Default {
                keyword: _,
                colon: _,
                value: _,
            } => {}
            PatternItem::Value { value: _ } => {}
            PatternItem::Keyed {
                key: _,
                colon: _,
                value: _,
            } => {}
            PatternItem::Repeated {
                count: _,
                opening: _,
                values: _,
                closing: _,
            } => {}
        }
    }
}

//! How the words are spelled that say which of several things is meant.
use sve_bytes::Dir;
use sve_tree::{
    AtomKeyword, BinaryOperator, ImplicationOperator, IntegerKeyword, Lifetime, Net,
    ParameterKeyword, Sign, UnaryOperator, VectorKeyword,
};

/// A word that has one spelling.
pub trait Spelled {
    /// The spelling.
    fn spelling(&self) -> &'static str;
}

impl Spelled for Sign {
    fn spelling(&self) -> &'static str {
        match self {
            Sign::Signed => "signed",
            Sign::Unsigned => "unsigned",
        }
    }
}

impl Spelled for Lifetime {
    fn spelling(&self) -> &'static str {
        match self {
            Lifetime::Automatic => "automatic",
            Lifetime::Static => "static",
        }
    }
}

impl Spelled for ParameterKeyword {
    fn spelling(&self) -> &'static str {
        match self {
            ParameterKeyword::Parameter => "parameter",
            ParameterKeyword::Localparam => "localparam",
        }
    }
}

impl Spelled for Dir {
    fn spelling(&self) -> &'static str {
        match self {
            Dir::Input => "input",
            Dir::Output => "output",
            Dir::Inout => "inout",
        }
    }
}

impl Spelled for Net {
    fn spelling(&self) -> &'static str {
        match self {
            Net::Wire => "wire",
            Net::Tri => "tri",
            Net::Uwire => "uwire",
            Net::Wand => "wand",
            Net::Wor => "wor",
            Net::Triand => "triand",
            Net::Trior => "trior",
            Net::Tri0 => "tri0",
            Net::Tri1 => "tri1",
            Net::Supply0 => "supply0",
            Net::Supply1 => "supply1",
        }
    }
}

impl Spelled for AtomKeyword {
    fn spelling(&self) -> &'static str {
        match self {
            AtomKeyword::Byte => "byte",
            AtomKeyword::Shortint => "shortint",
            AtomKeyword::Int => "int",
            AtomKeyword::Longint => "longint",
            AtomKeyword::Integer => "integer",
            AtomKeyword::Time => "time",
        }
    }
}

impl Spelled for VectorKeyword {
    fn spelling(&self) -> &'static str {
        match self {
            VectorKeyword::Bit => "bit",
            VectorKeyword::Logic => "logic",
            VectorKeyword::Reg => "reg",
        }
    }
}

impl Spelled for IntegerKeyword {
    fn spelling(&self) -> &'static str {
        match self {
            IntegerKeyword::Atom(atom) => atom.spelling(),
            IntegerKeyword::Vector(vector) => vector.spelling(),
        }
    }
}

impl Spelled for UnaryOperator {
    fn spelling(&self) -> &'static str {
        match self {
            UnaryOperator::Plus => "+",
            UnaryOperator::Minus => "-",
            UnaryOperator::LogicalNot => "!",
            UnaryOperator::Not => "~",
            UnaryOperator::And => "&",
            UnaryOperator::Nand => "~&",
            UnaryOperator::Or => "|",
            UnaryOperator::Nor => "~|",
            UnaryOperator::Xor => "^",
            UnaryOperator::TildeXnor => "~^",
            UnaryOperator::CaretXnor => "^~",
        }
    }
}

impl Spelled for BinaryOperator {
    fn spelling(&self) -> &'static str {
        match self {
            BinaryOperator::Power => "**",
            BinaryOperator::Times => "*",
            BinaryOperator::Divide => "/",
            BinaryOperator::Remainder => "%",
            BinaryOperator::Plus => "+",
            BinaryOperator::Minus => "-",
            BinaryOperator::LogicalShiftLeft => "<<",
            BinaryOperator::LogicalShiftRight => ">>",
            BinaryOperator::ArithmeticShiftLeft => "<<<",
            BinaryOperator::ArithmeticShiftRight => ">>>",
            BinaryOperator::Less => "<",
            BinaryOperator::LessEqual => "<=",
            BinaryOperator::Greater => ">",
            BinaryOperator::GreaterEqual => ">=",
            BinaryOperator::Equal => "==",
            BinaryOperator::NotEqual => "!=",
            BinaryOperator::CaseEqual => "===",
            BinaryOperator::CaseNotEqual => "!==",
            BinaryOperator::WildcardEqual => "==?",
            BinaryOperator::WildcardNotEqual => "!=?",
            BinaryOperator::And => "&",
            BinaryOperator::Xor => "^",
            BinaryOperator::TildeXnor => "~^",
            BinaryOperator::CaretXnor => "^~",
            BinaryOperator::Or => "|",
            BinaryOperator::LogicalAnd => "&&",
            BinaryOperator::LogicalOr => "||",
        }
    }
}

impl Spelled for ImplicationOperator {
    fn spelling(&self) -> &'static str {
        match self {
            ImplicationOperator::Implies => "->",
            ImplicationOperator::Equivalent => "<->",
        }
    }
}

//! The rules of expressions (IEEE 1800-2017, A.8 and A.2.5). As in Annex A, `[ ]` is at most one and `{ }` any number;
//! tokens stand between backticks.

ghost use Rattle.std.specs.Prelude.{◌≡◌, true};
ghost use Rattle.sve_run.specs.Meaning.{meaning, named, is_written};
ghost use Rattle.sve_run.specs.declared.part.Sign.TheVariants as signs;

use crate::part::{Part, Sign, expression_rule, first_of, many, opt, seq, sym, tok, word};
use sve_grammar::Symbol;
use sve_token::{Keyword, Kind};

/// The names of these rules.
#[derive(Clone, Copy)]
pub enum ExpressionSign {
    Signing,
    IntegerAtomType,
    IntegerVectorType,
    IntegerType,
    Dimension,
    Dimensions,
    ScopedName,
    Parenthesized,
    MoreExpressions,
    BracedExpressions,
    Connection,
    Argument,
    MoreArguments,
    Arguments,
    ArgumentList,
    RangeEnd,
    Range,
    BracketSelect,
    BracketSelects,
    Select,
    Selects,
    Cast,
    PatternItemEnd,
    PatternItem,
    MorePatternItems,
    Pattern,
    ConcatenationEnd,
    Concatenation,
    Decimal,
    TypedPrimary,
    SystemCall,
    Postfix,
    Postfixes,
    Primary,
    UnaryOperator,
    Unary,
    Operators1,
    Operators2,
    Operators3,
    Operators4,
    Operators5,
    Operators6,
    Operators7,
    Operators8,
    Operators9,
    Operators10,
    Operators11,
    ValueRange,
    MoreValueRanges,
    Membership,
    Operations1,
    Operations2,
    Operations3,
    Operations4,
    Operations5,
    Operations6,
    Operations7,
    Operations8,
    Operations9,
    Operations10,
    Operations11,
    Conditional,
    ImplicationOperator,
    Expression,
}

/// signing (A.2.2.1).
///
/// signing : `signed` | `unsigned`
const SIGNING: Part = first_of!(word!(KwSigned), word!(KwUnsigned));

/// integer_atom_type (A.2.2.1).
///
/// integer_atom_type : `byte` | `shortint` | `int` | `longint` | `integer` | `time`
const INTEGER_ATOM_TYPE: Part = first_of!(
    word!(KwByte),
    word!(KwShortint),
    word!(KwInt),
    word!(KwLongint),
    word!(KwInteger),
    word!(KwTime)
);

/// integer_vector_type (A.2.2.1).
///
/// integer_vector_type : `bit` | `logic` | `reg`
const INTEGER_VECTOR_TYPE: Part = first_of!(word!(KwBit), word!(KwLogic), word!(KwReg));

/// integer_type (A.2.2.1).
///
/// integer_type : integer_atom_type | integer_vector_type
const INTEGER_TYPE: Part = first_of!(
    expression_rule!(IntegerAtomType),
    expression_rule!(IntegerVectorType)
);

/// packed_dimension, unpacked_dimension (A.2.5).
///
/// dimension : `[` expression [ `:` expression ] `]`
const DIMENSION: Part = seq!(
    tok!(LeftBracket),
    sym!(Expression),
    opt!(seq!(tok!(Colon), sym!(Expression))),
    tok!(RightBracket)
);

/// dimensions : { dimension }
const DIMENSIONS: Part = many!(expression_rule!(Dimension));

/// a name, perhaps behind the name of a package: ps_identifier (A.9.3).
///
/// scoped_name : identifier [ `::` identifier ]
const SCOPED_NAME: Part = seq!(
    tok!(Identifier),
    opt!(seq!(tok!(ColonColon), tok!(Identifier)))
);

/// parenthesized : `(` expression `)`
const PARENTHESIZED: Part = seq!(tok!(LeftParen), sym!(Expression), tok!(RightParen));

/// more_expressions : { `,` expression }
const MORE_EXPRESSIONS: Part = many!(seq!(tok!(Comma), sym!(Expression)));

/// expressions in braces: concatenation (A.8.1).
///
/// braced_expressions : `{` expression more_expressions `}`
const BRACED_EXPRESSIONS: Part = seq!(
    tok!(LeftBrace),
    sym!(Expression),
    expression_rule!(MoreExpressions),
    tok!(RightBrace)
);

/// what a named argument is connected to: ( [ expression ] ).
///
/// connection : `(` [ expression ] `)`
const CONNECTION: Part = seq!(tok!(LeftParen), opt!(sym!(Expression)), tok!(RightParen));

/// an argument of a call, an override or a connection of an instance: list_of_arguments (A.8.2),
/// named_parameter_assignment, named_port_connection (A.4.1.1).
///
/// argument : `.*` | `.` identifier [ connection ] | [ expression ]
const ARGUMENT: Part = first_of!(
    tok!(DotStar),
    seq!(
        tok!(Dot),
        tok!(Identifier),
        opt!(expression_rule!(Connection))
    ),
    opt!(sym!(Expression))
);

/// more_arguments : { `,` argument }
const MORE_ARGUMENTS: Part = many!(seq!(tok!(Comma), expression_rule!(Argument)));

/// list_of_arguments (A.8.2), list_of_parameter_assignments, list_of_port_connections (A.4.1.1).
///
/// arguments : argument more_arguments
const ARGUMENTS: Part = seq!(expression_rule!(Argument), expression_rule!(MoreArguments));

/// arguments in parentheses.
///
/// argument_list : `(` arguments `)`
const ARGUMENT_LIST: Part = seq!(
    tok!(LeftParen),
    expression_rule!(Arguments),
    tok!(RightParen)
);

/// what a range has behind its first expression: part_select_range (A.8.3).
///
/// range_end : `:` expression | `+:` expression | `-:` expression
const RANGE_END: Part = first_of!(
    seq!(tok!(Colon), sym!(Expression)),
    seq!(tok!(PlusColon), sym!(Expression)),
    seq!(tok!(MinusColon), sym!(Expression))
);

/// one expression, or a range: bit_select (A.8.4), part_select_range (A.8.3).
///
/// range : expression [ range_end ]
const RANGE: Part = seq!(sym!(Expression), opt!(expression_rule!(RangeEnd)));

/// [ .. ] behind a name or a concatenation.
///
/// bracket_select : `[` range `]`
const BRACKET_SELECT: Part = seq!(
    tok!(LeftBracket),
    expression_rule!(Range),
    tok!(RightBracket)
);

/// bracket_selects : { bracket_select }
const BRACKET_SELECTS: Part = many!(expression_rule!(BracketSelect));

/// a part of select (A.8.4): a member, or [ .. ].
///
/// select : `.` identifier | bracket_select
const SELECT: Part = first_of!(
    seq!(tok!(Dot), tok!(Identifier)),
    expression_rule!(BracketSelect)
);

/// selects : { select }
const SELECTS: Part = many!(expression_rule!(Select));

/// ' ( expression ), behind the type or the size: cast (A.8.4).
///
/// cast : `'` parenthesized
const CAST: Part = seq!(tok!(Apostrophe), expression_rule!(Parenthesized));

/// what an item of a pattern has behind its first expression.
///
/// pattern_item_end : `:` expression | braced_expressions
const PATTERN_ITEM_END: Part = first_of!(
    seq!(tok!(Colon), sym!(Expression)),
    expression_rule!(BracedExpressions)
);

/// an item of assignment_pattern (A.6.7.1).
///
/// pattern_item : `default` `:` expression | expression [ pattern_item_end ]
const PATTERN_ITEM: Part = first_of!(
    seq!(word!(KwDefault), tok!(Colon), sym!(Expression)),
    seq!(sym!(Expression), opt!(expression_rule!(PatternItemEnd)))
);

/// more_pattern_items : { `,` pattern_item }
const MORE_PATTERN_ITEMS: Part = many!(seq!(tok!(Comma), expression_rule!(PatternItem)));

/// assignment_pattern (A.6.7.1).
///
/// pattern : `'{` pattern_item more_pattern_items `}`
const PATTERN: Part = seq!(
    tok!(ApostropheLeftBrace),
    expression_rule!(PatternItem),
    expression_rule!(MorePatternItems),
    tok!(RightBrace)
);

/// behind the first expression in braces: what is repeated, or the other expressions.
///
/// concatenation_end : braced_expressions | more_expressions
const CONCATENATION_END: Part = first_of!(
    expression_rule!(BracedExpressions),
    expression_rule!(MoreExpressions)
);

/// concatenation, multiple_concatenation (A.8.1).
///
/// concatenation : `{` expression concatenation_end `}` bracket_selects
const CONCATENATION: Part = seq!(
    tok!(LeftBrace),
    sym!(Expression),
    expression_rule!(ConcatenationEnd),
    tok!(RightBrace),
    expression_rule!(BracketSelects)
);

/// a number, or a number as the size of a cast: decimal_number (A.8.7), cast (A.8.4).
///
/// decimal : decimal_number [ based_number | cast ]
const DECIMAL: Part = seq!(
    tok!(Decimal),
    opt!(first_of!(tok!(Based), expression_rule!(Cast)))
);

/// an integer type, alone or with a cast: casting_type (A.2.2.1).
///
/// typed_primary : integer_type [ signing ] dimensions [ cast ]
const TYPED_PRIMARY: Part = seq!(
    expression_rule!(IntegerType),
    opt!(expression_rule!(Signing)),
    expression_rule!(Dimensions),
    opt!(expression_rule!(Cast))
);

/// system_tf_call (A.8.2).
///
/// system_call : system_name [ argument_list ] selects
const SYSTEM_CALL: Part = seq!(
    tok!(SystemName),
    opt!(expression_rule!(ArgumentList)),
    expression_rule!(Selects)
);

/// what stands behind a name: a select, a call's arguments, a cast or a pattern of that type.
///
/// postfix : select | argument_list | cast | pattern
const POSTFIX: Part = first_of!(
    expression_rule!(Select),
    expression_rule!(ArgumentList),
    expression_rule!(Cast),
    expression_rule!(Pattern)
);

/// postfixes : { postfix }
const POSTFIXES: Part = many!(expression_rule!(Postfix));

/// primary (A.8.4).
///
/// primary : decimal | based_number | unbased_literal | string_literal | parenthesized [ cast ] | pattern |
/// concatenation | signing cast | typed_primary | system_call | scoped_name postfixes
const PRIMARY: Part = first_of!(
    expression_rule!(Decimal),
    tok!(Based),
    tok!(Unbased),
    tok!(Text),
    seq!(
        expression_rule!(Parenthesized),
        opt!(expression_rule!(Cast))
    ),
    expression_rule!(Pattern),
    expression_rule!(Concatenation),
    seq!(expression_rule!(Signing), expression_rule!(Cast)),
    expression_rule!(TypedPrimary),
    expression_rule!(SystemCall),
    seq!(expression_rule!(ScopedName), expression_rule!(Postfixes))
);

/// unary_operator (A.8.6).
///
/// unary_operator : `+` | `-` | `!` | `~` | `&` | `~&` | `|` | `~|` | `^` | `~^` | `^~`
const UNARY_OPERATOR: Part = first_of!(
    tok!(Plus),
    tok!(Minus),
    tok!(Bang),
    tok!(Tilde),
    tok!(Ampersand),
    tok!(TildeAmpersand),
    tok!(Pipe),
    tok!(TildePipe),
    tok!(Caret),
    tok!(TildeCaret),
    tok!(CaretTilde)
);

/// an operand with its unary operators: expression (A.8.3).
///
/// unary : unary_operator unary | primary
const UNARY: Part = first_of!(
    seq!(expression_rule!(UnaryOperator), sym!(Unary)),
    expression_rule!(Primary)
);

/// binary_operator of level 1, power (A.8.6).
///
/// operators_1 : `**`
const OPERATORS_1: Part = tok!(StarStar);

/// binary_operator of level 2, multiplicative (A.8.6).
///
/// operators_2 : `*` | `/` | `%`
const OPERATORS_2: Part = first_of!(tok!(Star), tok!(Slash), tok!(Percent));

/// binary_operator of level 3, additive (A.8.6).
///
/// operators_3 : `+` | `-`
const OPERATORS_3: Part = first_of!(tok!(Plus), tok!(Minus));

/// binary_operator of level 4, shift (A.8.6).
///
/// operators_4 : `<<` | `>>` | `<<<` | `>>>`
const OPERATORS_4: Part = first_of!(
    tok!(LogicalShiftLeft),
    tok!(LogicalShiftRight),
    tok!(ArithmeticShiftLeft),
    tok!(ArithmeticShiftRight)
);

/// binary_operator of level 5, relational (A.8.6).
///
/// operators_5 : `<` | `<=` | `>` | `>=`
const OPERATORS_5: Part = first_of!(
    tok!(Less),
    tok!(LessEqual),
    tok!(Greater),
    tok!(GreaterEqual)
);

/// binary_operator of level 6, equality (A.8.6).
///
/// operators_6 : `==` | `!=` | `===` | `!==` | `==?` | `!=?`
const OPERATORS_6: Part = first_of!(
    tok!(LogicalEquality),
    tok!(LogicalInequality),
    tok!(CaseEquality),
    tok!(CaseInequality),
    tok!(WildcardEquality),
    tok!(WildcardInequality)
);

/// binary_operator of level 7, bitwise and (A.8.6).
///
/// operators_7 : `&`
const OPERATORS_7: Part = tok!(Ampersand);

/// binary_operator of level 8, bitwise exclusive or (A.8.6).
///
/// operators_8 : `^` | `~^` | `^~`
const OPERATORS_8: Part = first_of!(tok!(Caret), tok!(TildeCaret), tok!(CaretTilde));

/// binary_operator of level 9, bitwise or (A.8.6).
///
/// operators_9 : `|`
const OPERATORS_9: Part = tok!(Pipe);

/// binary_operator of level 10, logical and (A.8.6).
///
/// operators_10 : `&&`
const OPERATORS_10: Part = tok!(LogicalAnd);

/// binary_operator of level 11, logical or (A.8.6).
///
/// operators_11 : `||`
const OPERATORS_11: Part = tok!(LogicalOr);

/// value_range (A.8.3).
///
/// value_range : `[` expression `:` expression `]` | expression
const VALUE_RANGE: Part = first_of!(
    seq!(
        tok!(LeftBracket),
        sym!(Expression),
        tok!(Colon),
        sym!(Expression),
        tok!(RightBracket)
    ),
    sym!(Expression)
);

/// more_value_ranges : { `,` value_range }
const MORE_VALUE_RANGES: Part = many!(seq!(tok!(Comma), expression_rule!(ValueRange)));

/// inside { open_range_list }, behind an operand: inside_expression (A.8.3).
///
/// membership : `inside` `{` value_range more_value_ranges `}`
const MEMBERSHIP: Part = seq!(
    word!(KwInside),
    tok!(LeftBrace),
    expression_rule!(ValueRange),
    expression_rule!(MoreValueRanges),
    tok!(RightBrace)
);

/// the operations of level 1: binary_operator, expression (A.8.3).
///
/// operations_1 : unary { operators_1 unary }
const OPERATIONS_1: Part = seq!(
    sym!(Unary),
    many!(seq!(expression_rule!(Operators1), sym!(Unary)))
);

/// the operations of level 2: binary_operator, expression (A.8.3).
///
/// operations_2 : operations_1 { operators_2 operations_1 }
const OPERATIONS_2: Part = seq!(
    expression_rule!(Operations1),
    many!(seq!(expression_rule!(Operators2), expression_rule!(Operations1)))
);

/// the operations of level 3: binary_operator, expression (A.8.3).
///
/// operations_3 : operations_2 { operators_3 operations_2 }
const OPERATIONS_3: Part = seq!(
    expression_rule!(Operations2),
    many!(seq!(expression_rule!(Operators3), expression_rule!(Operations2)))
);

/// the operations of level 4: binary_operator, expression (A.8.3).
///
/// operations_4 : operations_3 { operators_4 operations_3 }
const OPERATIONS_4: Part = seq!(
    expression_rule!(Operations3),
    many!(seq!(expression_rule!(Operators4), expression_rule!(Operations3)))
);

/// the operations of level 5: binary_operator, expression (A.8.3).
///
/// operations_5 : operations_4 { operators_5 operations_4 | membership }
const OPERATIONS_5: Part = seq!(
    expression_rule!(Operations4),
    many!(first_of!(
        seq!(expression_rule!(Operators5), expression_rule!(Operations4)),
        expression_rule!(Membership)
    ))
);

/// the operations of level 6: binary_operator, expression (A.8.3).
///
/// operations_6 : operations_5 { operators_6 operations_5 }
const OPERATIONS_6: Part = seq!(
    expression_rule!(Operations5),
    many!(seq!(expression_rule!(Operators6), expression_rule!(Operations5)))
);

/// the operations of level 7: binary_operator, expression (A.8.3).
///
/// operations_7 : operations_6 { operators_7 operations_6 }
const OPERATIONS_7: Part = seq!(
    expression_rule!(Operations6),
    many!(seq!(expression_rule!(Operators7), expression_rule!(Operations6)))
);

/// the operations of level 8: binary_operator, expression (A.8.3).
///
/// operations_8 : operations_7 { operators_8 operations_7 }
const OPERATIONS_8: Part = seq!(
    expression_rule!(Operations7),
    many!(seq!(expression_rule!(Operators8), expression_rule!(Operations7)))
);

/// the operations of level 9: binary_operator, expression (A.8.3).
///
/// operations_9 : operations_8 { operators_9 operations_8 }
const OPERATIONS_9: Part = seq!(
    expression_rule!(Operations8),
    many!(seq!(expression_rule!(Operators9), expression_rule!(Operations8)))
);

/// the operations of level 10: binary_operator, expression (A.8.3).
///
/// operations_10 : operations_9 { operators_10 operations_9 }
const OPERATIONS_10: Part = seq!(
    expression_rule!(Operations9),
    many!(seq!(expression_rule!(Operators10), expression_rule!(Operations9)))
);

/// the operations of level 11: binary_operator, expression (A.8.3).
///
/// operations_11 : operations_10 { operators_11 operations_10 }
const OPERATIONS_11: Part = seq!(
    expression_rule!(Operations10),
    many!(seq!(
        expression_rule!(Operators11),
        expression_rule!(Operations10)
    ))
);

/// conditional_expression (A.8.3), or operations of the loosest level alone.
///
/// conditional : operations_11 [ `?` expression `:` conditional ]
const CONDITIONAL: Part = seq!(
    expression_rule!(Operations11),
    opt!(seq!(
        tok!(Question),
        sym!(Expression),
        tok!(Colon),
        sym!(Conditional)
    ))
);

/// implication and equivalence of expressions (11.4.7).
///
/// implication_operator : `->` | `<->`
const IMPLICATION_OPERATOR: Part = first_of!(tok!(Arrow), tok!(DoubleArrow));

/// expression (A.8.3).
///
/// expression : conditional [ implication_operator expression ]
const EXPRESSION: Part = seq!(
    sym!(Conditional),
    opt!(seq!(expression_rule!(ImplicationOperator), sym!(Expression)))
);

/// The right side of the rule.
#[tactic(auto, unfolding(sve_grammar::specs::Expressions::signing, sve_grammar::specs::Expressions::integer_atom_type, sve_grammar::specs::Expressions::integer_vector_type, sve_grammar::specs::Expressions::integer_type, sve_grammar::specs::Expressions::dimension, sve_grammar::specs::Expressions::dimensions, sve_grammar::specs::Expressions::scoped_name, sve_grammar::specs::Expressions::parenthesized, sve_grammar::specs::Expressions::more_expressions, sve_grammar::specs::Expressions::braced_expressions, sve_grammar::specs::Expressions::connection, sve_grammar::specs::Expressions::argument, sve_grammar::specs::Expressions::more_arguments, sve_grammar::specs::Expressions::arguments, sve_grammar::specs::Expressions::argument_list, sve_grammar::specs::Expressions::range_end, sve_grammar::specs::Expressions::range, sve_grammar::specs::Expressions::bracket_select, sve_grammar::specs::Expressions::bracket_selects, sve_grammar::specs::Expressions::select, sve_grammar::specs::Expressions::selects, sve_grammar::specs::Expressions::cast, sve_grammar::specs::Expressions::pattern_item_end, sve_grammar::specs::Expressions::pattern_item, sve_grammar::specs::Expressions::more_pattern_items, sve_grammar::specs::Expressions::pattern, sve_grammar::specs::Expressions::concatenation_end, sve_grammar::specs::Expressions::concatenation, sve_grammar::specs::Expressions::decimal, sve_grammar::specs::Expressions::typed_primary, sve_grammar::specs::Expressions::system_call, sve_grammar::specs::Expressions::postfix, sve_grammar::specs::Expressions::postfixes, sve_grammar::specs::Expressions::primary, sve_grammar::specs::Expressions::unary_operator, sve_grammar::specs::Expressions::unary, sve_grammar::specs::Expressions::value_range, sve_grammar::specs::Expressions::more_value_ranges, sve_grammar::specs::Expressions::membership, sve_grammar::specs::Expressions::conditional, sve_grammar::specs::Expressions::implication_operator, sve_grammar::specs::Expressions::expression, sve_grammar::specs::Expressions::operators, sve_grammar::specs::Expressions::operation, sve_grammar::specs::Expressions::operations))]
pub fn expression_part(sign: ExpressionSign) -> Part
    ensures meaning { meaning result ≡ named (signs.Expression sign) }
    ensures written { is_written result ≡ true }
{
    match sign {
        ExpressionSign::Signing => SIGNING,
        ExpressionSign::IntegerAtomType => INTEGER_ATOM_TYPE,
        ExpressionSign::IntegerVectorType => INTEGER_VECTOR_TYPE,
        ExpressionSign::IntegerType => INTEGER_TYPE,
        ExpressionSign::Dimension => DIMENSION,
        ExpressionSign::Dimensions => DIMENSIONS,
        ExpressionSign::ScopedName => SCOPED_NAME,
        ExpressionSign::Parenthesized => PARENTHESIZED,
        ExpressionSign::MoreExpressions => MORE_EXPRESSIONS,
        ExpressionSign::BracedExpressions => BRACED_EXPRESSIONS,
        ExpressionSign::Connection => CONNECTION,
        ExpressionSign::Argument => ARGUMENT,
        ExpressionSign::MoreArguments => MORE_ARGUMENTS,
        ExpressionSign::Arguments => ARGUMENTS,
        ExpressionSign::ArgumentList => ARGUMENT_LIST,
        ExpressionSign::RangeEnd => RANGE_END,
        ExpressionSign::Range => RANGE,
        ExpressionSign::BracketSelect => BRACKET_SELECT,
        ExpressionSign::BracketSelects => BRACKET_SELECTS,
        ExpressionSign::Select => SELECT,
        ExpressionSign::Selects => SELECTS,
        ExpressionSign::Cast => CAST,
        ExpressionSign::PatternItemEnd => PATTERN_ITEM_END,
        ExpressionSign::PatternItem => PATTERN_ITEM,
        ExpressionSign::MorePatternItems => MORE_PATTERN_ITEMS,
        ExpressionSign::Pattern => PATTERN,
        ExpressionSign::ConcatenationEnd => CONCATENATION_END,
        ExpressionSign::Concatenation => CONCATENATION,
        ExpressionSign::Decimal => DECIMAL,
        ExpressionSign::TypedPrimary => TYPED_PRIMARY,
        ExpressionSign::SystemCall => SYSTEM_CALL,
        ExpressionSign::Postfix => POSTFIX,
        ExpressionSign::Postfixes => POSTFIXES,
        ExpressionSign::Primary => PRIMARY,
        ExpressionSign::UnaryOperator => UNARY_OPERATOR,
        ExpressionSign::Unary => UNARY,
        ExpressionSign::Operators1 => OPERATORS_1,
        ExpressionSign::Operators2 => OPERATORS_2,
        ExpressionSign::Operators3 => OPERATORS_3,
        ExpressionSign::Operators4 => OPERATORS_4,
        ExpressionSign::Operators5 => OPERATORS_5,
        ExpressionSign::Operators6 => OPERATORS_6,
        ExpressionSign::Operators7 => OPERATORS_7,
        ExpressionSign::Operators8 => OPERATORS_8,
        ExpressionSign::Operators9 => OPERATORS_9,
        ExpressionSign::Operators10 => OPERATORS_10,
        ExpressionSign::Operators11 => OPERATORS_11,
        ExpressionSign::ValueRange => VALUE_RANGE,
        ExpressionSign::MoreValueRanges => MORE_VALUE_RANGES,
        ExpressionSign::Membership => MEMBERSHIP,
        ExpressionSign::Operations1 => OPERATIONS_1,
        ExpressionSign::Operations2 => OPERATIONS_2,
        ExpressionSign::Operations3 => OPERATIONS_3,
        ExpressionSign::Operations4 => OPERATIONS_4,
        ExpressionSign::Operations5 => OPERATIONS_5,
        ExpressionSign::Operations6 => OPERATIONS_6,
        ExpressionSign::Operations7 => OPERATIONS_7,
        ExpressionSign::Operations8 => OPERATIONS_8,
        ExpressionSign::Operations9 => OPERATIONS_9,
        ExpressionSign::Operations10 => OPERATIONS_10,
        ExpressionSign::Operations11 => OPERATIONS_11,
        ExpressionSign::Conditional => CONDITIONAL,
        ExpressionSign::ImplicationOperator => IMPLICATION_OPERATOR,
        ExpressionSign::Expression => EXPRESSION,
    }
}

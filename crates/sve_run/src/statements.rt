//! The rules of statements and of functions (IEEE 1800-2017, A.6, A.2.6 and A.2.8). As in Annex A, `[ ]` is at most one
//! and `{ }` any number; tokens stand between backticks.

ghost use Rattle.std.specs.Prelude.{◌≡◌, true};
ghost use Rattle.sve_run.specs.Meaning.{meaning, named, is_written};
ghost use Rattle.sve_run.specs.declared.part.Sign.TheVariants as signs;

use crate::declarations::DeclarationSign;
use crate::expressions::ExpressionSign;
use crate::part::{
    Part, Sign, declaration_rule, expression_rule, first_of, many, opt, seq, statement_rule, sym,
    tok, type_rule, word,
};
use crate::types::TypeSign;
use sve_grammar::Symbol;
use sve_token::{Keyword, Kind};

/// The names of these rules.
#[derive(Clone, Copy)]
pub enum StatementSign {
    IncrementOperator,
    AssignmentOperator,
    MoreLeftSides,
    LeftConcatenation,
    LeftSide,
    AssignmentOrIncrement,
    StatementTail,
    LocalDeclaration,
    BlockItemEnd,
    BlockItem,
    BlockItems,
    Block,
    Uniqueness,
    ElseBranch,
    IfStatement,
    CaseKeyword,
    CaseItem,
    CaseItems,
    CaseStatement,
    Choice,
    ForInitializationEnd,
    MoreForVariables,
    ForInitialization,
    ForStep,
    MoreForSteps,
    ForSteps,
    ForStatement,
    ForeachStatement,
    LoopKeyword,
    LoopStatement,
    DoStatement,
    ReturnStatement,
    SystemTask,
    VoidCall,
    IncrementStatement,
    ConcatenationAssignment,
    NameStatement,
    Statement,
    FunctionResult,
    FormalDirection,
    Formal,
    MoreFormals,
    FormalRow,
    Formals,
    FunctionDeclaration,
}

/// inc_or_dec_operator (A.8.6).
///
/// increment_operator : `++` | `--`
const INCREMENT_OPERATOR: Part = first_of!(tok!(PlusPlus), tok!(MinusMinus));

/// =, <= of a nonblocking assignment, and the other assignment_operator (A.6.2).
///
/// assignment_operator : `=` | `<=` | `+=` | `-=` | `*=` | `/=` | `%=` | `&=` | `|=` | `^=` | `<<=` | `>>=` | `<<<=` |
/// `>>>=`
const ASSIGNMENT_OPERATOR: Part = first_of!(
    tok!(Assign),
    tok!(LessEqual),
    tok!(PlusAssign),
    tok!(MinusAssign),
    tok!(StarAssign),
    tok!(SlashAssign),
    tok!(PercentAssign),
    tok!(AmpersandAssign),
    tok!(PipeAssign),
    tok!(CaretAssign),
    tok!(LogicalShiftLeftAssign),
    tok!(LogicalShiftRightAssign),
    tok!(ArithmeticShiftLeftAssign),
    tok!(ArithmeticShiftRightAssign)
);

/// more_left_sides : { `,` left_side }
const MORE_LEFT_SIDES: Part = many!(seq!(tok!(Comma), sym!(LeftSide)));

/// net_lvalue, variable_lvalue in braces (A.8.5).
///
/// left_concatenation : `{` left_side more_left_sides `}`
const LEFT_CONCATENATION: Part = seq!(
    tok!(LeftBrace),
    sym!(LeftSide),
    statement_rule!(MoreLeftSides),
    tok!(RightBrace)
);

/// net_lvalue, variable_lvalue (A.8.5).
///
/// left_side : identifier selects | left_concatenation
const LEFT_SIDE: Part = first_of!(
    seq!(tok!(Identifier), expression_rule!(Selects)),
    statement_rule!(LeftConcatenation)
);

/// an operator and the value, or an increment: operator_assignment, inc_or_dec_expression (A.6.2, A.8.3).
///
/// assignment_or_increment : assignment_operator expression | increment_operator
const ASSIGNMENT_OR_INCREMENT: Part = first_of!(
    seq!(statement_rule!(AssignmentOperator), sym!(Expression)),
    statement_rule!(IncrementOperator)
);

/// what a statement does with the name at its front: an assignment, an increment or a call.
///
/// statement_tail : assignment_operator expression | increment_operator | argument_list
const STATEMENT_TAIL: Part = first_of!(
    seq!(statement_rule!(AssignmentOperator), sym!(Expression)),
    statement_rule!(IncrementOperator),
    expression_rule!(ArgumentList)
);

/// a type and the names that it declares, behind a lifetime: data_declaration (A.2.1.3).
///
/// local_declaration : data_type declared_name declaration_end | named_type declared_name declaration_end
const LOCAL_DECLARATION: Part = first_of!(
    seq!(
        sym!(DataType),
        type_rule!(DeclaredName),
        type_rule!(DeclarationEnd)
    ),
    seq!(
        type_rule!(NamedType),
        type_rule!(DeclaredName),
        type_rule!(DeclarationEnd)
    )
);

/// behind a name in a block: what a statement does with it, or what it declares as a type.
///
/// block_item_end : statement_tail | declared_name declaration_end
const BLOCK_ITEM_END: Part = first_of!(
    statement_rule!(StatementTail),
    seq!(type_rule!(DeclaredName), type_rule!(DeclarationEnd))
);

/// block_item_declaration (A.2.8), statement_or_null (A.6.4).
///
/// block_item : lifetime local_declaration `;` | variable_declaration | data_declaration | parameter_declaration |
/// type_declaration | scoped_name selects block_item_end `;` | statement
const BLOCK_ITEM: Part = first_of!(
    seq!(
        declaration_rule!(Lifetime),
        statement_rule!(LocalDeclaration),
        tok!(Semicolon)
    ),
    declaration_rule!(VariableDeclaration),
    declaration_rule!(DataDeclaration),
    declaration_rule!(ParameterDeclaration),
    declaration_rule!(TypeDeclaration),
    seq!(
        expression_rule!(ScopedName),
        expression_rule!(Selects),
        statement_rule!(BlockItemEnd),
        tok!(Semicolon)
    ),
    sym!(Statement)
);

/// block_items : { block_item }
const BLOCK_ITEMS: Part = many!(statement_rule!(BlockItem));

/// seq_block (A.6.3).
///
/// block : `begin` [ label ] block_items `end` [ label ]
const BLOCK: Part = seq!(
    word!(KwBegin),
    opt!(declaration_rule!(Label)),
    statement_rule!(BlockItems),
    word!(KwEnd),
    opt!(declaration_rule!(Label))
);

/// unique_priority (A.6.6).
///
/// uniqueness : `unique` | `unique0` | `priority`
const UNIQUENESS: Part = first_of!(word!(KwUnique), word!(KwUnique0), word!(KwPriority));

/// else statement_or_null.
///
/// else_branch : `else` statement
const ELSE_BRANCH: Part = seq!(word!(KwElse), sym!(Statement));

/// conditional_statement (A.6.6).
///
/// if_statement : `if` parenthesized statement [ else_branch ]
const IF_STATEMENT: Part = seq!(
    word!(KwIf),
    expression_rule!(Parenthesized),
    sym!(Statement),
    opt!(statement_rule!(ElseBranch))
);

/// case_keyword (A.6.7).
///
/// case_keyword : `case` | `casez` | `casex`
const CASE_KEYWORD: Part = first_of!(word!(KwCase), word!(KwCasez), word!(KwCasex));

/// case_item (A.6.7).
///
/// case_item : `default` [ `:` ] statement | expression more_expressions `:` statement
const CASE_ITEM: Part = first_of!(
    seq!(word!(KwDefault), opt!(tok!(Colon)), sym!(Statement)),
    seq!(
        sym!(Expression),
        expression_rule!(MoreExpressions),
        tok!(Colon),
        sym!(Statement)
    )
);

/// case_items : { case_item }
const CASE_ITEMS: Part = many!(statement_rule!(CaseItem));

/// case_statement (A.6.7).
///
/// case_statement : case_keyword parenthesized case_item case_items `endcase`
const CASE_STATEMENT: Part = seq!(
    statement_rule!(CaseKeyword),
    expression_rule!(Parenthesized),
    statement_rule!(CaseItem),
    statement_rule!(CaseItems),
    word!(KwEndcase)
);

/// if or case.
///
/// choice : if_statement | case_statement
const CHOICE: Part = first_of!(statement_rule!(IfStatement), statement_rule!(CaseStatement));

/// behind a name at the front of a loop: an assignment to it, or a variable of that type.
///
/// for_initialization_end : assignment_operator expression | declared_name initializer
const FOR_INITIALIZATION_END: Part = first_of!(
    seq!(statement_rule!(AssignmentOperator), sym!(Expression)),
    seq!(type_rule!(DeclaredName), type_rule!(Initializer))
);

/// a further variable of a loop: for_variable_declaration (A.6.8).
///
/// more_for_variables : { `,` [ data_type ] declared_name initializer }
const MORE_FOR_VARIABLES: Part = many!(seq!(
    tok!(Comma),
    opt!(sym!(DataType)),
    type_rule!(DeclaredName),
    type_rule!(Initializer)
));

/// for_initialization (A.6.8).
///
/// for_initialization : data_type declared_name initializer more_for_variables | scoped_name selects
/// for_initialization_end
const FOR_INITIALIZATION: Part = first_of!(
    seq!(
        sym!(DataType),
        type_rule!(DeclaredName),
        type_rule!(Initializer),
        statement_rule!(MoreForVariables)
    ),
    seq!(
        expression_rule!(ScopedName),
        expression_rule!(Selects),
        statement_rule!(ForInitializationEnd)
    )
);

/// for_step_assignment (A.6.8).
///
/// for_step : increment_operator identifier selects | identifier selects assignment_or_increment
const FOR_STEP: Part = first_of!(
    seq!(
        statement_rule!(IncrementOperator),
        tok!(Identifier),
        expression_rule!(Selects)
    ),
    seq!(
        tok!(Identifier),
        expression_rule!(Selects),
        statement_rule!(AssignmentOrIncrement)
    )
);

/// more_for_steps : { `,` for_step }
const MORE_FOR_STEPS: Part = many!(seq!(tok!(Comma), statement_rule!(ForStep)));

/// for_step (A.6.8).
///
/// for_steps : for_step more_for_steps
const FOR_STEPS: Part = seq!(statement_rule!(ForStep), statement_rule!(MoreForSteps));

/// for: loop_statement (A.6.8).
///
/// for_statement : `for` `(` for_initialization `;` [ expression ] `;` [ for_steps ] `)` statement
const FOR_STATEMENT: Part = seq!(
    word!(KwFor),
    tok!(LeftParen),
    statement_rule!(ForInitialization),
    tok!(Semicolon),
    opt!(sym!(Expression)),
    tok!(Semicolon),
    opt!(statement_rule!(ForSteps)),
    tok!(RightParen),
    sym!(Statement)
);

/// foreach: loop_statement (A.6.8).
///
/// foreach_statement : `foreach` `(` identifier `[` identifier more_identifiers `]` `)` statement
const FOREACH_STATEMENT: Part = seq!(
    word!(KwForeach),
    tok!(LeftParen),
    tok!(Identifier),
    tok!(LeftBracket),
    tok!(Identifier),
    type_rule!(MoreIdentifiers),
    tok!(RightBracket),
    tok!(RightParen),
    sym!(Statement)
);

/// while, repeat: loop_statement (A.6.8).
///
/// loop_keyword : `while` | `repeat`
const LOOP_KEYWORD: Part = first_of!(word!(KwWhile), word!(KwRepeat));

/// loop_statement : loop_keyword parenthesized statement
const LOOP_STATEMENT: Part = seq!(
    statement_rule!(LoopKeyword),
    expression_rule!(Parenthesized),
    sym!(Statement)
);

/// do: loop_statement (A.6.8).
///
/// do_statement : `do` statement `while` parenthesized `;`
const DO_STATEMENT: Part = seq!(
    word!(KwDo),
    sym!(Statement),
    word!(KwWhile),
    expression_rule!(Parenthesized),
    tok!(Semicolon)
);

/// return: jump_statement (A.6.5).
///
/// return_statement : `return` [ expression ] `;`
const RETURN_STATEMENT: Part = seq!(word!(KwReturn), opt!(sym!(Expression)), tok!(Semicolon));

/// a system task or function as a statement, or as an item: subroutine_call_statement (A.6.9), elaboration_system_task
/// (A.1.4).
///
/// system_task : system_name [ argument_list ] `;`
const SYSTEM_TASK: Part = seq!(
    tok!(SystemName),
    opt!(expression_rule!(ArgumentList)),
    tok!(Semicolon)
);

/// void ' ( function_subroutine_call ) ;: subroutine_call_statement (A.6.9).
///
/// void_call : `void` cast `;`
const VOID_CALL: Part = seq!(word!(KwVoid), expression_rule!(Cast), tok!(Semicolon));

/// an increment with its operator in front: inc_or_dec_expression (A.8.3).
///
/// increment_statement : increment_operator identifier selects `;`
const INCREMENT_STATEMENT: Part = seq!(
    statement_rule!(IncrementOperator),
    tok!(Identifier),
    expression_rule!(Selects),
    tok!(Semicolon)
);

/// an assignment to names in braces: blocking_assignment, nonblocking_assignment (A.6.2).
///
/// concatenation_assignment : left_concatenation assignment_operator expression `;`
const CONCATENATION_ASSIGNMENT: Part = seq!(
    statement_rule!(LeftConcatenation),
    statement_rule!(AssignmentOperator),
    sym!(Expression),
    tok!(Semicolon)
);

/// a statement that begins with a name: blocking_assignment, nonblocking_assignment, inc_or_dec_expression,
/// subroutine_call_statement.
///
/// name_statement : scoped_name selects statement_tail `;`
const NAME_STATEMENT: Part = seq!(
    expression_rule!(ScopedName),
    expression_rule!(Selects),
    statement_rule!(StatementTail),
    tok!(Semicolon)
);

/// statement_or_null (A.6.4).
///
/// statement : `;` | block | [ uniqueness ] choice | for_statement | foreach_statement | loop_statement | do_statement
/// | return_statement | `break` `;` | `continue` `;` | system_task | void_call | increment_statement |
/// concatenation_assignment | name_statement
const STATEMENT: Part = first_of!(
    tok!(Semicolon),
    statement_rule!(Block),
    seq!(opt!(statement_rule!(Uniqueness)), statement_rule!(Choice)),
    statement_rule!(ForStatement),
    statement_rule!(ForeachStatement),
    statement_rule!(LoopStatement),
    statement_rule!(DoStatement),
    statement_rule!(ReturnStatement),
    seq!(word!(KwBreak), tok!(Semicolon)),
    seq!(word!(KwContinue), tok!(Semicolon)),
    statement_rule!(SystemTask),
    statement_rule!(VoidCall),
    statement_rule!(IncrementStatement),
    statement_rule!(ConcatenationAssignment),
    statement_rule!(NameStatement)
);

/// the result and the name: function_data_type_or_implicit and an identifier (A.2.6).
///
/// function_result : `void` identifier | declared_type
const FUNCTION_RESULT: Part = first_of!(
    seq!(word!(KwVoid), tok!(Identifier)),
    type_rule!(DeclaredType)
);

/// tf_port_direction (A.2.7).
///
/// formal_direction : direction | `ref`
const FORMAL_DIRECTION: Part = first_of!(type_rule!(Direction), word!(KwRef));

/// tf_port_item (A.2.7).
///
/// formal : [ formal_direction ] [ `var` ] declared_type
const FORMAL: Part = seq!(
    opt!(statement_rule!(FormalDirection)),
    opt!(word!(KwVar)),
    type_rule!(DeclaredType)
);

/// more_formals : { `,` formal }
const MORE_FORMALS: Part = many!(seq!(tok!(Comma), statement_rule!(Formal)));

/// formal_row : formal more_formals
const FORMAL_ROW: Part = seq!(statement_rule!(Formal), statement_rule!(MoreFormals));

/// tf_port_list in parentheses (A.2.7).
///
/// formals : `(` [ formal_row ] `)`
const FORMALS: Part = seq!(
    tok!(LeftParen),
    opt!(statement_rule!(FormalRow)),
    tok!(RightParen)
);

/// function_declaration (A.2.6).
///
/// function_declaration : `function` [ lifetime ] function_result [ formals ] `;` block_items `endfunction` [ label ]
const FUNCTION_DECLARATION: Part = seq!(
    word!(KwFunction),
    opt!(declaration_rule!(Lifetime)),
    statement_rule!(FunctionResult),
    opt!(statement_rule!(Formals)),
    tok!(Semicolon),
    statement_rule!(BlockItems),
    word!(KwEndfunction),
    opt!(declaration_rule!(Label))
);

/// The right side of the rule.
#[tactic(auto, unfolding(sve_grammar::specs::Statements::increment_operator, sve_grammar::specs::Statements::assignment_operator, sve_grammar::specs::Statements::more_left_sides, sve_grammar::specs::Statements::left_concatenation, sve_grammar::specs::Statements::left_side, sve_grammar::specs::Statements::assignment_or_increment, sve_grammar::specs::Statements::statement_tail, sve_grammar::specs::Statements::local_declaration, sve_grammar::specs::Statements::block_item_end, sve_grammar::specs::Statements::block_item, sve_grammar::specs::Statements::block_items, sve_grammar::specs::Statements::block, sve_grammar::specs::Statements::uniqueness, sve_grammar::specs::Statements::else_branch, sve_grammar::specs::Statements::if_statement, sve_grammar::specs::Statements::case_keyword, sve_grammar::specs::Statements::case_item, sve_grammar::specs::Statements::case_items, sve_grammar::specs::Statements::case_statement, sve_grammar::specs::Statements::choice, sve_grammar::specs::Statements::for_initialization_end, sve_grammar::specs::Statements::more_for_variables, sve_grammar::specs::Statements::for_initialization, sve_grammar::specs::Statements::for_step, sve_grammar::specs::Statements::more_for_steps, sve_grammar::specs::Statements::for_steps, sve_grammar::specs::Statements::for_statement, sve_grammar::specs::Statements::foreach_statement, sve_grammar::specs::Statements::loop_keyword, sve_grammar::specs::Statements::loop_statement, sve_grammar::specs::Statements::do_statement, sve_grammar::specs::Statements::return_statement, sve_grammar::specs::Statements::system_task, sve_grammar::specs::Statements::void_call, sve_grammar::specs::Statements::increment_statement, sve_grammar::specs::Statements::concatenation_assignment, sve_grammar::specs::Statements::name_statement, sve_grammar::specs::Statements::statement, sve_grammar::specs::Statements::function_result, sve_grammar::specs::Statements::formal_direction, sve_grammar::specs::Statements::formal, sve_grammar::specs::Statements::more_formals, sve_grammar::specs::Statements::formal_row, sve_grammar::specs::Statements::formals, sve_grammar::specs::Statements::function_declaration))]
pub fn statement_part(sign: StatementSign) -> Part
    ensures meaning { meaning result ≡ named (signs.Statement sign) }
    ensures written { is_written result ≡ true }
{
    match sign {
        StatementSign::IncrementOperator => INCREMENT_OPERATOR,
        StatementSign::AssignmentOperator => ASSIGNMENT_OPERATOR,
        StatementSign::MoreLeftSides => MORE_LEFT_SIDES,
        StatementSign::LeftConcatenation => LEFT_CONCATENATION,
        StatementSign::LeftSide => LEFT_SIDE,
        StatementSign::AssignmentOrIncrement => ASSIGNMENT_OR_INCREMENT,
        StatementSign::StatementTail => STATEMENT_TAIL,
        StatementSign::LocalDeclaration => LOCAL_DECLARATION,
        StatementSign::BlockItemEnd => BLOCK_ITEM_END,
        StatementSign::BlockItem => BLOCK_ITEM,
        StatementSign::BlockItems => BLOCK_ITEMS,
        StatementSign::Block => BLOCK,
        StatementSign::Uniqueness => UNIQUENESS,
        StatementSign::ElseBranch => ELSE_BRANCH,
        StatementSign::IfStatement => IF_STATEMENT,
        StatementSign::CaseKeyword => CASE_KEYWORD,
        StatementSign::CaseItem => CASE_ITEM,
        StatementSign::CaseItems => CASE_ITEMS,
        StatementSign::CaseStatement => CASE_STATEMENT,
        StatementSign::Choice => CHOICE,
        StatementSign::ForInitializationEnd => FOR_INITIALIZATION_END,
        StatementSign::MoreForVariables => MORE_FOR_VARIABLES,
        StatementSign::ForInitialization => FOR_INITIALIZATION,
        StatementSign::ForStep => FOR_STEP,
        StatementSign::MoreForSteps => MORE_FOR_STEPS,
        StatementSign::ForSteps => FOR_STEPS,
        StatementSign::ForStatement => FOR_STATEMENT,
        StatementSign::ForeachStatement => FOREACH_STATEMENT,
        StatementSign::LoopKeyword => LOOP_KEYWORD,
        StatementSign::LoopStatement => LOOP_STATEMENT,
        StatementSign::DoStatement => DO_STATEMENT,
        StatementSign::ReturnStatement => RETURN_STATEMENT,
        StatementSign::SystemTask => SYSTEM_TASK,
        StatementSign::VoidCall => VOID_CALL,
        StatementSign::IncrementStatement => INCREMENT_STATEMENT,
        StatementSign::ConcatenationAssignment => CONCATENATION_ASSIGNMENT,
        StatementSign::NameStatement => NAME_STATEMENT,
        StatementSign::Statement => STATEMENT,
        StatementSign::FunctionResult => FUNCTION_RESULT,
        StatementSign::FormalDirection => FORMAL_DIRECTION,
        StatementSign::Formal => FORMAL,
        StatementSign::MoreFormals => MORE_FORMALS,
        StatementSign::FormalRow => FORMAL_ROW,
        StatementSign::Formals => FORMALS,
        StatementSign::FunctionDeclaration => FUNCTION_DECLARATION,
    }
}

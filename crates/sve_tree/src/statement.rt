ghost use Rattle.std.specs.Prelude.{◌≡◌, Some};
ghost use Rattle.sve_tree.specs.Shape.{first_token_of};
ghost use Rattle.sve_tree.specs.Statements.{left_side_tree, result_name};

use crate::data_type::{DataType, Declarator, Initializer, TypedName};
use crate::declaration::{
    DataDeclaration, InitializedDeclarator, Parameters, Typedef, VariableDeclaration,
};
use crate::expression::{ArgumentList, Cast, Expr, Parenthesized, Select};
use crate::row::Row;
use crate::word::{
    AssignmentOperator, CaseKeyword, Label, Lifetime, LoopKeyword, Mark, ScopedName, StepOperator,
    Uniqueness,
};
use sve_bytes::Dir;

/// What an assignment writes to: a name with selects, or several of them in braces (IEEE 1800-2017, A.8.5).
#[cycle(left_side)]
pub enum LeftSide {
    /// A name.
    Name {
        /// The name.
        name: u32,
        /// Its selects.
        selects: Vec<Select>,
    },
    /// Several left sides: `{a, b}`.
    Concatenation {
        /// The braces and what stands in them.
        concatenation: LeftConcatenation,
    },
}

impl Drop for LeftSide {
    #[cycle(left_side)]
    fn drop(self) {
        match self {
            LeftSide::Name {
                name: _,
                selects: _,
            } => {}
            LeftSide::Concatenation { concatenation: _ } => {}
        }
    }
}

impl LeftSide {
    /// The number of its first token.
    #[tactic(auto, unfolding(crate::specs::Statements::left_side_tree))]
    pub fn first_token(&self) -> u32
        ensures { first_token_of (left_side_tree self.now) ≡ Some result }
    {
        match self {
            LeftSide::Name { name, .. } => *name,
            LeftSide::Concatenation { concatenation } => concatenation.opening,
        }
    }
}

/// Left sides in braces, the most significant first (11.4.12).
#[cycle(left_side)]
pub struct LeftConcatenation {
    /// `{`.
    pub opening: u32,
    /// The left sides.
    pub sides: Row<LeftSide>,
    /// `}`.
    pub closing: u32,
}

impl Drop for LeftConcatenation {
    #[cycle(left_side)]
    fn drop(self) {
        let LeftConcatenation {
            opening: _,
            sides: _,
            closing: _,
        } = self;
    }
}

/// How a name is changed: by a value or by one (10.4 and 11.4.2).
pub enum Change {
    /// A value is assigned.
    Assign {
        /// The operator.
        operator: Mark<AssignmentOperator>,
        /// The value.
        value: Box<Expr>,
    },
    /// One is added or taken off.
    Step {
        /// The operator.
        operator: Mark<StepOperator>,
    },
}

impl Drop for Change {
    fn drop(self) {
        match self {
            Change::Assign {
                operator: _,
                value: _,
            } => {}
            Change::Step { operator: _ } => {}
        }
    }
}

/// What a statement does with the name at its front.
pub enum StatementTail {
    /// A value is assigned to it (10.4 and 11.4.1).
    Assign {
        /// The operator.
        operator: Mark<AssignmentOperator>,
        /// The value.
        value: Box<Expr>,
    },
    /// One is added to it or taken off (11.4.2).
    Step {
        /// The operator.
        operator: Mark<StepOperator>,
    },
    /// It is called (13.5).
    Call {
        /// The arguments.
        arguments: ArgumentList,
    },
}

impl Drop for StatementTail {
    fn drop(self) {
        match self {
            StatementTail::Assign {
                operator: _,
                value: _,
            } => {}
            StatementTail::Step { operator: _ } => {}
            StatementTail::Call { arguments: _ } => {}
        }
    }
}

/// A statement (clause 12, A.6).
#[cycle(statement)]
pub enum Stmt {
    /// `;`.
    Empty {
        /// `;`.
        semicolon: u32,
    },
    /// `begin` to `end` (9.3.1).
    Block {
        /// The block.
        block: Box<Block>,
    },
    /// `if` (12.4).
    If {
        /// `unique`, `unique0` or `priority`, where one is written.
        uniqueness: Option<Mark<Uniqueness>>,
        /// The statement.
        statement: Box<IfStatement>,
    },
    /// `case` (12.5).
    Case {
        /// `unique`, `unique0` or `priority`, where one is written.
        uniqueness: Option<Mark<Uniqueness>>,
        /// The statement.
        statement: Box<CaseStatement>,
    },
    /// `for` (12.7.1).
    For {
        /// The loop.
        statement: Box<ForStatement>,
    },
    /// `foreach` (12.7.3).
    Foreach {
        /// The loop.
        statement: Box<ForeachStatement>,
    },
    /// `while` or `repeat` (12.7.2 and 12.7.4).
    Loop {
        /// The loop.
        statement: Box<LoopStatement>,
    },
    /// `do` (12.7.5).
    Do {
        /// The loop.
        statement: Box<DoStatement>,
    },
    /// `return` (12.8).
    Return {
        /// The statement.
        statement: Box<ReturnStatement>,
    },
    /// `break;` (12.8).
    Break {
        /// `break`.
        keyword: u32,
        /// `;`.
        semicolon: u32,
    },
    /// `continue;` (12.8).
    Continue {
        /// `continue`.
        keyword: u32,
        /// `;`.
        semicolon: u32,
    },
    /// A system task or function (20 and 21).
    SystemTask {
        /// The statement.
        task: Box<SystemTask>,
    },
    /// A call whose result is dropped: `void'(f(1));` (13.4.1).
    VoidCall {
        /// The statement.
        call: Box<VoidCall>,
    },
    /// One added or taken off, with the operator in front: `++i;` (11.4.2).
    Step {
        /// The statement.
        statement: Box<StepStatement>,
    },
    /// An assignment to several left sides: `{a, b} = c;` (10.4).
    Concatenation {
        /// The assignment.
        assignment: Box<ConcatenationAssignment>,
    },
    /// A statement that begins with a name: `a[0] <= b;`, `i++;`, `f(1);`.
    Name {
        /// The statement.
        statement: Box<NameStatement>,
    },
}

impl Drop for Stmt {
    #[cycle(statement)]
    fn drop(self) {
        match self {
            Stmt::Empty { semicolon: _ } => {}
            Stmt::Block { block: _ } => {}
            Stmt::If {
                uniqueness: _,
                statement: _,
            } => {}
            Stmt::Case {
                uniqueness: _,
                statement: _,
            } => {}
            Stmt::For { statement: _ } => {}
            Stmt::Foreach { statement: _ } => {}
            Stmt::Loop { statement: _ } => {}
            Stmt::Do { statement: _ } => {}
            Stmt::Return { statement: _ } => {}
            Stmt::Break {
                keyword: _,
                semicolon: _,
            } => {}
            Stmt::Continue {
                keyword: _,
                semicolon: _,
            } => {}
            Stmt::SystemTask { task: _ } => {}
            Stmt::VoidCall { call: _ } => {}
            Stmt::Step { statement: _ } => {}
            Stmt::Concatenation { assignment: _ } => {}
            Stmt::Name { statement: _ } => {}
        }
    }
}

/// Statements and declarations from `begin` to `end` (9.3.1).
#[cycle(statement)]
pub struct Block {
    /// `begin`.
    pub begin: u32,
    /// Its label, where one is written.
    pub label: Option<Label>,
    /// What stands in it.
    pub items: Vec<BlockItem>,
    /// `end`.
    pub end: u32,
    /// The label after `end`, where one is written.
    pub end_label: Option<Label>,
}

impl Drop for Block {
    #[cycle(statement)]
    fn drop(self) {
        let Block {
            begin: _,
            label: _,
            items: _,
            end: _,
            end_label: _,
        } = self;
    }
}

/// A declaration or a statement of a block or of a function (A.2.8).
#[cycle(statement)]
pub enum BlockItem {
    /// A declaration with a lifetime: `automatic int i;` (6.21).
    Local {
        /// The lifetime.
        lifetime: Mark<Lifetime>,
        /// The variables.
        declaration: Box<DataDeclaration>,
    },
    /// A declaration with `var` (6.8).
    Variable {
        /// The declaration.
        declaration: Box<VariableDeclaration>,
    },
    /// A declaration that begins with its type's keyword (6.8).
    Data {
        /// The declaration.
        declaration: Box<DataDeclaration>,
    },
    /// Parameters (6.20).
    Parameters {
        /// The declaration.
        declaration: Box<Parameters>,
    },
    /// A type (6.18).
    Typedef {
        /// The declaration.
        declaration: Box<Typedef>,
    },
    /// A declaration that begins with a type's name (6.8).
    NamedData {
        /// The declaration.
        declaration: Box<NamedDeclaration>,
    },
    /// A statement that begins with a name.
    Name {
        /// The statement.
        statement: Box<NameStatement>,
    },
    /// Any other statement.
    Statement {
        /// The statement.
        statement: Stmt,
    },
}

impl Drop for BlockItem {
    #[cycle(statement)]
    fn drop(self) {
        match self {
            BlockItem::Local {
                lifetime: _,
                declaration: _,
            } => {}
            BlockItem::Variable { declaration: _ } => {}
            BlockItem::Data { declaration: _ } => {}
            BlockItem::Parameters { declaration: _ } => {}
            BlockItem::Typedef { declaration: _ } => {}
            BlockItem::NamedData { declaration: _ } => {}
            BlockItem::Name { statement: _ } => {}
            BlockItem::Statement { statement: _ } => {}
        }
    }
}

/// A declaration of a block that begins with a type's name: `t [3:0] a = 1, b;` (6.8). Of the selects behind the name, each has
/// to be a dimension.
pub struct NamedDeclaration {
    /// The type's name.
    pub name: ScopedName,
    /// What stands between the type's name and the first declared name.
    pub selects: Vec<Select>,
    /// The names with their values.
    pub declarators: Row<InitializedDeclarator>,
    /// `;`.
    pub semicolon: u32,
}

impl Drop for NamedDeclaration {
    fn drop(self) {
        let NamedDeclaration {
            name: _,
            selects: _,
            declarators: _,
            semicolon: _,
        } = self;
    }
}

/// `if` with its statement, and `else` (12.4).
#[cycle(statement)]
pub struct IfStatement {
    /// `if`.
    pub keyword: u32,
    /// The condition.
    pub condition: Parenthesized,
    /// What is done where it is true.
    pub chosen: Box<Stmt>,
    /// What is done where it is not, where that is written.
    pub otherwise: Option<ElseBranch>,
}

impl Drop for IfStatement {
    #[cycle(statement)]
    fn drop(self) {
        let IfStatement {
            keyword: _,
            condition: _,
            chosen: _,
            otherwise: _,
        } = self;
    }
}

/// `else` and its statement (12.4).
#[cycle(statement)]
pub struct ElseBranch {
    /// `else`.
    pub keyword: u32,
    /// The statement.
    pub statement: Box<Stmt>,
}

impl Drop for ElseBranch {
    #[cycle(statement)]
    fn drop(self) {
        let ElseBranch {
            keyword: _,
            statement: _,
        } = self;
    }
}

/// A case statement (12.5).
#[cycle(statement)]
pub struct CaseStatement {
    /// `case`, `casez` or `casex`.
    pub keyword: Mark<CaseKeyword>,
    /// The selector.
    pub selector: Parenthesized,
    /// The items, at least one of them.
    pub items: Vec<CaseItem>,
    /// `endcase`.
    pub end: u32,
}

impl Drop for CaseStatement {
    #[cycle(statement)]
    fn drop(self) {
        let CaseStatement {
            keyword: _,
            selector: _,
            items: _,
            end: _,
        } = self;
    }
}

/// An item of a case statement (12.5).
#[cycle(statement)]
pub enum CaseItem {
    /// What is done where no label fits.
    Default {
        /// `default`.
        keyword: u32,
        /// `:`, where one is written.
        colon: Option<u32>,
        /// The statement.
        statement: Box<Stmt>,
    },
    /// What is done where one of the labels fits.
    Labels {
        /// The labels.
        labels: Row<Expr>,
        /// `:`.
        colon: u32,
        /// The statement.
        statement: Box<Stmt>,
    },
}

impl Drop for CaseItem {
    #[cycle(statement)]
    fn drop(self) {
        match self {
            CaseItem::Default {
                keyword: _,
                colon: _,
                statement: _,
            } => {}
            CaseItem::Labels {
                labels: _,
                colon: _,
                statement: _,
            } => {}
        }
    }
}

/// A for loop (12.7.1).
#[cycle(statement)]
pub struct ForStatement {
    /// `for`.
    pub keyword: u32,
    /// `(`.
    pub opening: u32,
    /// What is done at first.
    pub initialization: ForInitialization,
    /// The first `;`.
    pub first_semicolon: u32,
    /// The condition, where one is written.
    pub condition: Option<Box<Expr>>,
    /// The second `;`.
    pub second_semicolon: u32,
    /// What is done after each turn. It may be nothing.
    pub steps: Row<ForStep>,
    /// `)`.
    pub closing: u32,
    /// The statement.
    pub body: Box<Stmt>,
}

impl Drop for ForStatement {
    #[cycle(statement)]
    fn drop(self) {
        let ForStatement {
            keyword: _,
            opening: _,
            initialization: _,
            first_semicolon: _,
            condition: _,
            second_semicolon: _,
            steps: _,
            closing: _,
            body: _,
        } = self;
    }
}

/// What a for loop does at first (12.7.1).
pub enum ForInitialization {
    /// It declares variables, the first with a type that begins with a keyword: `int i = 0, j = 1`.
    Declared {
        /// The variables. The first has a type.
        variables: Row<ForVariable>,
    },
    /// It assigns to a name: `i = 0`.
    Assigned {
        /// The name.
        name: ScopedName,
        /// Its selects.
        selects: Vec<Select>,
        /// The operator.
        operator: Mark<AssignmentOperator>,
        /// The value.
        value: Box<Expr>,
    },
    /// It declares a variable of a type by its name: `t i = 0`. Of the selects behind the name, each has to be a dimension.
    NamedType {
        /// The type's name.
        name: ScopedName,
        /// What stands between the type's name and the declared name.
        selects: Vec<Select>,
        /// The declared name.
        declarator: Declarator,
        /// Its value.
        value: Initializer,
    },
}

impl Drop for ForInitialization {
    fn drop(self) {
        match self {
            ForInitialization::Declared { variables: _ } => {}
            ForInitialization::Assigned {
                name: _,
                selects: _,
                operator: _,
                value: _,
            } => {}
            ForInitialization::NamedType {
                name: _,
                selects: _,
                declarator: _,
                value: _,
            } => {}
        }
    }
}

/// A variable that a for loop declares (12.7.1).
pub struct ForVariable {
    /// The type; where none is written, that of the variable before.
    pub data_type: Option<DataType>,
    /// The name.
    pub declarator: Declarator,
    /// Its value.
    pub value: Initializer,
}

impl Drop for ForVariable {
    fn drop(self) {
        let ForVariable {
            data_type: _,
            declarator: _,
            value: _,
        } = self;
    }
}

/// A step of a for loop (12.7.1).
pub enum ForStep {
    /// One added or taken off, with the operator in front: `++i`.
    Before {
        /// The operator.
        operator: Mark<StepOperator>,
        /// The name.
        name: u32,
        /// Its selects.
        selects: Vec<Select>,
    },
    /// A name that is changed: `i += 2`, `i++`.
    Change {
        /// The name.
        name: u32,
        /// Its selects.
        selects: Vec<Select>,
        /// How it is changed.
        change: Change,
    },
}

impl Drop for ForStep {
    fn drop(self) {
        match self {
            ForStep::Before {
                operator: _,
                name: _,
                selects: _,
            } => {}
            ForStep::Change {
                name: _,
                selects: _,
                change: _,
            } => {}
        }
    }
}

/// A loop over the elements of an array: `foreach (a[i, j])` (12.7.3).
#[cycle(statement)]
pub struct ForeachStatement {
    /// `foreach`.
    pub keyword: u32,
    /// `(`.
    pub opening: u32,
    /// The array.
    pub array: u32,
    /// `[`.
    pub opening_bracket: u32,
    /// The loop variables.
    pub names: Row<u32>,
    /// `]`.
    pub closing_bracket: u32,
    /// `)`.
    pub closing: u32,
    /// The statement.
    pub body: Box<Stmt>,
}

impl Drop for ForeachStatement {
    #[cycle(statement)]
    fn drop(self) {
        let ForeachStatement {
            keyword: _,
            opening: _,
            array: _,
            opening_bracket: _,
            names: _,
            closing_bracket: _,
            closing: _,
            body: _,
        } = self;
    }
}

/// `while` or `repeat` with its statement (12.7.2 and 12.7.4).
#[cycle(statement)]
pub struct LoopStatement {
    /// `while` or `repeat`.
    pub keyword: Mark<LoopKeyword>,
    /// The condition or the count.
    pub condition: Parenthesized,
    /// The statement.
    pub body: Box<Stmt>,
}

impl Drop for LoopStatement {
    #[cycle(statement)]
    fn drop(self) {
        let LoopStatement {
            keyword: _,
            condition: _,
            body: _,
        } = self;
    }
}

/// `do`, a statement and its condition (12.7.5).
#[cycle(statement)]
pub struct DoStatement {
    /// `do`.
    pub keyword: u32,
    /// The statement.
    pub body: Box<Stmt>,
    /// `while`.
    pub while_keyword: u32,
    /// The condition.
    pub condition: Parenthesized,
    /// `;`.
    pub semicolon: u32,
}

impl Drop for DoStatement {
    #[cycle(statement)]
    fn drop(self) {
        let DoStatement {
            keyword: _,
            body: _,
            while_keyword: _,
            condition: _,
            semicolon: _,
        } = self;
    }
}

/// `return` (12.8).
pub struct ReturnStatement {
    /// `return`.
    pub keyword: u32,
    /// The value, where one is written.
    pub value: Option<Box<Expr>>,
    /// `;`.
    pub semicolon: u32,
}

impl Drop for ReturnStatement {
    fn drop(self) {
        let ReturnStatement {
            keyword: _,
            value: _,
            semicolon: _,
        } = self;
    }
}

/// A system task or function as a statement or an item: `$display(a);` (clauses 20 and 21).
pub struct SystemTask {
    /// Its name.
    pub name: u32,
    /// Its arguments, where they are written.
    pub arguments: Option<ArgumentList>,
    /// `;`.
    pub semicolon: u32,
}

impl Drop for SystemTask {
    fn drop(self) {
        let SystemTask {
            name: _,
            arguments: _,
            semicolon: _,
        } = self;
    }
}

/// A call whose result is dropped: `void'(f(1));` (13.4.1).
pub struct VoidCall {
    /// `void`.
    pub keyword: u32,
    /// The call.
    pub cast: Cast,
    /// `;`.
    pub semicolon: u32,
}

impl Drop for VoidCall {
    fn drop(self) {
        let VoidCall {
            keyword: _,
            cast: _,
            semicolon: _,
        } = self;
    }
}

/// One added or taken off, with the operator in front: `++i;` (11.4.2).
pub struct StepStatement {
    /// The operator.
    pub operator: Mark<StepOperator>,
    /// The name.
    pub name: u32,
    /// Its selects.
    pub selects: Vec<Select>,
    /// `;`.
    pub semicolon: u32,
}

impl Drop for StepStatement {
    fn drop(self) {
        let StepStatement {
            operator: _,
            name: _,
            selects: _,
            semicolon: _,
        } = self;
    }
}

/// An assignment to several left sides: `{a, b} = c;` (10.4).
pub struct ConcatenationAssignment {
    /// The left sides.
    pub left: LeftConcatenation,
    /// The operator.
    pub operator: Mark<AssignmentOperator>,
    /// The value.
    pub value: Box<Expr>,
    /// `;`.
    pub semicolon: u32,
}

impl Drop for ConcatenationAssignment {
    fn drop(self) {
        let ConcatenationAssignment {
            left: _,
            operator: _,
            value: _,
            semicolon: _,
        } = self;
    }
}

/// A statement that begins with a name: an assignment, a step or a call.
pub struct NameStatement {
    /// The name.
    pub name: ScopedName,
    /// Its selects.
    pub selects: Vec<Select>,
    /// What is done with it.
    pub tail: StatementTail,
    /// `;`.
    pub semicolon: u32,
}

impl Drop for NameStatement {
    fn drop(self) {
        let NameStatement {
            name: _,
            selects: _,
            tail: _,
            semicolon: _,
        } = self;
    }
}

/// A function (13.4).
pub struct Func {
    /// `function`.
    pub keyword: u32,
    /// The lifetime of its variables, where one is written.
    pub lifetime: Option<Mark<Lifetime>>,
    /// Its result's type and its name.
    pub result_type: FunctionResult,
    /// Its formal arguments, where there is a list of them.
    pub formals: Option<Formals>,
    /// `;`.
    pub semicolon: u32,
    /// Its declarations and statements.
    pub items: Vec<BlockItem>,
    /// `endfunction`.
    pub end: u32,
    /// The label after `endfunction`, where one is written.
    pub label: Option<Label>,
}

impl Drop for Func {
    fn drop(self) {
        let Func {
            keyword: _,
            lifetime: _,
            result_type: _,
            formals: _,
            semicolon: _,
            items: _,
            end: _,
            label: _,
        } = self;
    }
}

impl Func {
    /// The number of the function's name.
    pub fn name(&self) -> u32
        ensures { result ≡ result_name self.now.result_type }
    {
        match &self.result_type {
            FunctionResult::Void { name, .. } => *name,
            FunctionResult::Typed { result } => result.declarator.name,
        }
    }
}

/// The type of a function's result, and the function's name (13.4).
pub enum FunctionResult {
    /// A function without a result (13.4.1).
    Void {
        /// `void`.
        keyword: u32,
        /// The name.
        name: u32,
    },
    /// A type, where one is written, and the name. Its dimensions behind the name have to be none.
    Typed {
        /// The name with its type.
        result: TypedName,
    },
}

impl Drop for FunctionResult {
    fn drop(self) {
        match self {
            FunctionResult::Void {
                keyword: _,
                name: _,
            } => {}
            FunctionResult::Typed { result: _ } => {}
        }
    }
}

/// The formal arguments of a function in their parentheses (13.5).
pub struct Formals {
    /// `(`.
    pub opening: u32,
    /// The formals. `()` has none.
    pub formals: Row<Formal>,
    /// `)`.
    pub closing: u32,
}

impl Drop for Formals {
    fn drop(self) {
        let Formals {
            opening: _,
            formals: _,
            closing: _,
        } = self;
    }
}

/// A formal argument (13.5).
pub struct Formal {
    /// The direction, where one is written.
    pub direction: Option<FormalDirection>,
    /// `var`, where it is written.
    pub variable: Option<u32>,
    /// The name with its type.
    pub parameter: TypedName,
}

impl Drop for Formal {
    fn drop(self) {
        let Formal {
            direction: _,
            variable: _,
            parameter: _,
        } = self;
    }
}

impl Formal {
    /// The number of the formal's name.
    pub fn name(&self) -> u32
        ensures { result ≡ self.now.parameter.declarator.name }
    {
        self.parameter.declarator.name
    }
}

/// How a formal argument is passed (13.5).
#[derive(Clone, Copy)]
pub enum FormalDirection {
    /// In, out or both.
    Value {
        /// The direction.
        direction: Mark<Dir>,
    },
    /// By reference (13.5.2).
    Reference {
        /// `ref`.
        keyword: u32,
    },
}

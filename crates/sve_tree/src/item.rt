ghost use Rattle.std.specs.Prelude.{◌≡◌, Some};
ghost use Rattle.sve_tree.specs.Shape.{first_token_of};
ghost use Rattle.sve_tree.specs.Items.{item_tree};

use crate::declaration::{
    DataDeclaration, Import, Modport, NetDeclaration, Parameters, Typedef, VariableDeclaration,
};
use crate::expression::{ArgumentList, Expr, Parenthesized, Select};
use crate::row::Row;
use crate::statement::{Change, Func, LeftSide, Stmt, SystemTask};
use crate::word::{ClockedKeyword, Edge, EventSeparator, Label, Mark, PlainKeyword, StepOperator};

/// An item of a module or an interface, or of a generate block (IEEE 1800-2017, A.1.4).
#[cycle(item)]
pub enum Item {
    /// `;`.
    Empty {
        /// `;`.
        semicolon: u32,
    },
    /// Imports (26.3).
    Import {
        /// The declaration.
        declaration: Box<Import>,
    },
    /// Parameters (6.20).
    Parameters {
        /// The declaration.
        declaration: Box<Parameters>,
    },
    /// A type (6.18).
    Typedef {
        /// The declaration.
        declaration: Box<Typedef>,
    },
    /// A function (13.4).
    Function {
        /// The function.
        function: Box<Func>,
    },
    /// Genvars (27.4).
    Genvars {
        /// The declaration.
        declaration: Box<GenvarDeclaration>,
    },
    /// Nets (6.7).
    Net {
        /// The declaration.
        declaration: Box<NetDeclaration>,
    },
    /// Variables with `var` (6.8).
    Variable {
        /// The declaration.
        declaration: Box<VariableDeclaration>,
    },
    /// Variables without `var` (6.8).
    Data {
        /// The declaration.
        declaration: Box<DataDeclaration>,
    },
    /// Continuous assignments (10.3).
    Assign {
        /// The assignments.
        assignments: Box<ContinuousAssign>,
    },
    /// `always` or `always_ff` (9.2.2).
    Clocked {
        /// The procedure.
        procedure: Box<ClockedProcedure>,
    },
    /// `always_comb`, `always_latch` or `initial` (9.2).
    Plain {
        /// The procedure.
        procedure: Box<PlainProcedure>,
    },
    /// `generate` to `endgenerate` (27.3).
    Region {
        /// The region.
        region: Box<GenerateRegion>,
    },
    /// A generate loop (27.4).
    LoopGenerate {
        /// The loop.
        construct: Box<LoopGenerate>,
    },
    /// A generate `if` (27.5).
    IfGenerate {
        /// The construct.
        construct: Box<IfGenerate>,
    },
    /// A generate `case` (27.5).
    CaseGenerate {
        /// The construct.
        construct: Box<CaseGenerate>,
    },
    /// Modports (25.5).
    Modports {
        /// The declaration.
        declaration: Box<ModportDeclaration>,
    },
    /// A system task (20.11).
    SystemTask {
        /// The task.
        task: Box<SystemTask>,
    },
    /// Instances of a module or of an interface (23.3.2 and 25.3).
    Instances {
        /// The instances.
        instantiation: Box<Instantiation>,
    },
}

impl Drop for Item {
    #[cycle(item)]
    fn drop(self) {
        match self {
            Item::Empty { semicolon: _ } => {}
            Item::Import { declaration: _ } => {}
            Item::Parameters { declaration: _ } => {}
            Item::Typedef { declaration: _ } => {}
            Item::Function { function: _ } => {}
            Item::Genvars { declaration: _ } => {}
            Item::Net { declaration: _ } => {}
            Item::Variable { declaration: _ } => {}
            Item::Data { declaration: _ } => {}
            Item::Assign { assignments: _ } => {}
            Item::Clocked { procedure: _ } => {}
            Item::Plain { procedure: _ } => {}
            Item::Region { region: _ } => {}
            Item::LoopGenerate { construct: _ } => {}
            Item::IfGenerate { construct: _ } => {}
            Item::CaseGenerate { construct: _ } => {}
            Item::Modports { declaration: _ } => {}
            Item::SystemTask { task: _ } => {}
            Item::Instances { instantiation: _ } => {}
        }
    }
}

impl Item {
    /// The number of its first token.
    #[tactic(auto, using(crate::proofs::Firsts::first_of_data, crate::proofs::Firsts::first_of_if), unfolding(crate::specs::Items::item_tree))]
    pub fn first_token(&self) -> u32
        ensures { first_token_of (item_tree self.now) ≡ Some result }
    {
        match self {
            Item::Empty { semicolon } => *semicolon,
            Item::Import { declaration } => declaration.keyword,
            Item::Parameters { declaration } => declaration.keyword.token,
            Item::Typedef { declaration } => declaration.keyword,
            Item::Function { function } => function.keyword,
            Item::Genvars { declaration } => declaration.keyword,
            Item::Net { declaration } => declaration.net.token,
            Item::Variable { declaration } => declaration.keyword,
            Item::Data { declaration } => declaration.data_type.first_token(),
            Item::Assign { assignments } => assignments.keyword,
            Item::Clocked { procedure } => procedure.keyword.token,
            Item::Plain { procedure } => procedure.keyword.token,
            Item::Region { region } => region.keyword,
            Item::LoopGenerate { construct } => construct.keyword,
            Item::IfGenerate { construct } => construct.keyword,
            Item::CaseGenerate { construct } => construct.keyword,
            Item::Modports { declaration } => declaration.keyword,
            Item::SystemTask { task } => task.name,
            Item::Instances { instantiation } => instantiation.definition,
        }
    }
}

/// A declaration of genvars: `genvar i, j;` (27.4).
pub struct GenvarDeclaration {
    /// `genvar`.
    pub keyword: u32,
    /// The names.
    pub names: Row<u32>,
    /// `;`.
    pub semicolon: u32,
}

impl Drop for GenvarDeclaration {
    fn drop(self) {
        let GenvarDeclaration {
            keyword: _,
            names: _,
            semicolon: _,
        } = self;
    }
}

/// Continuous assignments: `assign a = b, c = d;` (10.3.2).
pub struct ContinuousAssign {
    /// `assign`.
    pub keyword: u32,
    /// The assignments.
    pub assignments: Row<NetAssignment>,
    /// `;`.
    pub semicolon: u32,
}

impl Drop for ContinuousAssign {
    fn drop(self) {
        let ContinuousAssign {
            keyword: _,
            assignments: _,
            semicolon: _,
        } = self;
    }
}

/// An assignment to a net or a variable (10.3.2).
pub struct NetAssignment {
    /// What is assigned to.
    pub left: LeftSide,
    /// `=`.
    pub equals: u32,
    /// The value.
    pub value: Box<Expr>,
}

impl Drop for NetAssignment {
    fn drop(self) {
        let NetAssignment {
            left: _,
            equals: _,
            value: _,
        } = self;
    }
}

/// A procedure that begins with an event control: `always_ff @(posedge clk) q <= d;` (9.2.2).
pub struct ClockedProcedure {
    /// `always` or `always_ff`.
    pub keyword: Mark<ClockedKeyword>,
    /// `@`.
    pub at: u32,
    /// What is waited for.
    pub control: EventControl,
    /// The statement.
    pub statement: Box<Stmt>,
}

impl Drop for ClockedProcedure {
    fn drop(self) {
        let ClockedProcedure {
            keyword: _,
            at: _,
            control: _,
            statement: _,
        } = self;
    }
}

/// A procedure without an event control: `always_comb a = b;` (9.2).
pub struct PlainProcedure {
    /// `always_comb`, `always_latch` or `initial`.
    pub keyword: Mark<PlainKeyword>,
    /// The statement.
    pub statement: Box<Stmt>,
}

impl Drop for PlainProcedure {
    fn drop(self) {
        let PlainProcedure {
            keyword: _,
            statement: _,
        } = self;
    }
}

/// What a procedure waits for, behind its `@` (9.4.2).
pub enum EventControl {
    /// `@*`: all that the statement reads (9.4.2.2).
    Any {
        /// `*`.
        star: u32,
    },
    /// `@(*)`.
    AnyParenthesized {
        /// `(`.
        opening: u32,
        /// `*`.
        star: u32,
        /// `)`.
        closing: u32,
    },
    /// `@(posedge a or b)`.
    Events {
        /// `(`.
        opening: u32,
        /// The events.
        events: Row<Event, Mark<EventSeparator>>,
        /// `)`.
        closing: u32,
    },
    /// `@a[0]`.
    Name {
        /// The name.
        name: u32,
        /// Its selects.
        selects: Vec<Select>,
    },
}

impl Drop for EventControl {
    fn drop(self) {
        match self {
            EventControl::Any { star: _ } => {}
            EventControl::AnyParenthesized {
                opening: _,
                star: _,
                closing: _,
            } => {}
            EventControl::Events {
                opening: _,
                events: _,
                closing: _,
            } => {}
            EventControl::Name {
                name: _,
                selects: _,
            } => {}
        }
    }
}

/// An event: a change of a value, or one of its edges (9.4.2).
pub struct Event {
    /// The edge, where one is written.
    pub edge: Option<Mark<Edge>>,
    /// The value.
    pub value: Box<Expr>,
}

impl Drop for Event {
    fn drop(self) {
        let Event { edge: _, value: _ } = self;
    }
}

/// Items from `generate` to `endgenerate` (27.3).
#[cycle(item)]
pub struct GenerateRegion {
    /// `generate`.
    pub keyword: u32,
    /// The items.
    pub items: Vec<Item>,
    /// `endgenerate`.
    pub end: u32,
}

impl Drop for GenerateRegion {
    #[cycle(item)]
    fn drop(self) {
        let GenerateRegion {
            keyword: _,
            items: _,
            end: _,
        } = self;
    }
}

/// A block of a generate construct (27.3).
#[cycle(item)]
pub enum GenerateBlock {
    /// `begin` to `end`.
    Block {
        /// The items in their keywords.
        block: Box<GenerateBody>,
    },
    /// One item.
    Item {
        /// The item.
        item: Box<Item>,
    },
}

impl Drop for GenerateBlock {
    #[cycle(item)]
    fn drop(self) {
        match self {
            GenerateBlock::Block { block: _ } => {}
            GenerateBlock::Item { item: _ } => {}
        }
    }
}

/// The items of a generate block from `begin` to `end` (27.3).
#[cycle(item)]
pub struct GenerateBody {
    /// `begin`.
    pub begin: u32,
    /// Its label, where one is written.
    pub label: Option<Label>,
    /// The items.
    pub items: Vec<Item>,
    /// `end`.
    pub end: u32,
    /// The label after `end`, where one is written.
    pub end_label: Option<Label>,
}

impl Drop for GenerateBody {
    #[cycle(item)]
    fn drop(self) {
        let GenerateBody {
            begin: _,
            label: _,
            items: _,
            end: _,
            end_label: _,
        } = self;
    }
}

/// A generate loop: `for (genvar i = 0; i < 4; i++)` (27.4).
#[cycle(item)]
pub struct LoopGenerate {
    /// `for`.
    pub keyword: u32,
    /// `(`.
    pub opening: u32,
    /// `genvar`, where it is written.
    pub genvar: Option<u32>,
    /// The genvar's name.
    pub name: u32,
    /// `=`.
    pub equals: u32,
    /// Its first value.
    pub start: Box<Expr>,
    /// The first `;`.
    pub first_semicolon: u32,
    /// The condition.
    pub condition: Box<Expr>,
    /// The second `;`.
    pub second_semicolon: u32,
    /// The step.
    pub step: GenvarStep,
    /// `)`.
    pub closing: u32,
    /// The block.
    pub block: GenerateBlock,
}

impl Drop for LoopGenerate {
    #[cycle(item)]
    fn drop(self) {
        let LoopGenerate {
            keyword: _,
            opening: _,
            genvar: _,
            name: _,
            equals: _,
            start: _,
            first_semicolon: _,
            condition: _,
            second_semicolon: _,
            step: _,
            closing: _,
            block: _,
        } = self;
    }
}

/// The step of a generate loop (27.4).
pub enum GenvarStep {
    /// One added or taken off, with the operator in front: `++i`.
    Before {
        /// The operator.
        operator: Mark<StepOperator>,
        /// The name.
        name: u32,
    },
    /// A name that is changed: `i += 2`, `i++`.
    Change {
        /// The name.
        name: u32,
        /// How it is changed.
        change: Change,
    },
}

impl Drop for GenvarStep {
    fn drop(self) {
        match self {
            GenvarStep::Before {
                operator: _,
                name: _,
            } => {}
            GenvarStep::Change { name: _, change: _ } => {}
        }
    }
}

/// A generate `if` (27.5).
#[cycle(item)]
pub struct IfGenerate {
    /// `if`.
    pub keyword: u32,
    /// The condition.
    pub condition: Parenthesized,
    /// The block that is taken where it is true.
    pub chosen: GenerateBlock,
    /// The block that is taken where it is not, where one is written.
    pub otherwise: Option<ElseGenerate>,
}

impl Drop for IfGenerate {
    #[cycle(item)]
    fn drop(self) {
        let IfGenerate {
            keyword: _,
            condition: _,
            chosen: _,
            otherwise: _,
        } = self;
    }
}

/// `else` and its generate block (27.5).
#[cycle(item)]
pub struct ElseGenerate {
    /// `else`.
    pub keyword: u32,
    /// The block.
    pub block: GenerateBlock,
}

impl Drop for ElseGenerate {
    #[cycle(item)]
    fn drop(self) {
        let ElseGenerate {
            keyword: _,
            block: _,
        } = self;
    }
}

/// A generate `case` (27.5).
#[cycle(item)]
pub struct CaseGenerate {
    /// `case`.
    pub keyword: u32,
    /// The selector.
    pub selector: Parenthesized,
    /// The items, at least one of them.
    pub items: Vec<CaseGenerateItem>,
    /// `endcase`.
    pub end: u32,
}

impl Drop for CaseGenerate {
    #[cycle(item)]
    fn drop(self) {
        let CaseGenerate {
            keyword: _,
            selector: _,
            items: _,
            end: _,
        } = self;
    }
}

/// An item of a generate `case` (27.5).
#[cycle(item)]
pub enum CaseGenerateItem {
    /// The block that is taken where no label fits.
    Default {
        /// `default`.
        keyword: u32,
        /// `:`, where one is written.
        colon: Option<u32>,
        /// The block.
        block: GenerateBlock,
    },
    /// The block that is taken where one of the labels fits.
    Labels {
        /// The labels.
        labels: Row<Expr>,
        /// `:`.
        colon: u32,
        /// The block.
        block: GenerateBlock,
    },
}

impl Drop for CaseGenerateItem {
    #[cycle(item)]
    fn drop(self) {
        match self {
            CaseGenerateItem::Default {
                keyword: _,
                colon: _,
                block: _,
            } => {}
            CaseGenerateItem::Labels {
                labels: _,
                colon: _,
                block: _,
            } => {}
        }
    }
}

/// Modports: `modport m(input a), n(output a);` (25.5).
pub struct ModportDeclaration {
    /// `modport`.
    pub keyword: u32,
    /// The modports.
    pub modports: Row<Modport>,
    /// `;`.
    pub semicolon: u32,
}

impl Drop for ModportDeclaration {
    fn drop(self) {
        let ModportDeclaration {
            keyword: _,
            modports: _,
            semicolon: _,
        } = self;
    }
}

/// Instances of one module or interface: `m #(8) u(a), v(b);` (23.3.2).
pub struct Instantiation {
    /// The name of the module or of the interface.
    pub definition: u32,
    /// The overrides of its parameters, where they are written.
    pub overrides: Option<Overrides>,
    /// The instances.
    pub instances: Row<Instance>,
    /// `;`.
    pub semicolon: u32,
}

impl Drop for Instantiation {
    fn drop(self) {
        let Instantiation {
            definition: _,
            overrides: _,
            instances: _,
            semicolon: _,
        } = self;
    }
}

/// Overrides of parameters: `#(8)` (23.10.2).
pub struct Overrides {
    /// `#`.
    pub hash: u32,
    /// The overrides.
    pub arguments: ArgumentList,
}

impl Drop for Overrides {
    fn drop(self) {
        let Overrides {
            hash: _,
            arguments: _,
        } = self;
    }
}

/// The name of an instance and its connections (23.3.2).
pub struct Instance {
    /// The name.
    pub name: u32,
    /// The connections.
    pub connections: ArgumentList,
}

impl Drop for Instance {
    fn drop(self) {
        let Instance {
            name: _,
            connections: _,
        } = self;
    }
}

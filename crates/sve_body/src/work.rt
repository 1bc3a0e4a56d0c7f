ghost use Rattle.std.specs.Prelude.{◌≡◌, IfOk, OnOk};
ghost use Rattle.sve_fault.specs.Counts.{IsFuel};
ghost use Rattle.sve_plan.specs.Follows.{Meters, leaving};
ghost use Rattle.sve_look.specs.Questions.{element_in};
ghost use Rattle.sve_body.specs.Steps.{Steps};
ghost use Rattle.sve_body.specs.Items.{assignment_uses, events, statement, system_task, use_all};

use crate::place::Place;
use std::sync::Arc;
use sve_bytes::{Name, NetType, NoMemory};
use sve_env::Env;
use sve_facts::Port;
use sve_fault::{Fault, Fuel, Halted};
use sve_index::Index;
use sve_item_names::ItemName;
use sve_spec::Spec;
use sve_tree::{
    DataDeclaration, Element, EventControl, Func, GenerateBlock, Header, Import, Instance, Modport,
    NetAssignment, NetDeclaration, Overrides, Parameters, Stmt, Typedef, VariableDeclaration,
};

/// What a body is found to have, and what is known in its innermost scope, while its text is gone over. Tokens are named by their
/// numbers in the body's chunk. After an error nothing is known of it.
pub trait Work {
    /// What is known in the innermost scope, for expressions.
    type Known: Env;

    // What each call does to it.
    ghost steps: { Steps Self };

    /// What is known in the innermost scope.
    fn known(&self) -> &Self::Known
        ensures { Self.Known.told result.now ≡ steps.told self.now };

    /// The file of the body.
    fn file(&self) -> &Name
        ensures { result.now ≡ (steps.told self.now).file };

    /// The chunk of the body in its file, from 0.
    fn chunk(&self) -> u32
        ensures { result ≡ (steps.told self.now).chunk };

    /// A fault is said, where it says something.
    ///
    /// # Errors
    /// For want of memory alone.
    fn say(&mut self, fault: Fault) -> Result<(), NoMemory>
        ensures { OnOk result (self.new ≡ steps.say fault self.old) };

    /// Whether the name at a token is declared there (23.9).
    fn is_declared(&self, token: u32) -> bool
        ensures { result ≡ steps.is_declared token self.now };

    /// A net that the use of a name at a token declares, of the net type that is in force there (6.10). Where that is none, there is none.
    ///
    /// # Errors
    /// For want of memory alone.
    fn implicit_net(&mut self, token: u32, net: NetType) -> Result<(), NoMemory>
        ensures { OnOk result (self.new ≡ steps.implicit_net token net self.old) };

    /// The names that a continuous assignment uses (10.3).
    ///
    /// # Errors
    /// For want of memory alone.
    fn use_assignment(&mut self, assignment: &NetAssignment) -> Result<(), NoMemory>
        ensures { OnOk result (self.new ≡ use_all steps (assignment_uses assignment.now) self.old) };

    /// The names that the events of a procedure use (9.4.2).
    ///
    /// # Errors
    /// For want of memory alone.
    fn use_events(&mut self, control: &EventControl) -> Result<(), NoMemory>
        ensures { OnOk result (self.new ≡ events steps control.now self.old) };

    /// The imports of a header (26.4).
    ///
    /// # Errors
    /// For want of memory alone.
    fn header_imports(&mut self, header: &Header) -> Result<(), NoMemory>
        ensures { OnOk result (self.new ≡ steps.header_imports header.now self.old) };

    /// The parameters of a header, with their final values (6.20).
    ///
    /// # Errors
    /// `Over` where what it evaluates passes the most that may be spent, and `NoMemory`.
    fn header_parameters(&mut self, header: &Header, fuel: &mut Fuel) -> Result<(), Halted>
        requires { IsFuel fuel.old }
        ensures { Meters fuel.old fuel.new (steps.header_parameters header.now self.old) (leaving result self.new) };

    /// The ports of a header (23.2.2).
    ///
    /// # Errors
    /// `Over` where what it evaluates passes the most that may be spent, and `NoMemory`.
    fn header_ports(&mut self, header: &Header, fuel: &mut Fuel) -> Result<(), Halted>
        requires { IsFuel fuel.old }
        ensures { Meters fuel.old fuel.new (steps.header_ports header.now self.old) (leaving result self.new) };

    /// An import (26.3).
    ///
    /// # Errors
    /// For want of memory alone.
    fn import(&mut self, declaration: &Import) -> Result<(), NoMemory>
        ensures { OnOk result (self.new ≡ steps.import declaration.now self.old) };

    /// Parameters (6.20).
    ///
    /// # Errors
    /// `Over` where what it evaluates passes the most that may be spent, and `NoMemory`.
    fn parameters(&mut self, declaration: &Parameters, fuel: &mut Fuel) -> Result<(), Halted>
        requires { IsFuel fuel.old }
        ensures { Meters fuel.old fuel.new (steps.parameters declaration.now self.old) (leaving result self.new) };

    /// A type (6.18).
    ///
    /// # Errors
    /// `Over` where what it evaluates passes the most that may be spent, and `NoMemory`.
    fn typedef(&mut self, declaration: &Typedef, fuel: &mut Fuel) -> Result<(), Halted>
        requires { IsFuel fuel.old }
        ensures { Meters fuel.old fuel.new (steps.typedef declaration.now self.old) (leaving result self.new) };

    /// A function (13.4).
    ///
    /// # Errors
    /// `Over` where what it evaluates passes the most that may be spent, and `NoMemory`.
    fn function(&mut self, function: &Func, fuel: &mut Fuel) -> Result<(), Halted>
        requires { IsFuel fuel.old }
        ensures { Meters fuel.old fuel.new (steps.function function.now self.old) (leaving result self.new) };

    /// A genvar, by the token of its name (27.4).
    ///
    /// # Errors
    /// For want of memory alone.
    fn genvar(&mut self, name: u32) -> Result<(), NoMemory>
        ensures { OnOk result (self.new ≡ steps.genvar name self.old) };

    /// Nets (6.7).
    ///
    /// # Errors
    /// `Over` where what it evaluates passes the most that may be spent, and `NoMemory`.
    fn nets(&mut self, declaration: &NetDeclaration, fuel: &mut Fuel) -> Result<(), Halted>
        requires { IsFuel fuel.old }
        ensures { Meters fuel.old fuel.new (steps.nets declaration.now self.old) (leaving result self.new) };

    /// Variables that are declared with `var` (6.8).
    ///
    /// # Errors
    /// `Over` where what it evaluates passes the most that may be spent, and `NoMemory`.
    fn variables(
        &mut self,
        declaration: &VariableDeclaration,
        fuel: &mut Fuel,
    ) -> Result<(), Halted>
        requires { IsFuel fuel.old }
        ensures { Meters fuel.old fuel.new (steps.variables declaration.now self.old) (leaving result self.new) };

    /// Data that are declared by their type (6.8).
    ///
    /// # Errors
    /// `Over` where what it evaluates passes the most that may be spent, and `NoMemory`.
    fn data_of_type(&mut self, declaration: &DataDeclaration, fuel: &mut Fuel) -> Result<(), Halted>
        requires { IsFuel fuel.old }
        ensures { Meters fuel.old fuel.new (steps.data_of_type declaration.now self.old) (leaving result self.new) };

    /// A modport (25.5).
    ///
    /// # Errors
    /// For want of memory alone.
    fn modport(&mut self, modport: &Modport) -> Result<(), NoMemory>
        ensures { OnOk result (self.new ≡ steps.modport modport.now self.old) };

    /// The statement of a procedure, with the scopes of its blocks and loops (9.2). What it evaluates is counted over what is known where
    /// it begins.
    ///
    /// # Errors
    /// `Over` where what it evaluates passes the most that may be spent, and `NoMemory`.
    fn statement(&mut self, stmt: &Stmt, fuel: &mut Fuel) -> Result<(), Halted>
        requires { IsFuel fuel.old }
        ensures { Meters fuel.old fuel.new (statement steps stmt.now self.old) (leaving result self.new) };

    /// A system task among items (20.11).
    ///
    /// # Errors
    /// For want of memory alone.
    fn system_task(&mut self, name: u32) -> Result<(), NoMemory>
        ensures { OnOk result (self.new ≡ system_task steps name self.old) };

    /// What is wrong with the genvar of a loop, by the tokens of `genvar`, where it is written, and of the name (27.4).
    ///
    /// # Errors
    /// For want of memory alone.
    fn genvar_fault(&self, genvar: Option<u32>, name: u32) -> Result<Option<Fault>, NoMemory>
        ensures { IfOk result (λ fault. fault ≡ steps.genvar_fault genvar name self.now) };

    /// The number of the next generate construct of the innermost scope, of which the first has number 1 (27.6).
    fn next_number(&self) -> u64
        ensures { result ≡ steps.next_number self.now };

    /// One more construct, by the names of its labels (27.6).
    ///
    /// # Errors
    /// For want of memory alone.
    fn count_construct(&mut self, names: &[ItemName]) -> Result<(), NoMemory>
        ensures { OnOk result (self.new ≡ steps.count_construct names.now self.old) };

    /// How many generate blocks are open.
    fn depth(&self) -> usize
        ensures { result ≡ steps.depth self.now };

    /// What is wrong with a label of the construct with this number: its name is declared by something else (27.6).
    ///
    /// # Errors
    /// For want of memory alone.
    fn label_fault(&self, number: u64, label: u32) -> Result<Option<Fault>, NoMemory>
        ensures { IfOk result (λ fault. fault ≡ steps.label_fault number label self.now) };

    /// A generate block is entered, by the number of its construct, its genvar with its value, and its text, of which its label, its first
    /// token and its items are read off (27.6).
    ///
    /// # Errors
    /// For want of memory alone.
    fn enter(
        &mut self,
        number: u64,
        turn: Option<(u32, i32)>,
        block: &GenerateBlock,
    ) -> Result<(), NoMemory>
        ensures { OnOk result (self.new ≡ steps.enter number turn block.now self.old) };

    /// The innermost generate block ends.
    ///
    /// # Errors
    /// For want of memory alone.
    fn leave(&mut self) -> Result<(), NoMemory>
        ensures { OnOk result (self.new ≡ steps.leave self.old) };

    /// The overrides of an instantiation are evaluated, once for all its instances (23.10).
    ///
    /// # Errors
    /// `Over` where what it evaluates passes the most that may be spent, and `NoMemory`.
    fn overrides(&mut self, overrides: &Option<Overrides>, fuel: &mut Fuel) -> Result<(), Halted>
        requires { IsFuel fuel.old }
        ensures { Meters fuel.old fuel.new (steps.overrides overrides.now self.old) (leaving result self.new) };

    /// Where the definition with the name at a token stands, where it is there (23.3).
    ///
    /// # Errors
    /// For want of memory alone.
    fn definition_at(&self, index: &Index, token: u32) -> Result<Option<Place>, NoMemory>
        ensures { IfOk result (λ place. place ≡ steps.definition_at index.now token self.now) };

    /// The definition with the name at a token is not there.
    ///
    /// # Errors
    /// For want of memory alone.
    fn no_definition(&mut self, token: u32) -> Result<(), NoMemory>
        ensures { OnOk result (self.new ≡ steps.no_definition token self.old) };

    /// The specialization of an instance, where it has one, by the token of its definition's name and the definition's text (23.10).
    ///
    /// # Errors
    /// For want of memory alone.
    fn specialized(
        &mut self,
        definition: u32,
        element: &Option<Arc<Element>>,
        instance: &Instance,
    ) -> Result<Option<Spec>, NoMemory>
        ensures spec { IfOk result (λ spec. spec ≡ (steps.specialized definition (element_in element.now) instance.now self.old).0) }
        ensures left { OnOk result (self.new ≡ (steps.specialized definition (element_in element.now) instance.now self.old).1) };

    /// The plain names in the connections of an instance that make nets where nothing declares them (6.10).
    ///
    /// # Errors
    /// For want of memory alone.
    fn connection_tokens(&self, ports: &[Port], instance: &Instance) -> Result<Vec<u32>, NoMemory>
        ensures { IfOk result (λ tokens. tokens.items ≡ steps.connection_tokens ports.now instance.now self.now) };

    /// An instance of this specialization, whose ports are these (23.3).
    ///
    /// # Errors
    /// For want of memory alone.
    fn child(&mut self, spec: Spec, ports: &[Port], instance: &Instance) -> Result<(), NoMemory>
        ensures { OnOk result (self.new ≡ steps.child spec ports.now instance.now self.old) };

    /// The same names of an instance without a specialization.
    ///
    /// # Errors
    /// For want of memory alone.
    fn unknown_tokens(&self, instance: &Instance) -> Result<Vec<u32>, NoMemory>
        ensures { IfOk result (λ tokens. tokens.items ≡ steps.unknown_tokens instance.now self.now) };

    /// An instance without a specialization, which is no child.
    ///
    /// # Errors
    /// For want of memory alone.
    fn unknown(&mut self, instance: &Instance) -> Result<(), NoMemory>
        ensures { OnOk result (self.new ≡ steps.unknown instance.now self.old) };
}

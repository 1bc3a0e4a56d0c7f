//! The steps of the elaboration of a body.
ghost use Rattle.std.specs.Prelude.{◌≡◌};
ghost use Rattle.sve_fault.specs.Counts.{IsFuel};
ghost use Rattle.sve_plan.specs.Follows.{Meters, leaving};
ghost use Rattle.sve_elaboration.specs.Declarations.{can_be_overridden, local_parameters_in, overridable_in};

use crate::elaboration::Elaboration;
use crate::modports::with_modport;
use crate::parts::{add_one, block_entered, is_failing, taken_nested};
use crate::ports::ports_known;
use std::sync::Arc;
use sve_body::{Place, Work};
use sve_body_parameter::{Overridable, count_overridable, with_overridable};
use sve_bytes::{Name, NetType, NoMemory};
use sve_child::{
    Implied, Placed, implied_net, net_tokens, net_tokens_of_none, place_named, specialized_in,
    stands_for_something, token_said, with_child, with_no_child,
};
use sve_counted_item::{
    data_in, function_in, nets_in, parameters_in, statement_in, typedef_in, variables_in,
};
use sve_diag::Code;
use sve_facts::Port;
use sve_fault::{Fault, Fuel, Halted};
use sve_formal::is_local_keyword;
use sve_header::{HeaderParameters, HeaderPorts, with_header_imports, with_header_parameters};
use sve_index::Index;
use sve_item_names::ItemName;
use sve_known::text_at;
use sve_override::{Overridden, Specialized, with_overrides};
use sve_spec::Spec;
use sve_tree::{
    DataDeclaration, Element, EventControl, Func, GenerateBlock, Header, Import, Instance, Modport,
    NetAssignment, NetDeclaration, Overrides, Parameters, Stmt, Typedef, VariableDeclaration,
};
use sve_used::taken_out;
use sve_used_names::{assignment_used, events_used};

impl<'a> Elaboration<'a> {
    /// Whether an instance may override the parameters of a declaration (IEEE 1800-2017, 6.20.1).
    fn is_overridable(&self, declaration: &Parameters) -> bool
        ensures { result ≡ can_be_overridden self.now declaration.now }
    {
        self.is_open && !is_local_keyword(declaration.keyword.kind) && self.nested.depth() == 0
    }

    /// Parameters of the body itself that an instance may override.
    fn overridable_parameters(
        &mut self,
        declaration: &Parameters,
        fuel: &mut Fuel,
    ) -> Result<(), Halted>
        requires { IsFuel fuel.old }
        ensures { Meters fuel.old fuel.new (overridable_in declaration.now self.old) (leaving result self.new) }
    {
        let (given, place) = (self.given, self.place);
        count_overridable(given, place, declaration, self, fuel)?;
        let contents = taken_out(self.alloc, &mut self.nested.contents)?;
        let left = with_overridable(self.alloc, self.text, given, place, contents, declaration)?;
        let Overridable {
            contents,
            values,
            place,
        } = left;
        self.nested.contents = contents;
        self.place = place;
        self.values.append(&mut values.into_vec())?;
        Ok(())
    }

    /// Parameters that no instance may override.
    fn local_parameters(&mut self, declaration: &Parameters, fuel: &mut Fuel) -> Result<(), Halted>
        requires { IsFuel fuel.old }
        ensures { Meters fuel.old fuel.new (local_parameters_in declaration.now self.old) (leaving result self.new) }
    {
        let contents = taken_out(self.alloc, &mut self.nested.contents)?;
        self.nested.contents = parameters_in(self.alloc, self.text, contents, declaration, fuel)?;
        Ok(())
    }
}

impl<'a> Work for Elaboration<'a> {
    ghost use Rattle.sve_elaboration.specs.Elaborating.{elaborating};

    type Known = Elaboration<'a>;

    ghost steps = { elaborating };

    fn known(&self) -> &Elaboration<'a> {
        self
    }

    fn file(&self) -> &Name {
        &self.nested.contents.scope.file
    }

    fn chunk(&self) -> u32 {
        self.nested.contents.scope.chunk
    }

    fn say(&mut self, fault: Fault) -> Result<(), NoMemory> {
        let contents = taken_out(self.alloc, &mut self.nested.contents)?;
        self.nested.contents = contents.said(fault)?;
        Ok(())
    }

    fn is_declared(&self, token: u32) -> bool {
        stands_for_something(self.text.words, &self.nested.contents, token)
    }

    fn implicit_net(&mut self, token: u32, net: NetType) -> Result<(), NoMemory> {
        let contents = taken_out(self.alloc, &mut self.nested.contents)?;
        let path = &self.nested.blocks.inner.path;
        let implied = implied_net(self.alloc, self.text.words, contents, path, token, net)?;
        let Implied { contents, net } = implied;
        self.nested.contents = contents;
        add_one(&mut self.nets, net)
    }

    fn use_assignment(&mut self, assignment: &NetAssignment) -> Result<(), NoMemory> {
        let contents = taken_out(self.alloc, &mut self.nested.contents)?;
        self.nested.contents = assignment_used(self.alloc, self.text, contents, assignment)?;
        Ok(())
    }

    fn use_events(&mut self, control: &EventControl) -> Result<(), NoMemory> {
        let contents = taken_out(self.alloc, &mut self.nested.contents)?;
        self.nested.contents = events_used(self.alloc, self.text, contents, control)?;
        Ok(())
    }

    fn header_imports(&mut self, header: &Header) -> Result<(), NoMemory> {
        let contents = taken_out(self.alloc, &mut self.nested.contents)?;
        self.nested.contents = with_header_imports(self.text, contents, header)?;
        Ok(())
    }

    fn header_parameters(&mut self, header: &Header, fuel: &mut Fuel) -> Result<(), Halted> {
        let contents = taken_out(self.alloc, &mut self.nested.contents)?;
        let found = with_header_parameters(
            self.alloc, self.text, self.given, contents, header, fuel,
        )?;
        let HeaderParameters { contents, values } = found;
        self.nested.contents = contents;
        self.values = values.into_vec();
        Ok(())
    }

    fn header_ports(&mut self, header: &Header, fuel: &mut Fuel) -> Result<(), Halted> {
        let contents = taken_out(self.alloc, &mut self.nested.contents)?;
        let found = ports_known(self.alloc, self.text, self.designs, contents, header, fuel)?;
        let HeaderPorts { contents, ports } = found;
        self.nested.contents = contents;
        self.ports = ports;
        Ok(())
    }

    fn import(&mut self, declaration: &Import) -> Result<(), NoMemory> {
        let contents = taken_out(self.alloc, &mut self.nested.contents)?;
        self.nested.contents = contents.imported(self.text.packages, self.text.words, declaration)?;
        Ok(())
    }

    fn parameters(&mut self, declaration: &Parameters, fuel: &mut Fuel) -> Result<(), Halted> {
        if self.is_overridable(declaration) {
            return self.overridable_parameters(declaration, fuel);
        }
        self.local_parameters(declaration, fuel)
    }

    fn typedef(&mut self, declaration: &Typedef, fuel: &mut Fuel) -> Result<(), Halted> {
        let contents = taken_out(self.alloc, &mut self.nested.contents)?;
        self.nested.contents = typedef_in(self.alloc, self.text, contents, declaration, fuel)?;
        Ok(())
    }

    fn function(&mut self, function: &Func, fuel: &mut Fuel) -> Result<(), Halted> {
        let contents = taken_out(self.alloc, &mut self.nested.contents)?;
        self.nested.contents = function_in(self.alloc, self.text, contents, function, fuel)?;
        Ok(())
    }

    fn genvar(&mut self, name: u32) -> Result<(), NoMemory> {
        let nested = taken_nested(self.alloc, &mut self.nested)?;
        self.nested = nested.with_genvar(self.text.words, name)?;
        Ok(())
    }

    fn nets(&mut self, declaration: &NetDeclaration, fuel: &mut Fuel) -> Result<(), Halted> {
        let contents = taken_out(self.alloc, &mut self.nested.contents)?;
        self.nested.contents = nets_in(self.alloc, self.text, contents, declaration, fuel)?;
        Ok(())
    }

    fn variables(
        &mut self,
        declaration: &VariableDeclaration,
        fuel: &mut Fuel,
    ) -> Result<(), Halted> {
        let contents = taken_out(self.alloc, &mut self.nested.contents)?;
        self.nested.contents = variables_in(self.alloc, self.text, contents, declaration, fuel)?;
        Ok(())
    }

    fn data_of_type(
        &mut self,
        declaration: &DataDeclaration,
        fuel: &mut Fuel,
    ) -> Result<(), Halted> {
        let contents = taken_out(self.alloc, &mut self.nested.contents)?;
        self.nested.contents = data_in(self.alloc, self.text, contents, declaration, fuel)?;
        Ok(())
    }

    fn modport(&mut self, modport: &Modport) -> Result<(), NoMemory> {
        let contents = taken_out(self.alloc, &mut self.nested.contents)?;
        self.nested.contents = with_modport(self.text.words, contents, self.designs, modport)?;
        Ok(())
    }

    fn statement(&mut self, stmt: &Stmt, fuel: &mut Fuel) -> Result<(), Halted> {
        let contents = taken_out(self.alloc, &mut self.nested.contents)?;
        self.nested.contents = statement_in(self.alloc, self.text, contents, stmt, fuel)?;
        Ok(())
    }

    fn system_task(&mut self, name: u32) -> Result<(), NoMemory> {
        let text = text_at(self.text.words, name);
        if !is_failing(text) {
            return Ok(());
        }
        let fault = Fault::about(self.alloc, name, Code::E17, text)?;
        self.say(fault)
    }

    fn genvar_fault(&self, genvar: Option<u32>, name: u32) -> Result<Option<Fault>, NoMemory> {
        self.nested
            .genvar_fault(self.text.packages, self.text.words, genvar, name)
    }

    fn next_number(&self) -> u64 {
        self.nested.next_number()
    }

    fn count_construct(&mut self, names: &[ItemName]) -> Result<(), NoMemory> {
        let nested = taken_nested(self.alloc, &mut self.nested)?;
        self.nested = nested.counted(self.text.words, names)?;
        Ok(())
    }

    fn depth(&self) -> usize {
        self.nested.depth()
    }

    fn label_fault(&self, number: u64, label: u32) -> Result<Option<Fault>, NoMemory> {
        self.nested.label_fault(self.text.words, number, label)
    }

    fn enter(
        &mut self,
        number: u64,
        turn: Option<(u32, i32)>,
        block: &GenerateBlock,
    ) -> Result<(), NoMemory> {
        self.keep_uses()?;
        let nested = taken_nested(self.alloc, &mut self.nested)?;
        self.nested = block_entered(self.alloc, self.text.words, nested, number, turn, block)?;
        Ok(())
    }

    fn leave(&mut self) -> Result<(), NoMemory> {
        self.keep_uses()?;
        let nested = taken_nested(self.alloc, &mut self.nested)?;
        self.nested = nested.left(self.alloc)?;
        Ok(())
    }

    fn overrides(&mut self, overrides: &Option<Overrides>, fuel: &mut Fuel) -> Result<(), Halted> {
        let contents = taken_out(self.alloc, &mut self.nested.contents)?;
        let left = with_overrides(self.alloc, self.text, contents, overrides, fuel)?;
        let Overridden {
            contents,
            overrides,
        } = left;
        self.nested.contents = contents;
        self.overrides = overrides;
        Ok(())
    }

    fn definition_at(&self, index: &Index, token: u32) -> Result<Option<Place>, NoMemory> {
        place_named(index, self.text.words, token)
    }

    fn no_definition(&mut self, token: u32) -> Result<(), NoMemory> {
        let contents = taken_out(self.alloc, &mut self.nested.contents)?;
        self.nested.contents = token_said(self.text.words, contents, Code::N09, token)?;
        Ok(())
    }

    fn specialized(
        &mut self,
        definition: u32,
        element: &Option<Arc<Element>>,
        instance: &Instance,
    ) -> Result<Option<Spec>, NoMemory> {
        let contents = taken_out(self.alloc, &mut self.nested.contents)?;
        let overrides = self.overrides.items();
        let found = specialized_in(
            self.alloc, self.text, contents, overrides, definition, element, instance,
        )?;
        let Specialized { contents, spec } = found;
        self.nested.contents = contents;
        Ok(spec)
    }

    fn connection_tokens(&self, ports: &[Port], instance: &Instance) -> Result<Vec<u32>, NoMemory> {
        net_tokens(
            self.alloc,
            self.text,
            &self.nested.contents,
            self.designs,
            ports,
            instance,
        )
    }

    fn child(&mut self, spec: Spec, ports: &[Port], instance: &Instance) -> Result<(), NoMemory> {
        let contents = taken_out(self.alloc, &mut self.nested.contents)?;
        let path = &self.nested.blocks.inner.path;
        let placed = with_child(
            self.alloc,
            self.text,
            contents,
            self.designs,
            path,
            spec,
            ports,
            instance,
        )?;
        let Placed { contents, child } = placed;
        self.nested.contents = contents;
        add_one(&mut self.children, child)
    }

    fn unknown_tokens(&self, instance: &Instance) -> Result<Vec<u32>, NoMemory> {
        net_tokens_of_none(
            self.alloc,
            self.text,
            &self.nested.contents,
            self.designs,
            instance,
        )
    }

    fn unknown(&mut self, instance: &Instance) -> Result<(), NoMemory> {
        let contents = taken_out(self.alloc, &mut self.nested.contents)?;
        self.nested.contents = with_no_child(
            self.alloc,
            self.text,
            contents,
            self.designs,
            instance,
        )?;
        Ok(())
    }
}

use std::alloc::Global;
use sve_bytes::NoMemory;
use sve_contents::Contents;
use sve_declare::{Text, with_parameters, with_typedef};
use sve_loop_data::{
    dotted_use, selected_use, taken_out, with_data, with_indices, with_loop, with_named_data,
    with_named_loop, with_variables,
};
use sve_statement_use::Scopes;
use sve_tree::{
    DataDeclaration, Declarator, ForVariable, Initializer, NamedDeclaration, Parameters, Postfix,
    ScopedName, Select, Typedef, VariableDeclaration,
};
use sve_use::Resolver;

/// A scope in which statements are read: names that are used are resolved there, scopes open and close in it, and declarations come into
/// the innermost one. It fails for want of memory alone; nothing counts.
#[derive(Drop)]
pub struct Within<'a> {
    /// The allocator.
    pub alloc: Global,
    /// What the text of the scope stands among.
    pub text: Text<'a>,
    /// The scope, those around it, and what is to be said of their text.
    pub contents: Contents,
}

impl Resolver for Within<'_> {
    ghost use Rattle.sve_local.specs.Within.{used_within};

    ghost after = { used_within };

    fn named(&mut self, name: ScopedName) -> Result<(), NoMemory> {
        let contents = taken_out(self.alloc, &mut self.contents)?;
        self.contents = contents.named_use(self.text.packages, self.text.words, name)?;
        Ok(())
    }

    fn called(&mut self, name: ScopedName) -> Result<(), NoMemory> {
        let contents = taken_out(self.alloc, &mut self.contents)?;
        self.contents = contents.named_use(self.text.packages, self.text.words, name)?;
        Ok(())
    }

    fn dotted(&mut self, name: u32, postfixes: &[Postfix]) -> Result<(), NoMemory> {
        let contents = taken_out(self.alloc, &mut self.contents)?;
        self.contents = dotted_use(self.alloc, self.text, contents, name, postfixes)?;
        Ok(())
    }

    fn selected(&mut self, name: u32, selects: &[Select]) -> Result<(), NoMemory> {
        let contents = taken_out(self.alloc, &mut self.contents)?;
        self.contents = selected_use(self.alloc, self.text, contents, name, selects)?;
        Ok(())
    }
}

impl Scopes for Within<'_> {
    ghost use Rattle.sve_local.specs.Within.{done_within};

    ghost does = { done_within };

    fn open_scope(&mut self, _token: u32) -> Result<(), NoMemory> {
        let contents = taken_out(self.alloc, &mut self.contents)?;
        self.contents = contents.entered(self.alloc)?;
        Ok(())
    }

    fn close_scope(&mut self) -> Result<(), NoMemory> {
        let contents = taken_out(self.alloc, &mut self.contents)?;
        self.contents = contents.left();
        Ok(())
    }

    fn declare_data(&mut self, declaration: &DataDeclaration) -> Result<(), NoMemory> {
        let contents = taken_out(self.alloc, &mut self.contents)?;
        self.contents = with_data(self.alloc, self.text, contents, declaration)?;
        Ok(())
    }

    fn declare_variables(&mut self, declaration: &VariableDeclaration) -> Result<(), NoMemory> {
        let contents = taken_out(self.alloc, &mut self.contents)?;
        self.contents = with_variables(self.alloc, self.text, contents, declaration)?;
        Ok(())
    }

    fn declare_named(&mut self, declaration: &NamedDeclaration) -> Result<(), NoMemory> {
        let contents = taken_out(self.alloc, &mut self.contents)?;
        self.contents = with_named_data(self.alloc, self.text, contents, declaration)?;
        Ok(())
    }

    fn declare_parameters(&mut self, declaration: &Parameters) -> Result<(), NoMemory> {
        let contents = taken_out(self.alloc, &mut self.contents)?;
        self.contents = with_parameters(self.alloc, self.text, contents, declaration)?;
        Ok(())
    }

    fn declare_type(&mut self, declaration: &Typedef) -> Result<(), NoMemory> {
        let contents = taken_out(self.alloc, &mut self.contents)?;
        self.contents = with_typedef(self.alloc, self.text, contents, declaration)?;
        Ok(())
    }

    fn declare_loop(&mut self, variables: &[ForVariable]) -> Result<(), NoMemory> {
        let contents = taken_out(self.alloc, &mut self.contents)?;
        self.contents = with_loop(self.alloc, self.text, contents, variables)?;
        Ok(())
    }

    fn declare_named_loop(
        &mut self,
        name: ScopedName,
        selects: &Vec<Select>,
        declarator: &Declarator,
        value: &Initializer,
    ) -> Result<(), NoMemory> {
        let contents = taken_out(self.alloc, &mut self.contents)?;
        let selects = selects.as_slice();
        self.contents = with_named_loop(
            self.alloc, self.text, contents, name, selects, declarator, value,
        )?;
        Ok(())
    }

    fn declare_indices(&mut self, _array: u32, names: &[u32]) -> Result<(), NoMemory> {
        let contents = taken_out(self.alloc, &mut self.contents)?;
        self.contents = with_indices(self.alloc, self.text, contents, names)?;
        Ok(())
    }
}

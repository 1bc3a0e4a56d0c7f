ghost use Rattle.std.specs.Prelude.{◌≡◌, OnOk};
ghost use Rattle.sve_statement_use.specs.Steps.{Closes, DeclaresData, DeclaresIndices, DeclaresLoop, DeclaresNamed, DeclaresNamedLoop, DeclaresParameters, DeclaresType, DeclaresVariables, Local, Opens};

use sve_bytes::NoMemory;
use sve_tree::{
    DataDeclaration, Declarator, ForVariable, Initializer, NamedDeclaration, Parameters,
    ScopedName, Select, Typedef, VariableDeclaration,
};
use sve_use::Resolver;

/// What the scopes and declarations of statements are handed to, in the order of the text, beside the names that are used. Tokens are
/// named by their numbers in the chunk. A declaration is handed on whole, with the names that it uses. An object that counts what
/// declarations cost, and finds that it is too much, notes that and does nothing more.
pub trait Scopes: Resolver {
    // What it becomes with one more step.
    ghost does: { Self → Local → Self };

    /// A scope begins in the innermost one: that of the block, the `for` or the `foreach` whose first token this is
    /// (IEEE 1800-2017, 9.3.1, 12.7.1 and 12.7.3). One in which nothing is declared begins and ends all the same.
    ///
    /// # Errors
    /// For want of memory alone.
    fn open_scope(&mut self, token: u32) -> Result<(), NoMemory>
        ensures { OnOk result (self.new ≡ does self.old (Opens token)) };

    /// The innermost scope ends.
    ///
    /// # Errors
    /// For want of memory alone.
    fn close_scope(&mut self) -> Result<(), NoMemory>
        ensures { OnOk result (self.new ≡ does self.old Closes) };

    /// A declaration of data by their type in the innermost scope (6.8).
    ///
    /// # Errors
    /// For want of memory alone.
    fn declare_data(&mut self, declaration: &DataDeclaration) -> Result<(), NoMemory>
        ensures { OnOk result (self.new ≡ does self.old (DeclaresData declaration.now)) };

    /// A declaration of variables with `var` (6.8).
    ///
    /// # Errors
    /// For want of memory alone.
    fn declare_variables(&mut self, declaration: &VariableDeclaration) -> Result<(), NoMemory>
        ensures { OnOk result (self.new ≡ does self.old (DeclaresVariables declaration.now)) };

    /// A declaration that begins with a type's name (6.8).
    ///
    /// # Errors
    /// For want of memory alone.
    fn declare_named(&mut self, declaration: &NamedDeclaration) -> Result<(), NoMemory>
        ensures { OnOk result (self.new ≡ does self.old (DeclaresNamed declaration.now)) };

    /// Parameters (6.20).
    ///
    /// # Errors
    /// For want of memory alone.
    fn declare_parameters(&mut self, declaration: &Parameters) -> Result<(), NoMemory>
        ensures { OnOk result (self.new ≡ does self.old (DeclaresParameters declaration.now)) };

    /// A type (6.18).
    ///
    /// # Errors
    /// For want of memory alone.
    fn declare_type(&mut self, declaration: &Typedef) -> Result<(), NoMemory>
        ensures { OnOk result (self.new ≡ does self.old (DeclaresType declaration.now)) };

    /// The variables of a `for`, of which one without a type has that of the one before (12.7.1).
    ///
    /// # Errors
    /// For want of memory alone.
    fn declare_loop(&mut self, variables: &[ForVariable]) -> Result<(), NoMemory>
        ensures { OnOk result (self.new ≡ does self.old (DeclaresLoop variables.now)) };

    /// The variable of a `for`, of a type by its name (12.7.1).
    ///
    /// # Errors
    /// For want of memory alone.
    fn declare_named_loop(
        &mut self,
        name: ScopedName,
        selects: &Vec<Select>,
        declarator: &Declarator,
        value: &Initializer,
    ) -> Result<(), NoMemory>
        ensures { OnOk result (self.new ≡ does self.old (DeclaresNamedLoop name selects.now declarator.now value.now)) };

    /// The loop variables of a `foreach` over the array at a token (12.7.3).
    ///
    /// # Errors
    /// For want of memory alone.
    fn declare_indices(&mut self, array: u32, names: &[u32]) -> Result<(), NoMemory>
        ensures { OnOk result (self.new ≡ does self.old (DeclaresIndices array names.now)) };
}

//! What is counted on the way through statements.
ghost use Rattle.std.specs.Prelude.{◌≡◌, ◌-◌, ◌^◌, IfErr, IfOk, Ok};
ghost use Rattle.sve_fault.specs.declared.fuel.Halted.TheVariants.{NoMemory};

use crate::declarations::{count_data, count_named, count_typedef, count_variables};
use crate::loops::{count_loop, count_named_loop};
use crate::parameters::count_parameters;
use std::alloc::AllocError;
use sve_bytes::NoMemory;
use sve_env::Env;
use sve_fault::{Fuel, Halted};
use sve_statement_use::Scopes;
use sve_tree::{
    DataDeclaration, Declarator, ForVariable, Initializer, NamedDeclaration, Parameters, Postfix,
    ScopedName, Select, Typedef, VariableDeclaration,
};
use sve_use::Resolver;

/// How many nodes the declarations so far have. The count stands at its last value, 2^64 - 1, so that nothing is over; what may be spent is
/// told when all are counted.
#[derive(Drop)]
pub(crate) struct Counting<'a, E> {
    /// What is known where the statements begin.
    pub(crate) env: &'a E,
    /// The nodes that were counted so far.
    pub(crate) used: u64,
}

/// Fuel of which so much is used, and which has no end.
fn endless_from(used: u64) -> Fuel
    ensures used { result.used ≡ used }
    ensures most { result.most ≡ 2 ^ 64 - 1 }
{
    Fuel {
        used,
        most: u64::MAX,
    }
}

/// What comes of counting that has no end.
fn ended(outcome: Result<(), Halted>) -> Result<(), NoMemory>
    requires { IfErr outcome (λ halted. halted ≡ NoMemory) }
    ensures { IfOk result (λ t. outcome ≡ Ok t) }
{
    match outcome {
        Ok(()) => Ok(()),
        Err(Halted::NoMemory) => Err(AllocError),
        Err(Halted::Over) => unreachable!(),
    }
}

impl<E: Env> Resolver for Counting<'_, E> {
    ghost use Rattle.sve_count.specs.Counting.{unchanged};

    ghost after = { unchanged };

    fn named(&mut self, _name: ScopedName) -> Result<(), NoMemory> {
        Ok(())
    }

    fn called(&mut self, _name: ScopedName) -> Result<(), NoMemory> {
        Ok(())
    }

    fn dotted(&mut self, _name: u32, _postfixes: &[Postfix]) -> Result<(), NoMemory> {
        Ok(())
    }

    fn selected(&mut self, _name: u32, _selects: &[Select]) -> Result<(), NoMemory> {
        Ok(())
    }
}

impl<E: Env> Scopes for Counting<'_, E> {
    ghost use Rattle.sve_count.specs.Counting.{counted_local};

    ghost does = { counted_local E.told };

    fn open_scope(&mut self, _token: u32) -> Result<(), NoMemory> {
        let _used = self.used;
        Ok(())
    }

    fn close_scope(&mut self) -> Result<(), NoMemory> {
        let _used = self.used;
        Ok(())
    }

    fn declare_data(&mut self, declaration: &DataDeclaration) -> Result<(), NoMemory> {
        let mut fuel = endless_from(self.used);
        ended(count_data(declaration, self.env, &mut fuel))?;
        self.used = fuel.used;
        Ok(())
    }

    fn declare_variables(&mut self, declaration: &VariableDeclaration) -> Result<(), NoMemory> {
        let mut fuel = endless_from(self.used);
        ended(count_variables(declaration, self.env, &mut fuel))?;
        self.used = fuel.used;
        Ok(())
    }

    fn declare_named(&mut self, declaration: &NamedDeclaration) -> Result<(), NoMemory> {
        let mut fuel = endless_from(self.used);
        ended(count_named(declaration, self.env, &mut fuel))?;
        self.used = fuel.used;
        Ok(())
    }

    fn declare_parameters(&mut self, declaration: &Parameters) -> Result<(), NoMemory> {
        let mut fuel = endless_from(self.used);
        ended(count_parameters(declaration, self.env, &mut fuel))?;
        self.used = fuel.used;
        Ok(())
    }

    fn declare_type(&mut self, declaration: &Typedef) -> Result<(), NoMemory> {
        let mut fuel = endless_from(self.used);
        ended(count_typedef(declaration, self.env, &mut fuel))?;
        self.used = fuel.used;
        Ok(())
    }

    fn declare_loop(&mut self, variables: &[ForVariable]) -> Result<(), NoMemory> {
        let mut fuel = endless_from(self.used);
        ended(count_loop(variables, self.env, &mut fuel))?;
        self.used = fuel.used;
        Ok(())
    }

    fn declare_named_loop(
        &mut self,
        _name: ScopedName,
        selects: &Vec<Select>,
        declarator: &Declarator,
        _value: &Initializer,
    ) -> Result<(), NoMemory> {
        let mut fuel = endless_from(self.used);
        ended(count_named_loop(selects, declarator, self.env, &mut fuel))?;
        self.used = fuel.used;
        Ok(())
    }

    fn declare_indices(&mut self, _array: u32, _names: &[u32]) -> Result<(), NoMemory> {
        let _used = self.used;
        Ok(())
    }
}

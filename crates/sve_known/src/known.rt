ghost use Rattle.std.specs.Prelude.{◌≡◌, IfOk, option_map};
ghost use Rattle.std.specs.Arc.{arc_value};
ghost use Rattle.sve_known.specs.Packages.{member, names_in, names_of, own_scope};

use std::alloc::Global;
use std::marker::Model;
use std::sync::Arc;
use sve_bytes::{Name, NoMemory};
use sve_facts::Facts;
use sve_scope::{Declared, Scope};
use sve_table::{Named, Table};

/// A package that is known: what is found of it, and the names that it declares, which all imports of them share. A clause sees its
/// name and what is found of it, wherever that lies in memory.
#[derive(Drop)]
pub struct Known {
    name: Name,
    facts: Arc<Facts>,
    names: Arc<Table<Name>>,
}

impl Model for Known {
    ghost use Rattle.std.specs.Prelude.{◌≡◌};
    ghost use Rattle.std.specs.Arc.{arc_value};
    ghost use Rattle.sve_known.specs.Packages.{Known as Package, known_code, names_of, own_scope};

    ghost Value = { Package };

    ghost coded = { known_code };

    ghost view = { λ k. record { name = k.name; facts = arc_value k.facts } };

    ghost invariant = { λ k. arc_value k.names ≡ names_of (own_scope (arc_value k.facts)) };
}

impl Named for Known {
    ghost called = { λ k. k.name };

    fn name(&self) -> &Name {
        &self.name
    }
}

/// The scope of a package, where it has one: a package on a cycle of imports has none.
fn own_scope(facts: &Facts) -> Option<&Scope>
    ensures { option_map (λ s. s.now) result ≡ own_scope facts.now }
{
    match facts.scopes.items().first() {
        Some(own) => Some(&own.scope),
        None => None,
    }
}

/// The names that a scope declares, each once.
#[tactic(auto, using(crate::proofs::Names::one_more, crate::proofs::Names::none_left))]
fn declared_names(alloc: Global, scope: &Scope) -> Result<Table<Name>, NoMemory>
    ensures { IfOk result (λ names. names ≡ names_in scope.now.declared) }
{
    let mut names = Table::new(alloc);
    'declared: for place in 0..scope.declared.len() {
        names.add(scope.declared.at(place).name.copy()?)?;
    }
    Ok(names)
}

/// The names that a scope declares, where there is one.
fn names_of(alloc: Global, scope: Option<&Scope>) -> Result<Table<Name>, NoMemory>
    ensures { IfOk result (λ names. names ≡ names_of (option_map (λ s. s.now) scope.entry)) }
{
    match scope {
        Some(scope) => declared_names(alloc, scope),
        None => Ok(Table::new(alloc)),
    }
}

impl Known {
    /// A package of this name, of which this is found.
    ///
    /// # Errors
    /// For want of memory alone.
    pub fn of(alloc: Global, name: Name, facts: Arc<Facts>) -> Result<Known, NoMemory>
        ensures { IfOk result (λ k. k ≡ record { name = name; facts = arc_value facts }) }
    {
        let names = Arc::new(alloc, names_of(alloc, own_scope(&facts))?)?;
        Ok(Known { name, facts, names })
    }

    /// What is found of it. It takes no memory.
    pub fn facts(&self) -> &Facts
        ensures { result.now ≡ self.now.facts }
    {
        &self.facts
    }

    /// The names that it declares, which imports of all of them share. It takes no memory.
    pub fn names(&self) -> &Arc<Table<Name>>
        ensures { arc_value result.now ≡ names_of (own_scope self.now.facts) }
    {
        &self.names
    }

    /// What it declares by a name (IEEE 1800-2017, 26.3). What it imports is none of it. It takes no memory.
    pub fn member(&self, name: &Name) -> Option<&Declared>
        ensures { option_map (λ d. d.now) result ≡ member name.now self.now.facts }
    {
        match own_scope(&self.facts) {
            Some(scope) => scope.declared.get(name),
            None => None,
        }
    }
}

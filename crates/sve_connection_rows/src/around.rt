//! The names around the instance of a row.
ghost use Rattle.std.specs.Prelude.{◌≡◌, option_map};
ghost use Rattle.sve_connection_rows.specs.Instances.{interface_of};

use std::alloc::Global;
use sve_around::Instances;
use sve_bytes::{Name, NoMemory};
use sve_given::{Entry, entries};
use sve_known::Known;
use sve_row::{name_of, words_of};
use sve_scope::{Declared, Scope, SharedType, Spot, What};
use sve_show::cut;
use sve_table::{Named, Table};

/// An instance of an interface.
#[derive(Drop)]
pub struct Instance {
    pub name: Name,
    pub interface: Name,
}

impl Named for Instance {
    ghost called = { λ i. i.name };

    fn name(&self) -> &Name {
        &self.name
    }
}

/// The instances of interfaces of a row.
#[derive(Drop)]
pub struct Faces {
    pub instances: Table<Instance>,
}

/// The interface of an instance.
fn interface_of(instance: Option<&Instance>) -> Option<&Name>
    ensures { option_map (λ n. n.now) result ≡ interface_of (option_map (λ i. i.now) instance.entry) }
{
    match instance {
        Some(instance) => Some(&instance.interface),
        None => None,
    }
}

impl Instances for Faces {
    ghost use Rattle.std.specs.Prelude.{false};
    ghost use Rattle.sve_connection_rows.specs.Instances.{interface_named};

    ghost interfaces = { λ s d. interface_named s.instances d.name };

    ghost modports = { λ s d modport. false };

    fn interface(&self, declared: &Declared) -> Option<&Name> {
        interface_of(self.instances.get(&declared.name))
    }

    fn has_modport(&self, _declared: &Declared, _modport: &Name) -> bool {
        false
    }
}

/// The names of a row.
pub struct Names {
    pub scope: Scope,
    pub faces: Faces,
    pub packages: Table<Known>,
}

impl Drop for Names {
    fn drop(self) {
        let Names {
            scope: _,
            faces: _,
            packages: _,
        } = self;
    }
}

/// Declares a name in front of all tokens.
fn declare(scope: &mut Scope, name: Name, what: What) -> Result<(), NoMemory> {
    let at = Spot {
        file: scope.file.copy()?,
        chunk: 0,
        token: 0,
    };
    let from = 0;
    let _entered = scope.declare(Declared {
        name,
        what,
        at,
        from,
    })?;
    Ok(())
}

/// Declares a variable of a type.
fn declare_variable(alloc: Global, scope: &mut Scope, entry: &Entry) -> Result<(), NoMemory> {
    let ty = SharedType::of(alloc, entry.ty.copy(alloc)?)?;
    let name = entry.name.copy()?;
    declare(scope, name, What::Variable(ty))
}

/// Declares the variables of a word, each with its type.
fn declare_typed(alloc: Global, scope: &mut Scope, word: &str) -> Result<(), NoMemory> {
    let variables = entries(alloc, word)?;
    for entry in &variables {
        declare_variable(alloc, scope, entry)?;
    }
    Ok(())
}

/// Declares an instance of an interface.
fn declare_instance(names: &mut Names, name: Name, interface: Name) -> Result<(), NoMemory> {
    let instance = Instance {
        name: name.copy()?,
        interface,
    };
    let _is_new = names.faces.instances.add(instance)?;
    declare(&mut names.scope, name, What::Instance)
}

/// Declares an instance, or something else.
fn declare_other(alloc: Global, names: &mut Names, word: &str) -> Result<(), NoMemory> {
    let (text, interface) = cut(word, '@');
    let Some(name) = name_of(alloc, text.trim_end_matches('!').as_bytes())? else {
        return Ok(());
    };
    match name_of(alloc, interface.as_bytes())? {
        Some(interface) => declare_instance(names, name, interface),
        None => declare(&mut names.scope, name, What::Genvar),
    }
}

/// Declares the names of a row.
fn declare_all(alloc: Global, names: &mut Names, text: &str) -> Result<(), NoMemory> {
    let words = words_of(alloc, text)?;
    for word in &words {
        if word.contains(':') {
            declare_typed(alloc, &mut names.scope, word)?;
        } else {
            declare_other(alloc, names, word)?;
        }
    }
    Ok(())
}

/// The names of a row, in a scope of a file.
pub fn names_of(alloc: Global, file: &Name, text: &str) -> Result<Names, NoMemory> {
    let mut names = Names {
        scope: Scope::new(alloc, file.copy()?, 0),
        faces: Faces {
            instances: Table::new(alloc),
        },
        packages: Table::new(alloc),
    };
    declare_all(alloc, &mut names, text)?;
    Ok(names)
}

//! What stands at the paths of a design.
ghost use Rattle.std.specs.Prelude.{◌≡◌, ◌<◌, ◌++◌, Some, length, map, option_and_then, option_copied, option_map, slice_get, IfOk, OnOk};
ghost use Rattle.std.specs.Arc.{arc_value};
ghost use Rattle.sve_scope.specs.Scopes.{declaration_in};
ghost use Rattle.sve_hier.specs.Instances.{instance_value};
ghost use Rattle.sve_hier.specs.Places.{block_place, instance_place, places, places_of};

use crate::bodies::Instance;
use std::alloc::Global;
use std::marker::Model;
use std::sync::Arc;
use sve_bytes::{Name, NoMemory, Path};
use sve_design::inside;
use sve_facts::Facts;
use sve_scope::Declared;

/// What stands at a path: an instance or a generate block, with its scope. It shares what was found of the body.
pub(crate) struct Place {
    /// The name of the module, where it is an instance.
    module: Option<Name>,
    /// What is found of the body.
    facts: Arc<Facts>,
    /// The number of its scope in the body, from 0.
    number: usize,
}

impl Drop for Place {
    fn drop(self) {
        let Place {
            module: _,
            facts: _,
            number: _,
        } = self;
    }
}

impl Model for Place {
    ghost use Rattle.std.specs.Prelude.{option_map, slice_get};
    ghost use Rattle.std.specs.Arc.{arc_value};
    ghost use Rattle.sve_facts.specs.declared.facts.BodyScope.{BodyScope};
    ghost use Rattle.sve_hier.specs.Places.{PlaceValue, place_code};

    ghost Value = { PlaceValue };

    ghost coded = { place_code };

    ghost view = { λ p. record { module_name = p.module; scope = option_map (λ (s : BodyScope). s.scope) (slice_get (arc_value p.facts).scopes p.number) } };
}

impl Place {
    /// An instance.
    fn of(instance: &Instance) -> Result<Place, NoMemory>
        ensures { IfOk result (λ p. p ≡ instance_place (instance_value instance.now)) }
    {
        Ok(Place {
            module: Some(instance.module.copy()?),
            facts: Arc::try_clone(&instance.facts)?,
            number: 0,
        })
    }

    /// The name of the module, where it is an instance. It takes no memory.
    pub(crate) fn module(&self) -> Option<&Name>
        ensures { option_copied result ≡ self.now.module_name }
    {
        self.module.as_ref()
    }

    /// What is declared by a name in its scope. It takes no memory.
    pub(crate) fn declaration(&self, name: &Name) -> Option<&Declared>
        ensures { option_map (λ d. d.now) result ≡ option_and_then (λ s. declaration_in s name.now) self.now.scope }
    {
        match self.facts.scopes.items().get(self.number) {
            Some(part) => part.scope.declaration(name),
            None => None,
        }
    }
}

/// The generate block of this number in the body of an instance.
fn block(alloc: Global, instance: &Instance, number: usize) -> Result<(Path, Place), NoMemory>
    requires { number < length (arc_value instance.now.facts).scopes }
    ensures { IfOk result (λ b. option_map (block_place instance.now.path) (slice_get (arc_value instance.now.facts).scopes number) ≡ Some b) }
{
    let part = &instance.facts.scopes.items()[number];
    Ok((
        inside(alloc, &instance.path, &part.path)?,
        Place {
            module: None,
            facts: Arc::try_clone(&instance.facts)?,
            number,
        },
    ))
}

/// Adds an instance and its generate blocks.
fn add(alloc: Global, instance: &Instance, places: &mut Vec<(Path, Place)>) -> Result<(), NoMemory>
    ensures { OnOk result (places.new.items ≡ places.old.items ++ places_of (instance_value instance.now)) }
{
    places.push((instance.path.copy(alloc)?, Place::of(instance)?))?;
    let count = instance.facts.scopes.items().len();
    'parts: for number in 1..count {
        places.push(block(alloc, instance, number)?)?;
    }
    Ok(())
}

/// The places of all instances.
pub(crate) fn places(alloc: Global, instances: &[Instance]) -> Result<Vec<(Path, Place)>, NoMemory>
    ensures { IfOk result (λ ps. ps.items ≡ places (map instance_value instances.now)) }
{
    let mut places = Vec::new(alloc);
    'instances: for instance in instances {
        add(alloc, instance, &mut places)?;
    }
    Ok(places)
}

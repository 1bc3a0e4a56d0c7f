//! The specializations of tops.
ghost use Rattle.std.specs.Prelude.{◌≡◌, IfOk, Some, map, option_map};
ghost use Rattle.std.specs.Arc.{arc_value};
ghost use Rattle.sve_project.specs.Tops.{defaults_of, top_spec, values_at, values_by, values_in};

use crate::project::Project;
use std::alloc::Global;
use std::sync::Arc;
use sve_bytes::{List, Name, NoMemory};
use sve_formal::{Formal, formals};
use sve_index::Def;
use sve_spec::{Given, Spec};
use sve_tree::{Definition, Element};

/// The default of each of these parameters that can be overridden.
fn defaults_of(alloc: Global, formals: &[Formal]) -> Result<Vec<Given>, NoMemory>
    ensures { IfOk result (λ given. given.items ≡ defaults_of formals.now) }
{
    let mut given = Vec::new(alloc);
    'formals: for formal in formals {
        if !formal.is_local {
            given.push(Given::Default)?;
        }
    }
    Ok(given)
}

/// The defaults of the parameters of a module or an interface.
fn values_by(alloc: Global, definition: &Definition) -> Result<Vec<Given>, NoMemory>
    ensures { IfOk result (λ given. given.items ≡ values_by (Some definition.now)) }
{
    let formals = formals(alloc, definition)?;
    defaults_of(alloc, formals.as_slice())
}

/// The defaults of the parameters of an element.
fn values_in(alloc: Global, tree: Option<&Arc<Element>>) -> Result<Vec<Given>, NoMemory>
    ensures { IfOk result (λ given. given.items ≡ values_in (option_map (λ tree. arc_value tree.now) tree.entry)) }
{
    let Some(tree) = tree else {
        return Ok(Vec::new(alloc));
    };
    match tree.definition() {
        Some(definition) => values_by(alloc, definition),
        None => Ok(Vec::new(alloc)),
    }
}

/// The defaults of the parameters of a module, by where it stands.
fn values_at(alloc: Global, project: &Project, def: Option<&Def>) -> Result<Vec<Given>, NoMemory>
    ensures { IfOk result (λ given. given.items ≡ values_at project.now (option_map (λ def. def.now) def.entry)) }
{
    match def {
        Some(def) => values_in(alloc, project.tree(&def.file, def.chunk)),
        None => Ok(Vec::new(alloc)),
    }
}

/// The specialization of a top.
#[tactic(auto, unfolding(crate::specs::Tops::top_spec))]
fn top_spec(alloc: Global, project: &Project, name: &Name) -> Result<Spec, NoMemory>
    ensures { IfOk result (λ spec. spec ≡ top_spec project.now name.now) }
{
    let values = values_at(alloc, project, project.index().definitions.get(name))?;
    Ok(Spec {
        definition: name.copy()?,
        values: List::of(values),
        faces: List::of(Vec::new(alloc)),
    })
}

/// The specializations of the tops, in the order of the index.
pub(crate) fn top_specs(alloc: Global, project: &Project) -> Result<Vec<Spec>, NoMemory>
    ensures { IfOk result (λ specs. specs.items ≡ map (top_spec project.now) project.now.index.tops) }
{
    let mut specs = Vec::new(alloc);
    let names = project.index().tops.items();
    'tops: for name in names {
        specs.push(top_spec(alloc, project, name)?)?;
    }
    Ok(specs)
}

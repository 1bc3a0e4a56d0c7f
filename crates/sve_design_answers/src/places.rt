//! Where what a design names stands in its files.
ghost use Rattle.std.specs.Prelude.{◌≡◌, IfOk, option_and_then, option_map};
ghost use Rattle.sve_scope.specs.Spots.{spot};
ghost use Rattle.sve_find.specs.Ends.{found_value};
ghost use Rattle.sve_design_answers.specs.Places.{instance_place, module_name, name_of, place_of};

use std::alloc::Global;
use sve_bytes::{Name, NoMemory};
use sve_diag::Place;
use sve_find::Found;
use sve_index::Def;
use sve_named::Project;
use sve_scope::Spot;

/// The place of a token of a chunk.
pub(crate) fn place_of(project: &Project, spot: &Spot) -> Result<Option<Place>, NoMemory>
    ensures { IfOk result (λ place. place ≡ place_of project.now spot.now) }
{
    project.token_place(&spot.file, spot.chunk, spot.token)
}

/// The token of the name that the element of a chunk gives its definition.
fn name_token(project: &Project, def: &Def) -> Option<u32>
    ensures { option_map (spot def.now.file def.now.chunk) result ≡ name_of project.now def.now }
{
    match project.tree(&def.file, def.chunk) {
        Some(own) => own.name(),
        None => None,
    }
}

/// The name of a module or an interface, where that is defined.
fn module_name(project: &Project, definition: &Name) -> Result<Option<Spot>, NoMemory>
    ensures { IfOk result (λ at. at ≡ module_name project.now definition.now) }
{
    let Some(def) = project.index().definitions.get(definition) else {
        return Ok(None);
    };
    match name_token(project, def) {
        Some(token) => Ok(Some(Spot {
            file: def.file.copy()?,
            chunk: def.chunk,
            token,
        })),
        None => Ok(None),
    }
}

/// The place of the name of a module or an interface, where that is defined.
pub(crate) fn module_place(project: &Project, definition: &Name) -> Result<Option<Place>, NoMemory>
    ensures { IfOk result (λ place. place ≡ option_and_then (place_of project.now) (module_name project.now definition.now)) }
{
    match module_name(project, definition)? {
        Some(at) => place_of(project, &at),
        None => Ok(None),
    }
}

/// The place of the name of an instance, or of a top that of its module.
pub(crate) fn instance_place(project: &Project, found: &Found) -> Result<Option<Place>, NoMemory>
    ensures { IfOk result (λ place. place ≡ instance_place project.now (found_value found.now)) }
{
    match &found.at {
        Some(at) => place_of(project, at),
        None => module_place(project, &found.visit.spec.definition),
    }
}

//! The lines about an instance, and about what is declared.
ghost use Rattle.std.specs.Prelude.{◌≡◌, ◌<◌, ◌+◌, ◌^◌, [], IfOk, IfSome, length, option_map, unwrap_or};
ghost use Rattle.std.specs.Arc.{arc_value};
ghost use Rattle.sve_text.specs.Rows.{IsInLimit};
ghost use Rattle.sve_find.specs.Ends.{found_value};
ghost use Rattle.sve_design_answers.specs.Answers.{declared_at, lines_at, lines_of_instance, lines_of_param, lines_of_type, type_at};

use crate::places::{instance_place, place_of};
use std::alloc::Global;
use std::sync::Arc;
use sve_bytes::{List, Name, NoMemory};
use sve_diag::Place;
use sve_facts_lines::{instance_lines, param_lines, type_lines};
use sve_find::Found;
use sve_listing::none_lines;
use sve_named::{Project, named_at};
use sve_report::Lines;
use sve_scope::Declared;
use sve_text::Files;

/// The bytes of the text of a file, which has none where the file is not there.
pub(crate) fn bytes_of(text: &Option<Arc<List<u8>>>) -> &[u8]
    requires { IfSome text.now (λ shared. IsInLimit (arc_value shared)) }
    ensures bytes { result.now ≡ unwrap_or (option_map arc_value text.now) [] }
    ensures small { length result.now + 1 < 2 ^ 32 }
{
    match text {
        Some(text) => text.items(),
        None => &[],
    }
}

/// The lines of an instance whose name stands at this place.
fn lines_at(
    alloc: Global,
    files: &Files,
    found: &Found,
    place: &Option<Place>,
) -> Result<Lines, NoMemory>
    ensures { IfOk result (λ lines. lines ≡ lines_at files.now.rows (found_value found.now) place.now) }
{
    let Some(place) = place else {
        return none_lines(alloc);
    };
    let text = files.shared_text(alloc, &place.file)?;
    let definition = &found.visit.spec.definition;
    instance_lines(alloc, definition, place, bytes_of(&text), &found.facts)
}

/// The lines of the instance at which a way ends; a generate block is none.
pub(crate) fn lines_of_instance(
    alloc: Global,
    files: &Files,
    project: &Project,
    found: &Found,
) -> Result<Lines, NoMemory>
    ensures { IfOk result (λ lines. lines ≡ lines_of_instance files.now.rows project.now (found_value found.now)) }
{
    match found.rest.items() {
        [] => {
            let place = instance_place(project, found)?;
            lines_at(alloc, files, found, &place)
        }
        _ => none_lines(alloc),
    }
}

/// What a plain name stands for at the end of a way.
fn declared_at(
    alloc: Global,
    project: &Project,
    name: Option<&Name>,
    found: &Found,
) -> Result<Option<Declared>, NoMemory>
    ensures { IfOk result (λ d. d ≡ declared_at project.now (option_map (λ n. n.now) name.entry) (found_value found.now)) }
{
    match name {
        Some(name) => named_at(alloc, project, found, name),
        None => Ok(None),
    }
}

/// The lines of what a name is declared as, where it stands at this place.
fn type_at(
    alloc: Global,
    files: &Files,
    declared: &Declared,
    place: &Option<Place>,
) -> Result<Lines, NoMemory>
    ensures { IfOk result (λ lines. lines ≡ type_at files.now.rows declared.now place.now) }
{
    let Some(place) = place else {
        return none_lines(alloc);
    };
    let text = files.shared_text(alloc, &place.file)?;
    type_lines(alloc, &declared.what, place, bytes_of(&text))
}

/// The lines of what a plain name is declared as at the end of a way.
pub(crate) fn lines_of_type(
    alloc: Global,
    files: &Files,
    project: &Project,
    name: Option<&Name>,
    found: &Found,
) -> Result<Lines, NoMemory>
    ensures { IfOk result (λ lines. lines ≡ lines_of_type files.now.rows project.now (declared_at project.now (option_map (λ n. n.now) name.entry) (found_value found.now))) }
{
    match declared_at(alloc, project, name, found)? {
        Some(declared) => {
            let place = place_of(project, &declared.at)?;
            type_at(alloc, files, &declared, &place)
        }
        None => none_lines(alloc),
    }
}

/// The lines of the parameter that a plain name is at the end of a way.
pub(crate) fn lines_of_param(
    alloc: Global,
    project: &Project,
    name: Option<&Name>,
    found: &Found,
) -> Result<Lines, NoMemory>
    ensures { IfOk result (λ lines. lines ≡ lines_of_param (declared_at project.now (option_map (λ n. n.now) name.entry) (found_value found.now))) }
{
    match declared_at(alloc, project, name, found)? {
        Some(declared) => param_lines(alloc, &declared.what),
        None => none_lines(alloc),
    }
}

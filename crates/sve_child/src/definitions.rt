//! The definition of which something is an instance.
ghost use Rattle.std.specs.Prelude.{◌≡◌, IfOk, Some, option_map};
ghost use Rattle.sve_look.specs.Questions.{element_in};
ghost use Rattle.sve_child.specs.Definitions.{place_in, place_named, place_of_def, specialized_in};

use std::alloc::Global;
use std::sync::Arc;
use sve_body::Place;
use sve_bytes::{Name, NoMemory};
use sve_contents::Contents;
use sve_index::{Def, Index};
use sve_known::name_at;
use sve_override::{Specialized, with_specialization};
use sve_param::Override;
use sve_scoped::Text;
use sve_tree::{Element, Instance, Word};

/// Where a definition stands.
fn place_of_def(def: &Def) -> Result<Place, NoMemory>
    ensures { IfOk result (λ p. p ≡ place_of_def def.now) }
{
    Ok(Place {
        file: def.file.copy()?,
        chunk: def.chunk,
    })
}

/// Where the definition of a name stands.
fn place_in(index: &Index, name: &Name) -> Result<Option<Place>, NoMemory>
    ensures { IfOk result (λ p. p ≡ place_in index.now (Some name.now)) }
{
    match index.definitions.get(name) {
        Some(def) => Ok(Some(place_of_def(def)?)),
        None => Ok(None),
    }
}

/// Where the definition of the module or the interface stands whose name is at a token, where it is there (IEEE 1800-2017, 3.13 and
/// 23.3).
///
/// # Errors
/// For want of memory alone.
pub fn place_named(index: &Index, words: &[Word], token: u32) -> Result<Option<Place>, NoMemory>
    ensures { IfOk result (λ p. p ≡ place_named index.now words.now token) }
{
    match name_at(words, token) {
        Some(name) => place_in(index, name),
        None => Ok(None),
    }
}

/// The tree of a definition, where it has one.
fn element_of(element: &Option<Arc<Element>>) -> Option<&Element>
    ensures { option_map (λ e. e.now) result ≡ element_in element.now }
{
    match element {
        Some(element) => Some(element),
        None => None,
    }
}

/// The specialization of an instance of the definition whose name is at a token and whose tree is this, as [`with_specialization`] finds
/// it (IEEE 1800-2017, 23.10).
///
/// # Errors
/// For want of memory alone.
pub fn specialized_in(
    alloc: Global,
    text: Text<'_>,
    contents: Contents,
    overrides: &[Override],
    definition: u32,
    element: &Option<Arc<Element>>,
    instance: &Instance,
) -> Result<Specialized, NoMemory>
    ensures { IfOk result (λ s. s ≡ specialized_in text.entry.words.now contents overrides.now definition element.now instance.now) }
{
    let element = element_of(element);
    with_specialization(
        alloc, text.words, contents, overrides, definition, element, instance,
    )
}

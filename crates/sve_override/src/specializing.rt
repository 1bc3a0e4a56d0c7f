//! The specialization of an instance.
ghost use Rattle.std.specs.Prelude.{◌≡◌, IfOk, option_map};
ghost use Rattle.sve_param.specs.Giving.{given_by};
ghost use Rattle.sve_override.specs.Specializations.{is_again, spec_named, specialized_by, with_specialization};

use std::alloc::Global;
use sve_bytes::{List, Name, NoMemory};
use sve_contents::Contents;
use sve_known::name_at;
use sve_param::{Gives, Override, give};
use sve_spec::{Given, Spec};
use sve_tree::{Element, Instance, Word};

/// What the specialization of an instance leaves.
#[derive(Drop)]
pub struct Specialized {
    /// The scope, and what is to be said of it.
    pub contents: Contents,
    /// The specialization, where the instance has one.
    pub spec: Option<Spec>,
}

/// A name that is shared once more.
fn copy_of(name: &Option<Name>) -> Result<Option<Name>, NoMemory>
    ensures { IfOk result (λ n. n ≡ name.now) }
{
    match name {
        Some(name) => Ok(Some(name.copy()?)),
        None => Ok(None),
    }
}

/// Overrides once more, for another instance.
fn copies_of(alloc: Global, overrides: &[Override]) -> Result<Vec<Override>, NoMemory>
    ensures { IfOk result (λ copies. copies.items ≡ overrides.now) }
{
    let mut copies = Vec::new(alloc);
    'overrides: for next in overrides {
        copies.push(Override {
            name: copy_of(&next.name)?,
            given: next.given.copy(alloc)?,
            token: next.token,
        })?;
    }
    Ok(copies)
}

/// Whether the scope has declared the name at a token.
fn is_again(words: &[Word], contents: &Contents, token: u32) -> bool
    ensures { result ≡ is_again words.now contents.now token }
{
    match name_at(words, token) {
        Some(name) => contents.scope.declared.get(name).is_some(),
        None => false,
    }
}

/// The specialization of a definition by its name, of which each parameter is given this.
fn spec_named(
    alloc: Global,
    name: Option<&Name>,
    given: List<Given>,
) -> Result<Option<Spec>, NoMemory>
    ensures { IfOk result (λ s. s ≡ spec_named (option_map (λ n. n.now) name.entry) given) }
{
    match name {
        Some(name) => Ok(Some(Spec {
            definition: name.copy()?,
            values: given,
            faces: List::of(Vec::new(alloc)),
        })),
        None => Ok(None),
    }
}

/// The specialization of an instance of a definition by what its parameters are given, and what is said of that.
fn specialized_by(
    alloc: Global,
    words: &[Word],
    contents: Contents,
    definition: u32,
    gives: Gives,
) -> Result<Specialized, NoMemory>
    ensures { IfOk result (λ s. s ≡ specialized_by words.now contents definition gives) }
{
    let Gives { given, notes } = gives;
    let contents = contents.with_notes(notes)?;
    let spec = spec_named(alloc, name_at(words, definition), given)?;
    Ok(Specialized { contents, spec })
}

/// What the overrides of an instance in this scope give the parameters of a definition.
fn given_in(
    alloc: Global,
    contents: &Contents,
    overrides: &[Override],
    element: &Element,
    at: u32,
) -> Result<Gives, NoMemory>
    ensures { IfOk result (λ g. g ≡ given_by element.now overrides.now contents.now.scope.file contents.now.scope.chunk at) }
{
    let overrides = copies_of(alloc, overrides)?;
    let scope = &contents.scope;
    give(alloc, element, overrides, &scope.file, scope.chunk, at)
}

/// The specialization of an instance of the definition whose name is at a token and whose text is this, by the overrides of its
/// instantiation (IEEE 1800-2017, 23.10): what is wrong with them (E01 to E04), and which parameter without a value is given none
/// (E05), is said. An instance whose name its scope has declared has none, nor has one of a definition without a text.
///
/// # Errors
/// For want of memory alone.
pub fn with_specialization(
    alloc: Global,
    words: &[Word],
    contents: Contents,
    overrides: &[Override],
    definition: u32,
    element: Option<&Element>,
    instance: &Instance,
) -> Result<Specialized, NoMemory>
    ensures { IfOk result (λ s. s ≡ with_specialization words.now contents overrides.now definition (option_map (λ e. e.now) element.entry) instance.now) }
{
    let Some(element) = element else {
        return Ok(Specialized {
            contents,
            spec: None,
        });
    };
    if is_again(words, &contents, instance.name) {
        return Ok(Specialized {
            contents,
            spec: None,
        });
    }
    let gives = given_in(alloc, &contents, overrides, element, instance.name)?;
    specialized_by(alloc, words, contents, definition, gives)
}

//! The declaration that a name means at the end of the way along a path, and where it is found.
ghost use Rattle.std.specs.Prelude.{◌≡◌, ◌≤◌, [], IfOk, length, option_map};
ghost use Rattle.sve_scope.specs.Lookup.{meaning_of};
ghost use Rattle.sve_find.specs.Ends.{found_value};
ghost use Rattle.sve_named.specs.Scopes.{meaning_in};
ghost use Rattle.sve_named.specs.Named.{declared_in, located_at, member_of, named_at, or_outward, scope_around_body, sought_by, sought_from, sought_within};

use crate::around::scope_around_body;
use crate::located::{Located, Sought, Where};
use crate::scopes::{meaning_in, scope_at};
use std::alloc::Global;
use sve_bytes::{Name, NoMemory, Step};
use sve_facts::BodyScope;
use sve_find::Found;
use sve_project::Project;
use sve_scope::{Declared, Enclosing, Found as Meaning, Scope};

/// What a package declares by a name, where the design has the package.
fn member_of<'a>(project: &'a Project, from: &Name, name: &Name) -> Option<&'a Declared>
    ensures { option_map (λ d. d.now) result ≡ member_of project.now from.now name.now }
{
    match project.package(from) {
        Some(known) => known.member(name),
        None => None,
    }
}

/// A declaration that is found in this scope.
fn found_in(alloc: Global, place: Where, declared: &Declared) -> Result<Sought, NoMemory>
    ensures { IfOk result (λ s. s ≡ Sought.At (record { place = place; declared = declared.now })) }
{
    Ok(Sought::At(Located {
        place,
        declared: declared.copy(alloc)?,
    }))
}

/// What is found by what a name means in this scope.
fn sought_by(
    alloc: Global,
    project: &Project,
    place: Where,
    meaning: Meaning<'_>,
) -> Result<Sought, NoMemory>
    ensures { IfOk result (λ s. s ≡ sought_by project.now place (meaning_of meaning.entry)) }
{
    match meaning {
        Meaning::Local(declared) => found_in(alloc, place, declared),
        Meaning::Imported(from, name, _) => match member_of(project, from, name) {
            Some(declared) => found_in(alloc, Where::Package(from.copy()?), declared),
            None => Ok(Sought::Unclear),
        },
        Meaning::Two(_, _) => Ok(Sought::Unclear),
        Meaning::None => Ok(Sought::Nothing),
    }
}

/// What is found of a name in the scope at so many of these steps from the body, by itself.
fn sought_within(
    alloc: Global,
    project: &Project,
    scopes: &[BodyScope],
    steps: &[Step],
    around: &Enclosing<Scope>,
    name: &Name,
    count: usize,
) -> Result<Sought, NoMemory>
    requires alone { around.now ≡ [] }
    requires within { count ≤ length steps.now }
    ensures { IfOk result (λ s. s ≡ sought_within project.now scopes.now steps.now name.now count) }
{
    let meaning = meaning_in(scope_at(scopes, &steps[..count]), around, name);
    sought_by(alloc, project, Where::Within(count), meaning)
}

/// What is found, or where that is nothing, what is found further outward.
fn or_outward(sought: Sought, outer: Sought) -> Sought
    ensures { result ≡ or_outward sought outer }
{
    match sought {
        Sought::Nothing => outer,
        Sought::At(located) => Sought::At(located),
        Sought::Unclear => Sought::Unclear,
    }
}

/// What is found of a name in the scope at a path of steps from the body, and outward from there to the body's own scope.
fn sought_from(
    alloc: Global,
    project: &Project,
    scopes: &[BodyScope],
    steps: &[Step],
    around: &Enclosing<Scope>,
    name: &Name,
) -> Result<Sought, NoMemory>
    requires { around.now ≡ [] }
    ensures { IfOk result (λ s. s ≡ sought_from project.now scopes.now steps.now name.now (length steps.now)) }
{
    let mut sought = sought_within(alloc, project, scopes, steps, around, name, 0)?;
    'levels: for level in 0..steps.len() {
        let here = sought_within(alloc, project, scopes, steps, around, name, level + 1)?;
        sought = or_outward(here, sought);
    }
    Ok(sought)
}

/// What is found of a name in the scope of the compilation unit around the body of this definition.
fn sought_around(
    alloc: Global,
    project: &Project,
    definition: &Name,
    around: &Enclosing<Scope>,
    name: &Name,
) -> Result<Sought, NoMemory>
    requires { around.now ≡ [] }
    ensures { IfOk result (λ s. s ≡ sought_by project.now Where.CompilationUnit (meaning_in name.now (scope_around_body project.now definition.now))) }
{
    let scope = scope_around_body(alloc, project, definition)?;
    let meaning = meaning_in(scope.as_ref(), around, name);
    sought_by(alloc, project, Where::CompilationUnit, meaning)
}

/// What is found of a plain name in the scope at the end of the way along a path: in that of the generate block or the body itself, then in
/// those around it, and last in the scope of the compilation unit, which is gone over only where nothing of the name is found before (IEEE
/// 1800-2017, 3.12.1, 6.5, 23.9 and 26.3). All of the text of these scopes is seen, up to the end of the chunk. An imported name is what its
/// package declares by it.
///
/// # Errors
/// For want of memory alone.
pub fn located_at(
    alloc: Global,
    project: &Project,
    found: &Found,
    name: &Name,
) -> Result<Sought, NoMemory>
    ensures { IfOk result (λ s. s ≡ located_at project.now (found_value found.now) name.now) }
{
    let around = Enclosing::new(alloc);
    let steps = found.rest.items();
    let scopes = found.facts.scopes.items();
    match sought_from(alloc, project, scopes, steps, &around, name)? {
        Sought::Nothing => {
            sought_around(alloc, project, &found.visit.spec.definition, &around, name)
        }
        Sought::At(located) => Ok(Sought::At(located)),
        Sought::Unclear => Ok(Sought::Unclear),
    }
}

/// The declaration that is found.
fn declared_in(sought: Sought) -> Option<Declared>
    ensures { result ≡ declared_in sought }
{
    match sought {
        Sought::At(located) => Some(located.into_declared()),
        Sought::Unclear => None,
        Sought::Nothing => None,
    }
}

/// The declaration that a plain name means in the scope at the end of the way along a path, where it means one: the one that `located_at` finds.
///
/// # Errors
/// For want of memory alone.
pub fn named_at(
    alloc: Global,
    project: &Project,
    found: &Found,
    name: &Name,
) -> Result<Option<Declared>, NoMemory>
    ensures { IfOk result (λ d. d ≡ named_at project.now (found_value found.now) name.now) }
{
    Ok(declared_in(located_at(alloc, project, found, name)?))
}

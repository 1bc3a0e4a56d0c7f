ghost use Rattle.std.specs.Prelude.{◌≡◌, ◌∷◌, option_map};
ghost use Rattle.sve_scope.specs.Spots.{spot};
ghost use Rattle.sve_scope.specs.Lookup.{Begin, candidates, from_candidates, in_scope, in_scopes, looked_up, meaning_of, seen_declaration, seen_import};

use crate::{Declared, Enclosing, Explicit, Scope};
use sve_bytes::Name;
use sve_table::Named;

/// What a plain name stands for.
#[derive(Clone, Copy)]
pub enum Found<'a> {
    /// A declaration.
    Local(&'a Declared),
    /// A name of a package, through an import: the package, the name, and which kind of import it is.
    Imported(&'a Name, &'a Name, Through),
    /// The name is in two packages, all of whose names are imported.
    Two(&'a Name, &'a Name),
    /// It stands for nothing.
    None,
}

/// The kind of import through which a name is found (IEEE 1800-2017, 26.3).
#[derive(Clone, Copy, PartialEq, Eq)]
pub enum Through {
    /// An import of this name.
    Name,
    /// An import of all names of the package, in the scope at this place, counted from 0 at the innermost. Such an import has taken
    /// effect for the name, which that scope should note.
    Package(usize),
}

/// What a name stands for that is used at a token of the text of a scope (IEEE 1800-2017, 6.5, 23.9 and 26.3). The scope and those
/// around it are searched in order, from the innermost to that of the compilation unit, which a package does not see (own). In each
/// scope a declaration that the use sees is taken first, then an import of the name before the use, then the imports of all names of
/// packages before the use. It takes no memory.
pub fn lookup<'a>(
    here: &'a Scope,
    around: &'a Enclosing<Scope>,
    name: &Name,
    token: u32,
) -> Found<'a>
    ensures { meaning_of result ≡ looked_up (here.now ∷ around.now) name.now token }
{
    let found = in_scope(here, 0, here, token, name);
    if !matches!(found, Found::None) {
        return found;
    }
    outside(here, around, name, token)
}

/// What the name stands for in the scopes around.
#[tactic(auto, using(crate::proofs::Chains::ends_there))]
fn outside<'a>(here: &Scope, around: &'a Enclosing<Scope>, name: &Name, token: u32) -> Found<'a>
    ensures { meaning_of result ≡ in_scopes (spot here.now.file here.now.chunk token) name.now 1 around.now }
{
    'scopes: for place in 0..around.len() {
        let found = in_scope(around.at(place), place + 1, here, token, name);
        if !matches!(found, Found::None) {
            return found;
        }
    }
    Found::None
}

/// What the name stands for in the scope at this place.
fn in_scope<'a>(scope: &'a Scope, place: usize, here: &Scope, token: u32, name: &Name) -> Found<'a>
    ensures { meaning_of result ≡ in_scope (spot here.now.file here.now.chunk token) name.now place scope.now }
{
    if let Some(declared) = seen_declaration(scope, here, token, name) {
        return Found::Local(declared);
    }
    if let Some(import) = seen_import(scope, here, token, name) {
        return Found::Imported(&import.from, &import.name, Through::Name);
    }
    among_candidates(scope, place, here, token, name)
}

/// The declaration of the name, where the use sees it; of a name that is seen in its whole scope it may stand further on.
fn seen_declaration<'a>(
    scope: &'a Scope,
    here: &Scope,
    token: u32,
    name: &Name,
) -> Option<&'a Declared>
    ensures { option_map (λ d. d.now) result ≡ seen_declaration (spot here.now.file here.now.chunk token) name.now scope.now }
{
    let declared = scope.declaration(name)?;
    if declared.is_seen(&here.file, here.chunk, token) {
        Some(declared)
    } else {
        None
    }
}

/// The import of the name, where it stands before the use.
fn seen_import<'a>(scope: &'a Scope, here: &Scope, token: u32, name: &Name) -> Option<&'a Explicit>
    ensures { option_map (λ i. i.now) result ≡ seen_import (spot here.now.file here.now.chunk token) name.now scope.now }
{
    let import = scope.explicit.get(name)?;
    if import.at.is_before(&here.file, here.chunk, token) {
        Some(import)
    } else {
        None
    }
}

/// An import of all names of a package that has the name.
#[derive(Clone, Copy)]
struct Candidate<'a> {
    /// The place behind it among these imports of its scope.
    behind: usize,
    /// The package.
    from: &'a Name,
    /// The name, as the package has it.
    name: &'a Name,
}

/// The first candidate from a place on.
#[tactic(auto, using(crate::proofs::Candidates::passes_by, crate::proofs::Candidates::begins, crate::proofs::Candidates::none_left, crate::proofs::Candidates::candidate_is))]
fn first_candidate<'a>(
    scope: &'a Scope,
    from: usize,
    here: &Scope,
    token: u32,
    name: &Name,
) -> Option<Candidate<'a>>
    ensures { Begin (spot here.now.file here.now.chunk token) name.now scope.now.wild from (option_map (λ c. (c.behind, c.from.now, c.name.now)) result) }
{
    'places: for place in from..scope.wild.len() {
        let import = scope.wild.at(place);
        if let Some(stored) = import.candidate(&here.file, here.chunk, token, name) {
            return Some(Candidate {
                behind: place + 1,
                from: import.name(),
                name: stored,
            });
        }
    }
    None
}

/// The one package whose names are all imported before the use and that has the name, or the first two.
fn among_candidates<'a>(
    scope: &'a Scope,
    place: usize,
    here: &Scope,
    token: u32,
    name: &Name,
) -> Found<'a>
    ensures { meaning_of result ≡ from_candidates name.now place (candidates (spot here.now.file here.now.chunk token) name.now scope.now.wild) }
{
    let Some(first) = first_candidate(scope, 0, here, token, name) else {
        return Found::None;
    };
    match first_candidate(scope, first.behind, here, token, name) {
        None => Found::Imported(first.from, first.name, Through::Package(place)),
        Some(second) => Found::Two(first.from, second.from),
    }
}

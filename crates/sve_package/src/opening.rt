//! The functions that a text declares further on.
ghost use Rattle.std.specs.Prelude.{◌≡◌, IfOk};
ghost use Rattle.std.specs.List.{fold};
ghost use Rattle.sve_package.specs.Opening.{announced_if, function_at, is_ahead, is_declared, opened_with, with_heading, with_named};
ghost use Rattle.sve_scope.specs.Scopes.{itself};
ghost use Rattle.sve_table.specs.Tables.{with_item};

use sve_bytes::{Name, NoMemory};
use sve_contents::Contents;
use sve_heading::Heading;
use sve_known::name_at;
use sve_scope::{Declared, Scope, What};
use sve_table::Table;
use sve_tree::Word;

/// A scope in front of its text, and the names that this text declares as far as it was looked through.
#[derive(Drop)]
pub(crate) struct Opening {
    pub(crate) contents: Contents,
    pub(crate) names: Table<Name>,
}

/// A function that stands further on, at the token of its name.
fn function_at(contents: Contents, token: u32, name: &Name) -> Result<Contents, NoMemory>
    ensures { IfOk result (λ c. c ≡ function_at contents token name.now) }
{
    let at = contents.spot(token)?;
    let name = name.copy()?;
    contents.announced(Declared {
        name,
        what: What::Function(None),
        at,
        from: token,
    })
}

/// Whether a name is declared in the scope, or by the text that was looked through.
fn is_declared(scope: &Scope, names: &Table<Name>, name: &Name) -> bool
    ensures { result ≡ is_declared scope.now names.now name.now }
{
    scope.declared.get(name).is_some() || names.get(name).is_some()
}

/// The scope, in which a function is seen ahead if it is to be.
fn announced_if(
    contents: Contents,
    is_ahead: bool,
    token: u32,
    name: &Name,
) -> Result<Contents, NoMemory>
    ensures { IfOk result (λ c. c ≡ announced_if contents is_ahead token name.now) }
{
    if is_ahead {
        function_at(contents, token, name)
    } else {
        Ok(contents)
    }
}

/// Whether a declaration is a function and the first of its name.
fn is_ahead(opening: &Opening, heading: Heading, name: &Name) -> bool
    ensures { result ≡ is_ahead opening.now heading name.now }
{
    heading.is_function && !is_declared(&opening.contents.scope, &opening.names, name)
}

/// The names of a text, and one more.
fn with_name(names: Table<Name>, name: &Name) -> Result<Table<Name>, NoMemory>
    ensures { IfOk result (λ ns. ns ≡ with_item itself names name.now) }
{
    let mut names = names;
    names.add(name.copy()?)?;
    Ok(names)
}

/// A declaration of a name more.
fn with_named(opening: Opening, heading: Heading, name: &Name) -> Result<Opening, NoMemory>
    ensures { IfOk result (λ o. o ≡ with_named opening heading name.now) }
{
    let is_ahead = is_ahead(&opening, heading, name);
    let Opening { contents, names } = opening;
    let contents = announced_if(contents, is_ahead, heading.token, name)?;
    let names = with_name(names, name)?;
    Ok(Opening { contents, names })
}

/// A declaration more, by the token of its name.
fn with_heading(words: &[Word], opening: Opening, heading: Heading) -> Result<Opening, NoMemory>
    ensures { IfOk result (λ o. o ≡ with_heading words.now opening heading) }
{
    match name_at(words, heading.token) {
        Some(name) => with_named(opening, heading, name),
        None => Ok(opening),
    }
}

/// Declarations more, one after another.
fn with_headings(
    words: &[Word],
    opening: Opening,
    headings: &[Heading],
) -> Result<Opening, NoMemory>
    ensures { IfOk result (λ o. o ≡ fold (with_heading words.now) opening headings.now) }
{
    let mut opening = opening;
    'headings: for heading in headings {
        opening = with_heading(words, opening, *heading)?;
    }
    Ok(opening)
}

/// The scope, in which the functions of a text are seen before the text comes to them (IEEE 1800-2017, 13.4 and 23.9): those that are
/// the first declaration of their name in the scope, since a second declaration declares nothing (N02).
pub(crate) fn opened(
    words: &[Word],
    contents: Contents,
    headings: &[Heading],
    names: Table<Name>,
) -> Result<Contents, NoMemory>
    ensures { IfOk result (λ c. c ≡ opened_with words.now contents headings.now names) }
{
    let Opening { contents, names: _ } = with_headings(
        words,
        Opening { contents, names },
        headings,
    )?;
    Ok(contents)
}

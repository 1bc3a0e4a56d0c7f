//! What a name means: how it is spelled, and the lines about it.
ghost use Rattle.std.specs.Prelude.{◌≡◌, ◌<◌, ◌+◌, ◌^◌, IfOk, length};
ghost use Rattle.sve_facts_lines.specs.Resolved.{meant_text, package_text, resolve_lines, unit_text, within_text};

use crate::declared::kind_word;
use crate::line::{append_name, at_text};
use std::alloc::Global;
use sve_bytes::{List, Name, NoMemory, Path, Step};
use sve_diag::Place;
use sve_listing::with_text;
use sve_report::Lines;
use sve_scope::What;

/// How a name is spelled that is declared in the scope at a path: the path, a dot and the name (IEEE 1800-2017, 23.6).
///
/// # Errors
/// For want of memory alone.
pub fn within_text(alloc: Global, scope: &Path, name: &Name) -> Result<Vec<u8>, NoMemory>
    ensures { IfOk result (λ text. text.items ≡ within_text scope.now name.now) }
{
    let mut steps = scope.copy(alloc)?.steps.into_vec();
    steps.push(Step {
        name: name.copy()?,
        index: None,
    })?;
    let path = Path {
        steps: List::of(steps),
    };
    path.print(alloc)
}

/// How a name of a package is spelled: `<package>::<name>` (26.3).
///
/// # Errors
/// For want of memory alone.
pub fn package_text(alloc: Global, from: &Name, name: &Name) -> Result<Vec<u8>, NoMemory>
    ensures { IfOk result (λ text. text.items ≡ package_text from.now name.now) }
{
    let mut text = Vec::new(alloc);
    append_name(alloc, &mut text, from)?;
    text.extend_from_slice(b"::")?;
    append_name(alloc, &mut text, name)?;
    Ok(text)
}

/// How a name of the scope of a compilation unit is spelled: `$unit::<name>` (3.12.1).
///
/// # Errors
/// For want of memory alone.
pub fn unit_text(alloc: Global, name: &Name) -> Result<Vec<u8>, NoMemory>
    ensures { IfOk result (λ text. text.items ≡ unit_text name.now) }
{
    let mut text = Vec::from_slice(alloc, b"$unit::")?;
    append_name(alloc, &mut text, name)?;
    Ok(text)
}

/// `<kind> <spelled>`
fn meant_text(alloc: Global, what: &What, spelled: &[u8]) -> Result<Vec<u8>, NoMemory>
    ensures { IfOk result (λ text. text.items ≡ meant_text what.now spelled.now) }
{
    let mut text = Vec::from_slice(alloc, kind_word(what))?;
    text.push(b' ')?;
    text.extend_from_slice(spelled)?;
    Ok(text)
}

/// The lines of what a name means: its kind with how it is spelled, and where it is declared.
///
/// # Errors
/// For want of memory alone.
pub fn resolve_lines(
    alloc: Global,
    what: &What,
    spelled: &[u8],
    at: &Place,
    text: &[u8],
) -> Result<Lines, NoMemory>
    requires small { length text.now + 1 < 2 ^ 32 }
    ensures { IfOk result (λ lines. lines ≡ resolve_lines what.now spelled.now at.now text.now) }
{
    let lines = with_text(Lines::none(alloc), meant_text(alloc, what, spelled)?)?;
    with_text(lines, at_text(alloc, at, text)?)
}

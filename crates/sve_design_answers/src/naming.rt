//! What the text of a name spells.
ghost use Rattle.std.specs.Prelude.{◌≡◌, IfOk, option_map};
ghost use Rattle.sve_design_answers.specs.Paths.{IsPathOf, is_rooted, plain_unless, without_root};

use crate::finding::{path_of, plain_name};
use std::alloc::Global;
use sve_bytes::{Name, NoMemory, Path};

/// A hierarchical name.
#[derive(Drop)]
pub(crate) struct Called {
    /// Whether `$root` stands in front of it.
    pub(crate) rooted: bool,
    /// Its steps, where its text spells a path.
    pub(crate) path: Option<Path>,
}

/// Whether `$root` stands in front of a name.
fn is_rooted(text: &[u8]) -> bool
    ensures { result ≡ is_rooted text.now }
{
    match text.strip_prefix(b"$root.") {
        Some(_) => true,
        None => false,
    }
}

/// The text behind `$root.`, or the whole.
fn without_root(text: &[u8]) -> &[u8]
    ensures { result.now ≡ without_root text.now }
{
    match text.strip_prefix(b"$root.") {
        Some(rest) => rest,
        None => text,
    }
}

/// The name that a text spells.
pub(crate) fn name_called(alloc: Global, text: &[u8]) -> Result<Called, NoMemory>
    ensures rooted { IfOk result (λ c. c.rooted ≡ is_rooted text.now) }
    ensures path { IfOk result (λ c. IsPathOf (without_root text.now) c.path) }
{
    Ok(Called {
        rooted: is_rooted(text),
        path: path_of(alloc, without_root(text))?,
    })
}

/// The plain name that it is, where it is one.
pub(crate) fn plain(called: &Called) -> Option<&Name>
    ensures { option_map (λ n. n.now) result ≡ plain_unless called.now.rooted called.now.path }
{
    if called.rooted {
        None
    } else {
        plain_name(&called.path)
    }
}

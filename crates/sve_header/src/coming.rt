//! How the names of a header come into its scope.
ghost use Rattle.std.specs.Prelude.{◌≡◌, IfOk, option_map};
ghost use Rattle.sve_header.specs.Coming.{come_in, names_of_type, separator};

use std::alloc::Global;
use sve_bytes::NoMemory;
use sve_enumerated::{Passed, with_names};
use sve_scope::What;
use sve_scoped::declared_at;
use sve_tree::{DeclaredType, Word};
use sve_types::Ty;

/// The token behind the item at a place of a list: the comma, or what closes the list.
pub(crate) fn separator(separators: &[u32], closing: u32, place: usize) -> u32
    ensures { result ≡ separator separators.now closing place }
{
    match separators.get(place) {
        Some(token) => *token,
        None => closing,
    }
}

/// The names that a written type declares: those of its enumerations, whose types are found in this one.
#[tactic(auto, unfolding(crate::specs::Coming::names_of_type))]
pub(crate) fn names_of_type(
    alloc: Global,
    words: &[Word],
    ty: Option<&Ty>,
    passed: Passed,
    written: &DeclaredType,
) -> Result<Passed, NoMemory>
    ensures { IfOk result (λ p. p ≡ names_of_type words.now (option_map (λ t. t.now) ty.entry) passed written.now) }
{
    let DeclaredType::Explicit { data_type } = written else {
        return Ok(passed);
    };
    match ty {
        Some(ty) => with_names(alloc, words, data_type, ty, passed),
        None => Ok(passed),
    }
}

/// A name of the header at a token, behind all that is used in front of the token behind it, from which on it is seen.
pub(crate) fn come_in(
    words: &[Word],
    passed: Passed,
    token: u32,
    what: What,
    from: u32,
) -> Result<Passed, NoMemory>
    ensures { IfOk result (λ p. p ≡ come_in words.now passed token what from) }
{
    let Passed { contents, at } = passed.to(words, token)?.to(words, from)?;
    let contents = declared_at(words, contents, token, what, from)?;
    Ok(Passed { contents, at })
}

//! The names that a written type declares.
ghost use Rattle.std.specs.Prelude.{◌≡◌, IfOk};
ghost use Rattle.sve_enumerated.specs.Types.{first_or, named_after, named_in, named_in_ref, named_in_structure, named_in_vec, past_members};

use crate::enumeration::with_enumeration;
use crate::passed::Passed;
use std::alloc::Global;
use sve_bytes::NoMemory;
use sve_tree::{DataType, Members, Structure, TypeRef, Word};
use sve_types::Ty;

/// The first of tokens, or another where there is none.
fn first_or(end: u32, tokens: &[u32]) -> u32
    ensures { result ≡ first_or end tokens.now }
{
    match tokens.first() {
        Some(token) => *token,
        None => end,
    }
}

/// The scope behind the names of members, which are no uses.
fn past_members(
    words: &[Word],
    passed: Passed,
    names: &[u32],
    semicolon: u32,
) -> Result<Passed, NoMemory>
    ensures { IfOk result (λ p. p ≡ past_members words.now passed names.now semicolon) }
{
    let Passed { contents, at: _ } = passed.to(words, first_or(semicolon, names))?;
    Ok(Passed {
        contents,
        at: semicolon,
    })
}

/// The scope behind a written type, which stands for a type or for a part of one: its enumerations, also those of members of structures,
/// declare their names in the order of the text, with the values that they have in the type (IEEE 1800-2017, 6.19 and 7.2.1). The uses
/// up to the last of these names, or of the names of members, have had their effect.
///
/// # Errors
/// For want of memory alone.
#[cycle(types)]
#[tactic(auto, unfolding(crate::specs::Types::named_in))]
pub fn with_names(
    alloc: Global,
    words: &[Word],
    written: &TypeRef,
    ty: &Ty,
    passed: Passed,
) -> Result<Passed, NoMemory>
    ensures { IfOk result (λ p. p ≡ named_in_ref words.now ty.now passed written.now) }
{
    match written {
        TypeRef::Written { data_type } => with_keyword_names(alloc, words, data_type, ty, passed),
        TypeRef::Named { .. } => Ok(passed),
    }
}

/// The scope behind a written type that begins with a keyword, as `with_names` has it.
///
/// # Errors
/// For want of memory alone.
#[cycle(types)]
#[tactic(auto, unfolding(crate::specs::Types::named_in))]
pub fn with_keyword_names(
    alloc: Global,
    words: &[Word],
    written: &DataType,
    ty: &Ty,
    passed: Passed,
) -> Result<Passed, NoMemory>
    ensures { IfOk result (λ p. p ≡ named_in words.now ty.now passed written.now) }
{
    match written {
        DataType::Atom { .. } => Ok(passed),
        DataType::Vector { .. } => Ok(passed),
        DataType::Text { .. } => Ok(passed),
        DataType::Enum { enumeration } => with_enumeration(alloc, words, ty, passed, enumeration),
        DataType::Struct { structure } => in_structure(alloc, words, structure, ty, passed),
    }
}

/// The scope behind a structure.
#[cycle(types)]
#[tactic(auto, using(crate::proofs::Loops::structure_is))]
fn in_structure(
    alloc: Global,
    words: &[Word],
    written: &Structure,
    ty: &Ty,
    passed: Passed,
) -> Result<Passed, NoMemory>
    ensures { IfOk result (λ p. p ≡ named_in_structure words.now ty.now passed written.now) }
{
    in_members(alloc, words, &written.members, ty, passed)
}

/// The scope behind members of one type.
#[cycle(types)]
#[tactic(auto, unfolding(crate::specs::Types::named_after))]
fn after_members(
    alloc: Global,
    words: &[Word],
    written: &Members,
    ty: &Ty,
    passed: Passed,
) -> Result<Passed, NoMemory>
    ensures { IfOk result (λ p. p ≡ named_after words.now ty.now passed written.now) }
{
    let passed = with_names(alloc, words, &written.data_type, ty, passed)?;
    past_members(words, passed, written.names.as_slice(), written.semicolon)
}

/// The scope behind members, one after another.
#[cycle(types)]
#[tactic(auto, using(crate::proofs::Loops::members_of_vec, crate::proofs::Loops::members_step, crate::proofs::Loops::members_end))]
fn in_members(
    alloc: Global,
    words: &[Word],
    written: &Vec<Members>,
    ty: &Ty,
    passed: Passed,
) -> Result<Passed, NoMemory>
    ensures { IfOk result (λ p. p ≡ named_in_vec words.now ty.now passed written.now) }
{
    let mut passed = passed;
    'members: for next in written {
        passed = after_members(alloc, words, next, ty, passed)?;
    }
    Ok(passed)
}

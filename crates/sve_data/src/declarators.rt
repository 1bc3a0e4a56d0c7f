//! Names of data, one by one.
ghost use Rattle.std.specs.Prelude.{◌≡◌, IfOk};
ghost use Rattle.sve_used.specs.Used.{name_used};
ghost use Rattle.sve_enumerated.specs.Names.{separator};
ghost use Rattle.sve_scoped.specs.Known.{told_in};
ghost use Rattle.sve_data.specs.Declarators.{declarator_after, declared_over, initialized_after, initialized_behind, value_at, valued};

use crate::kind::{DataKind, what_of};
use crate::known::is_text;
use std::alloc::Global;
use sve_bytes::NoMemory;
use sve_enumerated::Passed;
use sve_scope::SharedType;
use sve_scoped::{Text, declared_at, out_if, unpacked_in};
use sve_tree::{Declarator, InitializedDeclarator, Initializer, Row, Word};
use sve_type_of::Typed;
use sve_types::Ty;
use sve_used::names_used;

/// A name of data of a type, which is seen from a token on.
#[tactic(auto, unfolding(crate::specs::Declarators::declared_over))]
fn declared_over(
    alloc: Global,
    words: &[Word],
    kind: DataKind,
    passed: Passed,
    token: u32,
    from: u32,
    typed: Typed,
) -> Result<Passed, NoMemory>
    ensures { IfOk result (λ p. p ≡ declared_over words.now kind passed token from typed.ty typed.notes) }
{
    let Passed { contents, at } = passed;
    let Typed { ty, notes } = typed;
    let contents = out_if(words, contents, token, is_text(&ty))?;
    let contents = contents.with_notes(notes)?;
    let what = what_of(kind, SharedType::of(alloc, ty)?);
    let contents = declared_at(words, contents, token, what, from)?;
    Ok(Passed { contents, at })
}

/// A name of data with its dimensions, before those of its type, which is seen from a token on (IEEE 1800-2017, 6.5 and 7.4.2). All that
/// is used up to that token comes before it. A string is out (E06, own).
///
/// # Errors
/// For want of memory alone.
#[tactic(auto, unfolding(crate::specs::Declarators::declarator_after))]
pub fn declarator_after(
    alloc: Global,
    text: Text<'_>,
    kind: DataKind,
    ty: &Ty,
    passed: Passed,
    declarator: &Declarator,
    from: u32,
) -> Result<Passed, NoMemory>
    ensures { IfOk result (λ p. p ≡ declarator_after (told_in text.entry.packages.now text.entry.words.now) text.entry.words.now kind ty.now passed declarator.now from) }
{
    let dimensions = declarator.dimensions.as_slice();
    let typed = unpacked_in(alloc, text, &passed.contents, ty, dimensions)?;
    let token = declarator.name;
    let passed = passed.to(text.words, token)?.to(text.words, from)?;
    declared_over(alloc, text.words, kind, passed, token, from, typed)
}

/// The token at which the first value of a name begins, or else the one behind its item.
fn value_at(value: &Option<Initializer>, end: u32) -> u32
    ensures { result ≡ value_at value.now end }
{
    match value {
        Some(value) => value.equals,
        None => end,
    }
}

/// The scope behind the names in a first value, where one is written.
fn valued(
    alloc: Global,
    text: Text<'_>,
    passed: Passed,
    value: &Option<Initializer>,
    end: u32,
) -> Result<Passed, NoMemory>
    ensures { IfOk result (λ p. p ≡ valued (name_used text.entry.packages.now text.entry.words.now) passed value.now end) }
{
    match value {
        Some(value) => {
            let Passed { contents, at: _ } = passed;
            let contents = names_used(alloc, text, contents, &value.value)?;
            Ok(Passed { contents, at: end })
        }
        None => Ok(passed),
    }
}

/// A name with its first value, whose item ends in front of a token.
#[tactic(auto, unfolding(crate::specs::Declarators::initialized_after))]
fn initialized_after(
    alloc: Global,
    text: Text<'_>,
    kind: DataKind,
    ty: &Ty,
    passed: Passed,
    written: &InitializedDeclarator,
    end: u32,
) -> Result<Passed, NoMemory>
    ensures { IfOk result (λ p. p ≡ initialized_after (told_in text.entry.packages.now text.entry.words.now) (name_used text.entry.packages.now text.entry.words.now) text.entry.words.now kind ty.now passed written.now end) }
{
    let from = value_at(&written.value, end);
    let passed = declarator_after(alloc, text, kind, ty, passed, &written.declarator, from)?;
    valued(alloc, text, passed, &written.value, end)
}

/// The token behind the item at a place of a list, from 0: the separator, or the end of the list.
pub fn separator(separators: &Vec<u32>, end: u32, place: usize) -> u32
    ensures { result ≡ separator separators.now.items end place }
{
    match separators.get(place) {
        Some(token) => *token,
        None => end,
    }
}

/// Names with their first values, one after another.
#[tactic(auto, using(crate::proofs::Rows::initialized_step, crate::proofs::Rows::initialized_end))]
pub(crate) fn initialized_behind(
    alloc: Global,
    text: Text<'_>,
    kind: DataKind,
    ty: &Ty,
    row: &Row<InitializedDeclarator>,
    end: u32,
    passed: Passed,
) -> Result<Passed, NoMemory>
    ensures { IfOk result (λ p. p ≡ initialized_behind (told_in text.entry.packages.now text.entry.words.now) (name_used text.entry.packages.now text.entry.words.now) text.entry.words.now kind ty.now row.now.separators.items end 0 passed row.now.items.items) }
{
    let mut passed = passed;
    'declarators: for (place, written) in row.items.iter().enumerate() {
        let behind = separator(&row.separators, end, place);
        passed = initialized_after(alloc, text, kind, ty, passed, written, behind)?;
    }
    Ok(passed)
}

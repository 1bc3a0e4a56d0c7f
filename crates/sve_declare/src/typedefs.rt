//! Types that are named in a scope.
ghost use Rattle.std.specs.Prelude.{◌≡◌, IfOk};
ghost use Rattle.sve_scoped.specs.Known.{told_in};
ghost use Rattle.sve_declare.specs.Typedefs.{type_name, with_named_type, with_type, with_typedef};

use std::alloc::Global;
use sve_bytes::NoMemory;
use sve_contents::Contents;
use sve_enumerated::{Passed, with_names};
use sve_scope::{SharedType, What};
use sve_scoped::{Text, declared_at, type_in, unpacked_in};
use sve_tree::{Typedef, Word};
use sve_type_of::Typed;
use sve_types::Ty;

/// A name of a type, which is seen from a token on.
fn type_name(
    alloc: Global,
    words: &[Word],
    contents: Contents,
    token: u32,
    ty: Ty,
    from: u32,
) -> Result<Contents, NoMemory>
    ensures { IfOk result (λ c. c ≡ type_name words.now contents token ty from) }
{
    let what = What::TypeName(SharedType::of(alloc, ty)?);
    declared_at(words, contents, token, what, from)
}

/// The name of a type, whose dimensions behind it are found where the names of its enumerations are declared.
fn with_named_type(
    alloc: Global,
    text: Text<'_>,
    passed: Passed,
    ty: &Ty,
    written: &Typedef,
) -> Result<Contents, NoMemory>
    ensures { IfOk result (λ c. c ≡ with_named_type (told_in text.entry.packages.now text.entry.words.now) text.entry.words.now passed ty.now written.now) }
{
    let token = written.declarator.name;
    let dimensions = written.declarator.dimensions.as_slice();
    let Typed { ty, notes } = unpacked_in(alloc, text, &passed.contents, ty, dimensions)?;
    let passed = passed
        .to(text.words, token)?
        .to(text.words, written.semicolon)?;
    let Passed { contents, at: _ } = passed;
    let contents = contents.with_notes(notes)?;
    type_name(alloc, text.words, contents, token, ty, written.semicolon)
}

/// What a declaration of a type leaves in a scope (IEEE 1800-2017, 6.18): the names of its enumerations, then its own, and what there is to
/// say of the type and of the dimensions behind its name.
///
/// # Errors
/// For want of memory alone.
pub fn with_typedef(
    alloc: Global,
    text: Text<'_>,
    contents: Contents,
    written: &Typedef,
) -> Result<Contents, NoMemory>
    ensures { IfOk result (λ c. c ≡ with_typedef (told_in text.entry.packages.now text.entry.words.now) text.entry.words.now contents written.now) }
{
    let Typed { ty, notes } = type_in(alloc, text, &contents, &written.data_type)?;
    let contents = contents.with_notes(notes)?;
    let at = written.keyword;
    let passed = Passed { contents, at };
    let passed = with_names(alloc, text.words, &written.data_type, &ty, passed)?;
    with_named_type(alloc, text, passed, &ty, written)
}

//! Formal arguments of functions.
ghost use Rattle.std.specs.Prelude.{◌≡◌, IfOk};
ghost use Rattle.sve_type_of.specs.TypeOf.{IsTyped};
ghost use Rattle.sve_data.specs.Known.{told_in};
ghost use Rattle.sve_formal_data.specs.Formals.{formal_after, formal_typed, formals_behind, is_left_out, with_formals};

use std::alloc::Global;
use sve_bytes::{List, NoMemory};
use sve_contents::Contents;
use sve_data::{DataKind, Text, declarator_after, declared_in, declared_names, scalar, separator};
use sve_enumerated::Passed;
use sve_tree::{DeclaredType, Formal, Formals};
use sve_type_of::Typed;
use sve_types::Ty;

/// A scope behind a formal argument.
#[derive(Drop)]
pub(crate) struct Typing {
    /// The scope.
    pub(crate) passed: Passed,
    /// The type of that argument, without the dimensions behind its name.
    pub(crate) ty: Ty,
}

/// Whether nothing is written of a type.
fn is_left_out(written: &DeclaredType) -> bool
    ensures { result ≡ is_left_out written.now }
{
    match written {
        DeclaredType::Explicit { .. } => false,
        DeclaredType::Implicit { sign, dimensions } => sign.is_none() && dimensions.is_empty(),
    }
}

/// The type of an argument, behind one of this type.
fn formal_typed(
    alloc: Global,
    text: Text<'_>,
    contents: &Contents,
    before: Ty,
    formal: &Formal,
) -> Result<Typed, NoMemory>
    ensures { IfOk result (λ t. IsTyped t (told_in text.entry.packages.now text.entry.words.now contents.now) (formal_typed (told_in text.entry.packages.now text.entry.words.now contents.now) before formal.now)) }
{
    if formal.direction.is_none() && is_left_out(&formal.parameter.data_type) {
        return Ok(Typed {
            ty: before,
            notes: List::of(Vec::new(alloc)),
        });
    }
    declared_in(alloc, text, contents, &formal.parameter.data_type)
}

/// An argument, which ends in front of a token.
#[tactic(auto, unfolding(crate::specs::Formals::formal_after))]
fn formal_after(
    alloc: Global,
    text: Text<'_>,
    typing: Typing,
    formal: &Formal,
    end: u32,
) -> Result<Typing, NoMemory>
    ensures { IfOk result (λ t. t ≡ formal_after (told_in text.entry.packages.now text.entry.words.now) text.entry.words.now typing formal.now end) }
{
    let Typing { passed, ty } = typing;
    let Typed { ty, notes } = formal_typed(alloc, text, &passed.contents, ty, formal)?;
    let Passed { contents, at } = passed;
    let contents = contents.with_notes(notes)?;
    let passed = Passed { contents, at };
    let parameter = &formal.parameter;
    let passed = declared_names(alloc, text.words, &ty, passed, &parameter.data_type)?;
    let kind = DataKind::Variable;
    let passed = declarator_after(alloc, text, kind, &ty, passed, &parameter.declarator, end)?;
    Ok(Typing { passed, ty })
}

/// Arguments, one after another.
#[tactic(auto, using(crate::proofs::Rows::formals_step, crate::proofs::Rows::formals_end))]
fn formals_behind(
    alloc: Global,
    text: Text<'_>,
    typing: Typing,
    written: &Formals,
) -> Result<Typing, NoMemory>
    ensures { IfOk result (λ t. t ≡ formals_behind (told_in text.entry.packages.now text.entry.words.now) text.entry.words.now written.now.formals.separators.items written.now.closing 0 typing written.now.formals.items.items) }
{
    let mut typing = typing;
    'formals: for (place, formal) in written.formals.items.iter().enumerate() {
        let end = separator(&written.formals.separators, written.closing, place);
        typing = formal_after(alloc, text, typing, formal, end)?;
    }
    Ok(typing)
}

/// What the formal arguments of a function leave in its scope, where a list of them is written (IEEE 1800-2017, 13.5): the names of their
/// enumerations, and each argument as a variable of its type. One of which neither direction nor type is written has the type of the
/// one before, the first one bit of four states (13.3). A string is out (E06, own).
///
/// # Errors
/// For want of memory alone.
pub fn with_formals(
    alloc: Global,
    text: Text<'_>,
    contents: Contents,
    written: &Option<Formals>,
) -> Result<Contents, NoMemory>
    ensures { IfOk result (λ c. c ≡ with_formals (told_in text.entry.packages.now text.entry.words.now) text.entry.words.now contents written.now) }
{
    let Some(written) = written else {
        return Ok(contents);
    };
    let at = written.opening;
    let typing = Typing {
        passed: Passed { contents, at },
        ty: scalar(alloc),
    };
    let Typing { passed, ty: _ } = formals_behind(alloc, text, typing, written)?;
    let Passed { contents, at: _ } = passed;
    Ok(contents)
}

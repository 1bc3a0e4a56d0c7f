//! Types and values where a scope's own text stands. Their nodes are not bounded here: what packages and compilation units declare counts
//! nothing.
ghost use Rattle.std.specs.Prelude.{◌≡◌, ◌∷◌, [], IfOk};
ghost use Rattle.sve_assigned.specs.TypeOf.{IsTyped, declared, notes_in, referred, unpacked_over};
ghost use Rattle.sve_type_rule.specs.Outcomes.{scalar};
ghost use Rattle.sve_assigned.specs.Assignments.{default_value, told_of};
ghost use Rattle.sve_assigned.specs.Forms.{IsFormed, formed};
ghost use Rattle.sve_here.specs.Told.{known_here};
ghost use Rattle.sve_scoped.specs.Known.{told_in};

use crate::unbounded::{ended, endless};
use std::alloc::Global;
use sve_assigned::{
    Assigned, Form, Formed, Typed, assigned, declared_type, form_of, type_of, with_unpacked,
};
use sve_bytes::{List, NoMemory};
use sve_contents::Contents;
use sve_diag::Note;
use sve_here::Here;
use sve_known::Known;
use sve_table::Table;
use sve_tree::{DeclaredType, Dimension, Expr, TypeRef, Word};
use sve_types::{Base, Ty, Vec_};

/// What the text of a scope stands among. The text itself, as far as it was read, is in the scope's contents, whose file and chunk are
/// those of the text that is read, and so are the scopes around it.
#[derive(Clone, Copy)]
pub struct Text<'a> {
    /// The packages that are known.
    pub packages: &'a Table<Known>,
    /// The words of the chunk.
    pub words: &'a [Word],
}

/// What is known in the text of a scope, as far as it was read, by that scope and those around it. It takes no memory.
pub fn around<'a>(alloc: Global, text: Text<'a>, contents: &'a Contents) -> Here<'a>
    ensures { known_here result.file.now result.chunk result.words.now (result.scope.now ∷ result.around.now) result.packages.now ≡ told_in text.entry.packages.now text.entry.words.now contents.now }
{
    Here {
        alloc,
        file: &contents.scope.file,
        chunk: contents.scope.chunk,
        words: text.words,
        scope: &contents.scope,
        around: &contents.around,
        packages: text.packages,
    }
}

/// The type of a type by its keyword or by its name (IEEE 1800-2017, A.2.2.1), where the text of a scope was read so far, and what there
/// is to say of it.
///
/// # Errors
/// For want of memory alone.
pub fn type_in(
    alloc: Global,
    text: Text<'_>,
    contents: &Contents,
    written: &TypeRef,
) -> Result<Typed, NoMemory>
    ensures { IfOk result (λ t. IsTyped t (told_in text.entry.packages.now text.entry.words.now contents.now) (referred (told_in text.entry.packages.now text.entry.words.now contents.now) written.now [])) }
{
    let env = around(alloc, text, contents);
    ended(type_of(alloc, written, &env, &mut endless()))
}

/// The type of a declared name, written or left out (6.10), where the text of a scope was read so far.
///
/// # Errors
/// For want of memory alone.
pub fn declared_in(
    alloc: Global,
    text: Text<'_>,
    contents: &Contents,
    written: &DeclaredType,
) -> Result<Typed, NoMemory>
    ensures { IfOk result (λ t. IsTyped t (told_in text.entry.packages.now text.entry.words.now contents.now) (declared (told_in text.entry.packages.now text.entry.words.now contents.now) written.now)) }
{
    let env = around(alloc, text, contents);
    ended(declared_type(alloc, written, &env, &mut endless()))
}

/// A type with unpacked dimensions before its own (7.4.2), which stand where the text of a scope was read so far.
///
/// # Errors
/// For want of memory alone.
pub fn unpacked_in(
    alloc: Global,
    text: Text<'_>,
    contents: &Contents,
    ty: &Ty,
    dimensions: &[Dimension],
) -> Result<Typed, NoMemory>
    ensures { IfOk result (λ t. IsTyped t (told_in text.entry.packages.now text.entry.words.now contents.now) (unpacked_over (told_in text.entry.packages.now text.entry.words.now contents.now) ty.now dimensions.now)) }
{
    let env = around(alloc, text, contents);
    ended(with_unpacked(alloc, ty, dimensions, &env, &mut endless()))
}

/// What there is to say of unpacked dimensions behind a name that has none, as a parameter (own).
///
/// # Errors
/// For want of memory alone.
pub fn dimension_notes(
    alloc: Global,
    text: Text<'_>,
    contents: &Contents,
    dimensions: &[Dimension],
) -> Result<List<Note>, NoMemory>
    ensures { IfOk result (λ l. l ≡ notes_in (told_in text.entry.packages.now text.entry.words.now contents.now) (unpacked_over (told_in text.entry.packages.now text.entry.words.now contents.now) scalar dimensions.now).faults) }
{
    let scalar = Ty {
        base: Base::Vector(Vec_::Logic, false),
        packed: List::of(Vec::new(alloc)),
        unpacked: List::of(Vec::new(alloc)),
    };
    let Typed { ty: _, notes } = unpacked_in(alloc, text, contents, &scalar, dimensions)?;
    Ok(notes)
}

/// What a declaration of parameters says of their type (6.20.2), where the text of a scope was read so far.
///
/// # Errors
/// For want of memory alone.
pub fn formed_in(
    alloc: Global,
    text: Text<'_>,
    contents: &Contents,
    written: &DeclaredType,
) -> Result<Formed, NoMemory>
    ensures { IfOk result (λ f. IsFormed f (told_in text.entry.packages.now text.entry.words.now contents.now) (formed (told_in text.entry.packages.now text.entry.words.now contents.now) written.now)) }
{
    let env = around(alloc, text, contents);
    ended(form_of(alloc, written, &env, &mut endless()))
}

/// The type and the value of a parameter by the expression that is assigned to it (6.20 and 10.7), or what there is to say of the first
/// fault of that, where the text of a scope was read so far.
///
/// # Errors
/// For want of memory alone.
pub fn assigned_in(
    alloc: Global,
    text: Text<'_>,
    contents: &Contents,
    form: &Form,
    expr: &Expr,
) -> Result<Result<Assigned, Option<Note>>, NoMemory>
    ensures { IfOk result (λ r. r ≡ told_of (told_in text.entry.packages.now text.entry.words.now contents.now) (default_value (told_in text.entry.packages.now text.entry.words.now contents.now) form.now expr.now)) }
{
    let env = around(alloc, text, contents);
    ended(assigned(alloc, form, expr, &env, &mut endless()))
}

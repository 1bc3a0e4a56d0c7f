//! Functions in a scope, and their bodies.
ghost use Rattle.std.specs.Prelude.{◌≡◌, IfOk};
ghost use Rattle.sve_scoped.specs.Assignments.{is_text};
ghost use Rattle.sve_scoped.specs.Known.{told_in};
ghost use Rattle.sve_local.specs.Used.{name_used};
ghost use Rattle.sve_function.specs.Functions.{body_over, function_name, names_of_result, own_variable, with_function};
ghost use Rattle.sve_function.specs.Headed.{with_head};
ghost use Rattle.sve_tree.specs.declared.statement.FunctionResult.TheVariants as is_result;

use std::alloc::Global;
use sve_bytes::NoMemory;
use sve_contents::Contents;
use sve_enumerated::{Passed, with_names};
use sve_formal_data::with_formals;
use sve_local::items_within;
use sve_scope::{SharedType, What};
use sve_scoped::{Text, declared_at, declared_in, out_if};
use sve_tree::{DeclaredType, Func, FunctionResult, TypedName, Word};
use sve_type_of::Typed;
use sve_types::{Base, Ty};

/// Whether a type is a string.
fn is_text(ty: &Ty) -> bool
    ensures { result ≡ is_text ty.now }
{
    matches!(ty.base, Base::Text)
}

/// The names that the type of a result declares.
#[tactic(auto, unfolding(crate::specs::Functions::names_of_result))]
fn names_of_result(
    alloc: Global,
    words: &[Word],
    ty: &Ty,
    passed: Passed,
    written: &DeclaredType,
) -> Result<Passed, NoMemory>
    ensures { IfOk result (λ p. p ≡ names_of_result words.now ty.now passed written.now) }
{
    match written {
        DeclaredType::Explicit { data_type } => with_names(alloc, words, data_type, ty, passed),
        DeclaredType::Implicit { .. } => Ok(passed),
    }
}

/// The name of a function whose result has a type; a string is out for it.
#[tactic(auto, unfolding(crate::specs::Functions::function_name))]
fn function_name(
    words: &[Word],
    passed: Passed,
    token: u32,
    ty: &SharedType,
) -> Result<Contents, NoMemory>
    ensures { IfOk result (λ c. c ≡ function_name words.now passed token ty.now) }
{
    let Passed { contents, at: _ } = passed.to(words, token)?;
    let contents = out_if(words, contents, token, is_text(ty.ty()))?;
    let what = What::Function(Some(ty.copy()?));
    declared_at(words, contents, token, what, token)
}

/// A scope behind the name of a function, and the type of its result, where there is one.
#[derive(Drop)]
pub(crate) struct Headed {
    pub(crate) contents: Contents,
    pub(crate) ty: Option<SharedType>,
}

/// What the name of a function with a result leaves.
fn with_result(
    alloc: Global,
    text: Text<'_>,
    contents: Contents,
    keyword: u32,
    result_type: &TypedName,
) -> Result<Headed, NoMemory>
    ensures { IfOk result (λ h. h ≡ with_head (told_in text.entry.packages.now text.entry.words.now) text.entry.words.now contents keyword (is_result.Typed result_type.now)) }
{
    let written = &result_type.data_type;
    let Typed { ty, notes } = declared_in(alloc, text, &contents, written)?;
    let contents = contents.with_notes(notes)?;
    let passed = Passed {
        contents,
        at: keyword,
    };
    let passed = names_of_result(alloc, text.words, &ty, passed, written)?;
    let ty = SharedType::of(alloc, ty)?;
    let contents = function_name(text.words, passed, result_type.declarator.name, &ty)?;
    Ok(Headed {
        contents,
        ty: Some(ty),
    })
}

/// What the name of a function leaves.
fn with_head(
    alloc: Global,
    text: Text<'_>,
    contents: Contents,
    keyword: u32,
    result_type: &FunctionResult,
) -> Result<Headed, NoMemory>
    ensures { IfOk result (λ h. h ≡ with_head (told_in text.entry.packages.now text.entry.words.now) text.entry.words.now contents keyword result_type.now) }
{
    match result_type {
        FunctionResult::Void { name, .. } => Ok(Headed {
            contents: declared_at(text.words, contents, *name, What::Function(None), *name)?,
            ty: None,
        }),
        FunctionResult::Typed { result: typed } => {
            with_result(alloc, text, contents, keyword, typed)
        }
    }
}

/// The variable of the name of a function, within it.
fn own_variable(
    words: &[Word],
    contents: Contents,
    token: u32,
    ty: Option<SharedType>,
) -> Result<Contents, NoMemory>
    ensures { IfOk result (λ c. c ≡ own_variable words.now contents token ty) }
{
    match ty {
        Some(ty) => declared_at(words, contents, token, What::Variable(ty), token),
        None => Ok(contents),
    }
}

/// What the scope of a function leaves behind its end.
fn body_over(
    alloc: Global,
    text: Text<'_>,
    contents: Contents,
    written: &Func,
    ty: Option<SharedType>,
) -> Result<Contents, NoMemory>
    ensures { IfOk result (λ c. c ≡ body_over (told_in text.entry.packages.now text.entry.words.now) (name_used text.entry.packages.now text.entry.words.now) text.entry.words.now contents written.now ty) }
{
    let contents = contents.entered(alloc)?;
    let contents = own_variable(text.words, contents, written.name(), ty)?;
    let contents = with_formals(alloc, text, contents, &written.formals)?;
    let contents = items_within(alloc, text, contents, &written.items)?;
    Ok(contents.left())
}

/// What a function leaves (IEEE 1800-2017, 13.4): its name, with the type of its result, and what there is to say of it. Its formal
/// arguments, a variable of its name, and what its body declares stand in a scope that ends with it.
pub(crate) fn with_function(
    alloc: Global,
    text: Text<'_>,
    contents: Contents,
    written: &Func,
) -> Result<Contents, NoMemory>
    ensures { IfOk result (λ c. c ≡ with_function (told_in text.entry.packages.now text.entry.words.now) (name_used text.entry.packages.now text.entry.words.now) text.entry.words.now contents written.now) }
{
    let Headed { contents, ty } = with_head(
        alloc,
        text,
        contents,
        written.keyword,
        &written.result_type,
    )?;
    body_over(alloc, text, contents, written, ty)
}

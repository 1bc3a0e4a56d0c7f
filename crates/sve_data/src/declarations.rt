//! Declarations of nets and of variables.
ghost use Rattle.std.specs.Prelude.{◌≡◌, IfOk};
ghost use Rattle.sve_used.specs.Used.{name_used};
ghost use Rattle.sve_scoped.specs.Known.{told_in};
ghost use Rattle.sve_data.specs.Declarations.{all_names, begun, behind_keyword, declared_names, name_begun, type_token, with_data, with_named_data, with_nets, with_variables};

use crate::declarators::initialized_behind;
use crate::kind::DataKind;
use crate::known::selected_in;
use std::alloc::Global;
use sve_bytes::NoMemory;
use sve_contents::Contents;
use sve_enumerated::{Passed, with_names};
use sve_scoped::{Text, declared_in, type_in};
use sve_tree::{
    DataDeclaration, DataType, DeclaredType, InitializedDeclarator, NamedDeclaration,
    NetDeclaration, Row, ScopedName, TypeRef, VariableDeclaration, Word,
};
use sve_type_of::Typed;
use sve_types::Ty;

/// The first token of a type by its keyword, in the chunk of its text.
pub fn type_token(data_type: &DataType) -> u32
    ensures { result ≡ type_token data_type.now }
{
    data_type.first_token()
}

/// The scope behind the name of a type with which a declaration begins (IEEE 1800-2017, 6.18): the name is used, unless it is one of a
/// package.
///
/// # Errors
/// For want of memory alone.
pub fn name_begun(words: &[Word], contents: Contents, name: ScopedName) -> Result<Passed, NoMemory>
    ensures { IfOk result (λ p. p ≡ name_begun words.now contents name) }
{
    let contents = match name.scope {
        Some(_) => contents,
        None => contents.with_use(words, name.name)?,
    };
    Ok(Passed {
        contents,
        at: name.name,
    })
}

/// The scope behind the first token of a type with which a declaration begins.
fn begun(words: &[Word], contents: Contents, written: &TypeRef) -> Result<Passed, NoMemory>
    ensures { IfOk result (λ p. p ≡ begun words.now contents written.now) }
{
    match written {
        TypeRef::Written { data_type } => Ok(Passed {
            contents,
            at: type_token(data_type),
        }),
        TypeRef::Named { named } => name_begun(words, contents, named.name),
    }
}

/// The scope behind the type of a declared name, with the names of its enumerations (IEEE 1800-2017, 6.19).
///
/// # Errors
/// For want of memory alone.
#[tactic(auto, unfolding(crate::specs::Declarations::declared_names))]
pub fn declared_names(
    alloc: Global,
    words: &[Word],
    ty: &Ty,
    passed: Passed,
    written: &DeclaredType,
) -> Result<Passed, NoMemory>
    ensures { IfOk result (λ p. p ≡ declared_names words.now ty.now passed written.now) }
{
    match written {
        DeclaredType::Explicit { data_type } => with_names(alloc, words, data_type, ty, passed),
        DeclaredType::Implicit { .. } => Ok(passed),
    }
}

/// All names of a declaration, whose type is this.
fn all_names(
    alloc: Global,
    text: Text<'_>,
    kind: DataKind,
    ty: &Ty,
    row: &Row<InitializedDeclarator>,
    semicolon: u32,
    passed: Passed,
) -> Result<Contents, NoMemory>
    ensures { IfOk result (λ c. c ≡ all_names (told_in text.entry.packages.now text.entry.words.now) (name_used text.entry.packages.now text.entry.words.now) text.entry.words.now kind ty.now row.now semicolon passed) }
{
    let Passed { contents, at: _ } = initialized_behind(
        alloc, text, kind, ty, row, semicolon, passed,
    )?;
    Ok(contents)
}

/// What a declaration of data by their type leaves (IEEE 1800-2017, 6.8): the names of its enumerations, and then each name, behind its
/// dimensions and in front of its first value. The type is found once, in front of all names. A string is out (E06, own); the names in
/// first values are resolved, and nothing else is checked in them (own).
///
/// # Errors
/// For want of memory alone.
pub fn with_data(
    alloc: Global,
    text: Text<'_>,
    contents: Contents,
    written: &DataDeclaration,
) -> Result<Contents, NoMemory>
    ensures { IfOk result (λ c. c ≡ with_data (told_in text.entry.packages.now text.entry.words.now) (name_used text.entry.packages.now text.entry.words.now) text.entry.words.now contents written.now) }
{
    let Typed { ty, notes } = type_in(alloc, text, &contents, &written.data_type)?;
    let contents = contents.with_notes(notes)?;
    let passed = begun(text.words, contents, &written.data_type)?;
    let passed = with_names(alloc, text.words, &written.data_type, &ty, passed)?;
    all_names(
        alloc,
        text,
        DataKind::Variable,
        &ty,
        &written.declarators,
        written.semicolon,
        passed,
    )
}

/// What a declaration leaves that begins with a keyword, behind which its type may be left out.
fn behind_keyword(
    alloc: Global,
    text: Text<'_>,
    kind: DataKind,
    passed: Passed,
    data_type: &DeclaredType,
    declarators: &Row<InitializedDeclarator>,
    semicolon: u32,
) -> Result<Contents, NoMemory>
    ensures { IfOk result (λ c. c ≡ behind_keyword (told_in text.entry.packages.now text.entry.words.now) (name_used text.entry.packages.now text.entry.words.now) text.entry.words.now kind passed data_type.now declarators.now semicolon) }
{
    let Passed { contents, at } = passed;
    let Typed { ty, notes } = declared_in(alloc, text, &contents, data_type)?;
    let contents = contents.with_notes(notes)?;
    let passed = Passed { contents, at };
    let passed = declared_names(alloc, text.words, &ty, passed, data_type)?;
    all_names(alloc, text, kind, &ty, declarators, semicolon, passed)
}

/// What a declaration of nets leaves (IEEE 1800-2017, 6.7), as [`with_data`] does of variables.
///
/// # Errors
/// For want of memory alone.
pub fn with_nets(
    alloc: Global,
    text: Text<'_>,
    contents: Contents,
    written: &NetDeclaration,
) -> Result<Contents, NoMemory>
    ensures { IfOk result (λ c. c ≡ with_nets (told_in text.entry.packages.now text.entry.words.now) (name_used text.entry.packages.now text.entry.words.now) text.entry.words.now contents written.now) }
{
    let at = written.net.token;
    behind_keyword(
        alloc,
        text,
        DataKind::Net,
        Passed { contents, at },
        &written.data_type,
        &written.declarators,
        written.semicolon,
    )
}

/// What a declaration of variables with `var` leaves (6.8), as [`with_data`] does.
///
/// # Errors
/// For want of memory alone.
pub fn with_variables(
    alloc: Global,
    text: Text<'_>,
    contents: Contents,
    written: &VariableDeclaration,
) -> Result<Contents, NoMemory>
    ensures { IfOk result (λ c. c ≡ with_variables (told_in text.entry.packages.now text.entry.words.now) (name_used text.entry.packages.now text.entry.words.now) text.entry.words.now contents written.now) }
{
    let at = written.keyword;
    behind_keyword(
        alloc,
        text,
        DataKind::Variable,
        Passed { contents, at },
        &written.data_type,
        &written.declarators,
        written.semicolon,
    )
}

/// What a declaration leaves that begins with the name of its type, with selects as its packed dimensions (6.8 and 6.18), as
/// [`with_data`] does.
///
/// # Errors
/// For want of memory alone.
pub fn with_named_data(
    alloc: Global,
    text: Text<'_>,
    contents: Contents,
    written: &NamedDeclaration,
) -> Result<Contents, NoMemory>
    ensures { IfOk result (λ c. c ≡ with_named_data (told_in text.entry.packages.now text.entry.words.now) (name_used text.entry.packages.now text.entry.words.now) text.entry.words.now contents written.now) }
{
    let selects = written.selects.as_slice();
    let Typed { ty, notes } = selected_in(alloc, text, &contents, written.name, selects)?;
    let contents = contents.with_notes(notes)?;
    let passed = name_begun(text.words, contents, written.name)?;
    all_names(
        alloc,
        text,
        DataKind::Variable,
        &ty,
        &written.declarators,
        written.semicolon,
        passed,
    )
}

//! How answers spell what they tell.
use std::alloc::Global;
use sve_bytes::{Name, NoMemory};
use sve_diag::Note;
use sve_row::{add_number, spell};
use sve_row_element::value_text;
use sve_scope::{Constant, Declared, Scope, SharedType, What};
use sve_types::{Value, print};

/// Adds a name, where there is one.
pub fn add_name(out: &mut String, name: Option<&Name>) -> Result<(), NoMemory> {
    match name {
        Some(name) => {
            out.push(' ')?;
            spell(out, name.bytes())
        }
        None => Ok(()),
    }
}

/// Adds where something is said: the numbers of the chunk and of the token in it.
fn add_place(out: &mut String, note: &Note) -> Result<(), NoMemory> {
    add_number(out, note.chunk as usize)?;
    out.push(':')?;
    add_number(out, note.token as usize)
}

/// Adds what is said.
fn add_note(out: &mut String, note: &Note) -> Result<(), NoMemory> {
    out.push(' ')?;
    spell(out, note.code.spelling())?;
    out.push_str(" at ")?;
    add_place(out, note)?;
    add_name(out, note.arg.as_ref())
}

/// Adds all that is said.
pub fn add_notes(out: &mut String, notes: &[Note]) -> Result<(), NoMemory> {
    for note in notes {
        add_note(out, note)?;
    }
    Ok(())
}

/// Adds a type, where there is one.
fn add_type(alloc: Global, out: &mut String, ty: Option<&SharedType>) -> Result<(), NoMemory> {
    match ty {
        Some(ty) => spell(out, &print(alloc, ty.ty())?),
        None => out.push('?'),
    }
}

/// Adds a value, where there is one.
fn add_value(alloc: Global, out: &mut String, value: Option<&Value>) -> Result<(), NoMemory> {
    match value {
        Some(value) => value_text(alloc, out, value),
        None => out.push('?'),
    }
}

/// Adds the type and the value of a constant.
fn add_constant(alloc: Global, out: &mut String, constant: &Constant) -> Result<(), NoMemory> {
    out.push(':')?;
    add_type(alloc, out, constant.ty.as_ref())?;
    out.push('=')?;
    add_value(alloc, out, constant.value.as_ref())
}

/// Adds what a name stands for.
pub fn add_what(alloc: Global, out: &mut String, what: &What) -> Result<(), NoMemory> {
    match what {
        What::LocalParameter(constant) => add_constant(alloc, out, constant),
        What::EnumName(constant) => add_constant(alloc, out, constant),
        What::Function(ty) => {
            out.push_str(":function ")?;
            add_type(alloc, out, ty.as_ref())
        }
        What::TypeName(ty) => {
            out.push_str(":type ")?;
            add_type(alloc, out, Some(ty))
        }
        _ => out.push_str(":other"),
    }
}

/// Adds a declaration.
fn add_declared(alloc: Global, out: &mut String, declared: &Declared) -> Result<(), NoMemory> {
    spell(out, declared.name.bytes())?;
    add_what(alloc, out, &declared.what)
}

/// Adds what a scope declares.
fn add_declarations(alloc: Global, out: &mut String, scope: &Scope) -> Result<(), NoMemory> {
    for place in 0..scope.declared.len() {
        if place > 0 {
            out.push_str(" ; ")?;
        }
        add_declared(alloc, out, scope.declared.at(place))?;
    }
    Ok(())
}

/// Adds a name and what its scope declares.
pub fn add_scope(
    alloc: Global,
    out: &mut String,
    name: &[u8],
    scope: &Scope,
) -> Result<(), NoMemory> {
    spell(out, name)?;
    out.push('{')?;
    add_declarations(alloc, out, scope)?;
    out.push('}')
}

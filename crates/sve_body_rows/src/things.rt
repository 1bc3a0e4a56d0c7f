//! Things that are declared, types and values, as text.
use std::alloc::Global;
use sve_bytes::{Dir, Name, NoMemory, Path};
use sve_row::spell;
use sve_row_element::value_text;
use sve_scope::{Constant, Declared, SharedType, What};
use sve_spec::Given;
use sve_types::{Value, print};

/// Adds a path.
pub fn add_path(alloc: Global, out: &mut String, path: &Path) -> Result<(), NoMemory> {
    spell(out, &path.print(alloc)?)
}

/// Adds names, behind a word, where there are any.
pub fn add_names(out: &mut String, word: &str, names: &[Name]) -> Result<(), NoMemory> {
    if names.is_empty() {
        return Ok(());
    }
    out.push_str(word)?;
    for name in names {
        out.push(' ')?;
        spell(out, name.bytes())?;
    }
    Ok(())
}

/// What a direction is called.
pub fn direction_name(direction: Dir) -> &'static str {
    match direction {
        Dir::Input => "input",
        Dir::Output => "output",
        Dir::Inout => "inout",
    }
}

/// Adds a type.
pub fn add_shared(alloc: Global, out: &mut String, ty: &SharedType) -> Result<(), NoMemory> {
    spell(out, &print(alloc, ty.ty())?)
}

/// Adds a type, where there is one.
fn add_type(alloc: Global, out: &mut String, ty: Option<&SharedType>) -> Result<(), NoMemory> {
    match ty {
        Some(ty) => add_shared(alloc, out, ty),
        None => out.push('?'),
    }
}

/// Adds a value, where there is one.
fn add_value(alloc: Global, out: &mut String, value: Option<&Value>) -> Result<(), NoMemory> {
    match value {
        Some(value) => value_text(alloc, out, value),
        None => out.push('?'),
    }
}

/// Adds the type and the value of a constant, behind what it is.
fn add_constant(
    alloc: Global,
    out: &mut String,
    kind: &str,
    constant: &Constant,
) -> Result<(), NoMemory> {
    out.push_str(kind)?;
    add_type(alloc, out, constant.ty.as_ref())?;
    out.push_str(" = ")?;
    add_value(alloc, out, constant.value.as_ref())
}

/// Adds a type, behind what has it.
fn add_typed(
    alloc: Global,
    out: &mut String,
    kind: &str,
    ty: Option<&SharedType>,
) -> Result<(), NoMemory> {
    out.push_str(kind)?;
    add_type(alloc, out, ty)
}

/// Adds what a name stands for.
fn add_what(alloc: Global, out: &mut String, what: &What) -> Result<(), NoMemory> {
    match what {
        What::Net(ty) => add_typed(alloc, out, "net ", Some(ty)),
        What::Variable(ty) => add_typed(alloc, out, "variable ", Some(ty)),
        What::Parameter(constant) => add_constant(alloc, out, "parameter ", constant),
        What::LocalParameter(constant) => add_constant(alloc, out, "localparam ", constant),
        What::EnumName(constant) => add_constant(alloc, out, "enumname ", constant),
        What::Function(ty) => add_typed(alloc, out, "function ", ty.as_ref()),
        What::TypeName(ty) => add_typed(alloc, out, "type ", Some(ty)),
        What::Genvar => out.push_str("genvar"),
        What::Instance => out.push_str("instance"),
        What::Block => out.push_str("block"),
        What::Modport => out.push_str("modport"),
        What::InterfacePort(_) => out.push_str("interfaceport"),
    }
}

/// Adds a declaration.
pub fn add_declared(alloc: Global, out: &mut String, declared: &Declared) -> Result<(), NoMemory> {
    spell(out, declared.name.bytes())?;
    out.push(' ')?;
    add_what(alloc, out, &declared.what)
}

/// Adds what a parameter is given.
pub fn add_given(alloc: Global, out: &mut String, given: &Given) -> Result<(), NoMemory> {
    match given {
        Given::Default => out.push('-'),
        Given::Bad => out.push('?'),
        Given::Value(value) => value_text(alloc, out, value),
    }
}

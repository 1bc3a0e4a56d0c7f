//! Types and declared names as text: each type in angles, and what is declared behind it.
use crate::expressions::{write_dimension, write_dimensions, write_expression};
use crate::writer::Writer;
use sve_tree::{
    AtomType, DataType, Declarator, DeclaredType, Dimension, EnumBase, EnumName, Enumeration,
    Initializer, Mark, Members, NamedType, Sign, Structure, TypeRef, TypedName, VectorType,
};

/// Writes a declared name behind its type.
pub fn write_typed_name(w: &mut Writer<'_>, name: &TypedName) {
    write_declared_type(w, &name.data_type);
    write_declarator(w, &name.declarator)
}

/// Writes the type of a declared name and a blank, or nothing where it is left out as a whole.
pub fn write_declared_type(w: &mut Writer<'_>, data_type: &DeclaredType) {
    match data_type {
        DeclaredType::Explicit { data_type } => write_type(w, data_type),
        DeclaredType::Implicit { sign, dimensions } => {
            if sign.is_none() && dimensions.is_empty() {
                return;
            }
            w.add("<");
            write_packed(w, sign, dimensions);
            w.add(">")
        }
    }
    w.blank()
}

/// Writes a sign and packed dimensions.
fn write_packed(w: &mut Writer<'_>, sign: &Option<Mark<Sign>>, dimensions: &[Dimension]) {
    let mut is_first = true;
    if let Some(sign) = sign {
        w.said(sign);
        is_first = false;
    }
    for dimension in dimensions {
        if !is_first {
            w.blank();
        }
        is_first = false;
        write_dimension(w, dimension);
    }
}

/// Writes a data type that begins with a keyword, in angles.
pub fn write_data_type(w: &mut Writer<'_>, data_type: &DataType) {
    w.add("<");
    write_bare_type(w, data_type);
    w.add(">")
}

/// Writes a type, in angles.
#[cycle(types)]
pub fn write_type(w: &mut Writer<'_>, data_type: &TypeRef) {
    w.add("<");
    match data_type {
        TypeRef::Written { data_type } => write_bare_type(w, data_type),
        TypeRef::Named { named } => write_named_type(w, named),
    }
    w.add(">")
}

/// Writes a data type that begins with a keyword.
#[cycle(types)]
fn write_bare_type(w: &mut Writer<'_>, data_type: &DataType) {
    match data_type {
        DataType::Atom { atom } => write_atom_type(w, atom),
        DataType::Vector { vector } => write_vector_type(w, vector),
        DataType::Text { keyword } => w.spelled(*keyword, "string"),
        DataType::Enum { enumeration } => write_enumeration(w, enumeration),
        DataType::Struct { structure } => write_structure(w, structure),
    }
}

#[cycle(types)]
fn write_structure(w: &mut Writer<'_>, structure: &Structure) {
    w.token_apart(structure.keyword);
    w.token_apart(structure.packed);
    w.said_before(&structure.sign);
    w.token(structure.opening);
    let mut is_first = true;
    for members in &structure.members {
        if !is_first {
            w.blank();
        }
        is_first = false;
        write_members(w, members);
    }
    w.token(structure.closing);
    write_dimensions(w, &structure.dimensions)
}

#[cycle(types)]
fn write_members(w: &mut Writer<'_>, members: &Members) {
    write_type(w, &members.data_type);
    w.blank();
    w.names(&members.names);
    w.token(members.semicolon)
}

fn write_atom_type(w: &mut Writer<'_>, atom: &AtomType) {
    w.said(&atom.keyword);
    w.said_behind(&atom.sign)
}

fn write_vector_type(w: &mut Writer<'_>, vector: &VectorType) {
    w.said(&vector.keyword);
    w.said_behind(&vector.sign);
    write_dimensions(w, &vector.dimensions)
}

fn write_named_type(w: &mut Writer<'_>, named: &NamedType) {
    w.scoped_name(&named.name);
    write_dimensions(w, &named.dimensions)
}

fn write_enumeration(w: &mut Writer<'_>, enumeration: &Enumeration) {
    w.token_apart(enumeration.keyword);
    if let Some(base) = &enumeration.base {
        w.add("<");
        match base {
            EnumBase::Atom { atom } => write_atom_type(w, atom),
            EnumBase::Vector { vector } => write_vector_type(w, vector),
            EnumBase::Named { named } => write_named_type(w, named),
        }
        w.add("> ");
    }
    w.token(enumeration.opening);
    let row = &enumeration.names;
    for (number, name) in row.items.iter().enumerate() {
        w.separator(&row.separators, number);
        write_enum_name(w, name);
    }
    w.token(enumeration.closing);
    write_dimensions(w, &enumeration.dimensions)
}

fn write_enum_name(w: &mut Writer<'_>, name: &EnumName) {
    w.token(name.name);
    write_value(w, &name.value)
}

/// Writes a value behind a name, where there is one.
pub fn write_value(w: &mut Writer<'_>, value: &Option<Initializer>) {
    match value {
        Some(value) => write_initializer(w, value),
        None => {}
    }
}

/// Writes the value behind a name.
pub fn write_initializer(w: &mut Writer<'_>, initializer: &Initializer) {
    w.blank();
    w.token_apart(initializer.equals);
    write_expression(w, &initializer.value)
}

/// Writes a declared name with its dimensions.
pub fn write_declarator(w: &mut Writer<'_>, declarator: &Declarator) {
    w.token(declarator.name);
    write_dimensions(w, &declarator.dimensions)
}

//! Declarations as text.
use crate::types::{write_declarator, write_declared_type, write_initializer, write_type};
use crate::writer::Writer;
use sve_tree::{Decl, Import, ImportItem, Modport, Parameters, Typedef};

/// Writes a declaration.
pub fn write_declaration(w: &mut Writer<'_>, declaration: &Decl) {
    match declaration {
        Decl::Parameters { declaration } => write_parameters(w, declaration),
        Decl::Typedef { declaration } => write_typedef(w, declaration),
        Decl::Import { declaration } => write_import(w, declaration),
        Decl::Modport { declaration } => write_modport(w, declaration),
    }
}

/// Writes a declaration of parameters.
pub fn write_parameters(w: &mut Writer<'_>, parameters: &Parameters) {
    w.said(&parameters.keyword);
    w.blank();
    write_declared_type(w, &parameters.data_type);
    let row = &parameters.assignments;
    for (number, assignment) in row.items.iter().enumerate() {
        w.separator(&row.separators, number);
        write_declarator(w, &assignment.declarator);
        write_initializer(w, &assignment.value);
    }
    w.token(parameters.semicolon)
}

/// Writes the declaration of a type.
pub fn write_typedef(w: &mut Writer<'_>, typedef: &Typedef) {
    w.token_apart(typedef.keyword);
    write_type(w, &typedef.data_type);
    w.blank();
    write_declarator(w, &typedef.declarator);
    w.token(typedef.semicolon)
}

/// Writes imports.
pub fn write_import(w: &mut Writer<'_>, import: &Import) {
    w.token_apart(import.keyword);
    let row = &import.items;
    for (number, item) in row.items.iter().enumerate() {
        w.separator(&row.separators, number);
        write_import_item(w, item);
    }
    w.token(import.semicolon)
}

fn write_import_item(w: &mut Writer<'_>, item: &ImportItem) {
    match item {
        ImportItem::Name { scope, name } => {
            w.scope(scope);
            w.token(*name)
        }
        ImportItem::All { scope, star } => {
            w.scope(scope);
            w.spelled(*star, "*")
        }
    }
}

/// Writes a modport with its members.
pub fn write_modport(w: &mut Writer<'_>, modport: &Modport) {
    w.token(modport.name);
    w.token(modport.opening);
    let row = &modport.members;
    for (number, member) in row.items.iter().enumerate() {
        w.separator(&row.separators, number);
        w.said_before(&member.direction);
        w.token(member.name);
    }
    w.token(modport.closing)
}

//! Declarations of nets and variables as text.
use sve_show::{
    Writer, write_declarator, write_declared_type, write_selects, write_type, write_value,
};
use sve_tree::{
    DataDeclaration, InitializedDeclarator, NamedDeclaration, NetDeclaration, Row,
    VariableDeclaration,
};

fn write_declarators(w: &mut Writer<'_>, row: &Row<InitializedDeclarator>) {
    for (number, item) in row.items.iter().enumerate() {
        w.separator(&row.separators, number);
        write_declarator(w, &item.declarator);
        write_value(w, &item.value);
    }
}

/// Writes a declaration of nets.
pub fn write_net_declaration(w: &mut Writer<'_>, declaration: &NetDeclaration) {
    w.said(&declaration.net);
    w.blank();
    write_declared_type(w, &declaration.data_type);
    write_declarators(w, &declaration.declarators);
    w.token(declaration.semicolon)
}

/// Writes a declaration of variables with `var`.
pub fn write_variable_declaration(w: &mut Writer<'_>, declaration: &VariableDeclaration) {
    w.spelled(declaration.keyword, "var");
    w.blank();
    write_declared_type(w, &declaration.data_type);
    write_declarators(w, &declaration.declarators);
    w.token(declaration.semicolon)
}

/// Writes a declaration of variables without `var`.
pub fn write_data_declaration(w: &mut Writer<'_>, declaration: &DataDeclaration) {
    write_type(w, &declaration.data_type);
    w.blank();
    write_declarators(w, &declaration.declarators);
    w.token(declaration.semicolon)
}

/// Writes a declaration of a block that begins with a type's name.
pub fn write_named_declaration(w: &mut Writer<'_>, declaration: &NamedDeclaration) {
    w.add("<");
    w.scoped_name(&declaration.name);
    write_selects(w, &declaration.selects);
    w.add("> ");
    write_declarators(w, &declaration.declarators);
    w.token(declaration.semicolon)
}

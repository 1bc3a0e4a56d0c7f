//! Items that hold no other one as text, and the heads of generate loops.
use crate::assignments::{write_change, write_left_side};
use crate::spelled::write_step_operator;
use sve_show::{Writer, write_arguments, write_expression, write_modport};
use sve_tree::{
    ContinuousAssign, GenvarDeclaration, GenvarStep, Instance, Instantiation, LoopGenerate,
    ModportDeclaration,
};

/// Writes a declaration of genvars.
pub fn write_genvars(w: &mut Writer<'_>, declaration: &GenvarDeclaration) {
    w.token_apart(declaration.keyword);
    w.names(&declaration.names);
    w.token(declaration.semicolon)
}

/// Writes continuous assignments.
pub fn write_assign(w: &mut Writer<'_>, assign: &ContinuousAssign) {
    let row = &assign.assignments;
    w.token_apart(assign.keyword);
    for (number, assignment) in row.items.iter().enumerate() {
        w.separator(&row.separators, number);
        write_left_side(w, &assignment.left);
        w.blank();
        w.token_apart(assignment.equals);
        write_expression(w, &assignment.value);
    }
    w.token(assign.semicolon)
}

/// Writes modports.
pub fn write_modports(w: &mut Writer<'_>, declaration: &ModportDeclaration) {
    let row = &declaration.modports;
    w.token_apart(declaration.keyword);
    for (number, modport) in row.items.iter().enumerate() {
        w.separator(&row.separators, number);
        write_modport(w, modport);
    }
    w.token(declaration.semicolon)
}

/// Writes instances.
pub fn write_instances(w: &mut Writer<'_>, instantiation: &Instantiation) {
    let row = &instantiation.instances;
    w.token_apart(instantiation.definition);
    if let Some(overrides) = &instantiation.overrides {
        w.token(overrides.hash);
        write_arguments(w, &overrides.arguments);
        w.blank();
    }
    for (number, instance) in row.items.iter().enumerate() {
        w.separator(&row.separators, number);
        write_instance(w, instance);
    }
    w.token(instantiation.semicolon)
}

fn write_instance(w: &mut Writer<'_>, instance: &Instance) {
    w.token(instance.name);
    write_arguments(w, &instance.connections)
}

/// Writes the head of a generate loop.
pub fn write_loop_head(w: &mut Writer<'_>, construct: &LoopGenerate) {
    w.token_apart(construct.keyword);
    w.token(construct.opening);
    if let Some(genvar) = construct.genvar {
        w.spelled(genvar, "genvar");
        w.blank();
    }
    w.token(construct.name);
    w.blank();
    w.token_apart(construct.equals);
    write_expression(w, &construct.start);
    w.token_apart(construct.first_semicolon);
    write_expression(w, &construct.condition);
    w.token_apart(construct.second_semicolon);
    write_genvar_step(w, &construct.step);
    w.token(construct.closing)
}

fn write_genvar_step(w: &mut Writer<'_>, step: &GenvarStep) {
    match step {
        GenvarStep::Before { operator, name } => {
            write_step_operator(w, operator);
            w.token(*name)
        }
        GenvarStep::Change { name, change } => {
            w.token(*name);
            write_change(w, change)
        }
    }
}

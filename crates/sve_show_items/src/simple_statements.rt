//! Statements that hold no other one as text, and the heads of loops.
use crate::assignments::{write_assigned, write_change, write_left_concatenation, write_tail};
use crate::spelled::write_step_operator;
use sve_show::{
    Writer, write_arguments, write_cast, write_data_type, write_declarator, write_expression,
    write_initializer, write_selects,
};
use sve_tree::{
    ConcatenationAssignment, ForInitialization, ForStatement, ForStep, ForVariable,
    ForeachStatement, NameStatement, ReturnStatement, Row, StepStatement, SystemTask, VoidCall,
};

/// Writes `return`.
pub fn write_return(w: &mut Writer<'_>, statement: &ReturnStatement) {
    w.spelled(statement.keyword, "return");
    if let Some(value) = &statement.value {
        w.blank();
        write_expression(w, value);
    }
    w.token(statement.semicolon)
}

/// Writes a system task.
pub fn write_system_task(w: &mut Writer<'_>, task: &SystemTask) {
    w.token(task.name);
    if let Some(arguments) = &task.arguments {
        write_arguments(w, arguments);
    }
    w.token(task.semicolon)
}

/// Writes a call whose result is dropped.
pub fn write_void_call(w: &mut Writer<'_>, call: &VoidCall) {
    w.spelled(call.keyword, "void");
    write_cast(w, &call.cast);
    w.token(call.semicolon)
}

/// Writes one added or taken off.
pub fn write_step_statement(w: &mut Writer<'_>, statement: &StepStatement) {
    write_step_operator(w, &statement.operator);
    w.token(statement.name);
    write_selects(w, &statement.selects);
    w.token(statement.semicolon)
}

/// Writes an assignment to several left sides.
pub fn write_concatenation_assignment(w: &mut Writer<'_>, assignment: &ConcatenationAssignment) {
    write_left_concatenation(w, &assignment.left);
    write_assigned(w, &assignment.operator, &assignment.value);
    w.token(assignment.semicolon)
}

/// Writes a statement that begins with a name.
pub fn write_name_statement(w: &mut Writer<'_>, statement: &NameStatement) {
    w.scoped_name(&statement.name);
    write_selects(w, &statement.selects);
    write_tail(w, &statement.tail);
    w.token(statement.semicolon)
}

/// Writes the head of a for loop.
pub fn write_for_head(w: &mut Writer<'_>, statement: &ForStatement) {
    w.token_apart(statement.keyword);
    w.token(statement.opening);
    write_for_initialization(w, &statement.initialization);
    w.token(statement.first_semicolon);
    if let Some(condition) = &statement.condition {
        w.blank();
        write_expression(w, condition);
    }
    w.token(statement.second_semicolon);
    write_for_steps(w, &statement.steps);
    w.token(statement.closing)
}

fn write_for_initialization(w: &mut Writer<'_>, initialization: &ForInitialization) {
    match initialization {
        ForInitialization::Declared { variables } => write_for_variables(w, variables),
        ForInitialization::Assigned {
            name,
            selects,
            operator,
            value,
        } => {
            w.scoped_name(name);
            write_selects(w, selects);
            write_assigned(w, operator, value)
        }
        ForInitialization::NamedType {
            name,
            selects,
            declarator,
            value,
        } => {
            w.add("<");
            w.scoped_name(name);
            write_selects(w, selects);
            w.add("> ");
            write_declarator(w, declarator);
            write_initializer(w, value)
        }
    }
}

fn write_for_variables(w: &mut Writer<'_>, row: &Row<ForVariable>) {
    for (number, variable) in row.items.iter().enumerate() {
        w.separator(&row.separators, number);
        if let Some(data_type) = &variable.data_type {
            write_data_type(w, data_type);
            w.blank();
        }
        write_declarator(w, &variable.declarator);
        write_initializer(w, &variable.value);
    }
}

/// Writes the steps of a for loop behind a blank, where there are any.
fn write_for_steps(w: &mut Writer<'_>, row: &Row<ForStep>) {
    if !row.items.is_empty() {
        w.blank();
    }
    for (number, step) in row.items.iter().enumerate() {
        w.separator(&row.separators, number);
        write_for_step(w, step);
    }
}

fn write_for_step(w: &mut Writer<'_>, step: &ForStep) {
    match step {
        ForStep::Before {
            operator,
            name,
            selects,
        } => {
            write_step_operator(w, operator);
            w.token(*name);
            write_selects(w, selects)
        }
        ForStep::Change {
            name,
            selects,
            change,
        } => {
            w.token(*name);
            write_selects(w, selects);
            write_change(w, change)
        }
    }
}

/// Writes the head of a loop over an array.
pub fn write_foreach_head(w: &mut Writer<'_>, statement: &ForeachStatement) {
    w.token_apart(statement.keyword);
    w.token(statement.opening);
    w.token(statement.array);
    w.token(statement.opening_bracket);
    w.names(&statement.names);
    w.token(statement.closing_bracket);
    w.token(statement.closing)
}

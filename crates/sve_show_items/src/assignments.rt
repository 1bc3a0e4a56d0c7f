//! Left sides as text, and what is done with them.
use crate::spelled::{write_assignment_operator, write_step_operator};
use sve_show::{Writer, write_arguments, write_expression, write_selects};
use sve_tree::{
    AssignmentOperator, Change, Expr, LeftConcatenation, LeftSide, Mark, StatementTail,
};

/// Writes a left side.
#[cycle(left_sides)]
pub fn write_left_side(w: &mut Writer<'_>, left: &LeftSide) {
    match left {
        LeftSide::Name { name, selects } => {
            w.token(*name);
            write_selects(w, selects)
        }
        LeftSide::Concatenation { concatenation } => write_left_concatenation(w, concatenation),
    }
}

/// Writes left sides in braces.
#[cycle(left_sides)]
pub fn write_left_concatenation(w: &mut Writer<'_>, concatenation: &LeftConcatenation) {
    let row = &concatenation.sides;
    w.token(concatenation.opening);
    for (number, side) in row.items.iter().enumerate() {
        w.separator(&row.separators, number);
        write_left_side(w, side);
    }
    w.token(concatenation.closing)
}

/// Writes an assignment behind its left side.
pub fn write_assigned(w: &mut Writer<'_>, operator: &Mark<AssignmentOperator>, value: &Expr) {
    w.blank();
    write_assignment_operator(w, operator);
    w.blank();
    write_expression(w, value)
}

/// Writes how a name is changed.
pub fn write_change(w: &mut Writer<'_>, change: &Change) {
    match change {
        Change::Assign { operator, value } => write_assigned(w, operator, value),
        Change::Step { operator } => write_step_operator(w, operator),
    }
}

/// Writes what a statement does with the name at its front.
pub fn write_tail(w: &mut Writer<'_>, tail: &StatementTail) {
    match tail {
        StatementTail::Assign { operator, value } => write_assigned(w, operator, value),
        StatementTail::Step { operator } => write_step_operator(w, operator),
        StatementTail::Call { arguments } => write_arguments(w, arguments),
    }
}

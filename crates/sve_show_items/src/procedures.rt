//! Procedures and what they wait for as text.
use crate::spelled::{write_clocked_keyword, write_edge, write_plain_keyword};
use crate::statements::write_statement;
use sve_show::{Writer, write_expression, write_selects};
use sve_tree::{
    ClockedProcedure, Event, EventControl, EventSeparator, Mark, PlainProcedure, Row, Stmt,
};

/// Writes a procedure with an event control.
pub fn write_clocked_procedure(w: &mut Writer<'_>, procedure: &ClockedProcedure) {
    write_clocked_keyword(w, &procedure.keyword);
    w.token(procedure.at);
    write_event_control(w, &procedure.control);
    w.blank();
    write_body(w, &procedure.statement)
}

/// Writes a procedure without an event control.
pub fn write_plain_procedure(w: &mut Writer<'_>, procedure: &PlainProcedure) {
    write_plain_keyword(w, &procedure.keyword);
    write_body(w, &procedure.statement)
}

/// Writes the statement of a procedure, in braces.
fn write_body(w: &mut Writer<'_>, statement: &Stmt) {
    w.add("{");
    write_statement(w, statement);
    w.add("}")
}

fn write_event_control(w: &mut Writer<'_>, control: &EventControl) {
    match control {
        EventControl::Any { star } => w.spelled(*star, "*"),
        EventControl::AnyParenthesized {
            opening,
            star,
            closing,
        } => {
            w.token(*opening);
            w.spelled(*star, "*");
            w.token(*closing)
        }
        EventControl::Events {
            opening,
            events,
            closing,
        } => {
            w.token(*opening);
            write_events(w, events);
            w.token(*closing)
        }
        EventControl::Name { name, selects } => {
            w.token(*name);
            write_selects(w, selects)
        }
    }
}

fn write_events(w: &mut Writer<'_>, row: &Row<Event, Mark<EventSeparator>>) {
    for (number, event) in row.items.iter().enumerate() {
        if number > 0 {
            write_event_separator(w, row.separators.get(number - 1));
        }
        write_edge(w, &event.edge);
        write_expression(w, &event.value);
    }
}

/// Writes what stands between two events. Where nothing stands there, a token is missing in the text, which is out of order.
fn write_event_separator(w: &mut Writer<'_>, separator: Option<&Mark<EventSeparator>>) {
    if let Some(separator) = separator {
        match separator.kind {
            EventSeparator::Or => {
                w.blank();
                w.spelled(separator.token, "or")
            }
            EventSeparator::Comma => w.spelled(separator.token, ","),
        }
    }
    w.blank()
}

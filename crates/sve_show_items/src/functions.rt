//! Functions as text.
use crate::spelled::write_label;
use crate::statements::write_block_item;
use sve_show::{Writer, write_typed_name};
use sve_tree::{Formal, FormalDirection, Formals, Func, FunctionResult};

/// Writes a function.
pub fn write_function(w: &mut Writer<'_>, function: &Func) {
    write_function_head(w, function);
    for item in &function.items {
        w.blank();
        write_block_item(w, item);
    }
    w.blank();
    w.spelled(function.end, "endfunction");
    write_label(w, &function.label)
}

fn write_function_head(w: &mut Writer<'_>, function: &Func) {
    w.token_apart(function.keyword);
    w.said_before(&function.lifetime);
    match &function.result_type {
        FunctionResult::Void { keyword, name } => {
            w.spelled(*keyword, "void");
            w.blank();
            w.token(*name)
        }
        FunctionResult::Typed { result } => write_typed_name(w, result),
    }
    if let Some(formals) = &function.formals {
        write_formals(w, formals);
    }
    w.token(function.semicolon)
}

fn write_formals(w: &mut Writer<'_>, formals: &Formals) {
    let row = &formals.formals;
    w.token(formals.opening);
    for (number, formal) in row.items.iter().enumerate() {
        w.separator(&row.separators, number);
        write_formal(w, formal);
    }
    w.token(formals.closing)
}

fn write_formal(w: &mut Writer<'_>, formal: &Formal) {
    if let Some(direction) = &formal.direction {
        match direction {
            FormalDirection::Value { direction } => w.said(direction),
            FormalDirection::Reference { keyword } => w.spelled(*keyword, "ref"),
        }
        w.blank();
    }
    if let Some(keyword) = formal.variable {
        w.spelled(keyword, "var");
        w.blank();
    }
    write_typed_name(w, &formal.parameter)
}

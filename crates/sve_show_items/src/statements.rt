//! Statements as text: one that is a part of another stands in braces.
use crate::simple_statements::{
    write_concatenation_assignment, write_for_head, write_foreach_head, write_name_statement,
    write_return, write_step_statement, write_system_task, write_void_call,
};
use crate::spelled::{write_case_keyword, write_label, write_loop_keyword, write_uniqueness};
use crate::variables::{
    write_data_declaration, write_named_declaration, write_variable_declaration,
};
use sve_show::{Writer, write_expression, write_parameters, write_parenthesized, write_typedef};
use sve_tree::{
    Block, BlockItem, CaseItem, CaseStatement, DoStatement, Expr, IfStatement, Row, Stmt,
};

/// Writes a statement.
#[cycle(statements)]
pub fn write_statement(w: &mut Writer<'_>, statement: &Stmt) {
    match statement {
        Stmt::Empty { semicolon } => w.token(*semicolon),
        Stmt::Block { block } => write_block(w, block),
        Stmt::If {
            uniqueness,
            statement,
        } => {
            write_uniqueness(w, uniqueness);
            write_if(w, statement)
        }
        Stmt::Case {
            uniqueness,
            statement,
        } => {
            write_uniqueness(w, uniqueness);
            write_case(w, statement)
        }
        Stmt::For { statement } => {
            write_for_head(w, statement);
            w.add(" {");
            write_statement(w, &statement.body);
            w.add("}")
        }
        Stmt::Foreach { statement } => {
            write_foreach_head(w, statement);
            w.add(" {");
            write_statement(w, &statement.body);
            w.add("}")
        }
        Stmt::Loop { statement } => {
            write_loop_keyword(w, &statement.keyword);
            write_parenthesized(w, &statement.condition);
            w.add(" {");
            write_statement(w, &statement.body);
            w.add("}")
        }
        Stmt::Do { statement } => write_do(w, statement),
        Stmt::Return { statement } => write_return(w, statement),
        Stmt::Break { keyword, semicolon } => {
            w.spelled(*keyword, "break");
            w.token(*semicolon)
        }
        Stmt::Continue { keyword, semicolon } => {
            w.spelled(*keyword, "continue");
            w.token(*semicolon)
        }
        Stmt::SystemTask { task } => write_system_task(w, task),
        Stmt::VoidCall { call } => write_void_call(w, call),
        Stmt::Step { statement } => write_step_statement(w, statement),
        Stmt::Concatenation { assignment } => write_concatenation_assignment(w, assignment),
        Stmt::Name { statement } => write_name_statement(w, statement),
    }
}

#[cycle(statements)]
fn write_block(w: &mut Writer<'_>, block: &Block) {
    w.spelled(block.begin, "begin");
    write_label(w, &block.label);
    for item in &block.items {
        w.blank();
        write_block_item(w, item);
    }
    w.blank();
    w.spelled(block.end, "end");
    write_label(w, &block.end_label)
}

/// Writes a declaration or a statement of a block or of a function.
#[cycle(statements)]
pub fn write_block_item(w: &mut Writer<'_>, item: &BlockItem) {
    match item {
        BlockItem::Local {
            lifetime,
            declaration,
        } => {
            w.said(lifetime);
            w.blank();
            write_data_declaration(w, declaration)
        }
        BlockItem::Variable { declaration } => write_variable_declaration(w, declaration),
        BlockItem::Data { declaration } => write_data_declaration(w, declaration),
        BlockItem::Parameters { declaration } => write_parameters(w, declaration),
        BlockItem::Typedef { declaration } => write_typedef(w, declaration),
        BlockItem::NamedData { declaration } => write_named_declaration(w, declaration),
        BlockItem::Name { statement } => write_name_statement(w, statement),
        BlockItem::Statement { statement } => write_statement(w, statement),
    }
}

#[cycle(statements)]
fn write_if(w: &mut Writer<'_>, statement: &IfStatement) {
    w.token_apart(statement.keyword);
    write_parenthesized(w, &statement.condition);
    w.add(" {");
    write_statement(w, &statement.chosen);
    w.add("}");
    if let Some(otherwise) = &statement.otherwise {
        w.blank();
        w.spelled(otherwise.keyword, "else");
        w.add(" {");
        write_statement(w, &otherwise.statement);
        w.add("}");
    }
}

#[cycle(statements)]
fn write_case(w: &mut Writer<'_>, statement: &CaseStatement) {
    write_case_keyword(w, &statement.keyword);
    write_parenthesized(w, &statement.selector);
    for item in &statement.items {
        w.blank();
        write_case_item(w, item);
    }
    w.blank();
    w.spelled(statement.end, "endcase")
}

#[cycle(statements)]
fn write_case_item(w: &mut Writer<'_>, item: &CaseItem) {
    match item {
        CaseItem::Default {
            keyword,
            colon,
            statement,
        } => {
            write_default(w, *keyword, colon);
            w.add(" {");
            write_statement(w, statement);
            w.add("}")
        }
        CaseItem::Labels {
            labels,
            colon,
            statement,
        } => {
            write_labels(w, labels, *colon);
            w.add(" {");
            write_statement(w, statement);
            w.add("}")
        }
    }
}

#[cycle(statements)]
fn write_do(w: &mut Writer<'_>, statement: &DoStatement) {
    w.spelled(statement.keyword, "do");
    w.add(" {");
    write_statement(w, &statement.body);
    w.add("}");
    w.blank();
    w.token_apart(statement.while_keyword);
    write_parenthesized(w, &statement.condition);
    w.token(statement.semicolon)
}

/// Writes `default`, and its colon where one is written.
pub fn write_default(w: &mut Writer<'_>, keyword: u32, colon: &Option<u32>) {
    w.spelled(keyword, "default");
    if let Some(colon) = colon {
        w.token(*colon);
    }
}

/// Writes the labels of an item of a case, and their colon.
pub fn write_labels(w: &mut Writer<'_>, labels: &Row<Expr>, colon: u32) {
    for (number, label) in labels.items.iter().enumerate() {
        w.separator(&labels.separators, number);
        write_expression(w, label);
    }
    w.token(colon)
}

//! Expressions as text: each operation in parentheses of its own, each type in angles.
use crate::writer::Writer;
use sve_tree::{
    Arg, ArgumentList, Cast, Dimension, Expr, Operation, Parenthesized, Pattern, PatternItem,
    Postfix, Range, RangeSelect, Row, Select, ValueRange,
};

/// Writes an expression.
#[cycle(expressions)]
pub fn write_expression(w: &mut Writer<'_>, expression: &Expr) {
    match expression {
        Expr::Decimal { token }
        | Expr::Based { token }
        | Expr::Unbased { token }
        | Expr::Text { token } => w.token(*token),
        Expr::Sized { size, based } => {
            w.token(*size);
            w.token(*based)
        }
        Expr::SizeCast { size, cast } => {
            w.token(*size);
            write_cast(w, cast)
        }
        Expr::Parenthesized { inner } => write_parenthesized(w, inner),
        Expr::ParenthesizedCast { size, cast } => {
            write_parenthesized(w, size);
            write_cast(w, cast)
        }
        Expr::Pattern { pattern } => write_pattern(w, pattern),
        Expr::Replication {
            opening,
            count,
            inner_opening,
            operands,
            inner_closing,
            closing,
            selects,
        } => {
            w.token(*opening);
            write_expression(w, count);
            w.token(*inner_opening);
            write_expressions(w, operands);
            w.token(*inner_closing);
            w.token(*closing);
            write_range_selects(w, selects)
        }
        Expr::Concatenation {
            opening,
            operands,
            closing,
            selects,
        } => {
            w.token(*opening);
            write_expressions(w, operands);
            w.token(*closing);
            write_range_selects(w, selects)
        }
        Expr::SignCast { sign, cast } => {
            w.said(sign);
            write_cast(w, cast)
        }
        Expr::Type {
            keyword,
            sign,
            dimensions,
        } => {
            w.add("<");
            w.said(keyword);
            w.said_behind(sign);
            write_dimensions(w, dimensions);
            w.add(">")
        }
        Expr::TypeCast {
            keyword,
            sign,
            dimensions,
            cast,
        } => {
            w.add("<");
            w.said(keyword);
            w.said_behind(sign);
            write_dimensions(w, dimensions);
            w.add(">");
            write_cast(w, cast)
        }
        Expr::SystemName { name, selects } => {
            w.token(*name);
            write_selects(w, selects)
        }
        Expr::SystemCall {
            name,
            arguments,
            selects,
        } => {
            w.token(*name);
            write_arguments(w, arguments);
            write_selects(w, selects)
        }
        Expr::Name { name, postfixes } => {
            w.scoped_name(name);
            write_postfixes(w, postfixes)
        }
        Expr::Unary { operator, operand } => {
            w.add("(");
            w.said(operator);
            write_expression(w, operand);
            w.add(")")
        }
        Expr::Operations { first, operations } => {
            for _ in operations {
                w.add("(");
            }
            write_expression(w, first);
            for operation in operations {
                w.blank();
                write_operation(w, operation);
                w.add(")");
            }
        }
        Expr::Conditional {
            condition,
            question,
            chosen,
            colon,
            otherwise,
        } => {
            w.add("(");
            write_expression(w, condition);
            w.blank();
            w.token_apart(*question);
            write_expression(w, chosen);
            w.blank();
            w.token_apart(*colon);
            write_expression(w, otherwise);
            w.add(")")
        }
        Expr::Implication {
            left,
            operator,
            right,
        } => {
            w.add("(");
            write_expression(w, left);
            w.blank();
            w.said(operator);
            w.blank();
            write_expression(w, right);
            w.add(")")
        }
    }
}

/// Writes an operation of a chain, without what stands before it.
#[cycle(expressions)]
fn write_operation(w: &mut Writer<'_>, operation: &Operation) {
    match operation {
        Operation::Binary { operator, right } => {
            w.said(operator);
            w.blank();
            write_expression(w, right)
        }
        Operation::Inside {
            keyword,
            opening,
            ranges,
            closing,
        } => {
            w.token_apart(*keyword);
            w.token(*opening);
            for (number, range) in ranges.items.iter().enumerate() {
                w.separator(&ranges.separators, number);
                write_value_range(w, range);
            }
            w.token(*closing)
        }
    }
}

#[cycle(expressions)]
fn write_value_range(w: &mut Writer<'_>, range: &ValueRange) {
    match range {
        ValueRange::Between {
            opening,
            low,
            colon,
            high,
            closing,
        } => {
            w.token(*opening);
            write_expression(w, low);
            w.token(*colon);
            write_expression(w, high);
            w.token(*closing)
        }
        ValueRange::Value { value } => write_expression(w, value),
    }
}

/// Writes an expression in its parentheses.
#[cycle(expressions)]
pub fn write_parenthesized(w: &mut Writer<'_>, inner: &Parenthesized) {
    w.token(inner.opening);
    write_expression(w, &inner.value);
    w.token(inner.closing)
}

/// Writes a cast, without what stands before its apostrophe.
#[cycle(expressions)]
pub fn write_cast(w: &mut Writer<'_>, cast: &Cast) {
    w.token(cast.apostrophe);
    write_parenthesized(w, &cast.value)
}

#[cycle(expressions)]
fn write_expressions(w: &mut Writer<'_>, row: &Row<Expr>) {
    for (number, expression) in row.items.iter().enumerate() {
        w.separator(&row.separators, number);
        write_expression(w, expression);
    }
}

/// Writes each dimension behind a blank.
#[cycle(expressions)]
pub fn write_dimensions(w: &mut Writer<'_>, dimensions: &[Dimension]) {
    for dimension in dimensions {
        w.blank();
        write_dimension(w, dimension);
    }
}

/// Writes a dimension of a type or of a name.
#[cycle(expressions)]
pub fn write_dimension(w: &mut Writer<'_>, dimension: &Dimension) {
    match dimension {
        Dimension::Size {
            opening,
            size,
            closing,
        } => {
            w.token(*opening);
            write_expression(w, size);
            w.token(*closing)
        }
        Dimension::Range {
            opening,
            left,
            colon,
            right,
            closing,
        } => {
            w.token(*opening);
            write_expression(w, left);
            w.token(*colon);
            write_expression(w, right);
            w.token(*closing)
        }
    }
}

#[cycle(expressions)]
fn write_range(w: &mut Writer<'_>, range: &Range) {
    match range {
        Range::Index { index } => write_expression(w, index),
        Range::Between { left, colon, right } => {
            write_expression(w, left);
            w.token(*colon);
            write_expression(w, right)
        }
        Range::Upward { from, at, width } => {
            write_expression(w, from);
            w.blank();
            w.spelled(*at, "+:");
            w.blank();
            write_expression(w, width)
        }
        Range::Downward { from, at, width } => {
            write_expression(w, from);
            w.blank();
            w.spelled(*at, "-:");
            w.blank();
            write_expression(w, width)
        }
    }
}

#[cycle(expressions)]
fn write_range_select(w: &mut Writer<'_>, select: &RangeSelect) {
    w.token(select.opening);
    write_range(w, &select.range);
    w.token(select.closing)
}

#[cycle(expressions)]
fn write_range_selects(w: &mut Writer<'_>, selects: &[RangeSelect]) {
    for select in selects {
        write_range_select(w, select);
    }
}

/// Writes the selects behind a name.
#[cycle(expressions)]
pub fn write_selects(w: &mut Writer<'_>, selects: &[Select]) {
    for select in selects {
        write_select(w, select);
    }
}

#[cycle(expressions)]
fn write_select(w: &mut Writer<'_>, select: &Select) {
    match select {
        Select::Member { dot, name } => {
            w.token(*dot);
            w.token(*name)
        }
        Select::Range { select } => write_range_select(w, select),
    }
}

#[cycle(expressions)]
fn write_postfixes(w: &mut Writer<'_>, postfixes: &[Postfix]) {
    for postfix in postfixes {
        write_postfix(w, postfix);
    }
}

#[cycle(expressions)]
fn write_postfix(w: &mut Writer<'_>, postfix: &Postfix) {
    match postfix {
        Postfix::Select { select } => write_select(w, select),
        Postfix::Call { arguments } => write_arguments(w, arguments),
        Postfix::Cast { cast } => write_cast(w, cast),
        Postfix::Pattern { pattern } => write_pattern(w, pattern),
    }
}

/// Writes arguments in their parentheses.
#[cycle(expressions)]
pub fn write_arguments(w: &mut Writer<'_>, list: &ArgumentList) {
    let row = &list.arguments;
    w.token(list.opening);
    for (number, argument) in row.items.iter().enumerate() {
        w.separator(&row.separators, number);
        write_argument(w, argument);
    }
    w.token(list.closing)
}

#[cycle(expressions)]
fn write_argument(w: &mut Writer<'_>, argument: &Arg) {
    match argument {
        Arg::Wildcard { token } => w.spelled(*token, ".*"),
        Arg::Implicit { dot, name } => {
            w.token(*dot);
            w.token(*name)
        }
        Arg::Unconnected {
            dot,
            name,
            opening,
            closing,
        } => {
            w.token(*dot);
            w.token(*name);
            w.token(*opening);
            w.token(*closing)
        }
        Arg::Named {
            dot,
            name,
            opening,
            value,
            closing,
        } => {
            w.token(*dot);
            w.token(*name);
            w.token(*opening);
            write_expression(w, value);
            w.token(*closing)
        }
        Arg::Ordered { value } => write_expression(w, value),
        Arg::Empty => {}
    }
}

#[cycle(expressions)]
fn write_pattern(w: &mut Writer<'_>, pattern: &Pattern) {
    let row = &pattern.items;
    w.token(pattern.opening);
    for (number, item) in row.items.iter().enumerate() {
        w.separator(&row.separators, number);
        write_pattern_item(w, item);
    }
    w.token(pattern.closing)
}

#[cycle(expressions)]
fn write_pattern_item(w: &mut Writer<'_>, item: &PatternItem) {
    match item {
        PatternItem::Default {
            keyword,
            colon,
            value,
        } => {
            w.spelled(*keyword, "default");
            w.token_apart(*colon);
            write_expression(w, value)
        }
        PatternItem::Value { value } => write_expression(w, value),
        PatternItem::Keyed { key, colon, value } => {
            write_expression(w, key);
            w.token_apart(*colon);
            write_expression(w, value)
        }
        PatternItem::Repeated {
            count,
            opening,
            values,
            closing,
        } => {
            write_expression(w, count);
            w.token(*opening);
            write_expressions(w, values);
            w.token(*closing)
        }
    }
}

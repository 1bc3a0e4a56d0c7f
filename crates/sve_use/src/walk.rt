ghost use Rattle.std.specs.Prelude.{◌≡◌, OnOk};
ghost use Rattle.std.specs.List.{fold};
ghost use Rattle.sve_use.specs.Uses.{argument_uses, dimension_uses, operation_uses, pattern_item_uses, postfix_uses, range_select_uses, range_uses, select_uses, uses, uses_of_arguments, uses_of_dimensions, uses_of_expressions, uses_of_operations, uses_of_pattern, uses_of_postfixes, uses_of_range_selects, uses_of_selects, uses_of_value_ranges, value_range_uses};

use crate::head::{hand_on, is_plain_name};
use crate::resolver::Resolver;
use sve_bytes::NoMemory;
use sve_tree::{
    Arg, ArgumentList, Dimension, Expr, Operation, Pattern, PatternItem, Postfix, Range,
    RangeSelect, Row, Select, ValueRange,
};

/// The names that an expression uses, in the order of the text, each with how it is used, are handed on (IEEE 1800-2017,
/// clause 11). The names of members, of arguments and of keys of patterns are none of them. It goes over the tree once.
///
/// # Errors
/// For want of memory alone.
#[cycle(names)]
#[tactic(auto, using(crate::proofs::Rows::of_name, std::proofs::lemmas::Grind::common_steps), unfolding(crate::specs::Uses::uses))]
pub fn names_in<R: Resolver>(expr: &Expr, names: &mut R) -> Result<(), NoMemory>
    ensures { OnOk result (names.new ≡ fold R.after names.old (uses expr.now)) }
{
    match expr {
        Expr::Decimal { .. } => Ok(()),
        Expr::Sized { .. } => Ok(()),
        Expr::Based { .. } => Ok(()),
        Expr::Unbased { .. } => Ok(()),
        Expr::Text { .. } => Ok(()),
        Expr::SizeCast { cast, .. } => names_in(&cast.value.value, names),
        Expr::Parenthesized { inner } => names_in(&inner.value, names),
        Expr::ParenthesizedCast { size, cast } => {
            names_in(&size.value, names)?;
            names_in(&cast.value.value, names)
        }
        Expr::Pattern { pattern } => names_in_pattern(pattern, names),
        Expr::Replication {
            count,
            operands,
            selects,
            ..
        } => {
            names_in(count, names)?;
            names_in_all(operands, names)?;
            names_in_range_selects(selects, names)
        }
        Expr::Concatenation {
            operands,
            selects,
            ..
        } => {
            names_in_all(operands, names)?;
            names_in_range_selects(selects, names)
        }
        Expr::SignCast { cast, .. } => names_in(&cast.value.value, names),
        Expr::Type { dimensions, .. } => names_in_dimensions(dimensions, names),
        Expr::TypeCast {
            dimensions,
            cast,
            ..
        } => {
            names_in_dimensions(dimensions, names)?;
            names_in(&cast.value.value, names)
        }
        Expr::SystemName { selects, .. } => names_in_selects(selects, names),
        Expr::SystemCall {
            arguments,
            selects,
            ..
        } => {
            names_in_arguments(arguments, names)?;
            names_in_selects(selects, names)
        }
        Expr::Name { name, postfixes } => {
            hand_on(*name, postfixes, names)?;
            names_in_postfixes(postfixes, names)
        }
        Expr::Unary { operand, .. } => names_in(operand, names),
        Expr::Operations { first, operations } => {
            names_in(first, names)?;
            names_in_operations(operations, names)
        }
        Expr::Conditional {
            condition,
            chosen,
            otherwise,
            ..
        } => {
            names_in(condition, names)?;
            names_in(chosen, names)?;
            names_in(otherwise, names)
        }
        Expr::Implication { left, right, .. } => {
            names_in(left, names)?;
            names_in(right, names)
        }
    }
}

/// Those in expressions.
///
/// # Errors
/// For want of memory alone.
#[cycle(names)]
#[tactic(auto, using(crate::proofs::Rows::expression_row_of, crate::proofs::Rows::expression_step, crate::proofs::Rows::expression_end, std::proofs::lemmas::Grind::common_steps))]
pub fn names_in_all<R: Resolver>(expressions: &Row<Expr>, names: &mut R) -> Result<(), NoMemory>
    ensures { OnOk result (names.new ≡ fold R.after names.old (uses_of_expressions expressions.now)) }
{
    'expressions: for expression in &expressions.items {
        names_in(expression, names)?;
    }
    Ok(())
}

/// Those in ranges in brackets.
#[cycle(names)]
#[tactic(auto, using(crate::proofs::Rows::range_select_row_of, crate::proofs::Rows::range_select_step, crate::proofs::Rows::range_select_end, std::proofs::lemmas::Grind::common_steps))]
fn names_in_range_selects<R: Resolver>(
    selects: &Vec<RangeSelect>,
    names: &mut R,
) -> Result<(), NoMemory>
    ensures { OnOk result (names.new ≡ fold R.after names.old (uses_of_range_selects selects.now)) }
{
    'selects: for select in selects {
        names_in_range_select(select, names)?;
    }
    Ok(())
}

/// Those in dimensions.
///
/// # Errors
/// For want of memory alone.
#[cycle(names)]
#[tactic(auto, using(crate::proofs::Rows::dimension_row_of, crate::proofs::Rows::dimension_step, crate::proofs::Rows::dimension_end, std::proofs::lemmas::Grind::common_steps))]
pub fn names_in_dimensions<R: Resolver>(
    dimensions: &Vec<Dimension>,
    names: &mut R,
) -> Result<(), NoMemory>
    ensures { OnOk result (names.new ≡ fold R.after names.old (uses_of_dimensions dimensions.now)) }
{
    'dimensions: for dimension in dimensions {
        names_in_dimension(dimension, names)?;
    }
    Ok(())
}

/// Those in selects.
///
/// # Errors
/// For want of memory alone.
#[cycle(names)]
#[tactic(auto, using(crate::proofs::Rows::select_row_of, crate::proofs::Rows::select_step, crate::proofs::Rows::select_end, std::proofs::lemmas::Grind::common_steps))]
pub fn names_in_selects<R: Resolver>(selects: &Vec<Select>, names: &mut R) -> Result<(), NoMemory>
    ensures { OnOk result (names.new ≡ fold R.after names.old (uses_of_selects selects.now)) }
{
    'selects: for select in selects {
        names_in_select(select, names)?;
    }
    Ok(())
}

/// Those in what is applied to a name.
#[cycle(names)]
#[tactic(auto, using(crate::proofs::Rows::postfix_row_of, crate::proofs::Rows::postfix_step, crate::proofs::Rows::postfix_end, std::proofs::lemmas::Grind::common_steps))]
fn names_in_postfixes<R: Resolver>(postfixes: &Vec<Postfix>, names: &mut R) -> Result<(), NoMemory>
    ensures { OnOk result (names.new ≡ fold R.after names.old (uses_of_postfixes postfixes.now)) }
{
    'postfixes: for postfix in postfixes {
        names_in_postfix(postfix, names)?;
    }
    Ok(())
}

/// Those in operations.
#[cycle(names)]
#[tactic(auto, using(crate::proofs::Rows::operation_row_of, crate::proofs::Rows::operation_step, crate::proofs::Rows::operation_end, std::proofs::lemmas::Grind::common_steps))]
fn names_in_operations<R: Resolver>(
    operations: &Vec<Operation>,
    names: &mut R,
) -> Result<(), NoMemory>
    ensures { OnOk result (names.new ≡ fold R.after names.old (uses_of_operations operations.now)) }
{
    'operations: for operation in operations {
        names_in_operation(operation, names)?;
    }
    Ok(())
}

/// Those in the values of arguments.
///
/// # Errors
/// For want of memory alone.
#[cycle(names)]
#[tactic(auto, using(crate::proofs::Rows::argument_row_of, crate::proofs::Rows::argument_step, crate::proofs::Rows::argument_end, std::proofs::lemmas::Grind::common_steps))]
pub fn names_in_arguments<R: Resolver>(list: &ArgumentList, names: &mut R) -> Result<(), NoMemory>
    ensures { OnOk result (names.new ≡ fold R.after names.old (uses_of_arguments list.now)) }
{
    'arguments: for argument in &list.arguments.items {
        names_in_argument(argument, names)?;
    }
    Ok(())
}

/// Those in values and in the bounds of ranges.
#[cycle(names)]
#[tactic(auto, using(crate::proofs::Rows::value_range_row_of, crate::proofs::Rows::value_range_step, crate::proofs::Rows::value_range_end, std::proofs::lemmas::Grind::common_steps))]
fn names_in_value_ranges<R: Resolver>(
    ranges: &Row<ValueRange>,
    names: &mut R,
) -> Result<(), NoMemory>
    ensures { OnOk result (names.new ≡ fold R.after names.old (uses_of_value_ranges ranges.now)) }
{
    'values: for range in &ranges.items {
        names_in_value_range(range, names)?;
    }
    Ok(())
}

/// Those in the items of a pattern.
#[cycle(names)]
#[tactic(auto, using(crate::proofs::Rows::pattern_item_row_of, crate::proofs::Rows::pattern_item_step, crate::proofs::Rows::pattern_item_end, std::proofs::lemmas::Grind::common_steps))]
fn names_in_pattern<R: Resolver>(pattern: &Pattern, names: &mut R) -> Result<(), NoMemory>
    ensures { OnOk result (names.new ≡ fold R.after names.old (uses_of_pattern pattern.now)) }
{
    'items: for item in &pattern.items.items {
        names_in_pattern_item(item, names)?;
    }
    Ok(())
}

/// Those in the places of a range in brackets.
#[cycle(names)]
fn names_in_range_select<R: Resolver>(select: &RangeSelect, names: &mut R) -> Result<(), NoMemory>
    ensures { OnOk result (names.new ≡ fold R.after names.old (range_select_uses select.now)) }
{
    names_in_range(&select.range, names)
}

/// Those in the places of a range.
#[cycle(names)]
#[tactic(auto, using(std::proofs::lemmas::Grind::common_steps), unfolding(crate::specs::Uses::range_uses))]
fn names_in_range<R: Resolver>(range: &Range, names: &mut R) -> Result<(), NoMemory>
    ensures { OnOk result (names.new ≡ fold R.after names.old (range_uses range.now)) }
{
    match range {
        Range::Index { index } => names_in(index, names),
        Range::Between { left, right, .. } => {
            names_in(left, names)?;
            names_in(right, names)
        }
        Range::Upward { from, width, .. } => {
            names_in(from, names)?;
            names_in(width, names)
        }
        Range::Downward { from, width, .. } => {
            names_in(from, names)?;
            names_in(width, names)
        }
    }
}

/// Those in a dimension.
#[cycle(names)]
#[tactic(auto, using(std::proofs::lemmas::Grind::common_steps), unfolding(crate::specs::Uses::dimension_uses))]
fn names_in_dimension<R: Resolver>(dimension: &Dimension, names: &mut R) -> Result<(), NoMemory>
    ensures { OnOk result (names.new ≡ fold R.after names.old (dimension_uses dimension.now)) }
{
    match dimension {
        Dimension::Size { size, .. } => names_in(size, names),
        Dimension::Range { left, right, .. } => {
            names_in(left, names)?;
            names_in(right, names)
        }
    }
}

/// Those in a select.
#[cycle(names)]
#[tactic(auto, using(std::proofs::lemmas::Grind::common_steps), unfolding(crate::specs::Uses::select_uses))]
fn names_in_select<R: Resolver>(select: &Select, names: &mut R) -> Result<(), NoMemory>
    ensures { OnOk result (names.new ≡ fold R.after names.old (select_uses select.now)) }
{
    match select {
        Select::Member { .. } => Ok(()),
        Select::Range { select } => names_in_range(&select.range, names),
    }
}

/// Those in one thing that is applied to a name.
#[cycle(names)]
#[tactic(auto, using(std::proofs::lemmas::Grind::common_steps), unfolding(crate::specs::Uses::postfix_uses))]
fn names_in_postfix<R: Resolver>(postfix: &Postfix, names: &mut R) -> Result<(), NoMemory>
    ensures { OnOk result (names.new ≡ fold R.after names.old (postfix_uses postfix.now)) }
{
    match postfix {
        Postfix::Select { select } => names_in_select(select, names),
        Postfix::Call { arguments } => names_in_arguments(arguments, names),
        Postfix::Cast { cast } => names_in(&cast.value.value, names),
        Postfix::Pattern { pattern } => names_in_pattern(pattern, names),
    }
}

/// Those in an operation.
#[cycle(names)]
#[tactic(auto, using(std::proofs::lemmas::Grind::common_steps), unfolding(crate::specs::Uses::operation_uses))]
fn names_in_operation<R: Resolver>(operation: &Operation, names: &mut R) -> Result<(), NoMemory>
    ensures { OnOk result (names.new ≡ fold R.after names.old (operation_uses operation.now)) }
{
    match operation {
        Operation::Binary { right, .. } => names_in(right, names),
        Operation::Inside { ranges, .. } => names_in_value_ranges(ranges, names),
    }
}

/// Those in the value of an argument.
#[cycle(names)]
#[tactic(auto, using(std::proofs::lemmas::Grind::common_steps), unfolding(crate::specs::Uses::argument_uses))]
fn names_in_argument<R: Resolver>(argument: &Arg, names: &mut R) -> Result<(), NoMemory>
    ensures { OnOk result (names.new ≡ fold R.after names.old (argument_uses argument.now)) }
{
    match argument {
        Arg::Named { value, .. } => names_in(value, names),
        Arg::Ordered { value } => names_in(value, names),
        Arg::Wildcard { .. } | Arg::Implicit { .. } | Arg::Unconnected { .. } => Ok(()),
        Arg::Empty => Ok(()),
    }
}

/// Those in a value, or in the bounds of a range.
#[cycle(names)]
#[tactic(auto, using(std::proofs::lemmas::Grind::common_steps), unfolding(crate::specs::Uses::value_range_uses))]
fn names_in_value_range<R: Resolver>(range: &ValueRange, names: &mut R) -> Result<(), NoMemory>
    ensures { OnOk result (names.new ≡ fold R.after names.old (value_range_uses range.now)) }
{
    match range {
        ValueRange::Between { low, high, .. } => {
            names_in(low, names)?;
            names_in(high, names)
        }
        ValueRange::Value { value } => names_in(value, names),
    }
}

/// Those in an item of a pattern.
#[cycle(names)]
#[tactic(auto, using(std::proofs::lemmas::Grind::common_steps), unfolding(crate::specs::Uses::pattern_item_uses))]
fn names_in_pattern_item<R: Resolver>(item: &PatternItem, names: &mut R) -> Result<(), NoMemory>
    ensures { OnOk result (names.new ≡ fold R.after names.old (pattern_item_uses item.now)) }
{
    match item {
        PatternItem::Default { value, .. } => names_in(value, names),
        PatternItem::Value { value } => names_in(value, names),
        PatternItem::Keyed { key, value, .. } => {
            if is_plain_name(key) {
                return names_in(value, names);
            }
            names_in(key, names)?;
            names_in(value, names)
        }
        PatternItem::Repeated { count, values, .. } => {
            names_in(count, names)?;
            names_in_all(values, names)
        }
    }
}

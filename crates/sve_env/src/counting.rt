ghost use Rattle.std.specs.Prelude.{◌≡◌, ◌+◌, true};
ghost use Rattle.sve_fault.specs.Counts.{IsFuel, Counts};
ghost use Rattle.sve_env.specs.Nodes.{has_operands, has_rows, nodes, range_nodes, dimension_nodes, select_nodes, argument_nodes, postfix_nodes, operation_nodes, value_range_nodes, pattern_item_nodes, nodes_of_expressions, nodes_of_range_selects, nodes_of_dimensions, nodes_of_selects, nodes_of_arguments, nodes_of_postfixes, nodes_of_operations, nodes_of_value_ranges, nodes_of_pattern};

use crate::env::Env;
use sve_fault::{Fuel, Halted, spend};
use sve_tree::{
    Arg, ArgumentList, Cast, Dimension, Expr, Operation, Pattern, PatternItem, Postfix, Range,
    RangeSelect, Row, ScopedName, Select, ValueRange,
};

/// Counts the nodes of an expression, and what its calls count, and evaluates nothing else.
#[cycle(visit)]
#[tactic(auto, unfolding(crate::specs::Nodes::nodes))]
pub fn visit<E: Env>(expr: &Expr, env: &E, fuel: &mut Fuel) -> Result<(), Halted>
    requires { IsFuel fuel.old }
    ensures { Counts result fuel.old fuel.new (nodes (E.told env.now) expr.now) }
{
    match expr {
        Expr::Decimal { .. } => spend(fuel),
        Expr::Sized { .. } => spend(fuel),
        Expr::Based { .. } => spend(fuel),
        Expr::Unbased { .. } => spend(fuel),
        Expr::Text { .. } => spend(fuel),
        Expr::Parenthesized { inner } => visit(&inner.value, env, fuel),
        Expr::Pattern { pattern } => visit_pattern(pattern, env, fuel),
        Expr::Type { dimensions, .. } => visit_dimensions(dimensions, env, fuel),
        Expr::SizeCast { cast, .. } => {
            spend(fuel)?;
            visit_cast(cast, env, fuel)
        }
        Expr::SignCast { cast, .. } => visit_cast(cast, env, fuel),
        Expr::Name { name, postfixes } => {
            spend(fuel)?;
            visit_postfixes(*name, postfixes, env, fuel)
        }
        Expr::Unary { operand, .. } => {
            spend(fuel)?;
            visit(operand, env, fuel)
        }
        Expr::ParenthesizedCast { .. } => visit_operands(expr, env, fuel),
        Expr::Operations { .. } => visit_operands(expr, env, fuel),
        Expr::Conditional { .. } => visit_operands(expr, env, fuel),
        Expr::Implication { .. } => visit_operands(expr, env, fuel),
        Expr::Replication { .. } => visit_rows(expr, env, fuel),
        Expr::Concatenation { .. } => visit_rows(expr, env, fuel),
        Expr::TypeCast { .. } => visit_rows(expr, env, fuel),
        Expr::SystemName { .. } => visit_rows(expr, env, fuel),
        Expr::SystemCall { .. } => visit_rows(expr, env, fuel),
    }
}

/// The nodes of a cast beside its size: one, and those of what is cast.
#[cycle(visit)]
fn visit_cast<E: Env>(cast: &Cast, env: &E, fuel: &mut Fuel) -> Result<(), Halted>
    requires { IsFuel fuel.old }
    ensures { Counts result fuel.old fuel.new (1 + nodes (E.told env.now) cast.now.value.value.value) }
{
    spend(fuel)?;
    visit(&cast.value.value, env, fuel)
}

/// The nodes of a form of several operands.
#[cycle(visit)]
#[tactic(auto, unfolding(crate::specs::Nodes::nodes))]
fn visit_operands<E: Env>(expr: &Expr, env: &E, fuel: &mut Fuel) -> Result<(), Halted>
    requires fuel { IsFuel fuel.old }
    requires operands { has_operands expr.now ≡ true }
    ensures { Counts result fuel.old fuel.new (nodes (E.told env.now) expr.now) }
{
    match expr {
        Expr::ParenthesizedCast { size, cast } => {
            visit(&size.value, env, fuel)?;
            visit_cast(cast, env, fuel)
        }
        Expr::Operations { first, operations } => {
            visit(first, env, fuel)?;
            visit_operations(operations, env, fuel)
        }
        Expr::Conditional {
            condition,
            chosen,
            otherwise,
            ..
        } => {
            spend(fuel)?;
            visit(condition, env, fuel)?;
            visit(chosen, env, fuel)?;
            visit(otherwise, env, fuel)
        }
        Expr::Implication { left, right, .. } => {
            spend(fuel)?;
            visit(left, env, fuel)?;
            visit(right, env, fuel)
        }
        Expr::Decimal { .. }
        | Expr::Sized { .. }
        | Expr::SizeCast { .. }
        | Expr::Based { .. }
        | Expr::Unbased { .. }
        | Expr::Text { .. }
        | Expr::Parenthesized { .. }
        | Expr::Pattern { .. }
        | Expr::Replication { .. }
        | Expr::Concatenation { .. }
        | Expr::SignCast { .. }
        | Expr::Type { .. }
        | Expr::TypeCast { .. }
        | Expr::SystemName { .. }
        | Expr::SystemCall { .. }
        | Expr::Name { .. }
        | Expr::Unary { .. } => unreachable!(),
    }
}

/// The nodes of a form with a row of operands, of dimensions, of arguments or of selects.
#[cycle(visit)]
#[tactic(auto, unfolding(crate::specs::Nodes::nodes))]
fn visit_rows<E: Env>(expr: &Expr, env: &E, fuel: &mut Fuel) -> Result<(), Halted>
    requires fuel { IsFuel fuel.old }
    requires rows { has_rows expr.now ≡ true }
    ensures { Counts result fuel.old fuel.new (nodes (E.told env.now) expr.now) }
{
    match expr {
        Expr::Replication {
            count,
            operands,
            selects,
            ..
        } => {
            spend(fuel)?;
            visit(count, env, fuel)?;
            visit_all(operands, env, fuel)?;
            visit_range_selects(selects, env, fuel)
        }
        Expr::Concatenation {
            operands,
            selects,
            ..
        } => {
            spend(fuel)?;
            visit_all(operands, env, fuel)?;
            visit_range_selects(selects, env, fuel)
        }
        Expr::TypeCast {
            dimensions,
            cast,
            ..
        } => {
            spend(fuel)?;
            visit_dimensions(dimensions, env, fuel)?;
            visit(&cast.value.value, env, fuel)
        }
        Expr::SystemName { selects, .. } => {
            spend(fuel)?;
            visit_selects(selects, env, fuel)
        }
        Expr::SystemCall {
            arguments,
            selects,
            ..
        } => {
            spend(fuel)?;
            visit_arguments(arguments, env, fuel)?;
            visit_selects(selects, env, fuel)
        }
        Expr::Decimal { .. }
        | Expr::Sized { .. }
        | Expr::SizeCast { .. }
        | Expr::Based { .. }
        | Expr::Unbased { .. }
        | Expr::Text { .. }
        | Expr::Parenthesized { .. }
        | Expr::ParenthesizedCast { .. }
        | Expr::Pattern { .. }
        | Expr::SignCast { .. }
        | Expr::Type { .. }
        | Expr::Name { .. }
        | Expr::Unary { .. }
        | Expr::Operations { .. }
        | Expr::Conditional { .. }
        | Expr::Implication { .. } => unreachable!(),
    }
}

/// The nodes of expressions.
#[cycle(visit)]
#[tactic(auto, using(crate::proofs::Rows::expression_row_of, crate::proofs::Rows::expression_count_step, crate::proofs::Rows::expression_count_end))]
fn visit_all<E: Env>(expressions: &Row<Expr>, env: &E, fuel: &mut Fuel) -> Result<(), Halted>
    requires { IsFuel fuel.old }
    ensures { Counts result fuel.old fuel.new (nodes_of_expressions (E.told env.now) expressions.now) }
{
    'expressions: for expression in &expressions.items {
        visit(expression, env, fuel)?;
    }
    Ok(())
}

/// The nodes of ranges in brackets: one for each, and those of its places.
#[cycle(visit)]
#[tactic(auto, using(crate::proofs::Rows::range_select_row_of, crate::proofs::Rows::range_select_count_step, crate::proofs::Rows::range_select_count_end))]
pub fn visit_range_selects<E: Env>(
    selects: &Vec<RangeSelect>,
    env: &E,
    fuel: &mut Fuel,
) -> Result<(), Halted>
    requires { IsFuel fuel.old }
    ensures { Counts result fuel.old fuel.new (nodes_of_range_selects (E.told env.now) selects.now) }
{
    'selects: for select in selects {
        visit_range_select(select, env, fuel)?;
    }
    Ok(())
}

/// The nodes of a range in brackets: one, and those of its places.
#[cycle(visit)]
fn visit_range_select<E: Env>(select: &RangeSelect, env: &E, fuel: &mut Fuel) -> Result<(), Halted>
    requires { IsFuel fuel.old }
    ensures { Counts result fuel.old fuel.new (1 + range_nodes (E.told env.now) select.now.range) }
{
    spend(fuel)?;
    visit_range(&select.range, env, fuel)
}

/// The nodes of dimensions.
#[cycle(visit)]
#[tactic(auto, using(crate::proofs::Rows::dimension_row_of, crate::proofs::Rows::dimension_count_step, crate::proofs::Rows::dimension_count_end))]
pub fn visit_dimensions<E: Env>(
    dimensions: &Vec<Dimension>,
    env: &E,
    fuel: &mut Fuel,
) -> Result<(), Halted>
    requires { IsFuel fuel.old }
    ensures { Counts result fuel.old fuel.new (nodes_of_dimensions (E.told env.now) dimensions.now) }
{
    'dimensions: for dimension in dimensions {
        visit_dimension(dimension, env, fuel)?;
    }
    Ok(())
}

/// The nodes of selects: one for each, and those of its places.
#[cycle(visit)]
#[tactic(auto, using(crate::proofs::Rows::select_row_of, crate::proofs::Rows::select_count_step, crate::proofs::Rows::select_count_end))]
pub fn visit_selects<E: Env>(selects: &Vec<Select>, env: &E, fuel: &mut Fuel) -> Result<(), Halted>
    requires { IsFuel fuel.old }
    ensures { Counts result fuel.old fuel.new (nodes_of_selects (E.told env.now) selects.now) }
{
    'selects: for select in selects {
        visit_select(select, env, fuel)?;
    }
    Ok(())
}

/// The nodes of the values of arguments.
#[cycle(visit)]
#[tactic(auto, using(crate::proofs::Rows::argument_row_of, crate::proofs::Rows::argument_count_step, crate::proofs::Rows::argument_count_end))]
pub fn visit_arguments<E: Env>(list: &ArgumentList, env: &E, fuel: &mut Fuel) -> Result<(), Halted>
    requires { IsFuel fuel.old }
    ensures { Counts result fuel.old fuel.new (nodes_of_arguments (E.told env.now) list.now) }
{
    'arguments: for argument in &list.arguments.items {
        visit_argument(argument, env, fuel)?;
    }
    Ok(())
}

/// The nodes of operations.
#[cycle(visit)]
#[tactic(auto, using(crate::proofs::Rows::operation_row_of, crate::proofs::Rows::operation_count_step, crate::proofs::Rows::operation_count_end))]
fn visit_operations<E: Env>(
    operations: &Vec<Operation>,
    env: &E,
    fuel: &mut Fuel,
) -> Result<(), Halted>
    requires { IsFuel fuel.old }
    ensures { Counts result fuel.old fuel.new (nodes_of_operations (E.told env.now) operations.now) }
{
    'operations: for operation in operations {
        visit_operation(operation, env, fuel)?;
    }
    Ok(())
}

/// The nodes of values and of the bounds of ranges.
#[cycle(visit)]
#[tactic(auto, using(crate::proofs::Rows::value_range_row_of, crate::proofs::Rows::value_range_count_step, crate::proofs::Rows::value_range_count_end))]
pub fn visit_value_ranges<E: Env>(
    ranges: &Row<ValueRange>,
    env: &E,
    fuel: &mut Fuel,
) -> Result<(), Halted>
    requires { IsFuel fuel.old }
    ensures { Counts result fuel.old fuel.new (nodes_of_value_ranges (E.told env.now) ranges.now) }
{
    'values: for range in &ranges.items {
        visit_value_range(range, env, fuel)?;
    }
    Ok(())
}

/// The nodes of the items of a pattern.
#[cycle(visit)]
#[tactic(auto, using(crate::proofs::Rows::pattern_item_row_of, crate::proofs::Rows::pattern_item_count_step, crate::proofs::Rows::pattern_item_count_end))]
pub fn visit_pattern<E: Env>(pattern: &Pattern, env: &E, fuel: &mut Fuel) -> Result<(), Halted>
    requires { IsFuel fuel.old }
    ensures { Counts result fuel.old fuel.new (nodes_of_pattern (E.told env.now) pattern.now) }
{
    'items: for item in &pattern.items.items {
        visit_pattern_item(item, env, fuel)?;
    }
    Ok(())
}

/// The nodes of what is applied to a name.
#[cycle(visit)]
#[tactic(auto, using(crate::proofs::Rows::postfix_row_of, crate::proofs::Rows::postfix_count_step, crate::proofs::Rows::postfix_count_end))]
fn visit_postfixes<E: Env>(
    name: ScopedName,
    postfixes: &Vec<Postfix>,
    env: &E,
    fuel: &mut Fuel,
) -> Result<(), Halted>
    requires { IsFuel fuel.old }
    ensures { Counts result fuel.old fuel.new (nodes_of_postfixes (E.told env.now) name postfixes.now) }
{
    'postfixes: for postfix in postfixes {
        visit_postfix(name, postfix, env, fuel)?;
    }
    Ok(())
}

/// The nodes of one thing that is applied to a name. A call counts for itself.
#[cycle(visit)]
#[tactic(auto, using(crate::proofs::Rows::nodes_call), unfolding(crate::specs::Nodes::postfix_nodes))]
fn visit_postfix<E: Env>(
    name: ScopedName,
    postfix: &Postfix,
    env: &E,
    fuel: &mut Fuel,
) -> Result<(), Halted>
    requires { IsFuel fuel.old }
    ensures { Counts result fuel.old fuel.new (postfix_nodes (E.told env.now) name postfix.now) }
{
    match postfix {
        Postfix::Select { select } => visit_select(select, env, fuel),
        Postfix::Call { arguments } => visit_call(name, arguments, env, fuel),
        Postfix::Cast { cast } => visit_cast(cast, env, fuel),
        Postfix::Pattern { pattern } => visit_pattern(pattern, env, fuel),
    }
}

/// What a call counts.
fn visit_call<E: Env>(
    name: ScopedName,
    arguments: &ArgumentList,
    env: &E,
    fuel: &mut Fuel,
) -> Result<(), Halted>
    requires { IsFuel fuel.old }
    ensures { Counts result fuel.old fuel.new ((E.told env.now).steps name arguments.now.arguments.items.items) }
{
    match env.call(name, arguments, fuel) {
        Ok(_) => Ok(()),
        Err(halted) => Err(halted),
    }
}

/// The nodes of the places of a range.
#[cycle(visit)]
#[tactic(auto, unfolding(crate::specs::Nodes::range_nodes))]
fn visit_range<E: Env>(range: &Range, env: &E, fuel: &mut Fuel) -> Result<(), Halted>
    requires { IsFuel fuel.old }
    ensures { Counts result fuel.old fuel.new (range_nodes (E.told env.now) range.now) }
{
    match range {
        Range::Index { index } => visit(index, env, fuel),
        Range::Between { left, right, .. } => {
            visit(left, env, fuel)?;
            visit(right, env, fuel)
        }
        Range::Upward { from, width, .. } => {
            visit(from, env, fuel)?;
            visit(width, env, fuel)
        }
        Range::Downward { from, width, .. } => {
            visit(from, env, fuel)?;
            visit(width, env, fuel)
        }
    }
}

/// The nodes of a dimension.
#[cycle(visit)]
#[tactic(auto, unfolding(crate::specs::Nodes::dimension_nodes))]
fn visit_dimension<E: Env>(dimension: &Dimension, env: &E, fuel: &mut Fuel) -> Result<(), Halted>
    requires { IsFuel fuel.old }
    ensures { Counts result fuel.old fuel.new (dimension_nodes (E.told env.now) dimension.now) }
{
    match dimension {
        Dimension::Size { size, .. } => visit(size, env, fuel),
        Dimension::Range { left, right, .. } => {
            visit(left, env, fuel)?;
            visit(right, env, fuel)
        }
    }
}

/// The nodes of a select: one, and those of its places.
#[cycle(visit)]
#[tactic(auto, unfolding(crate::specs::Nodes::select_nodes))]
pub fn visit_select<E: Env>(select: &Select, env: &E, fuel: &mut Fuel) -> Result<(), Halted>
    requires { IsFuel fuel.old }
    ensures { Counts result fuel.old fuel.new (select_nodes (E.told env.now) select.now) }
{
    match select {
        Select::Member { .. } => spend(fuel),
        Select::Range { select } => visit_range_select(select, env, fuel),
    }
}

/// The nodes of the value of an argument.
#[cycle(visit)]
#[tactic(auto, unfolding(crate::specs::Nodes::argument_nodes))]
fn visit_argument<E: Env>(argument: &Arg, env: &E, fuel: &mut Fuel) -> Result<(), Halted>
    requires { IsFuel fuel.old }
    ensures { Counts result fuel.old fuel.new (argument_nodes (E.told env.now) argument.now) }
{
    match argument {
        Arg::Named { value, .. } => visit(value, env, fuel),
        Arg::Ordered { value } => visit(value, env, fuel),
        Arg::Wildcard { .. } => Ok(()),
        Arg::Implicit { .. } => Ok(()),
        Arg::Unconnected { .. } => Ok(()),
        Arg::Empty => Ok(()),
    }
}

/// The nodes of an operation.
#[cycle(visit)]
#[tactic(auto, unfolding(crate::specs::Nodes::operation_nodes))]
fn visit_operation<E: Env>(operation: &Operation, env: &E, fuel: &mut Fuel) -> Result<(), Halted>
    requires { IsFuel fuel.old }
    ensures { Counts result fuel.old fuel.new (operation_nodes (E.told env.now) operation.now) }
{
    match operation {
        Operation::Binary { right, .. } => {
            spend(fuel)?;
            visit(right, env, fuel)
        }
        Operation::Inside { ranges, .. } => {
            spend(fuel)?;
            visit_value_ranges(ranges, env, fuel)
        }
    }
}

/// The nodes of a value, or of the bounds of a range.
#[cycle(visit)]
#[tactic(auto, unfolding(crate::specs::Nodes::value_range_nodes))]
fn visit_value_range<E: Env>(range: &ValueRange, env: &E, fuel: &mut Fuel) -> Result<(), Halted>
    requires { IsFuel fuel.old }
    ensures { Counts result fuel.old fuel.new (value_range_nodes (E.told env.now) range.now) }
{
    match range {
        ValueRange::Between { low, high, .. } => {
            visit(low, env, fuel)?;
            visit(high, env, fuel)
        }
        ValueRange::Value { value } => visit(value, env, fuel),
    }
}

/// The nodes of an item of a pattern.
#[cycle(visit)]
#[tactic(auto, unfolding(crate::specs::Nodes::pattern_item_nodes))]
fn visit_pattern_item<E: Env>(item: &PatternItem, env: &E, fuel: &mut Fuel) -> Result<(), Halted>
    requires { IsFuel fuel.old }
    ensures { Counts result fuel.old fuel.new (pattern_item_nodes (E.told env.now) item.now) }
{
    match item {
        PatternItem::Default { value, .. } => visit(value, env, fuel),
        PatternItem::Value { value } => visit(value, env, fuel),
        PatternItem::Keyed { key, value, .. } => {
            visit(key, env, fuel)?;
            visit(value, env, fuel)
        }
        PatternItem::Repeated { count, values, .. } => {
            visit(count, env, fuel)?;
            visit_all(values, env, fuel)
        }
    }
}

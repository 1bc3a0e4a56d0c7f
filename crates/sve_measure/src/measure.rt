ghost use Rattle.std.specs.Prelude.{◌≡◌, ◌+◌, true, IfOk};
ghost use Rattle.sve_fault.specs.Counts.{IsFuel, Counts};
ghost use Rattle.sve_rule.specs.Judged.{judged};
ghost use Rattle.sve_rule.specs.Rules.{decimal_judged, size_cast_judged, sign_cast_judged, unary_judged, binary_judged, choice_judged, type_cast_judged};
ghost use Rattle.sve_env.specs.Nodes.{nodes, operation_nodes, nodes_of_operations};
ghost use Rattle.sve_form.specs.Operators.{is_signed, unary_named};
ghost use Rattle.sve_form.specs.Keywords.{keyword_target};
ghost use Rattle.sve_measure.specs.Constants.{has_operands, has_row, measured, value_of_operations, operation_after};

use crate::functions::system_call;
use crate::naming::name_value;
use crate::operands::{concatenation, places, repeated, selected};
use std::alloc::Global;
use sve_env::Env;
use sve_fault::{Fault, Fuel, Halted, spend};
use sve_form::{is_plain, keyword_target, token_of};
use sve_leaf::{based, decimal, inside, pattern, sized, system_name, text, type_value, unbased};
use sve_rule::Judged;
use sve_tree::{Cast, Expr, IntegerKeyword, Mark, Operation, Sign, UnaryOperator};
use sve_value::Binary;

/// What an expression means, or its first fault (IEEE 1800-2017, 11.6 and 11.8). It counts the nodes, and what the calls count, and is
/// Over exactly where these pass the most, whether or not there is a fault.
#[cycle(measure)]
#[tactic(auto, unfolding(crate::specs::Constants::measured, sve_env::specs::Nodes::nodes))]
pub fn operand<E: Env>(
    alloc: Global,
    expr: &Expr,
    env: &E,
    fuel: &mut Fuel,
) -> Result<Judged, Halted>
    requires { IsFuel fuel.old }
    ensures meaning { IfOk result (λ r. judged r ≡ measured (E.told env.now) expr.now) }
    ensures count { Counts result fuel.old fuel.new (nodes (E.told env.now) expr.now) }
{
    match expr {
        Expr::Decimal { token } => decimal(*token, env, fuel),
        Expr::Sized { size, based } => sized(*size, *based, env, fuel),
        Expr::Based { token } => based(*token, env, fuel),
        Expr::Unbased { token } => unbased(*token, env, fuel),
        Expr::Text { token } => text(alloc, *token, env, fuel),
        Expr::Parenthesized { inner } => operand(alloc, &inner.value, env, fuel),
        Expr::SizeCast { size, cast } => size_cast(alloc, *size, cast, env, fuel),
        Expr::SignCast { sign, cast } => sign_cast(alloc, *sign, cast, env, fuel),
        Expr::Unary { operator, operand } => unary(alloc, *operator, operand, env, fuel),
        Expr::Name { name, postfixes } => name_value(alloc, *name, postfixes, env, fuel),
        Expr::SystemCall {
            name,
            arguments,
            selects,
        } => system_call(alloc, *name, arguments, selects, env, fuel),
        Expr::Pattern { pattern: value } => pattern(value.opening, value, env, fuel),
        Expr::Type {
            keyword,
            dimensions,
            ..
        } => type_value(alloc, *keyword, dimensions, env, fuel),
        Expr::SystemName { name, selects } => system_name(*name, selects, env, fuel),
        Expr::ParenthesizedCast { .. } => operated(alloc, expr, env, fuel),
        Expr::Operations { .. } => operated(alloc, expr, env, fuel),
        Expr::Conditional { .. } => operated(alloc, expr, env, fuel),
        Expr::Implication { .. } => operated(alloc, expr, env, fuel),
        Expr::Replication { .. } => rowed(alloc, expr, env, fuel),
        Expr::Concatenation { .. } => rowed(alloc, expr, env, fuel),
        Expr::TypeCast { .. } => rowed(alloc, expr, env, fuel),
    }
}

/// The forms of several operands, which are evaluated in their order.
#[cycle(measure)]
#[tactic(auto, unfolding(crate::specs::Constants::measured, sve_env::specs::Nodes::nodes))]
fn operated<E: Env>(alloc: Global, expr: &Expr, env: &E, fuel: &mut Fuel) -> Result<Judged, Halted>
    requires fuel { IsFuel fuel.old }
    requires operands { has_operands expr.now ≡ true }
    ensures meaning { IfOk result (λ r. judged r ≡ measured (E.told env.now) expr.now) }
    ensures count { Counts result fuel.old fuel.new (nodes (E.told env.now) expr.now) }
{
    match expr {
        Expr::ParenthesizedCast { size, cast } => {
            spend(fuel)?;
            let number = operand(alloc, &size.value, env, fuel)?;
            cast_behind(alloc, size.opening, number, cast, env, fuel)
        }
        Expr::Operations { first, operations } => {
            let value = operand(alloc, first, env, fuel)?;
            chain(alloc, token_of(first), value, operations, env, fuel)
        }
        Expr::Conditional {
            condition,
            chosen,
            otherwise,
            ..
        } => {
            spend(fuel)?;
            let condition = operand(alloc, condition, env, fuel)?;
            let (condition, chosen) = second(alloc, condition, chosen, env, fuel)?;
            conditional(alloc, condition, chosen, otherwise, env, fuel)
        }
        Expr::Implication {
            left,
            operator,
            right,
        } => {
            let value = operand(alloc, left, env, fuel)?;
            let operator = sve_form::implication(operator.kind);
            binary(alloc, operator, value, right, env, fuel)
        }
        Expr::Decimal { .. }
        | Expr::Sized { .. }
        | Expr::SizeCast { .. }
        | Expr::Based { .. }
        | Expr::Unbased { .. }
        | Expr::Text { .. }
        | Expr::Parenthesized { .. }
        | Expr::Pattern { .. }
        | Expr::Replication { .. }
        | Expr::Concatenation { .. }
        | Expr::SignCast { .. }
        | Expr::Type { .. }
        | Expr::TypeCast { .. }
        | Expr::SystemName { .. }
        | Expr::SystemCall { .. }
        | Expr::Name { .. }
        | Expr::Unary { .. } => unreachable!(),
    }
}

/// The forms with a row of operands or of dimensions, which are evaluated in their order.
#[cycle(measure)]
#[tactic(auto, unfolding(crate::specs::Constants::measured, sve_env::specs::Nodes::nodes))]
fn rowed<E: Env>(alloc: Global, expr: &Expr, env: &E, fuel: &mut Fuel) -> Result<Judged, Halted>
    requires fuel { IsFuel fuel.old }
    requires row { has_row expr.now ≡ true }
    ensures meaning { IfOk result (λ r. judged r ≡ measured (E.told env.now) expr.now) }
    ensures count { Counts result fuel.old fuel.new (nodes (E.told env.now) expr.now) }
{
    match expr {
        Expr::Replication {
            opening,
            count,
            operands,
            selects,
            ..
        } => {
            spend(fuel)?;
            let number = operand(alloc, count, env, fuel)?;
            let token = token_of(count);
            let value = repeated(alloc, *opening, token, number, operands, env, fuel)?;
            selected(alloc, *opening, value, selects, env, fuel)
        }
        Expr::Concatenation {
            opening,
            operands,
            selects,
            ..
        } => {
            let value = concatenation(alloc, *opening, operands, env, fuel)?;
            selected(alloc, *opening, value, selects, env, fuel)
        }
        Expr::TypeCast {
            keyword,
            sign,
            dimensions,
            cast,
        } => {
            spend(fuel)?;
            let places = places(alloc, dimensions, env, fuel)?;
            let is_plain = is_plain(dimensions);
            type_cast(alloc, *keyword, *sign, is_plain, places, cast, env, fuel)
        }
        Expr::Decimal { .. }
        | Expr::Sized { .. }
        | Expr::SizeCast { .. }
        | Expr::Based { .. }
        | Expr::Unbased { .. }
        | Expr::Text { .. }
        | Expr::Parenthesized { .. }
        | Expr::ParenthesizedCast { .. }
        | Expr::Pattern { .. }
        | Expr::SignCast { .. }
        | Expr::Type { .. }
        | Expr::SystemName { .. }
        | Expr::SystemCall { .. }
        | Expr::Name { .. }
        | Expr::Unary { .. }
        | Expr::Operations { .. }
        | Expr::Conditional { .. }
        | Expr::Implication { .. } => unreachable!(),
    }
}

/// An operand behind another one.
#[cycle(measure)]
pub(crate) fn second<E: Env>(
    alloc: Global,
    first: Judged,
    right: &Expr,
    env: &E,
    fuel: &mut Fuel,
) -> Result<(Judged, Judged), Halted>
    requires { IsFuel fuel.old }
    ensures first { IfOk result (λ r. judged r.0 ≡ judged first) }
    ensures second { IfOk result (λ r. judged r.1 ≡ measured (E.told env.now) right.now) }
    ensures count { Counts result fuel.old fuel.new (nodes (E.told env.now) right.now) }
{
    match operand(alloc, right, env, fuel) {
        Ok(right) => Ok((first, right)),
        Err(halted) => Err(halted),
    }
}

/// The choice behind its condition and its first arm (11.4.11).
#[cycle(measure)]
fn conditional<E: Env>(
    alloc: Global,
    condition: Judged,
    chosen: Judged,
    otherwise: &Expr,
    env: &E,
    fuel: &mut Fuel,
) -> Result<Judged, Halted>
    requires { IsFuel fuel.old }
    ensures meaning { IfOk result (λ r. judged r ≡ choice_judged (judged condition) (judged chosen) (measured (E.told env.now) otherwise.now)) }
    ensures count { Counts result fuel.old fuel.new (nodes (E.told env.now) otherwise.now) }
{
    match operand(alloc, otherwise, env, fuel) {
        Ok(otherwise) => Ok(sve_rule::choice(alloc, condition, chosen, otherwise)?),
        Err(halted) => Err(halted),
    }
}

/// An operator and its right operand, behind the left one (11.4).
#[cycle(measure)]
fn binary<E: Env>(
    alloc: Global,
    operator: Binary,
    left: Judged,
    right: &Expr,
    env: &E,
    fuel: &mut Fuel,
) -> Result<Judged, Halted>
    requires { IsFuel fuel.old }
    ensures meaning { IfOk result (λ r. judged r ≡ binary_judged operator (judged left) (measured (E.told env.now) right.now)) }
    ensures count { Counts result fuel.old fuel.new (1 + nodes (E.told env.now) right.now) }
{
    spend(fuel)?;
    let (left, right) = second(alloc, left, right, env, fuel)?;
    Ok(sve_rule::binary(alloc, operator, left, right)?)
}

/// A cast to a size that is a number (6.24.1).
#[cycle(measure)]
fn size_cast<E: Env>(
    alloc: Global,
    size: u32,
    cast: &Cast,
    env: &E,
    fuel: &mut Fuel,
) -> Result<Judged, Halted>
    requires { IsFuel fuel.old }
    ensures meaning { IfOk result (λ r. judged r ≡ size_cast_judged size (decimal_judged size ((E.told env.now).text size)) (measured (E.told env.now) cast.now.value.value.value)) }
    ensures count { Counts result fuel.old fuel.new (2 + nodes (E.told env.now) cast.now.value.value.value) }
{
    spend(fuel)?;
    let number = decimal(size, env, fuel)?;
    cast_behind(alloc, size, number, cast, env, fuel)
}

/// A cast to a size, behind the size (6.24.1).
#[cycle(measure)]
fn cast_behind<E: Env>(
    alloc: Global,
    token: u32,
    size: Judged,
    cast: &Cast,
    env: &E,
    fuel: &mut Fuel,
) -> Result<Judged, Halted>
    requires { IsFuel fuel.old }
    ensures meaning { IfOk result (λ r. judged r ≡ size_cast_judged token (judged size) (measured (E.told env.now) cast.now.value.value.value)) }
    ensures count { Counts result fuel.old fuel.new (nodes (E.told env.now) cast.now.value.value.value) }
{
    match operand(alloc, &cast.value.value, env, fuel) {
        Ok(value) => Ok(sve_rule::size_cast(token, size, value)),
        Err(halted) => Err(halted),
    }
}

/// A cast to a sign (6.24.1).
#[cycle(measure)]
fn sign_cast<E: Env>(
    alloc: Global,
    sign: Mark<Sign>,
    cast: &Cast,
    env: &E,
    fuel: &mut Fuel,
) -> Result<Judged, Halted>
    requires { IsFuel fuel.old }
    ensures meaning { IfOk result (λ r. judged r ≡ sign_cast_judged (is_signed sign.kind) (measured (E.told env.now) cast.now.value.value.value)) }
    ensures count { Counts result fuel.old fuel.new (1 + nodes (E.told env.now) cast.now.value.value.value) }
{
    spend(fuel)?;
    let value = operand(alloc, &cast.value.value, env, fuel)?;
    Ok(sve_rule::sign_cast(sve_form::is_signed(sign.kind), value))
}

/// An operator before its operand (11.4).
#[cycle(measure)]
fn unary<E: Env>(
    alloc: Global,
    operator: Mark<UnaryOperator>,
    right: &Expr,
    env: &E,
    fuel: &mut Fuel,
) -> Result<Judged, Halted>
    requires { IsFuel fuel.old }
    ensures meaning { IfOk result (λ r. judged r ≡ unary_judged (unary_named operator.kind) (measured (E.told env.now) right.now)) }
    ensures count { Counts result fuel.old fuel.new (1 + nodes (E.told env.now) right.now) }
{
    spend(fuel)?;
    let right = operand(alloc, right, env, fuel)?;
    Ok(sve_rule::unary(alloc, sve_form::unary(operator.kind), right)?)
}

/// A chain of operators of one level, each applied to all that stands before it (11.3.2).
#[cycle(measure)]
#[tactic(auto, using(crate::proofs::Rows::operations_of_vec, crate::proofs::Rows::operations_step, crate::proofs::Rows::operations_end, sve_env::proofs::Rows::operation_row_of, sve_env::proofs::Rows::operation_count_step, sve_env::proofs::Rows::operation_count_end))]
fn chain<E: Env>(
    alloc: Global,
    token: u32,
    first: Judged,
    operations: &Vec<Operation>,
    env: &E,
    fuel: &mut Fuel,
) -> Result<Judged, Halted>
    requires { IsFuel fuel.old }
    ensures meaning { IfOk result (λ r. judged r ≡ value_of_operations (E.told env.now) token (judged first) operations.now) }
    ensures count { Counts result fuel.old fuel.new (nodes_of_operations (E.told env.now) operations.now) }
{
    let mut before = first;
    'operations: for next in operations {
        before = operation(alloc, token, before, next, env, fuel)?;
    }
    Ok(before)
}

/// One operator behind what stands before it.
#[cycle(measure)]
#[tactic(auto, unfolding(crate::specs::Constants::operation_after, sve_env::specs::Nodes::operation_nodes))]
fn operation<E: Env>(
    alloc: Global,
    token: u32,
    before: Judged,
    operation: &Operation,
    env: &E,
    fuel: &mut Fuel,
) -> Result<Judged, Halted>
    requires { IsFuel fuel.old }
    ensures meaning { IfOk result (λ r. judged r ≡ operation_after (E.told env.now) token (judged before) operation.now) }
    ensures count { Counts result fuel.old fuel.new (operation_nodes (E.told env.now) operation.now) }
{
    match operation {
        Operation::Binary { operator, right } => {
            let operator = sve_form::binary(operator.kind);
            binary(alloc, operator, before, right, env, fuel)
        }
        Operation::Inside { ranges, .. } => inside(token, before, ranges, env, fuel),
    }
}

/// A cast to an integer type, behind its dimensions (6.24.1).
#[cycle(measure)]
fn type_cast<E: Env>(
    alloc: Global,
    keyword: Mark<IntegerKeyword>,
    sign: Option<Mark<Sign>>,
    is_plain: bool,
    places: Result<u64, Fault>,
    cast: &Cast,
    env: &E,
    fuel: &mut Fuel,
) -> Result<Judged, Halted>
    requires { IsFuel fuel.old }
    ensures meaning { IfOk result (λ r. judged r ≡ type_cast_judged keyword.token (keyword_target keyword sign is_plain places) (measured (E.told env.now) cast.now.value.value.value)) }
    ensures count { Counts result fuel.old fuel.new (nodes (E.told env.now) cast.now.value.value.value) }
{
    let target = keyword_target(alloc, keyword, sign, is_plain, places)?;
    match operand(alloc, &cast.value.value, env, fuel) {
        Ok(value) => Ok(sve_rule::type_cast(keyword.token, target, value)),
        Err(halted) => Err(halted),
    }
}

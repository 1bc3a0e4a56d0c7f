ghost use Rattle.std.specs.Prelude.{◌≡◌, true, IfOk};
ghost use Rattle.sve_operand.specs.Pending.{meaning_of};
ghost use Rattle.sve_rule.specs.Rules.{assigned};
ghost use Rattle.sve_genvar.specs.Genvar.{index_of};
ghost use Rattle.sve_rule.specs.Judged.{judged};
ghost use Rattle.sve_fault.specs.Counts.{IsFuel};
ghost use Rattle.sve_plan.specs.Follows.{Meters};
ghost use Rattle.sve_genvar.specs.Steps.{after_change, after_step, changed, continued, is_true, kept, operated, operator_of, started, step_operator, stepped};

use crate::bound::{genvar_value, index_of};
use std::alloc::Global;
use sve_bytes::NoMemory;
use sve_env::Env;
use sve_fault::{Fault, Fuel, Halted};
use sve_measure::operand;
use sve_operand::{Operand, settled};
use sve_rule::Judged;
use sve_tree::{AssignmentOperator, Change, Expr, GenvarStep, StepOperator};
use sve_value::{Binary, Bits, truth};

/// A value as it is assigned to the genvar.
fn assigned(operand: &Operand) -> Bits
    ensures { result ≡ assigned 32 true (meaning_of operand.now) }
{
    let size = operand.width().max(32);
    operand.value(size, operand.is_signed()).extend(32, true)
}

/// The first value.
pub(crate) fn start<E: Env>(
    alloc: Global,
    expr: &Expr,
    env: &E,
    fuel: &mut Fuel,
) -> Result<Result<Option<i32>, Fault>, Halted>
    requires { IsFuel fuel.old }
    ensures { Meters fuel.old fuel.new (started (E.told env.now) expr.now) result }
{
    match operand(alloc, expr, env, fuel)? {
        Ok(operand) => Ok(Ok(index_of(assigned(&operand)))),
        Err(fault) => Ok(Err(fault)),
    }
}

/// Whether what is asked is known to be true.
fn is_true(truth: Option<bool>) -> bool
    ensures { result ≡ is_true truth }
{
    match truth {
        Some(truth) => truth,
        None => false,
    }
}

/// Whether the loop goes on.
pub(crate) fn goes_on<E: Env>(
    alloc: Global,
    expr: &Expr,
    env: &E,
    fuel: &mut Fuel,
) -> Result<Result<bool, Fault>, Halted>
    requires { IsFuel fuel.old }
    ensures { Meters fuel.old fuel.new (continued (E.told env.now) expr.now) result }
{
    match operand(alloc, expr, env, fuel)? {
        Ok(operand) => Ok(Ok(is_true(truth(operand.own_value())))),
        Err(fault) => Ok(Err(fault)),
    }
}

/// The operator of an assignment with one (11.4.1).
fn operator_of(operator: AssignmentOperator) -> Option<Binary>
    ensures { result ≡ operator_of operator }
{
    match operator {
        AssignmentOperator::Assign => None,
        AssignmentOperator::Nonblocking => None,
        AssignmentOperator::Plus => Some(Binary::Add),
        AssignmentOperator::Minus => Some(Binary::Subtract),
        AssignmentOperator::Times => Some(Binary::Multiply),
        AssignmentOperator::Divide => Some(Binary::Divide),
        AssignmentOperator::Remainder => Some(Binary::Modulus),
        AssignmentOperator::And => Some(Binary::BitwiseAnd),
        AssignmentOperator::Or => Some(Binary::BitwiseOr),
        AssignmentOperator::Xor => Some(Binary::BitwiseXor),
        AssignmentOperator::LogicalShiftLeft => Some(Binary::LogicalShiftLeft),
        AssignmentOperator::LogicalShiftRight => Some(Binary::LogicalShiftRight),
        AssignmentOperator::ArithmeticShiftLeft => Some(Binary::ArithmeticShiftLeft),
        AssignmentOperator::ArithmeticShiftRight => Some(Binary::ArithmeticShiftRight),
    }
}

/// The value of an assignment with an operator. It fails for want of memory alone.
fn operated(
    alloc: Global,
    operator: Option<Binary>,
    value: i32,
    a: Judged,
) -> Result<Judged, NoMemory>
    ensures { IfOk result (λ r. judged r ≡ operated operator value (judged a)) }
{
    match operator {
        None => Ok(a),
        Some(operator) => { sve_rule::binary(alloc, operator, Ok(settled(genvar_value(value))), a) }
    }
}

/// The operator of a step.
fn step_operator(operator: StepOperator) -> Binary
    ensures { result ≡ step_operator operator }
{
    match operator {
        StepOperator::Increment => Binary::Add,
        StepOperator::Decrement => Binary::Subtract,
    }
}

/// The next value, where the genvar is assigned; else its value.
fn kept(same: bool, value: i32, next: Option<i32>) -> Option<i32>
    ensures { result ≡ kept same value next }
{
    if same { next } else { Some(value) }
}

/// The value behind an assignment of this value. It fails for want of memory alone.
fn changed(
    alloc: Global,
    same: bool,
    value: i32,
    operator: Option<Binary>,
    a: Judged,
) -> Result<Result<Option<i32>, Fault>, NoMemory>
    ensures { IfOk result (λ r. r ≡ changed same value operator (judged a)) }
{
    match operated(alloc, operator, value, a)? {
        Ok(operand) => Ok(Ok(kept(same, value, index_of(assigned(&operand))))),
        Err(fault) => Ok(Err(fault)),
    }
}

/// The value behind `i++` or `i--`. It fails for want of memory alone.
fn stepped(
    alloc: Global,
    same: bool,
    value: i32,
    operator: StepOperator,
) -> Result<Result<Option<i32>, Fault>, NoMemory>
    ensures { IfOk result (λ r. r ≡ stepped same value operator) }
{
    let one = Ok(settled(genvar_value(1)));
    changed(alloc, same, value, Some(step_operator(operator)), one)
}

/// The value behind a change.
fn after_change<E: Env>(
    alloc: Global,
    same: bool,
    value: i32,
    change: &Change,
    env: &E,
    fuel: &mut Fuel,
) -> Result<Result<Option<i32>, Fault>, Halted>
    requires { IsFuel fuel.old }
    ensures { Meters fuel.old fuel.new (after_change (E.told env.now) same value change.now) result }
{
    match change {
        Change::Assign {
            operator,
            value: expr,
        } => {
            let meaning = operand(alloc, expr, env, fuel)?;
            Ok(changed(alloc, same, value, operator_of(operator.kind), meaning)?)
        }
        Change::Step { operator } => Ok(stepped(alloc, same, value, operator.kind)?),
    }
}

/// The value behind a step of a loop.
pub(crate) fn after_step<E: Env>(
    alloc: Global,
    genvar: &[u8],
    value: i32,
    step: &GenvarStep,
    env: &E,
    fuel: &mut Fuel,
) -> Result<Result<Option<i32>, Fault>, Halted>
    requires { IsFuel fuel.old }
    ensures { Meters fuel.old fuel.new (after_step (E.told env.now) genvar.now value step.now) result }
{
    match step {
        GenvarStep::Before { operator, name } => {
            let same = env.text(*name) == genvar;
            Ok(stepped(alloc, same, value, operator.kind)?)
        }
        GenvarStep::Change { name, change } => {
            let same = env.text(*name) == genvar;
            after_change(alloc, same, value, change, env, fuel)
        }
    }
}

//! The type and the value of a parameter by the expression that is assigned to it.
ghost use Rattle.std.specs.Prelude.{◌≡◌, IfOk, None};
ghost use Rattle.sve_env.specs.Nodes.{nodes};
ghost use Rattle.sve_fault.specs.Counts.{Counts, IsFuel};
ghost use Rattle.sve_const.specs.Answers.{evaluated};
ghost use Rattle.sve_assigned.specs.Assignments.{default_value, told_of};

use crate::by_value::{Assigned, Outcome, as_text, by_itself, is_text, signed_value, typed_value};
use crate::form::Form;
use std::alloc::Global;
use sve_bytes::NoMemory;
use sve_const::{ConstFault, eval, operand};
use sve_diag::Note;
use sve_env::Env;
use sve_fault::{Fuel, Halted};
use sve_form::token_of;
use sve_tree::Expr;
use sve_types::Value;

/// The value of an expression by itself, or what there is to say of its fault.
fn evaluated<E: Env>(
    alloc: Global,
    expr: &Expr,
    env: &E,
    fuel: &mut Fuel,
) -> Result<Result<Value, Option<Note>>, Halted>
    requires { IsFuel fuel.old }
    ensures meaning { IfOk result (λ r. r ≡ told_of (E.told env.now) (evaluated (E.told env.now) None expr.now)) }
    ensures count { Counts result fuel.old fuel.new (nodes (E.told env.now) expr.now) }
{
    match eval(alloc, expr, env, None, fuel) {
        Ok(value) => Ok(Ok(value)),
        Err(ConstFault::Bad(note)) => Ok(Err(note)),
        Err(ConstFault::Over) => Err(Halted::Over),
        Err(ConstFault::NoMemory) => Err(Halted::NoMemory),
    }
}

/// What is assigned, or what there is to say of its fault.
fn told<E: Env>(outcome: Outcome, env: &E) -> Result<Result<Assigned, Option<Note>>, NoMemory>
    ensures { IfOk result (λ r. r ≡ told_of (E.told env.now) outcome) }
{
    match outcome {
        Ok(assigned) => Ok(Ok(assigned)),
        Err(fault) => Ok(Err(fault.note(env.file(), env.chunk())?)),
    }
}

/// The type and the value of a parameter to which an expression is assigned (IEEE 1800-2017, 6.20 and 10.7), or what there is to say
/// of the first fault of the expression, which is nothing for a name whose declaration has a diagnostic. A string by itself stays one
/// where the type is a string or is none. A value for a type of more than 128 bits (C03) and one that is no string for a string (C01)
/// are faults at the first token. The nodes of the expression are counted; it is Over exactly where they pass the most.
pub fn assigned<E: Env>(
    alloc: Global,
    form: &Form,
    expr: &Expr,
    env: &E,
    fuel: &mut Fuel,
) -> Result<Result<Assigned, Option<Note>>, Halted>
    requires { IsFuel fuel.old }
    ensures meaning { IfOk result (λ r. r ≡ told_of (E.told env.now) (default_value (E.told env.now) form.now expr.now)) }
    ensures count { Counts result fuel.old fuel.new (nodes (E.told env.now) expr.now) }
{
    match form {
        Form::Free => match evaluated(alloc, expr, env, fuel)? {
            Ok(value) => Ok(told(by_itself(alloc, token_of(expr), value)?, env)?),
            Err(note) => Ok(Err(note)),
        },
        Form::Sign(signed) => {
            let operand = operand(alloc, expr, env, fuel)?;
            Ok(told(signed_value(alloc, *signed, operand)?, env)?)
        }
        Form::Typed(ty) => {
            if is_text(ty) {
                return match evaluated(alloc, expr, env, fuel)? {
                    Ok(value) => Ok(told(as_text(alloc, token_of(expr), ty, value)?, env)?),
                    Err(note) => Ok(Err(note)),
                };
            }
            let operand = operand(alloc, expr, env, fuel)?;
            Ok(told(typed_value(alloc, token_of(expr), ty, operand)?, env)?)
        }
    }
}

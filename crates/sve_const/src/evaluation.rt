ghost use Rattle.std.specs.Prelude.{◌≡◌, IfSome};
ghost use Rattle.sve_value.specs.Vector.{IsWidth};
ghost use Rattle.sve_operand.specs.Pending.{meaning_of};
ghost use Rattle.sve_fault.specs.Counts.{IsFuel};
ghost use Rattle.sve_env.specs.Nodes.{nodes};
ghost use Rattle.sve_measure.specs.Constants.{measured};
ghost use Rattle.sve_const.specs.Answers.{Sizes, Evaluates, Stays, assigned_of, assigned_value, text_value, evaluated, lone_pair};

use crate::lone::{LoneText, lone_text};
use std::alloc::Global;
use sve_bytes::List;
use sve_diag::{Code, Note};
use sve_env::{Env, visit};
use sve_fault::{Fault, Fuel, Halted};
use sve_measure::operand;
use sve_operand::Operand;
use sve_tree::Expr;
use sve_types::Value;
use sve_value::Bits;

/// How many bytes a string value may have.
const MAX_TEXT: usize = 1024;

/// Why a constant expression has no value.
#[derive(Drop)]
pub enum ConstFault {
    /// It has a fault: the first in token order. Nothing is said where that is a name whose declaration has a diagnostic.
    Bad(Option<Note>),
    /// Its nodes pass what may be evaluated, whether or not it has a fault.
    Over,
    /// Memory ran out.
    NoMemory,
}

/// Refuses with what is said of a fault, or for want of memory.
macro_rules! refused {
    ($fault:expr, $env:expr) => {
        match $fault.note($env.file(), $env.chunk()) {
            Ok(note) => Err(ConstFault::Bad(note)),
            Err(_) => Err(ConstFault::NoMemory),
        }
    };
}

/// The size, 1 to 128 bits, and the sign of an expression by itself (IEEE 1800-2017, 11.6.1 and 11.8.1). It counts the nodes in a
/// copy of its own, and refuses as [`eval`] does.
pub fn size_sign<E: Env>(
    alloc: Global,
    expr: &Expr,
    env: &E,
    fuel: Fuel,
) -> Result<(u32, bool), ConstFault>
    requires { IsFuel fuel }
    ensures { Sizes result (measured (E.told env.now) expr.now) (E.told env.now) fuel (nodes (E.told env.now) expr.now) }
{
    let mut fuel = fuel;
    match operand(alloc, expr, env, &mut fuel) {
        Ok(Ok(operand)) => Ok((operand.width(), operand.is_signed())),
        Ok(Err(fault)) => refused!(fault, env),
        Err(Halted::Over) => Err(ConstFault::Over),
        Err(Halted::NoMemory) => Err(ConstFault::NoMemory),
    }
}

/// The value of an expression: by itself, or as it is assigned to a size, 1 to 128 bits, and a sign (10.7). By itself a string, or a
/// name that has one, is a string value, of 1,024 bytes at the most. The count of fuel rises by the nodes; it is Over exactly where
/// they pass the most, before any fault, and leaves the fuel as it was there, as for want of memory.
pub fn eval<E: Env>(
    alloc: Global,
    expr: &Expr,
    env: &E,
    context: Option<(u32, bool)>,
    fuel: &mut Fuel,
) -> Result<Value, ConstFault>
    requires fuel { IsFuel fuel.old }
    requires context { IfSome context (λ z. IsWidth z.0) }
    ensures stays { Stays result fuel.old fuel.new }
    ensures evaluates { Evaluates result (evaluated (E.told env.now) context expr.now) (E.told env.now) fuel.old fuel.new (nodes (E.told env.now) expr.now) }
{
    let before = *fuel;
    match whole_value(alloc, expr, env, context, fuel) {
        Err(ConstFault::Over) => {
            *fuel = before;
            Err(ConstFault::Over)
        }
        Err(ConstFault::NoMemory) => {
            *fuel = before;
            Err(ConstFault::NoMemory)
        }
        Err(ConstFault::Bad(note)) => Err(ConstFault::Bad(note)),
        Ok(value) => Ok(value),
    }
}

/// The value of an expression, which leaves any count behind where it is halted.
fn whole_value<E: Env>(
    alloc: Global,
    expr: &Expr,
    env: &E,
    context: Option<(u32, bool)>,
    fuel: &mut Fuel,
) -> Result<Value, ConstFault>
    requires fuel { IsFuel fuel.old }
    requires context { IfSome context (λ z. IsWidth z.0) }
    ensures { Evaluates result (evaluated (E.told env.now) context expr.now) (E.told env.now) fuel.old fuel.new (nodes (E.told env.now) expr.now) }
{
    match context {
        Some(_) => value_of(alloc, expr, env, context, fuel),
        None => match lone_text(alloc, expr, env) {
            Err(_) => Err(ConstFault::NoMemory),
            Ok(None) => value_of(alloc, expr, env, context, fuel),
            Ok(Some(text)) => text_of(expr, env, text, fuel),
        },
    }
}

/// The value of an expression that is no string by itself.
fn value_of<E: Env>(
    alloc: Global,
    expr: &Expr,
    env: &E,
    context: Option<(u32, bool)>,
    fuel: &mut Fuel,
) -> Result<Value, ConstFault>
    requires fuel { IsFuel fuel.old }
    requires context { IfSome context (λ z. IsWidth z.0) }
    ensures { Evaluates result (assigned_value context (measured (E.told env.now) expr.now)) (E.told env.now) fuel.old fuel.new (nodes (E.told env.now) expr.now) }
{
    match operand(alloc, expr, env, fuel) {
        Ok(Ok(operand)) => Ok(Value::Bits(assigned(&operand, context))),
        Ok(Err(fault)) => refused!(fault, env),
        Err(Halted::Over) => Err(ConstFault::Over),
        Err(Halted::NoMemory) => Err(ConstFault::NoMemory),
    }
}

/// The value of a string by itself, whose nodes are counted.
fn text_of<E: Env>(
    expr: &Expr,
    env: &E,
    text: LoneText,
    fuel: &mut Fuel,
) -> Result<Value, ConstFault>
    requires { IsFuel fuel.old }
    ensures { Evaluates result (text_value (lone_pair text)) (E.told env.now) fuel.old fuel.new (nodes (E.told env.now) expr.now) }
{
    match visit(expr, env, fuel) {
        Err(Halted::Over) => Err(ConstFault::Over),
        Err(Halted::NoMemory) => Err(ConstFault::NoMemory),
        Ok(()) => {
            if text.bytes.len() > MAX_TEXT {
                return refused!(Fault::at(text.token, Code::C07), env);
            }
            Ok(Value::Text(List::of(text.bytes)))
        }
    }
}

/// The value by itself, or as it is assigned.
fn assigned(operand: &Operand, context: Option<(u32, bool)>) -> Bits
    requires { IfSome context (λ z. IsWidth z.0) }
    ensures { result ≡ assigned_of context (meaning_of operand.now) }
{
    match context {
        None => operand.own_value(),
        Some((width, signed)) => {
            let size = operand.width().max(width);
            operand
                .value(size, operand.is_signed())
                .extend(width, signed)
        }
    }
}

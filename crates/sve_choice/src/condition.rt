ghost use Rattle.std.specs.Prelude.{◌≡◌, IfOk};
ghost use Rattle.sve_fault.specs.Counts.{Counts, IsFuel};
ghost use Rattle.sve_env.specs.Nodes.{nodes};
ghost use Rattle.sve_measure.specs.Constants.{measured};
ghost use Rattle.sve_choice.specs.Conditions.{fault_in, holds, is_true};

use std::alloc::Global;
use sve_env::Env;
use sve_fault::{Fault, Fuel, Halted};
use sve_measure::operand;
use sve_tree::Expr;
use sve_value::truth;

/// What is found of the condition of a generate `if`.
#[derive(Drop)]
pub struct Condition {
    /// Whether it holds.
    pub holds: bool,
    /// What is wrong with it, where something is.
    pub fault: Option<Fault>,
}

/// Whether what is asked is known to be true.
pub(crate) fn is_true(truth: Option<bool>) -> bool
    ensures { result ≡ is_true truth }
{
    match truth {
        Some(truth) => truth,
        None => false,
    }
}

/// Whether the condition of a generate `if` holds: its value by itself has a 1 bit. One that is unknown, or has a fault, counts as
/// false (IEEE 1800-2017, 27.5; own). It counts the nodes of the condition.
///
/// # Errors
/// `Over` where these pass the most that may be spent, and `NoMemory`.
pub fn judge_condition<E: Env>(
    alloc: Global,
    expr: &Expr,
    env: &E,
    fuel: &mut Fuel,
) -> Result<Condition, Halted>
    requires { IsFuel fuel.old }
    ensures holds { IfOk result (λ c. c.holds ≡ holds (measured (E.told env.now) expr.now)) }
    ensures fault { IfOk result (λ c. c.fault ≡ fault_in (measured (E.told env.now) expr.now)) }
    ensures count { Counts result fuel.old fuel.new (nodes (E.told env.now) expr.now) }
{
    match operand(alloc, expr, env, fuel)? {
        Ok(operand) => Ok(Condition {
            holds: is_true(truth(operand.own_value())),
            fault: None,
        }),
        Err(fault) => Ok(Condition {
            holds: false,
            fault: Some(fault),
        }),
    }
}

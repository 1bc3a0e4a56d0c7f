ghost use Rattle.std.specs.Prelude.{◌≡◌, IfOk, OnOk, is_some};
ghost use Rattle.sve_fault.specs.Counts.{IsFuel};
ghost use Rattle.sve_plan.specs.Follows.{Meters, giving};
ghost use Rattle.sve_body.specs.Items.{say_all};
ghost use Rattle.sve_body.specs.Body.{fault_list};
ghost use Rattle.sve_body_construct.specs.Parts.{found_condition, found_item, found_values, genvar_fault_of, or_said, values_of};

use crate::beginning::{say_all, say_fault};
use std::alloc::Global;
use sve_body::Work;
use sve_bytes::{List, NoMemory};
use sve_choice::{judge_condition, select_item};
use sve_env::Env;
use sve_fault::{Fault, Fuel, Halted};
use sve_generate::unroll;
use sve_genvar::{GenerateLoop, integer_type};
use sve_tree::{CaseGenerateItem, Expr, LoopGenerate};

/// Whether something is wrong with the genvar of a loop, which then is said (IEEE 1800-2017, 27.4).
///
/// # Errors
/// For want of memory alone.
pub fn genvar_is_wrong<S: Work>(work: &mut S, construct: &LoopGenerate) -> Result<bool, NoMemory>
    ensures wrong { IfOk result (λ wrong. wrong ≡ is_some (genvar_fault_of S.steps construct.now work.old)) }
    ensures left { OnOk result (work.new ≡ say_all S.steps (fault_list (genvar_fault_of S.steps construct.now work.old)) work.old) }
{
    let fault = work.genvar_fault(construct.genvar, construct.name)?;
    let wrong = fault.is_some();
    say_fault(work, fault)?;
    Ok(wrong)
}

/// The values of a loop where it stands.
fn loop_values<S: Work>(
    alloc: Global,
    work: &S,
    construct: &LoopGenerate,
    fuel: &mut Fuel,
) -> Result<Result<List<i32>, Fault>, Halted>
    requires { IsFuel fuel.old }
    ensures { Meters fuel.old fuel.new (values_of S.steps construct.now work.now) result }
{
    let integer = integer_type(alloc);
    let env = work.known();
    let genvar = env.text(construct.name);
    let expressions = GenerateLoop {
        alloc,
        env,
        genvar,
        start: &construct.start,
        condition: &construct.condition,
        step: &construct.step,
        integer: &integer,
    };
    unroll(alloc, &expressions, construct.keyword, genvar, fuel)
}

/// The values, where nothing is wrong; what is wrong is said.
fn or_said<S: Work>(
    work: &mut S,
    values: Result<List<i32>, Fault>,
) -> Result<Option<List<i32>>, NoMemory>
    ensures { IfOk (giving result work.new) (λ found. found ≡ or_said S.steps values work.old) }
{
    match values {
        Ok(values) => Ok(Some(values)),
        Err(fault) => {
            work.say(fault)?;
            Ok(None)
        }
    }
}

/// The values of a loop where it stands, where nothing is wrong with its expressions; what is wrong is said (27.4). Each turn counts
/// one, and so does each node that is evaluated.
///
/// # Errors
/// `Over` where what it evaluates passes the most that may be spent, and `NoMemory`.
pub fn found_values<S: Work>(
    alloc: Global,
    work: &mut S,
    construct: &LoopGenerate,
    fuel: &mut Fuel,
) -> Result<Option<List<i32>>, Halted>
    requires { IsFuel fuel.old }
    ensures { Meters fuel.old fuel.new (found_values S.steps construct.now work.old) (giving result work.new) }
{
    let values = loop_values(alloc, work, construct, fuel)?;
    Ok(or_said(work, values)?)
}

/// Whether the condition of an `if` holds; what is wrong with it is said (27.5).
///
/// # Errors
/// `Over` where what it evaluates passes the most that may be spent, and `NoMemory`.
#[tactic(auto, using(crate::proofs::Parts::same_faults))]
pub fn found_condition<S: Work>(
    alloc: Global,
    work: &mut S,
    condition: &Expr,
    fuel: &mut Fuel,
) -> Result<bool, Halted>
    requires { IsFuel fuel.old }
    ensures { Meters fuel.old fuel.new (found_condition S.steps condition.now work.old) (giving result work.new) }
{
    let found = judge_condition(alloc, condition, work.known(), fuel)?;
    say_fault(work, found.fault)?;
    Ok(found.holds)
}

/// The number of the item that a `case` selects, from 0, where it selects one; what is wrong with its selector and its labels is said
/// (27.5).
///
/// # Errors
/// `Over` where what it evaluates passes the most that may be spent, and `NoMemory`.
pub fn found_item<S: Work>(
    alloc: Global,
    work: &mut S,
    selector: &Expr,
    items: &[CaseGenerateItem],
    fuel: &mut Fuel,
) -> Result<Option<usize>, Halted>
    requires { IsFuel fuel.old }
    ensures { Meters fuel.old fuel.new (found_item S.steps selector.now items.now work.old) (giving result work.new) }
{
    let found = select_item(alloc, selector, items, work.known(), fuel)?;
    say_all(work, found.faults)?;
    Ok(found.item)
}

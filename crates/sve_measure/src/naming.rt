ghost use Rattle.std.specs.Prelude.{◌≡◌, ◌+◌, IfOk};
ghost use Rattle.sve_fault.specs.Counts.{IsFuel, Counts};
ghost use Rattle.sve_rule.specs.Judged.{judged};
ghost use Rattle.sve_env.specs.Nodes.{range_nodes, select_nodes, postfix_nodes, nodes_of_postfixes};
ghost use Rattle.sve_path.specs.Named.{state_of, named};
ghost use Rattle.sve_measure.specs.Constants.{state_of_postfixes, state_after, act_of, act_seen, step_of, choice_of};

use crate::act::{Act, acted};
use crate::measure::{operand, second};
use std::alloc::Global;
use sve_env::Env;
use sve_fault::{Fault, Fuel, Halted, spend};
use sve_form::{name_token, token_of};
use sve_leaf::pattern;
use sve_path::{Made, Step, named};
use sve_rule::Judged;
use sve_select::Choice;
use sve_tree::{Postfix, RangeSelect, ScopedName, Select};

/// The value of a name with what is applied to it (A.8.4).
#[cycle(measure)]
pub(crate) fn name_value<E: Env>(
    alloc: Global,
    name: ScopedName,
    postfixes: &Vec<Postfix>,
    env: &E,
    fuel: &mut Fuel,
) -> Result<Judged, Halted>
    requires { IsFuel fuel.old }
    ensures meaning { IfOk result (λ r. judged r ≡ named (E.told env.now) name (state_of_postfixes (E.told env.now) name postfixes.now)) }
    ensures count { Counts result fuel.old fuel.new (1 + nodes_of_postfixes (E.told env.now) name postfixes.now) }
{
    spend(fuel)?;
    let made = applied(alloc, name, postfixes, env, fuel)?;
    Ok(named(alloc, name, made, env)?)
}

/// A name with what is applied to it, in order.
#[cycle(measure)]
#[tactic(auto, using(crate::proofs::Rows::postfixes_of_vec, crate::proofs::Rows::postfixes_step, crate::proofs::Rows::postfixes_end, sve_env::proofs::Rows::postfix_row_of, sve_env::proofs::Rows::postfix_count_step, sve_env::proofs::Rows::postfix_count_end))]
pub(crate) fn applied<E: Env>(
    alloc: Global,
    name: ScopedName,
    postfixes: &Vec<Postfix>,
    env: &E,
    fuel: &mut Fuel,
) -> Result<Made, Halted>
    requires { IsFuel fuel.old }
    ensures meaning { IfOk result (λ r. state_of r ≡ state_of_postfixes (E.told env.now) name postfixes.now) }
    ensures count { Counts result fuel.old fuel.new (nodes_of_postfixes (E.told env.now) name postfixes.now) }
{
    let mut before = Made::Bare;
    'postfixes: for next in postfixes {
        before = applied_behind(alloc, name, before, next, env, fuel)?;
    }
    Ok(before)
}

/// One thing more that is applied to what was made of a name.
#[cycle(measure)]
fn applied_behind<E: Env>(
    alloc: Global,
    name: ScopedName,
    before: Made,
    postfix: &Postfix,
    env: &E,
    fuel: &mut Fuel,
) -> Result<Made, Halted>
    requires { IsFuel fuel.old }
    ensures meaning { IfOk result (λ r. state_of r ≡ state_after (E.told env.now) name (state_of before) postfix.now) }
    ensures count { Counts result fuel.old fuel.new (postfix_nodes (E.told env.now) name postfix.now) }
{
    match act(alloc, name, postfix, env, fuel) {
        Ok(act) => Ok(acted(alloc, name, before, act, env)?),
        Err(halted) => Err(halted),
    }
}

/// What is applied to a name, by itself.
#[cycle(measure)]
#[tactic(auto, using(sve_env::proofs::Rows::nodes_call, crate::proofs::Rows::act_call), unfolding(crate::specs::Constants::act_of, sve_env::specs::Nodes::postfix_nodes))]
fn act<E: Env>(
    alloc: Global,
    name: ScopedName,
    postfix: &Postfix,
    env: &E,
    fuel: &mut Fuel,
) -> Result<Act, Halted>
    requires { IsFuel fuel.old }
    ensures meaning { IfOk result (λ r. act_seen r ≡ act_of (E.told env.now) name postfix.now) }
    ensures count { Counts result fuel.old fuel.new (postfix_nodes (E.told env.now) name postfix.now) }
{
    match postfix {
        Postfix::Select { select } => Ok(Act::Select(step(alloc, select, env, fuel)?)),
        Postfix::Call { arguments } => Ok(Act::Call(env.call(name, arguments, fuel)?)),
        Postfix::Cast { cast } => {
            spend(fuel)?;
            Ok(Act::Cast(operand(alloc, &cast.value.value, env, fuel)?))
        }
        Postfix::Pattern { pattern: value } => {
            Ok(Act::Pattern(pattern(name_token(name), value, env, fuel)?))
        }
    }
}

/// A select, by what its brackets say.
#[cycle(measure)]
#[tactic(auto, unfolding(crate::specs::Constants::step_of, sve_env::specs::Nodes::select_nodes))]
fn step<E: Env>(alloc: Global, select: &Select, env: &E, fuel: &mut Fuel) -> Result<Step, Halted>
    requires { IsFuel fuel.old }
    ensures meaning { IfOk result (λ r. r ≡ step_of (E.told env.now) select.now) }
    ensures count { Counts result fuel.old fuel.new (select_nodes (E.told env.now) select.now) }
{
    match select {
        Select::Member { name, .. } => {
            spend(fuel)?;
            Ok(Step::Member(*name))
        }
        Select::Range { select } => {
            let choice = bracket(alloc, select, env, fuel)?;
            Ok(Step::Choice(select.opening, choice))
        }
    }
}

/// Brackets, which are one node beside their places.
#[cycle(measure)]
pub(crate) fn bracket<E: Env>(
    alloc: Global,
    select: &RangeSelect,
    env: &E,
    fuel: &mut Fuel,
) -> Result<Result<Choice, Fault>, Halted>
    requires { IsFuel fuel.old }
    ensures meaning { IfOk result (λ r. r ≡ choice_of (E.told env.now) select.now.range) }
    ensures count { Counts result fuel.old fuel.new (1 + range_nodes (E.told env.now) select.now.range) }
{
    spend(fuel)?;
    choice(alloc, &select.range, env, fuel)
}

/// What brackets say (11.5.1).
#[cycle(measure)]
#[tactic(auto, unfolding(crate::specs::Constants::choice_of, sve_env::specs::Nodes::range_nodes))]
fn choice<E: Env>(
    alloc: Global,
    range: &sve_tree::Range,
    env: &E,
    fuel: &mut Fuel,
) -> Result<Result<Choice, Fault>, Halted>
    requires { IsFuel fuel.old }
    ensures meaning { IfOk result (λ r. r ≡ choice_of (E.told env.now) range.now) }
    ensures count { Counts result fuel.old fuel.new (range_nodes (E.told env.now) range.now) }
{
    match range {
        sve_tree::Range::Index { index } => {
            let index = operand(alloc, index, env, fuel)?;
            Ok(sve_select::place(index))
        }
        sve_tree::Range::Between { left, right, .. } => {
            let from = operand(alloc, left, env, fuel)?;
            let (from, to) = second(alloc, from, right, env, fuel)?;
            Ok(sve_select::between(token_of(left), from, token_of(right), to))
        }
        sve_tree::Range::Upward { from, width, .. } => {
            let place = operand(alloc, from, env, fuel)?;
            let (place, bits) = second(alloc, place, width, env, fuel)?;
            Ok(sve_select::upward(place, token_of(width), bits))
        }
        sve_tree::Range::Downward { from, width, .. } => {
            let place = operand(alloc, from, env, fuel)?;
            let (place, bits) = second(alloc, place, width, env, fuel)?;
            Ok(sve_select::downward(place, token_of(width), bits))
        }
    }
}

ghost use Rattle.std.specs.Prelude.{◌≡◌, ◌+◌, IfOk};
ghost use Rattle.sve_fault.specs.Counts.{IsFuel, Counts};
ghost use Rattle.sve_rule.specs.Judged.{judged};
ghost use Rattle.sve_rule.specs.Rules.{outside_judged, inside_judged};
ghost use Rattle.sve_env.specs.Nodes.{nodes_of_pattern, nodes_of_dimensions, nodes_of_selects, nodes_of_value_ranges};
ghost use Rattle.sve_form.specs.Keywords.{keyword_fault};
ghost use Rattle.sve_leaf.specs.LeftOut.{unless_parts};

use std::alloc::Global;
use sve_env::{Env, visit_dimensions, visit_pattern, visit_selects, visit_value_ranges};
use sve_fault::{Fuel, Halted, spend};
use sve_form::keyword_fault;
use sve_rule::{Judged, outside};
use sve_tree::{Dimension, IntegerKeyword, Mark, Pattern, Row, Select, ValueRange};

/// A pattern, at its first token: it is no constant, and its items are counted (IEEE 1800-2017, 10.9).
pub fn pattern<E: Env>(
    token: u32,
    value: &Pattern,
    env: &E,
    fuel: &mut Fuel,
) -> Result<Judged, Halted>
    requires { IsFuel fuel.old }
    ensures meaning { IfOk result (λ r. judged r ≡ outside_judged token) }
    ensures count { Counts result fuel.old fuel.new (nodes_of_pattern (E.told env.now) value.now) }
{
    visit_pattern(value, env, fuel)?;
    Ok(outside(token))
}

/// A type where a value should be: its dimensions are counted (6.11).
pub fn type_value<E: Env>(
    alloc: Global,
    keyword: Mark<IntegerKeyword>,
    dimensions: &Vec<Dimension>,
    env: &E,
    fuel: &mut Fuel,
) -> Result<Judged, Halted>
    requires { IsFuel fuel.old }
    ensures meaning { IfOk result (λ r. judged r ≡ Err (keyword_fault keyword)) }
    ensures count { Counts result fuel.old fuel.new (nodes_of_dimensions (E.told env.now) dimensions.now) }
{
    visit_dimensions(dimensions, env, fuel)?;
    Ok(Err(keyword_fault(alloc, keyword)?))
}

/// A system function without a list of arguments, which is no constant (clause 20).
pub fn system_name<E: Env>(
    name: u32,
    selects: &Vec<Select>,
    env: &E,
    fuel: &mut Fuel,
) -> Result<Judged, Halted>
    requires { IsFuel fuel.old }
    ensures meaning { IfOk result (λ r. judged r ≡ outside_judged name) }
    ensures count { Counts result fuel.old fuel.new (1 + nodes_of_selects (E.told env.now) selects.now) }
{
    spend(fuel)?;
    visit_selects(selects, env, fuel)?;
    Ok(outside(name))
}

/// A call of a system function with selects of its result, which are left out.
#[tactic(auto, using(crate::proofs::Rows::parts_are))]
pub fn part_selected<E: Env>(
    token: u32,
    value: Judged,
    selects: &Vec<Select>,
    env: &E,
    fuel: &mut Fuel,
) -> Result<Judged, Halted>
    requires { IsFuel fuel.old }
    ensures meaning { IfOk result (λ r. judged r ≡ unless_parts selects.now token (judged value)) }
    ensures count { Counts result fuel.old fuel.new (nodes_of_selects (E.told env.now) selects.now) }
{
    visit_selects(selects, env, fuel)?;
    if selects.is_empty() {
        return Ok(value);
    }
    Ok(outside(token))
}

/// `inside`, which is left out, behind what stands before it, at the first token of that (11.4.13).
pub fn inside<E: Env>(
    token: u32,
    before: Judged,
    ranges: &Row<ValueRange>,
    env: &E,
    fuel: &mut Fuel,
) -> Result<Judged, Halted>
    requires { IsFuel fuel.old }
    ensures meaning { IfOk result (λ r. judged r ≡ inside_judged token (judged before)) }
    ensures count { Counts result fuel.old fuel.new (1 + nodes_of_value_ranges (E.told env.now) ranges.now) }
{
    spend(fuel)?;
    visit_value_ranges(ranges, env, fuel)?;
    Ok(sve_rule::inside(token, before))
}

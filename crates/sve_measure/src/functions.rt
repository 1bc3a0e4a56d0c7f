ghost use Rattle.std.specs.Prelude.{◌≡◌, ◌+◌, IfOk};
ghost use Rattle.sve_fault.specs.Counts.{IsFuel, Counts};
ghost use Rattle.sve_rule.specs.Judged.{judged};
ghost use Rattle.sve_rule.specs.Systems.{bits_judged};
ghost use Rattle.sve_env.specs.Nodes.{nodes, argument_nodes, nodes_of_dimensions, nodes_of_selects, nodes_of_arguments, nodes_of_postfixes};
ghost use Rattle.sve_form.specs.Keywords.{keyword_target, target_size};
ghost use Rattle.sve_form.specs.Tokens.{has_no_dimensions};
ghost use Rattle.sve_leaf.specs.LeftOut.{unless_parts};
ghost use Rattle.sve_path.specs.Named.{named_bits};
ghost use Rattle.sve_measure.specs.Constants.{measured, state_of_postfixes, places_of_dimensions, value_of_arguments, system_argument, bits_of};

use crate::measure::operand;
use crate::naming::applied;
use crate::operands::places;
use std::alloc::Global;
use sve_env::{Env, visit, visit_arguments};
use sve_fault::{Fuel, Halted, spend};
use sve_form::{is_plain, keyword_target, target_size};
use sve_leaf::part_selected;
use sve_path::named_bits;
use sve_rule::{Judged, SystemFunction, outside, system_function, type_size};
use sve_tree::{
    Arg, ArgumentList, Dimension, Expr, IntegerKeyword, Mark, Postfix, ScopedName, Select, Sign,
};

/// A call of a system function (clause 20).
#[cycle(measure)]
pub(crate) fn system_call<E: Env>(
    alloc: Global,
    name: u32,
    arguments: &ArgumentList,
    selects: &Vec<Select>,
    env: &E,
    fuel: &mut Fuel,
) -> Result<Judged, Halted>
    requires { IsFuel fuel.old }
    ensures meaning { IfOk result (λ r. judged r ≡ unless_parts selects.now name (value_of_arguments (E.told env.now) name arguments.now)) }
    ensures count { Counts result fuel.old fuel.new (1 + nodes_of_arguments (E.told env.now) arguments.now + nodes_of_selects (E.told env.now) selects.now) }
{
    spend(fuel)?;
    let value = system_value(alloc, name, arguments, env, fuel)?;
    part_selected(name, value, selects, env, fuel)
}

/// A system function of its arguments: of one, by its place.
#[cycle(measure)]
#[tactic(auto, using(crate::proofs::Rows::one_argument, crate::proofs::Rows::one_counted, crate::proofs::Rows::several_arguments))]
fn system_value<E: Env>(
    alloc: Global,
    name: u32,
    arguments: &ArgumentList,
    env: &E,
    fuel: &mut Fuel,
) -> Result<Judged, Halted>
    requires { IsFuel fuel.old }
    ensures meaning { IfOk result (λ r. judged r ≡ value_of_arguments (E.told env.now) name arguments.now) }
    ensures count { Counts result fuel.old fuel.new (nodes_of_arguments (E.told env.now) arguments.now) }
{
    if arguments.arguments.items.len() != 1 {
        visit_arguments(arguments, env, fuel)?;
        return Ok(outside(name));
    }
    system_argument(alloc, name, &arguments.arguments.items[0], env, fuel)
}

/// A system function of an argument.
#[cycle(measure)]
#[tactic(auto, unfolding(crate::specs::Constants::system_argument, sve_env::specs::Nodes::argument_nodes))]
fn system_argument<E: Env>(
    alloc: Global,
    name: u32,
    argument: &Arg,
    env: &E,
    fuel: &mut Fuel,
) -> Result<Judged, Halted>
    requires { IsFuel fuel.old }
    ensures meaning { IfOk result (λ r. judged r ≡ system_argument (E.told env.now) name argument.now) }
    ensures count { Counts result fuel.old fuel.new (argument_nodes (E.told env.now) argument.now) }
{
    match argument {
        Arg::Ordered { value } => match sve_rule::function(env.text(name)) {
            None => {
                visit(value, env, fuel)?;
                Ok(outside(name))
            }
            Some(SystemFunction::Bits) => bits(alloc, value, env, fuel),
            Some(function) => {
                let value = operand(alloc, value, env, fuel)?;
                Ok(system_function(function, value))
            }
        },
        Arg::Named { value, .. } => {
            visit(value, env, fuel)?;
            Ok(outside(name))
        }
        Arg::Wildcard { .. } => Ok(outside(name)),
        Arg::Implicit { .. } => Ok(outside(name)),
        Arg::Unconnected { .. } => Ok(outside(name)),
        Arg::Empty => Ok(outside(name)),
    }
}

/// `$bits` of an argument, which may be a type (20.6.2).
#[cycle(measure)]
#[tactic(auto, unfolding(crate::specs::Constants::bits_of, sve_env::specs::Nodes::nodes))]
fn bits<E: Env>(alloc: Global, value: &Expr, env: &E, fuel: &mut Fuel) -> Result<Judged, Halted>
    requires { IsFuel fuel.old }
    ensures meaning { IfOk result (λ r. judged r ≡ bits_of (E.told env.now) (measured (E.told env.now) value.now) value.now) }
    ensures count { Counts result fuel.old fuel.new (nodes (E.told env.now) value.now) }
{
    match value {
        Expr::Type {
            keyword,
            sign,
            dimensions,
        } => type_bits(alloc, *keyword, *sign, dimensions, env, fuel),
        Expr::Name { name, postfixes } => name_bits(alloc, *name, postfixes, env, fuel),
        _ => {
            let value = operand(alloc, value, env, fuel)?;
            Ok(system_function(SystemFunction::Bits, value))
        }
    }
}

/// `$bits` of an integer type by its keyword (20.6.2).
#[cycle(measure)]
fn type_bits<E: Env>(
    alloc: Global,
    keyword: Mark<IntegerKeyword>,
    sign: Option<Mark<Sign>>,
    dimensions: &Vec<Dimension>,
    env: &E,
    fuel: &mut Fuel,
) -> Result<Judged, Halted>
    requires { IsFuel fuel.old }
    ensures meaning { IfOk result (λ r. judged r ≡ bits_judged (target_size (keyword_target keyword sign (has_no_dimensions dimensions.now) (places_of_dimensions (E.told env.now) dimensions.now)))) }
    ensures count { Counts result fuel.old fuel.new (nodes_of_dimensions (E.told env.now) dimensions.now) }
{
    let places = places(alloc, dimensions, env, fuel)?;
    let target = keyword_target(alloc, keyword, sign, is_plain(dimensions), places)?;
    Ok(type_size(target_size(target)))
}

/// `$bits` of a name with what is applied to it, which may be that of a type (20.6.2).
#[cycle(measure)]
fn name_bits<E: Env>(
    alloc: Global,
    name: ScopedName,
    postfixes: &Vec<Postfix>,
    env: &E,
    fuel: &mut Fuel,
) -> Result<Judged, Halted>
    requires { IsFuel fuel.old }
    ensures meaning { IfOk result (λ r. judged r ≡ named_bits (E.told env.now) name (state_of_postfixes (E.told env.now) name postfixes.now)) }
    ensures count { Counts result fuel.old fuel.new (1 + nodes_of_postfixes (E.told env.now) name postfixes.now) }
{
    spend(fuel)?;
    let made = applied(alloc, name, postfixes, env, fuel)?;
    Ok(named_bits(alloc, name, made, env)?)
}

ghost use Rattle.std.specs.Prelude.{◌≡◌, IfOk};
ghost use Rattle.sve_fault.specs.Counts.{IsFuel, Counts};
ghost use Rattle.sve_rule.specs.Judged.{judged};
ghost use Rattle.sve_rule.specs.Rules.{decimal_judged, sized_judged, based_judged, unbased_judged, text_judged};

use std::alloc::Global;
use sve_env::Env;
use sve_fault::{Fuel, Halted, spend};
use sve_rule::Judged;

/// A decimal number by itself, which is one node (IEEE 1800-2017, 5.7.1).
pub fn decimal<E: Env>(token: u32, env: &E, fuel: &mut Fuel) -> Result<Judged, Halted>
    requires { IsFuel fuel.old }
    ensures meaning { IfOk result (λ r. judged r ≡ decimal_judged token ((E.told env.now).text token)) }
    ensures count { Counts result fuel.old fuel.new 1 }
{
    spend(fuel)?;
    Ok(sve_rule::decimal(token, env.text(token)))
}

/// A number with its size, which is one node with it (5.7.1).
pub fn sized<E: Env>(size: u32, based: u32, env: &E, fuel: &mut Fuel) -> Result<Judged, Halted>
    requires { IsFuel fuel.old }
    ensures meaning { IfOk result (λ r. judged r ≡ sized_judged size ((E.told env.now).text size) ((E.told env.now).text based)) }
    ensures count { Counts result fuel.old fuel.new 1 }
{
    spend(fuel)?;
    Ok(sve_rule::sized(size, env.text(size), env.text(based)))
}

/// A based number without a size, which is one node (5.7.1).
pub fn based<E: Env>(token: u32, env: &E, fuel: &mut Fuel) -> Result<Judged, Halted>
    requires { IsFuel fuel.old }
    ensures meaning { IfOk result (λ r. judged r ≡ based_judged ((E.told env.now).text token)) }
    ensures count { Counts result fuel.old fuel.new 1 }
{
    spend(fuel)?;
    Ok(sve_rule::based(env.text(token)))
}

/// A bit that fills its context, which is one node (5.7.1).
pub fn unbased<E: Env>(token: u32, env: &E, fuel: &mut Fuel) -> Result<Judged, Halted>
    requires { IsFuel fuel.old }
    ensures meaning { IfOk result (λ r. judged r ≡ unbased_judged ((E.told env.now).text token)) }
    ensures count { Counts result fuel.old fuel.new 1 }
{
    spend(fuel)?;
    Ok(sve_rule::unbased(env.text(token)))
}

/// A string, which is one node (5.9).
pub fn text<E: Env>(alloc: Global, token: u32, env: &E, fuel: &mut Fuel) -> Result<Judged, Halted>
    requires { IsFuel fuel.old }
    ensures meaning { IfOk result (λ r. judged r ≡ text_judged token ((E.told env.now).text token)) }
    ensures count { Counts result fuel.old fuel.new 1 }
{
    spend(fuel)?;
    Ok(sve_rule::text(alloc, token, env.text(token))?)
}

//! Types by their names, with selects as their packed dimensions.
ghost use Rattle.std.specs.Prelude.{◌≡◌, [], IfErr, IfOk};
ghost use Rattle.sve_fault.specs.Counts.{IsFuel, Counts};
ghost use Rattle.sve_env.specs.Nodes.{range_nodes};
ghost use Rattle.sve_type_rule.specs.Ranges.{dimensioned};
ghost use Rattle.sve_type_rule.specs.Outcomes.{behind, outcome};
ghost use Rattle.sve_type_of.specs.TypeOf.{IsTyped};
ghost use Rattle.sve_type_of.specs.Selected.{alone_typed, bound_count, bound_nodes, bounds_of, name_selected, no_dimension, ranges_selected, select_opening, select_range, selected};

use crate::calls::said;
use crate::said::Typed;
use std::alloc::Global;
use sve_bytes::NoMemory;
use sve_diag::Code;
use sve_env::{Env, visit};
use sve_fault::{Fault, Fuel, Halted};
use sve_rule::{range, size};
use sve_simple_type::{named_typed, operand};
use sve_tree::{NamedType, Range as Bounds, ScopedName, Select};
use sve_type_rule::{
    NamedType as NameBehind, Ranges, Typed as Outcome, named, no_ranges, packed, ranged,
};
use sve_types::Range;

/// What is wrong with a select that is no dimension.
fn no_dimension<E: Env>(alloc: Global, name: ScopedName, env: &E) -> Result<Fault, NoMemory>
    ensures { IfOk result (λ f. f ≡ no_dimension (E.told env.now) name) }
{
    Fault::about(alloc, name.name, Code::N11, env.text(name.name))
}

/// The bounds of a packed dimension that was read as a select.
#[tactic(auto, unfolding(crate::specs::Selected::bounds_of, sve_env::specs::Nodes::range_nodes))]
fn bounds_of<E: Env>(
    alloc: Global,
    name: ScopedName,
    opening: u32,
    bounds: &Bounds,
    env: &E,
    fuel: &mut Fuel,
) -> Result<Result<Range, Fault>, Halted>
    requires { IsFuel fuel.old }
    ensures meaning { IfOk result (λ r. r ≡ bounds_of (E.told env.now) name opening bounds.now) }
    ensures count { Counts result fuel.old fuel.new (range_nodes (E.told env.now) bounds.now) }
{
    match bounds {
        Bounds::Index { index } => Ok(size(opening, operand(alloc, index, env, fuel)?)),
        Bounds::Between { left, right, .. } => {
            let left = operand(alloc, left, env, fuel)?;
            let right = operand(alloc, right, env, fuel)?;
            Ok(range(opening, left, right))
        }
        Bounds::Upward { from, width, .. } => {
            visit(from, env, fuel)?;
            visit(width, env, fuel)?;
            Ok(Err(no_dimension(alloc, name, env)?))
        }
        Bounds::Downward { from, width, .. } => {
            visit(from, env, fuel)?;
            visit(width, env, fuel)?;
            Ok(Err(no_dimension(alloc, name, env)?))
        }
    }
}

/// The token at which a select begins.
fn select_opening(select: &Select) -> u32
    ensures { result ≡ select_opening select.now }
{
    match select {
        Select::Member { dot, .. } => *dot,
        Select::Range { select } => select.opening,
    }
}

/// The packed dimension that was read as a select.
#[tactic(auto, unfolding(crate::specs::Selected::select_range, crate::specs::Selected::bound_nodes))]
fn select_range<E: Env>(
    alloc: Global,
    name: ScopedName,
    select: &Select,
    env: &E,
    fuel: &mut Fuel,
) -> Result<Result<Range, Fault>, Halted>
    requires { IsFuel fuel.old }
    ensures meaning { IfOk result (λ r. r ≡ select_range (E.told env.now) name select.now) }
    ensures count { Counts result fuel.old fuel.new (bound_nodes (E.told env.now) select.now) }
{
    match select {
        Select::Member { .. } => Ok(Err(no_dimension(alloc, name, env)?)),
        Select::Range { select } => {
            bounds_of(alloc, name, select.opening, &select.range, env, fuel)
        }
    }
}

/// Packed dimensions that were read as selects, from the left.
#[tactic(auto, using(crate::proofs::Selects::ranges_step, crate::proofs::Selects::ranges_end, crate::proofs::Selects::count_step, crate::proofs::Selects::count_end))]
fn ranges_selected<E: Env>(
    alloc: Global,
    name: ScopedName,
    before: Ranges,
    selects: &[Select],
    env: &E,
    fuel: &mut Fuel,
) -> Result<Ranges, Halted>
    requires { IsFuel fuel.old }
    ensures meaning { IfOk result (λ r. dimensioned r ≡ ranges_selected (E.told env.now) name (dimensioned before) selects.now) }
    ensures count { Counts result fuel.old fuel.new (bound_count (E.told env.now) selects.now) }
{
    let mut before = before;
    'selects: for next in selects {
        let range = select_range(alloc, name, next, env, fuel)?;
        before = ranged(select_opening(next), before, range)?;
    }
    Ok(before)
}

/// A type by its name alone, before what stands behind it.
fn name_selected<E: Env>(
    alloc: Global,
    name: ScopedName,
    is_plain: bool,
    typed: Outcome,
    env: &E,
) -> Result<NameBehind, NoMemory>
    ensures { IfOk result (λ n. behind n ≡ name_selected name.name ((E.told env.now).text name.name) is_plain (outcome typed)) }
{
    let Outcome { ty, faults } = typed;
    if faults.is_empty() {
        let token = name.name;
        return named(alloc, token, env.text(token), is_plain, faults, Ok(&ty));
    }
    Ok(NameBehind {
        ty,
        is_packed: false,
        places: 1,
        faults,
    })
}

/// A type by its name alone.
#[tactic(auto, unfolding(sve_simple_type::specs::Simple::named_typed, sve_env::specs::Nodes::dimension_count))]
fn alone_typed<E: Env>(
    alloc: Global,
    name: ScopedName,
    env: &E,
    fuel: &mut Fuel,
) -> Result<Outcome, Halted>
    requires { IsFuel fuel.old }
    ensures meaning { IfOk result (λ t. outcome t ≡ alone_typed (E.told env.now) name) }
    ensures count { Counts result fuel.old fuel.new 0 }
{
    let written = NamedType {
        name,
        dimensions: Vec::new(alloc),
    };
    named_typed(alloc, &written, Vec::new(alloc), env, fuel)
}

/// A type by its name with what stands behind it, which leaves any count behind where it is halted.
fn selected_by_itself<E: Env>(
    alloc: Global,
    name: ScopedName,
    selects: &[Select],
    env: &E,
    fuel: &mut Fuel,
) -> Result<Typed, Halted>
    requires { IsFuel fuel.old }
    ensures meaning { IfOk result (λ t. IsTyped t (E.told env.now) (selected (E.told env.now) name selects.now)) }
    ensures count { Counts result fuel.old fuel.new (bound_count (E.told env.now) selects.now) }
{
    let typed = alone_typed(alloc, name, env, fuel)?;
    let NameBehind {
        ty,
        is_packed,
        places,
        faults,
    } = name_selected(alloc, name, selects.is_empty(), typed, env)?;
    let before = no_ranges(alloc, places, faults);
    let ranges = ranges_selected(alloc, name, before, selects, env, fuel)?;
    Ok(said(alloc, packed(ty, is_packed, ranges)?, env)?)
}

/// The type of a name with selects behind it, which are its packed dimensions (IEEE 1800-2017, 6.18 and 7.4.1), and what there is to say
/// of it: N11 at the name for a member and for a part by its width, which are no dimensions. It counts as [`crate::type_of`] does.
pub fn selected_type<E: Env>(
    alloc: Global,
    name: ScopedName,
    selects: &[Select],
    env: &E,
    fuel: &mut Fuel,
) -> Result<Typed, Halted>
    requires { IsFuel fuel.old }
    ensures meaning { IfOk result (λ t. IsTyped t (E.told env.now) (selected (E.told env.now) name selects.now)) }
    ensures count { Counts result fuel.old fuel.new (bound_count (E.told env.now) selects.now) }
    ensures stays { IfErr result (λ _. fuel.new ≡ fuel.old) }
{
    let before = *fuel;
    match selected_by_itself(alloc, name, selects, env, fuel) {
        Ok(typed) => Ok(typed),
        Err(halted) => {
            *fuel = before;
            Err(halted)
        }
    }
}

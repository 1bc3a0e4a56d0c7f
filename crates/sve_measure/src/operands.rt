ghost use Rattle.std.specs.Prelude.{◌≡◌, ◌+◌, true, IfOk};
ghost use Rattle.sve_fault.specs.Counts.{IsFuel, Counts};
ghost use Rattle.sve_rule.specs.Judged.{judged};
ghost use Rattle.sve_rule.specs.Rows.{lined};
ghost use Rattle.sve_rule.specs.Rules.{appended_judged, whole_judged};
ghost use Rattle.sve_rule.specs.Dimensions.{extended};
ghost use Rattle.sve_select.specs.Pieces.{pieced};
ghost use Rattle.sve_env.specs.Nodes.{nodes, range_nodes, dimension_nodes, nodes_of_expressions, nodes_of_range_selects, nodes_of_dimensions};
ghost use Rattle.sve_form.specs.Tokens.{opening_of};
ghost use Rattle.sve_measure.specs.Constants.{concatenated, replicated_over, selected_of, piece_after, operand_of, no_selects, is_bare, line_of_operands, places_of_dimensions, range_of};

use crate::measure::{operand, second};
use crate::naming::bracket;
use std::alloc::Global;
use sve_env::Env;
use sve_fault::{Fault, Fuel, Halted, spend};
use sve_form::{empty_at, opening_of, token_of, unsized_at};
use sve_rule::Judged;
use sve_select::{Selected, ended, row};
use sve_tree::{Dimension, Expr, RangeSelect, Row};
use sve_types::Range;

/// A concatenation, without the selects of its bits (11.4.12).
#[cycle(measure)]
pub(crate) fn concatenation<E: Env>(
    alloc: Global,
    opening: u32,
    operands: &Row<Expr>,
    env: &E,
    fuel: &mut Fuel,
) -> Result<Judged, Halted>
    requires { IsFuel fuel.old }
    ensures meaning { IfOk result (λ r. judged r ≡ concatenated (E.told env.now) opening operands.now) }
    ensures count { Counts result fuel.old fuel.new (1 + nodes_of_expressions (E.told env.now) operands.now) }
{
    spend(fuel)?;
    let row = row_of(alloc, operands, env, fuel)?;
    Ok(sve_rule::whole(opening, empty_at(opening, operands), row))
}

/// A replication that stands as an expression, behind its count and without the selects of its bits (11.4.12.1).
#[cycle(measure)]
pub(crate) fn repeated<E: Env>(
    alloc: Global,
    opening: u32,
    token: u32,
    count: Judged,
    operands: &Row<Expr>,
    env: &E,
    fuel: &mut Fuel,
) -> Result<Judged, Halted>
    requires { IsFuel fuel.old }
    ensures meaning { IfOk result (λ r. judged r ≡ whole_judged opening token (replicated_over (E.told env.now) opening token (judged count) operands.now)) }
    ensures count { Counts result fuel.old fuel.new (nodes_of_expressions (E.told env.now) operands.now) }
{
    let row = replicated(alloc, opening, token, count, operands, env, fuel)?;
    Ok(sve_rule::whole(opening, token, row))
}

/// The bits of a replication, behind its count; there may be none.
#[cycle(measure)]
fn replicated<E: Env>(
    alloc: Global,
    opening: u32,
    token: u32,
    count: Judged,
    operands: &Row<Expr>,
    env: &E,
    fuel: &mut Fuel,
) -> Result<Result<sve_rule::Row, Fault>, Halted>
    requires { IsFuel fuel.old }
    ensures meaning { IfOk result (λ r. lined r ≡ replicated_over (E.told env.now) opening token (judged count) operands.now) }
    ensures count { Counts result fuel.old fuel.new (nodes_of_expressions (E.told env.now) operands.now) }
{
    match row_of(alloc, operands, env, fuel) {
        Ok(row) => {
            let empty = empty_at(opening, operands);
            Ok(sve_rule::replication(opening, token, empty, count, row))
        }
        Err(halted) => Err(halted),
    }
}

/// Selects of the bits of a concatenation, in order (11.4.12).
#[cycle(measure)]
#[tactic(auto, using(crate::proofs::Selects::pieces_of_vec, crate::proofs::Selects::pieces_step, crate::proofs::Selects::pieces_end, sve_env::proofs::Rows::range_select_row_of, sve_env::proofs::Rows::range_select_count_step, sve_env::proofs::Rows::range_select_count_end))]
pub(crate) fn selected<E: Env>(
    alloc: Global,
    opening: u32,
    value: Judged,
    selects: &Vec<RangeSelect>,
    env: &E,
    fuel: &mut Fuel,
) -> Result<Judged, Halted>
    requires { IsFuel fuel.old }
    ensures meaning { IfOk result (λ r. judged r ≡ selected_of (E.told env.now) opening (judged value) selects.now) }
    ensures count { Counts result fuel.old fuel.new (nodes_of_range_selects (E.told env.now) selects.now) }
{
    let mut before = row(value);
    'selects: for next in selects {
        before = further(alloc, opening, before, next, env, fuel)?;
    }
    Ok(ended(before))
}

/// A select behind others of a concatenation.
#[cycle(measure)]
fn further<'t, E: Env>(
    alloc: Global,
    opening: u32,
    before: Selected<'t>,
    select: &RangeSelect,
    env: &E,
    fuel: &mut Fuel,
) -> Result<Selected<'t>, Halted>
    requires { IsFuel fuel.old }
    ensures meaning { IfOk result (λ r. pieced r ≡ piece_after (E.told env.now) opening (pieced before.entry) select.now.range) }
    ensures count { Counts result fuel.old fuel.new (1 + range_nodes (E.told env.now) select.now.range) }
{
    match bracket(alloc, select, env, fuel) {
        Ok(choice) => Ok(sve_select::selected(alloc, opening, opening, b"", before, choice)?),
        Err(halted) => Err(halted),
    }
}

/// The bits of operands, one behind another.
#[cycle(measure)]
#[tactic(auto, using(crate::proofs::Rows::line_of_vec, crate::proofs::Rows::line_step, crate::proofs::Rows::line_end, sve_env::proofs::Rows::expression_row_of, sve_env::proofs::Rows::expression_count_step, sve_env::proofs::Rows::expression_count_end))]
fn row_of<E: Env>(
    alloc: Global,
    operands: &Row<Expr>,
    env: &E,
    fuel: &mut Fuel,
) -> Result<Result<sve_rule::Row, Fault>, Halted>
    requires { IsFuel fuel.old }
    ensures meaning { IfOk result (λ r. lined r ≡ line_of_operands (E.told env.now) operands.now) }
    ensures count { Counts result fuel.old fuel.new (nodes_of_expressions (E.told env.now) operands.now) }
{
    let mut before = Ok(sve_rule::Row::Empty);
    'operands: for next in &operands.items {
        before = appended(alloc, before, next, env, fuel)?;
    }
    Ok(before)
}

/// One operand more behind others.
#[cycle(measure)]
fn appended<E: Env>(
    alloc: Global,
    before: Result<sve_rule::Row, Fault>,
    next: &Expr,
    env: &E,
    fuel: &mut Fuel,
) -> Result<Result<sve_rule::Row, Fault>, Halted>
    requires { IsFuel fuel.old }
    ensures meaning { IfOk result (λ r. lined r ≡ appended_judged (lined before) (operand_of (E.told env.now) next.now)) }
    ensures count { Counts result fuel.old fuel.new (nodes (E.told env.now) next.now) }
{
    match part(alloc, next, env, fuel) {
        Ok(part) => Ok(sve_rule::append(before, part)),
        Err(halted) => Err(halted),
    }
}

/// Whether no bits are selected.
#[tactic(auto, using(crate::proofs::Selects::no_selects_are))]
fn has_no_selects(selects: &Vec<RangeSelect>) -> bool
    ensures { result ≡ no_selects selects.now }
{
    selects.is_empty()
}

/// Whether an expression is a replication of which no bits are selected.
#[tactic(auto, unfolding(crate::specs::Constants::is_bare))]
fn is_bare(expr: &Expr) -> bool
    ensures { result ≡ is_bare expr.now }
{
    match expr {
        Expr::Replication { selects, .. } => has_no_selects(selects),
        _ => false,
    }
}

/// The bits of one operand. A replication among operands may have none, where none of them are selected.
#[cycle(measure)]
#[tactic(auto, using(crate::proofs::Selects::other_operand))]
fn part<E: Env>(
    alloc: Global,
    expr: &Expr,
    env: &E,
    fuel: &mut Fuel,
) -> Result<Result<sve_rule::Row, Fault>, Halted>
    requires { IsFuel fuel.old }
    ensures meaning { IfOk result (λ r. lined r ≡ operand_of (E.told env.now) expr.now) }
    ensures count { Counts result fuel.old fuel.new (nodes (E.told env.now) expr.now) }
{
    if is_bare(expr) {
        return bare(alloc, expr, env, fuel);
    }
    let value = operand(alloc, expr, env, fuel)?;
    Ok(sve_rule::part(unsized_at(expr), value))
}

/// The bits of a replication of which none are selected; there may be none.
#[cycle(measure)]
#[tactic(auto, using(crate::proofs::Selects::bare_operand, crate::proofs::Selects::bare_nodes), unfolding(crate::specs::Constants::is_bare))]
fn bare<E: Env>(
    alloc: Global,
    expr: &Expr,
    env: &E,
    fuel: &mut Fuel,
) -> Result<Result<sve_rule::Row, Fault>, Halted>
    requires fuel { IsFuel fuel.old }
    requires bare { is_bare expr.now ≡ true }
    ensures meaning { IfOk result (λ r. lined r ≡ operand_of (E.told env.now) expr.now) }
    ensures count { Counts result fuel.old fuel.new (nodes (E.told env.now) expr.now) }
{
    match expr {
        Expr::Replication {
            opening,
            count,
            operands,
            ..
        } => {
            spend(fuel)?;
            let number = operand(alloc, count, env, fuel)?;
            replicated(
                alloc,
                *opening,
                token_of(count),
                number,
                operands,
                env,
                fuel,
            )
        }
        _ => unreachable!(),
    }
}

/// The places of packed dimensions together (7.4).
#[cycle(measure)]
#[tactic(auto, using(crate::proofs::Rows::places_of_vec, crate::proofs::Rows::places_step, crate::proofs::Rows::places_end, sve_env::proofs::Rows::dimension_row_of, sve_env::proofs::Rows::dimension_count_step, sve_env::proofs::Rows::dimension_count_end))]
pub(crate) fn places<E: Env>(
    alloc: Global,
    dimensions: &Vec<Dimension>,
    env: &E,
    fuel: &mut Fuel,
) -> Result<Result<u64, Fault>, Halted>
    requires { IsFuel fuel.old }
    ensures meaning { IfOk result (λ r. r ≡ places_of_dimensions (E.told env.now) dimensions.now) }
    ensures count { Counts result fuel.old fuel.new (nodes_of_dimensions (E.told env.now) dimensions.now) }
{
    let mut before = Ok(1);
    'dimensions: for next in dimensions {
        before = multiplied(alloc, before, next, env, fuel)?;
    }
    Ok(before)
}

/// The places of dimensions, with one dimension more.
#[cycle(measure)]
fn multiplied<E: Env>(
    alloc: Global,
    before: Result<u64, Fault>,
    next: &Dimension,
    env: &E,
    fuel: &mut Fuel,
) -> Result<Result<u64, Fault>, Halted>
    requires { IsFuel fuel.old }
    ensures meaning { IfOk result (λ r. r ≡ extended (opening_of next.now) before (range_of (E.told env.now) next.now)) }
    ensures count { Counts result fuel.old fuel.new (dimension_nodes (E.told env.now) next.now) }
{
    match dimension(alloc, next, env, fuel) {
        Ok(range) => Ok(sve_rule::extended(opening_of(next), before, range)),
        Err(halted) => Err(halted),
    }
}

/// The bounds of a dimension, packed or not (IEEE 1800-2017, 7.4): C06 at its bracket where they are none, as with an x or z bit,
/// outside of 32 signed bits, or a size below 1. It counts the nodes of the bounds, and is Over exactly where they pass the most.
#[cycle(measure)]
#[tactic(auto, unfolding(crate::specs::Constants::range_of, sve_env::specs::Nodes::dimension_nodes))]
pub fn dimension<E: Env>(
    alloc: Global,
    dimension: &Dimension,
    env: &E,
    fuel: &mut Fuel,
) -> Result<Result<Range, Fault>, Halted>
    requires { IsFuel fuel.old }
    ensures meaning { IfOk result (λ r. r ≡ range_of (E.told env.now) dimension.now) }
    ensures count { Counts result fuel.old fuel.new (dimension_nodes (E.told env.now) dimension.now) }
{
    match dimension {
        Dimension::Size { opening, size, .. } => {
            let size = operand(alloc, size, env, fuel)?;
            Ok(sve_rule::size(*opening, size))
        }
        Dimension::Range {
            opening,
            left,
            right,
            ..
        } => {
            let left = operand(alloc, left, env, fuel)?;
            let (left, right) = second(alloc, left, right, env, fuel)?;
            Ok(sve_rule::range(*opening, left, right))
        }
    }
}

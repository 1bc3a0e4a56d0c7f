ghost use Rattle.std.specs.Prelude.{◌≡◌, IfOk};
ghost use Rattle.sve_fault.specs.Counts.{IsFuel, Counts};
ghost use Rattle.sve_env.specs.Nodes.{dimension_count};
ghost use Rattle.sve_type_rule.specs.Ranges.{dimensioned};
ghost use Rattle.sve_simple_type.specs.Simple.{ranges_behind};

use std::alloc::Global;
use sve_env::Env;
use sve_fault::{Fuel, Halted};
use sve_form::opening_of;
use sve_measure::dimension;
use sve_tree::Dimension;
use sve_type_rule::{Ranges, ranged};

/// Dimensions behind others, from the left (IEEE 1800-2017, 7.4). It counts the nodes of their bounds, and is Over exactly where these
/// pass the most.
#[tactic(auto, using(crate::proofs::Rows::ranges_step, crate::proofs::Rows::ranges_end, sve_env::proofs::Rows::dimension_count_step, sve_env::proofs::Rows::dimension_count_end))]
pub fn ranges<E: Env>(
    alloc: Global,
    before: Ranges,
    dimensions: &[Dimension],
    env: &E,
    fuel: &mut Fuel,
) -> Result<Ranges, Halted>
    requires { IsFuel fuel.old }
    ensures meaning { IfOk result (λ r. dimensioned r ≡ ranges_behind (E.told env.now) (dimensioned before) dimensions.now) }
    ensures count { Counts result fuel.old fuel.new (dimension_count (E.told env.now) dimensions.now) }
{
    let mut before = before;
    'dimensions: for next in dimensions {
        let range = dimension(alloc, next, env, fuel)?;
        before = ranged(opening_of(next), before, range)?;
    }
    Ok(before)
}

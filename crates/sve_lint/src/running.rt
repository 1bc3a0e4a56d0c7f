ghost use Rattle.std.specs.Prelude.{◌≡◌, OnOk, map};
ghost use Rattle.std.specs.List.{flat_map};
ghost use Rattle.sve_lint.specs.Rules.{HasPart, HaveParts, having_seen, having_seen_all};

use crate::instance::InstanceFacts;
use crate::rule::Rule;
use std::alloc::Global;
use sve_bytes::NoMemory;

/// Shows a rule one instance.
fn visit_one(
    alloc: Global,
    rule: &mut Box<dyn Rule>,
    instance: &InstanceFacts,
) -> Result<(), NoMemory>
    ensures seen { OnOk result (state rule.new ≡ having_seen instance.now (state rule.old)) }
    ensures part { HasPart ((state rule.old).meaning instance.now) (state rule.old) (state rule.new) }
{
    rule.visit(alloc, instance)
}

/// Shows a rule each instance of a design.
fn visit_all(
    alloc: Global,
    rule: &mut Box<dyn Rule>,
    design: &[InstanceFacts],
) -> Result<(), NoMemory>
    ensures seen { OnOk result (state rule.new ≡ having_seen_all design.now (state rule.old)) }
    ensures part { HasPart (flat_map (state rule.old).meaning design.now) (state rule.old) (state rule.new) }
{
    'instances: for instance in design {
        visit_one(alloc, rule, instance)?;
    }
    Ok(())
}

/// Shows each rule each instance of a design, whose findings grow by what its meaning gives for each of them, in order, whatever
/// rules stand beside it. Names and meanings stay.
///
/// # Errors
/// For want of memory alone; then of the findings that each rule would have it holds the first, perhaps no more than it held.
pub fn run(
    alloc: Global,
    rules: &mut [Box<dyn Rule>],
    design: &[InstanceFacts],
) -> Result<(), NoMemory>
    ensures seen { OnOk result (map (λ rule. state rule) rules.new ≡ map (having_seen_all design.now) (map (λ rule. state rule) rules.old)) }
    ensures part { HaveParts design.now (map (λ rule. state rule) rules.old) (map (λ rule. state rule) rules.new) }
{
    'rules: for rule in rules.iter_mut() {
        visit_all(alloc, rule, design)?;
    }
    Ok(())
}

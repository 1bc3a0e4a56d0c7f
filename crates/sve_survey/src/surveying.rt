ghost use Rattle.std.specs.Prelude.{◌≡◌, ◌+◌, ◌≤◌, true, false, nat_le, IfErr, IfOk, OnOk};
ghost use Rattle.sve_told.specs.Told.{HasStopped, TellSame, asked_on};
ghost use Rattle.sve_facts.specs.Bodies.{Design, IsOf};
ghost use Rattle.sve_design.specs.Walk.{cost_of_all, instances, subtree};
ghost use Rattle.sve_design.specs.Paying.{bodies_asked, walk_asks};
ghost use Rattle.sve_design.specs.Halts.{HaltedAmong};
ghost use Rattle.sve_survey.specs.Seen.{child_visit, paid_for, seen, seen_below, top_visit};
ghost use Rattle.sve_survey.specs.Visitors.{having_seen_all};
ghost use Rattle.sve_survey.specs.Showing.{show_all};

use crate::visiting::Visitor;
use std::alloc::Global;
use sve_bytes::{Name, NoMemory};
use sve_design::{MAX_DEPTH, Visit, inside, top_path};
use sve_facts::{Bodies, Body, Child};
use sve_io::Halt;
use sve_spec::Spec;

/// The visit of a top.
fn top_visit(alloc: Global, top: &Spec) -> Result<Visit, NoMemory>
    ensures { IfOk result (λ visit. visit ≡ top_visit top.now) }
{
    Ok(Visit {
        path: top_path(alloc, top)?,
        spec: top.copy(alloc)?,
        depth: 1,
    })
}

/// The visit of an instance in the body of another.
fn child_visit(alloc: Global, parent: &Visit, child: &Child) -> Result<Visit, NoMemory>
    requires depth { parent.now.depth ≤ 64 }
    ensures { IfOk result (λ visit. visit ≡ child_visit parent.now child.now) }
{
    Ok(Visit {
        path: inside(alloc, &parent.path, &child.path)?,
        spec: child.spec.copy(alloc)?,
        depth: parent.depth + 1,
    })
}

/// Shows an instance and all below it, so many levels in all. Answers whether the budget was enough.
fn enter<B: Bodies, V: Visitor>(
    alloc: Global,
    bodies: &mut B,
    visit: &Visit,
    unconnected: &[Name],
    levels: u32,
    left: &mut u32,
    visitor: &mut V,
) -> Result<bool, Halt>
    requires levels { visit.now.depth + levels ≤ 65 }
    ensures tells { TellSame (B.tells bodies.old) (B.tells bodies.new) }
    ensures keeps { B.keeps bodies.old bodies.new }
    ensures shown { (design : Design) → IsOf design (B.tells bodies.old)
        → IfOk result (λ is_enough. (is_enough, record { visitor = V.state visitor.new; left = left.new; asked = B.asked bodies.new })
        ≡ show_all design (seen_below design levels visit.now unconnected.now) (record { visitor = V.state visitor.old; left = left.old; asked = B.asked bodies.old })) }
    ensures not_halted { OnOk result (B.halted bodies.new ≡ B.halted bodies.old) }
    ensures halted { (design : Design) → IsOf design (B.tells bodies.old)
        → IfErr result (λ halt. HaltedAmong (B.tells bodies.old) (bodies_asked design left.old (subtree design levels visit.now.depth visit.now.path visit.now.spec)) (B.halted bodies.old) (B.halted bodies.new)) }
    ensures stopped { IfErr result (HasStopped (B.stops bodies.old) (B.stops bodies.new)) }
    ensures not_stopped { OnOk result (B.stops bodies.new ≡ B.stops bodies.old) }
{
    if levels == 0 {
        return Ok(true);
    }
    if *left == 0 {
        return Ok(false);
    }
    let body = bodies.body(alloc, &visit.spec, *left - 1)?;
    let Body::Done { facts, cost } = &body else {
        return Ok(false);
    };
    visitor.visit(alloc, visit, unconnected, facts)?;
    *left = *left - 1 - *cost;
    'children: for child in facts.children.items() {
        let below = child_visit(alloc, visit, child)?;
        let names = child.unconnected.items();
        if !enter(alloc, bodies, &below, names, levels - 1, left, visitor)? {
            return Ok(false);
        }
    }
    Ok(true)
}

/// Shows a visitor all instances of a design, each before its children, and these in the order of the text (IEEE 1800-2017, 23.3):
/// each takes one and the cost of its body from the budget. Answers whether the budget was enough for all; where it was not, the
/// visitor was shown those that it was enough for.
///
/// # Errors
/// `Stopped` where the bodies stopped, or `NoMemory`; then nothing is said of what the visitor holds.
pub fn survey<B: Bodies, V: Visitor>(
    alloc: Global,
    bodies: &mut B,
    budget: u32,
    visitor: &mut V,
) -> Result<bool, Halt>
    // What the bodies tell stays, and so do they but for their notes.
    ensures tells { TellSame (B.tells bodies.old) (B.tells bodies.new) }
    ensures keeps { B.keeps bodies.old bodies.new }

    // Whether the budget is enough for any design of which they tell; what its instances give, or those that it is enough for;
    // and the bodies that were asked for.
    ensures enough { (design : Design) → IsOf design (B.tells bodies.old) → IfOk result (λ is_enough. is_enough ≡ nat_le (cost_of_all design (instances design)) budget) }
    ensures seen { (design : Design) → IsOf design (B.tells bodies.old)
        → IfOk result (λ is_enough. is_enough ≡ true → V.state visitor.new ≡ having_seen_all (seen design) (V.state visitor.old)) }
    ensures spent { (design : Design) → IsOf design (B.tells bodies.old)
        → IfOk result (λ is_enough. is_enough ≡ false → V.state visitor.new ≡ having_seen_all (paid_for design budget (seen design)) (V.state visitor.old)) }
    ensures asked { (design : Design) → IsOf design (B.tells bodies.old) → OnOk result (B.asked bodies.new ≡ asked_on (walk_asks design budget) (B.asked bodies.old)) }

    // It halts only at a question that it asks and of which nothing is told, and the number of a stop is kept.
    ensures not_halted { OnOk result (B.halted bodies.new ≡ B.halted bodies.old) }
    ensures halted { (design : Design) → IsOf design (B.tells bodies.old)
        → IfErr result (λ halt. HaltedAmong (B.tells bodies.old) (walk_asks design budget) (B.halted bodies.old) (B.halted bodies.new)) }
    ensures stopped { IfErr result (HasStopped (B.stops bodies.old) (B.stops bodies.new)) }
    ensures not_stopped { OnOk result (B.stops bodies.new ≡ B.stops bodies.old) }
{
    let tops = bodies.tops(alloc)?;
    let mut left = budget;
    'tops: for top in tops.items() {
        let visit = top_visit(alloc, top)?;
        if !enter(alloc, bodies, &visit, &[], MAX_DEPTH, &mut left, visitor)? {
            return Ok(false);
        }
    }
    Ok(true)
}

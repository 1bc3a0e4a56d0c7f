ghost use Rattle.std.specs.Prelude.{◌≡◌, ℕ, ◌-◌, ◌≤◌, ◌∷◌, ◌++◌, [], IfErr, IfOk, OnOk};
ghost use Rattle.sve_told.specs.Told.{HasStopped, TellSame, asked_on};
ghost use Rattle.sve_facts.specs.Bodies.{Design, IsOf};
ghost use Rattle.sve_design.specs.Walk.{inside, subtree, walk, walk_value};
ghost use Rattle.sve_design.specs.Paying.{bodies_asked, pay_all, walk_asks};
ghost use Rattle.sve_design.specs.Halts.{HaltedAmong};

use crate::visits::{Visit, Walk, inside, top_path};
use std::alloc::Global;
use sve_bytes::{List, NoMemory, Path};
use sve_facts::{Bodies, Body};
use sve_io::Halt;
use sve_spec::Spec;

/// The greatest depth of an instance that is visited; that of a top is 1.
pub const MAX_DEPTH: u32 = 64;

/// How far a walk is.
#[derive(Drop)]
struct Progress {
    /// The instances that were visited.
    visits: Vec<Visit>,
    /// What is left of the budget.
    left: u32,
}

/// Adds the visit of an instance, which stands at a path in its parent, and answers its path.
fn visited(
    alloc: Global,
    parent: &Path,
    child: &Path,
    spec: &Spec,
    depth: u32,
    visits: &mut Vec<Visit>,
) -> Result<Path, NoMemory>
    ensures path { IfOk result (λ path. path ≡ inside parent.now child.now) }
    ensures visits { OnOk result (visits.new.items ≡ visits.old.items ++ record { path = inside parent.now child.now; spec = spec.now; depth = depth } ∷ []) }
{
    let path = inside(alloc, parent, child)?;
    visits.push(Visit {
        path: path.copy(alloc)?,
        spec: spec.copy(alloc)?,
        depth,
    })?;
    Ok(path)
}

/// Visits an instance and all below it, so many levels in all. Answers whether the budget was enough.
fn enter<B: Bodies>(
    alloc: Global,
    bodies: &mut B,
    parent: &Path,
    child: &Path,
    spec: &Spec,
    levels: u32,
    progress: &mut Progress,
) -> Result<bool, Halt>
    requires levels { levels ≤ 64 }
    ensures tells { TellSame (B.tells bodies.old) (B.tells bodies.new) }
    ensures keeps { B.keeps bodies.old bodies.new }
    ensures paid { (design : Design) → IsOf design (B.tells bodies.old)
        → IfOk result (λ is_enough. (is_enough, record { visits = progress.new.visits.items; left = progress.new.left; asked = B.asked bodies.new })
        ≡ pay_all design (subtree design levels (65 - levels) (inside parent.now child.now) spec.now) (record { visits = progress.old.visits.items; left = progress.old.left; asked = B.asked bodies.old })) }
    ensures not_halted { OnOk result (B.halted bodies.new ≡ B.halted bodies.old) }
    ensures halted { (design : Design) → IsOf design (B.tells bodies.old)
        → IfErr result (λ halt. HaltedAmong (B.tells bodies.old) (bodies_asked design progress.old.left (subtree design levels (65 - levels) (inside parent.now child.now) spec.now)) (B.halted bodies.old) (B.halted bodies.new)) }
    ensures stopped { IfErr result (HasStopped (B.stops bodies.old) (B.stops bodies.new)) }
    ensures not_stopped { OnOk result (B.stops bodies.new ≡ B.stops bodies.old) }
{
    if levels == 0 {
        return Ok(true);
    }
    if progress.left == 0 {
        return Ok(false);
    }
    let body = bodies.body(alloc, spec, progress.left - 1)?;
    let Body::Done { facts, cost } = &body else {
        return Ok(false);
    };
    progress.left = progress.left - 1 - *cost;
    let depth = MAX_DEPTH + 1 - levels;
    let path = visited(alloc, parent, child, spec, depth, &mut progress.visits)?;
    'children: for below in facts.children.items() {
        if !enter(
            alloc,
            bodies,
            &path,
            &below.path,
            &below.spec,
            levels - 1,
            progress,
        )? {
            return Ok(false);
        }
    }
    Ok(true)
}

/// Visits all instances of a design, each before its children, and these in the order of the text (IEEE 1800-2017, 23.3): each
/// takes one and the cost of its body from the budget.
///
/// # Errors
/// `Stopped` where the bodies stopped, or `NoMemory`.
pub fn walk<B: Bodies>(alloc: Global, bodies: &mut B, budget: u32) -> Result<Walk, Halt>
    // What the bodies tell stays, and so do they but for their notes.
    ensures tells { TellSame (B.tells bodies.old) (B.tells bodies.new) }
    ensures keeps { B.keeps bodies.old bodies.new }

    // The instances of any design of which they tell, and the bodies that were asked for.
    ensures walk { (design : Design) → IsOf design (B.tells bodies.old) → IfOk result (λ walked. walk_value walked ≡ walk design budget) }
    ensures asked { (design : Design) → IsOf design (B.tells bodies.old) → OnOk result (B.asked bodies.new ≡ asked_on (walk_asks design budget) (B.asked bodies.old)) }

    // It halts only at a question that it asks and of which nothing is told, and the number of a stop is kept.
    ensures not_halted { OnOk result (B.halted bodies.new ≡ B.halted bodies.old) }
    ensures halted { (design : Design) → IsOf design (B.tells bodies.old)
        → IfErr result (λ halt. HaltedAmong (B.tells bodies.old) (walk_asks design budget) (B.halted bodies.old) (B.halted bodies.new)) }
    ensures stopped { IfErr result (HasStopped (B.stops bodies.old) (B.stops bodies.new)) }
    ensures not_stopped { OnOk result (B.stops bodies.new ≡ B.stops bodies.old) }
{
    let tops = bodies.tops(alloc)?;
    let root = Path {
        steps: List::of(Vec::new(alloc)),
    };
    let mut progress = Progress {
        visits: Vec::new(alloc),
        left: budget,
    };
    'tops: for top in tops.items() {
        let path = top_path(alloc, top)?;
        if !enter(alloc, bodies, &root, &path, top, MAX_DEPTH, &mut progress)? {
            return Ok(Walk::Spent);
        }
    }
    Ok(Walk::Done(List::of(progress.visits)))
}

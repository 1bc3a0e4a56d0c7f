ghost use Rattle.std.specs.Prelude.{◌≡◌, ℕ, ◌-◌, ◌<◌, ◌≤◌, if◌then◌else◌, nat_lt, option_map, drop, IfErr, IfOk, OnOk};
ghost use Rattle.std.specs.Arc.{arc_value};
ghost use Rattle.std.specs.List as list;
ghost use Rattle.sve_told.specs.Told.{HasStopped, TellSame, asked_on};
ghost use Rattle.sve_facts.specs.Bodies.{Design, IsOf};
ghost use Rattle.sve_design.specs.Paying.{bodies_asked};
ghost use Rattle.sve_design.specs.Halts.{HaltedAmong};
ghost use Rattle.sve_design.specs.Walk.{inside};
ghost use Rattle.sve_find.specs.Ends.{find_value, token_place};
ghost use Rattle.sve_find.specs.Along.{ends_at, find, find_asks, first_of, is_block, leads, may_end, names_top, settle, visits, way};

use crate::found::{Find, Found, token_place};
use std::alloc::Global;
use std::sync::Arc;
use sve_bytes::{List, NoMemory, Path, Step};
use sve_design::{MAX_DEPTH, Visit, inside, top_path};
use sve_facts::{Bodies, Body, Child, Facts};
use sve_io::Halt;
use sve_scope::Spot;
use sve_spec::Spec;

/// Whether the path of a child begins the steps.
fn leads(steps: &[Step], child: &Child) -> bool
    ensures { result ≡ leads steps.now child.now }
{
    steps.starts_with(child.path.steps.items())
}

/// Whether the first step is the name of a top.
fn names_top(steps: &[Step], top: &Spec) -> bool
    ensures { result ≡ names_top steps.now top.now }
{
    match steps.split_first() {
        Some((first, _)) => first.index.is_none() && top.definition == first.name,
        None => false,
    }
}

/// The first child whose path begins the steps.
fn next_of<'a>(children: &'a [Child], steps: &[Step]) -> Option<&'a Child>
    ensures { option_map (λ child. child.now) result ≡ list.find (leads steps.now) children.now }
{
    children.iter().find(|child| leads(steps, child))
}

/// The first child whose path begins the steps, where more than one level is left.
fn next_within<'a>(children: &'a [Child], steps: &[Step], levels: u32) -> Option<&'a Child>
    ensures { option_map (λ child. child.now) result ≡ (if nat_lt 1 levels then list.find (leads steps.now) children.now else None) }
{
    if levels > 1 {
        next_of(children, steps)
    } else {
        None
    }
}

/// The first top that the first step names.
fn top_of<'a>(tops: &'a [Spec], steps: &[Step]) -> Option<&'a Spec>
    ensures { option_map (λ top. top.now) result ≡ list.find (names_top steps.now) tops.now }
{
    tops.iter().find(|top| names_top(steps, top))
}

/// The steps behind the first `count`.
fn behind(steps: &[Step], count: usize) -> &[Step]
    ensures { result.now ≡ drop count steps.now }
{
    if count <= steps.len() {
        &steps[count..]
    } else {
        &[]
    }
}

/// Whether the steps are the path of a generate block of a body.
fn is_block(facts: &Facts, steps: &[Step]) -> bool
    ensures { result ≡ is_block facts.now steps.now }
{
    facts
        .scopes
        .items()
        .iter()
        .any(|scope| scope.path.steps.items() == steps)
}

/// Whether a way may end at an instance with these steps behind it.
fn may_end(facts: &Facts, steps: &[Step]) -> bool
    ensures { result ≡ may_end facts.now steps.now }
{
    match steps.split_first() {
        Some(_) => is_block(facts, steps),
        None => true,
    }
}

/// The same steps, whose names share their bytes.
fn copied(alloc: Global, steps: &[Step]) -> Result<List<Step>, NoMemory>
    ensures { IfOk result (λ copies. copies ≡ steps.now) }
{
    let mut copies = Vec::with_capacity(alloc, steps.len())?;
    'steps: for step in steps {
        copies.push(step.copy()?)?;
    }
    Ok(List::of(copies))
}

/// An instance on the way: its path, and where its name stands.
#[derive(Drop)]
struct Standing {
    path: Path,
    at: Option<Spot>,
}

/// What stands below an instance at this path, whose body has these facts.
fn below(alloc: Global, path: &Path, facts: &Facts, child: &Child) -> Result<Standing, NoMemory>
    ensures { IfOk result (λ below. below ≡ record { path = inside path.now child.now.path; at = token_place facts.now.scopes child.now.token }) }
{
    Ok(Standing {
        path: inside(alloc, path, &child.path)?,
        at: token_place(facts, child.token)?,
    })
}

/// Where a way ends at an instance with these steps behind it, if it may.
fn ended(
    alloc: Global,
    here: Standing,
    spec: &Spec,
    depth: u32,
    facts: &Arc<Facts>,
    steps: &[Step],
    left: u32,
) -> Result<Find, NoMemory>
    ensures { IfOk result (λ found. find_value found ≡ ends_at (arc_value facts.now) (first_of here.path here.at spec.now depth steps.now) left) }
{
    if !may_end(facts, steps) {
        return Ok(Find::None);
    }
    let Standing { path, at } = here;
    Ok(Find::Here(Found {
        visit: Visit {
            path,
            spec: spec.copy(alloc)?,
            depth,
        },
        at,
        facts: Arc::try_clone(facts)?,
        rest: copied(alloc, steps)?,
        left,
    }))
}

/// Goes on from an instance with the steps behind it, so many levels in all.
fn follow<B: Bodies>(
    alloc: Global,
    bodies: &mut B,
    here: Standing,
    spec: &Spec,
    steps: &[Step],
    levels: u32,
    budget: u32,
) -> Result<Find, Halt>
    requires levels { (0 < levels) × (levels ≤ 64) }
    ensures tells { TellSame (B.tells bodies.old) (B.tells bodies.new) }
    ensures keeps { B.keeps bodies.old bodies.new }
    ensures settled { (design : Design) → IsOf design (B.tells bodies.old)
        → IfOk result (λ found. find_value found ≡ settle design budget (way design levels (65 - levels) here.path here.at spec.now steps.now)) }
    ensures asked { (design : Design) → IsOf design (B.tells bodies.old)
        → OnOk result (B.asked bodies.new ≡ asked_on (bodies_asked design budget (visits (way design levels (65 - levels) here.path here.at spec.now steps.now))) (B.asked bodies.old)) }
    ensures not_halted { OnOk result (B.halted bodies.new ≡ B.halted bodies.old) }
    ensures halted { (design : Design) → IsOf design (B.tells bodies.old)
        → IfErr result (λ halt. HaltedAmong (B.tells bodies.old) (bodies_asked design budget (visits (way design levels (65 - levels) here.path here.at spec.now steps.now))) (B.halted bodies.old) (B.halted bodies.new)) }
    ensures stopped { IfErr result (HasStopped (B.stops bodies.old) (B.stops bodies.new)) }
    ensures not_stopped { OnOk result (B.stops bodies.new ≡ B.stops bodies.old) }
{
    if budget == 0 {
        return Ok(Find::Spent);
    }
    let body = bodies.body(alloc, spec, budget - 1)?;
    match &body {
        Body::Over => Ok(Find::Spent),
        Body::Done { facts, cost } => {
            let left = budget - 1 - *cost;
            match next_within(facts.children.items(), steps, levels) {
                Some(child) => {
                    let below = below(alloc, &here.path, facts, child)?;
                    let rest = behind(steps, child.path.steps.items().len());
                    follow(alloc, bodies, below, &child.spec, rest, levels - 1, left)
                }
                None => {
                    let depth = MAX_DEPTH + 1 - levels;
                    Ok(ended(alloc, here, spec, depth, facts, steps, left)?)
                }
            }
        }
    }
}

/// The innermost instance on a path (IEEE 1800-2017, 23.6): each instance on the way takes one and the cost of its body from the
/// budget. The way begins at the first top that the first step names, and goes each time to the first child whose path begins the
/// steps that are left.
///
/// # Errors
/// `Stopped` where the bodies stopped, or `NoMemory`.
pub fn find<B: Bodies>(
    alloc: Global,
    bodies: &mut B,
    path: &Path,
    budget: u32,
) -> Result<Find, Halt>
    // What the bodies tell stays, and so do they but for their notes.
    ensures tells { TellSame (B.tells bodies.old) (B.tells bodies.new) }
    ensures keeps { B.keeps bodies.old bodies.new }

    // What is found in any design of which they tell, and the bodies that were asked for.
    ensures find { (design : Design) → IsOf design (B.tells bodies.old) → IfOk result (λ found. find_value found ≡ find design budget path.now) }
    ensures asked { (design : Design) → IsOf design (B.tells bodies.old) → OnOk result (B.asked bodies.new ≡ asked_on (find_asks design budget path.now) (B.asked bodies.old)) }

    // It halts only at a question that it asks and of which nothing is told, and the number of a stop is kept.
    ensures not_halted { OnOk result (B.halted bodies.new ≡ B.halted bodies.old) }
    ensures halted { (design : Design) → IsOf design (B.tells bodies.old)
        → IfErr result (λ halt. HaltedAmong (B.tells bodies.old) (find_asks design budget path.now) (B.halted bodies.old) (B.halted bodies.new)) }
    ensures stopped { IfErr result (HasStopped (B.stops bodies.old) (B.stops bodies.new)) }
    ensures not_stopped { OnOk result (B.stops bodies.new ≡ B.stops bodies.old) }
{
    let tops = bodies.tops(alloc)?;
    let steps = path.steps.items();
    match top_of(tops.items(), steps) {
        None => Ok(Find::None),
        Some(top) => {
            let first = top_path(alloc, top)?;
            let here = Standing {
                path: first,
                at: None,
            };
            let rest = behind(steps, 1);
            follow(alloc, bodies, here, top, rest, MAX_DEPTH, budget)
        }
    }
}

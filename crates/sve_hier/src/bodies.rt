ghost use Rattle.std.specs.Prelude.{◌≡◌, Some, None, [], ◌∷◌, if◌then◌else◌, map, option_map, IfErr, IfOk, OnOk};
ghost use Rattle.std.specs.Arc.{arc_value};
ghost use Rattle.sve_told.specs.Told.{HasStopped, TellSame, asked_on, noted};
ghost use Rattle.sve_facts.specs.Bodies.{Design, IsOf, OfBody};
ghost use Rattle.sve_design.specs.Halts.{HaltedAmong};
ghost use Rattle.sve_hier.specs.Instances.{asked_within, fits, instance_of, instance_value, instances_within};

use std::alloc::Global;
use std::sync::Arc;
use sve_bytes::{List, Name, NoMemory, Path};
use sve_design::Visit;
use sve_facts::{Bodies, Body, Facts};
use sve_io::Halt;

/// An instance of a design (IEEE 1800-2017, 23.3), with what is found of its body.
pub struct Instance {
    /// Its path from the root (23.6).
    pub path: Path,
    /// The name of its module or interface.
    pub module: Name,
    /// What is found of its body.
    pub facts: Arc<Facts>,
}

impl Drop for Instance {
    fn drop(self) {
        let Instance {
            path: _,
            module: _,
            facts: _,
        } = self;
    }
}

/// The instance of a visit, whose body has these facts.
///
/// # Errors
/// For want of memory alone.
pub fn opened(alloc: Global, visit: &Visit, facts: &Arc<Facts>) -> Result<Instance, NoMemory>
    ensures { IfOk result (λ i. instance_value i ≡ record { path = visit.now.path; module_name = visit.now.spec.definition; facts = arc_value facts.now }) }
{
    Ok(Instance {
        path: visit.path.copy(alloc)?,
        module: visit.spec.definition.copy()?,
        facts: Arc::try_clone(facts)?,
    })
}

/// The instance of a visit, or none where its body costs more than `fuel`.
fn instance_within<B: Bodies>(
    alloc: Global,
    bodies: &mut B,
    visit: &Visit,
    fuel: u32,
) -> Result<Option<Instance>, Halt>
    ensures tells { TellSame (B.tells bodies.old) (B.tells bodies.new) }
    ensures keeps { B.keeps bodies.old bodies.new }
    ensures instance { (design : Design) → IsOf design (B.tells bodies.old)
        → IfOk result (λ i. option_map instance_value i ≡ (if fits design fuel visit.now then Some (instance_of design visit.now) else None)) }
    ensures asked { OnOk result (B.asked bodies.new ≡ noted (OfBody visit.now.spec fuel) (B.asked bodies.old)) }
    ensures not_halted { OnOk result (B.halted bodies.new ≡ B.halted bodies.old) }
    ensures halted { IfErr result (λ halt. HaltedAmong (B.tells bodies.old) (OfBody visit.now.spec fuel ∷ []) (B.halted bodies.old) (B.halted bodies.new)) }
    ensures stopped { IfErr result (HasStopped (B.stops bodies.old) (B.stops bodies.new)) }
    ensures not_stopped { OnOk result (B.stops bodies.new ≡ B.stops bodies.old) }
{
    let body = bodies.body(alloc, &visit.spec, fuel)?;
    match &body {
        Body::Done { facts, cost: _ } => Ok(Some(opened(alloc, visit, facts)?)),
        Body::Over => Ok(None),
    }
}

/// The instances of these visits, in their order, with what is found of their bodies. The body of each visit is asked for once, with this
/// fuel, up to the first that costs more: then there are none.
///
/// # Errors
/// `Stopped` where the bodies stopped, or `NoMemory`.
pub fn instances<B: Bodies>(
    alloc: Global,
    bodies: &mut B,
    visits: &[Visit],
    fuel: u32,
) -> Result<Option<List<Instance>>, Halt>
    // What the bodies tell stays, and so do they but for their notes.
    ensures tells { TellSame (B.tells bodies.old) (B.tells bodies.new) }
    ensures keeps { B.keeps bodies.old bodies.new }

    // The instances in any design of which they tell, and the bodies that were asked for.
    ensures instances { (design : Design) → IsOf design (B.tells bodies.old) → IfOk result (λ is. option_map (map instance_value) is ≡ instances_within design fuel visits.now) }
    ensures asked { (design : Design) → IsOf design (B.tells bodies.old) → OnOk result (B.asked bodies.new ≡ asked_on (asked_within design fuel visits.now) (B.asked bodies.old)) }

    // It halts only at a question that it asks and of which nothing is told, and the number of a stop is kept.
    ensures not_halted { OnOk result (B.halted bodies.new ≡ B.halted bodies.old) }
    ensures halted { (design : Design) → IsOf design (B.tells bodies.old)
        → IfErr result (λ halt. HaltedAmong (B.tells bodies.old) (asked_within design fuel visits.now) (B.halted bodies.old) (B.halted bodies.new)) }
    ensures stopped { IfErr result (HasStopped (B.stops bodies.old) (B.stops bodies.new)) }
    ensures not_stopped { OnOk result (B.stops bodies.new ≡ B.stops bodies.old) }
{
    let mut instances = Vec::new(alloc);
    'visits: for visit in visits {
        match instance_within(alloc, bodies, visit, fuel)? {
            Some(instance) => instances.push(instance)?,
            None => return Ok(None),
        }
    }
    Ok(Some(List::of(instances)))
}

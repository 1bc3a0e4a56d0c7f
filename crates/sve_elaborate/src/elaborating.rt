//! The elaboration of a specialization, with so much fuel.
ghost use Rattle.std.specs.Prelude.{◌≡◌, ◌<◌, ◌^◌, Some, None, IfErr, IfOk, OnOk};
ghost use Rattle.sve_told.specs.Told.{HasStopped, Holds, Matches, TellSame, Told, asked_on};
ghost use Rattle.sve_plan.specs.Plan.{Needs, asks, run};
ghost use Rattle.sve_look.specs.Questions.{Question, Reply};
ghost use Rattle.sve_facts.specs.Bodies.{CostsWithin, body_value};
ghost use Rattle.sve_elaborate.specs.Bodies.{EndsAs, elaborated, outcome_value};

use crate::definitions::elaborated_to;
use crate::extent::Extent;
use std::alloc::Global;
use std::sync::Arc;
use sve_facts::{Body, Facts};
use sve_look::Look;
use sve_plan::{Fuel, Halt, Stop};
use sve_spec::Spec;

/// The body that a call came to which follows the plan.
fn body_of(alloc: Global, end: Result<Facts, Stop>, fuel: &Fuel) -> Result<Body, Halt>
    requires { IfOk end (λ _. fuel.now.used < 2 ^ 32) }
    ensures { EndsAs end fuel.now.used result }
{
    match end {
        Ok(facts) => {
            let facts = Arc::new(alloc, facts)?;
            Ok(Body::Done {
                facts,
                cost: fuel.used as u32,
            })
        }
        Err(Stop::Over) => Ok(Body::Over),
        Err(Stop::Halted(halt)) => Err(halt),
    }
}

/// Elaborates the body of a specialization (IEEE 1800-2017, 3.12.1, clauses 23, 26 and 27), where it costs no more than this: the header and the
/// items of its definition, over the items that the elements of its file have in front of it and the packages that these and it name. What
/// it costs is a count of items, declarations, connections and nodes of constant expressions; packages and items of the compilation unit's
/// scope count nothing. A name of no module or interface has a body with nothing in it, which costs nothing.
///
/// # Errors
/// As the object halts through which it reads, or for want of memory.
pub fn elaborate<W: Look>(
    alloc: Global,
    spec: &Spec,
    most: u32,
    world: &mut W,
) -> Result<Body, Halt>
    // What the object tells stays, and so does it but for its notes.
    ensures tells { TellSame (W.tells world.old) (W.tells world.new) }
    ensures keeps { W.keeps world.old world.new }

    // It is the body that the definition comes to over whatever holds what the object tells, or that it costs more; and the object was asked
    // for exactly what the definition asks.
    ensures found { (told : Told Reply) → Holds told (W.tells world.old) → IfOk result (λ body. outcome_value (run told most 0 (elaborated spec.now)) ≡ Some (body_value body)) }
    ensures within { IfOk result (CostsWithin most) }
    ensures asked { (told : Told Reply) → Holds told (W.tells world.old) → OnOk result (W.asked world.new ≡ asked_on (asks told most 0 (elaborated spec.now)) (W.asked world.old)) }

    // It halts only at a question that the definition needs, and the number of a stop is kept.
    ensures not_halted { OnOk result (W.halted world.new ≡ W.halted world.old) }
    ensures halted { (told : Told Reply) → Matches told (W.tells world.old) → W.halted world.old ≡ None → (question : Question) → W.halted world.new ≡ Some question
        → (run told most 0 (elaborated spec.now) ≡ Needs question) × (W.asked world.new ≡ asked_on (asks told most 0 (elaborated spec.now)) (W.asked world.old)) }
    ensures stopped { IfErr result (HasStopped (W.stops world.old) (W.stops world.new)) }
    ensures not_stopped { OnOk result (W.stops world.new ≡ W.stops world.old) }
{
    let mut fuel = Fuel {
        used: 0,
        most: most as u64,
    };
    let end = elaborated_to(alloc, Extent::Whole, spec, world, &mut fuel);
    body_of(alloc, end, &fuel)
}

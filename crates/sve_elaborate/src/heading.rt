//! The ports of a specialization.
ghost use Rattle.std.specs.Prelude.{◌≡◌, ◌-◌, ◌^◌, ℕ, None, Some, IfErr, IfOk, OnOk};
ghost use Rattle.sve_fault.specs.Counts.{IsFuel};
ghost use Rattle.sve_told.specs.Told.{HasStopped, Holds, Matches, TellSame, Told, asked_on};
ghost use Rattle.sve_plan.specs.Follows.{Follows};
ghost use Rattle.sve_plan.specs.Plan.{Done, Needs, asks, run};
ghost use Rattle.sve_look.specs.Questions.{Question, Reply};
ghost use Rattle.sve_elaborate.specs.Bodies.{GivesAs, header_ports, ports_of};

use crate::definitions::elaborated_to;
use crate::extent::Extent;
use std::alloc::Global;
use std::mem;
use sve_bytes::List;
use sve_facts::{Facts, Port};
use sve_look::Look;
use sve_plan::{Fuel, Halt, Stop};
use sve_spec::Spec;

/// The ports among what was found.
fn ports_of(alloc: Global, mut facts: Facts) -> List<Port>
    ensures { result ≡ ports_of facts }
{
    mem::replace(&mut facts.ports, List::of(Vec::new(alloc)))
}

/// The ports of a specialization, which are those of its header.
fn header_ports<W: Look>(
    alloc: Global,
    spec: &Spec,
    world: &mut W,
    fuel: &mut Fuel,
) -> Result<List<Port>, Stop>
    requires { IsFuel fuel.old }
    ensures { Follows (record { tells = W.tells; keeps = W.keeps; halted = W.halted; stops = W.stops; asked = W.asked }) world.old world.new fuel.old fuel.new (header_ports spec.now) result }
{
    let facts = elaborated_to(alloc, Extent::Header, spec, world, fuel)?;
    Ok(ports_of(alloc, facts))
}

/// The ports to which a call came that follows the plan with all fuel that can be counted.
fn given(end: Result<List<Port>, Stop>) -> Result<List<Port>, Halt>
    ensures { GivesAs end result }
{
    match end {
        Ok(ports) => Ok(ports),
        Err(Stop::Halted(halt)) => Err(halt),
        // A count stands at its last value, so all fuel is never too little; of an object that tells two answers of one question no
        // clause says so.
        Err(Stop::Over) => Err(Halt::NoMemory),
    }
}

/// The ports of a specialization, in the order of its text (IEEE 1800-2017, 23.2.2), by its header alone: its imports and its parameters,
/// over the items that the elements of its file have in front of it and the packages that these and it name. A name of no module or
/// interface has none. It costs nothing.
///
/// # Errors
/// As the object halts through which it reads, or for want of memory.
pub fn ports<W: Look>(alloc: Global, spec: &Spec, world: &mut W) -> Result<List<Port>, Halt>
    // What the object tells stays, and so does it but for its notes.
    ensures tells { TellSame (W.tells world.old) (W.tells world.new) }
    ensures keeps { W.keeps world.old world.new }

    // They are the ports that the definition comes to over whatever holds what the object tells, whatever they cost; and the object was
    // asked for exactly what the definition asks.
    ensures found { (told : Told Reply) → Holds told (W.tells world.old) → IfOk result (λ ports. (cost : ℕ) × (run told (2 ^ 64 - 1) 0 (header_ports spec.now) ≡ Done ports cost)) }
    ensures asked { (told : Told Reply) → Holds told (W.tells world.old) → OnOk result (W.asked world.new ≡ asked_on (asks told (2 ^ 64 - 1) 0 (header_ports spec.now)) (W.asked world.old)) }

    // It halts only at a question that the definition needs, and the number of a stop is kept.
    ensures not_halted { OnOk result (W.halted world.new ≡ W.halted world.old) }
    ensures halted { (told : Told Reply) → Matches told (W.tells world.old) → W.halted world.old ≡ None → (question : Question) → W.halted world.new ≡ Some question
        → (run told (2 ^ 64 - 1) 0 (header_ports spec.now) ≡ Needs question) × (W.asked world.new ≡ asked_on (asks told (2 ^ 64 - 1) 0 (header_ports spec.now)) (W.asked world.old)) }
    ensures stopped { IfErr result (HasStopped (W.stops world.old) (W.stops world.new)) }
    ensures not_stopped { OnOk result (W.stops world.new ≡ W.stops world.old) }
{
    let mut fuel = Fuel {
        used: 0,
        most: u64::MAX,
    };
    let end = header_ports(alloc, spec, world, &mut fuel);
    given(end)
}

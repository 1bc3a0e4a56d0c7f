//! All that is wrong in a design, where its instances cost no more than a budget.
ghost use Rattle.std.specs.Prelude.{◌≡◌, IfErr, IfOk, OnOk, option_map};
ghost use Rattle.sve_told.specs.Told.{HasStopped, TellSame, asked_on};
ghost use Rattle.sve_facts.specs.Bodies.{Design, IsOf};
ghost use Rattle.sve_design.specs.Paying.{walk_asks};
ghost use Rattle.sve_design.specs.Halts.{HaltedAmong};
ghost use Rattle.sve_front.specs.Readings.{AreCut};
ghost use Rattle.sve_diagnostics.specs.Diagnostics.{diagnostics, with_instances};

use crate::gathering::all_diags;
use crate::reading::Readings;
use std::alloc::Global;
use sve_bytes::{List, NoMemory};
use sve_diag::Diag;
use sve_facts::Bodies;
use sve_io::Halt;
use sve_survey::{Surveyed, surveyed_instances};

/// All diagnostics, where these are the instances.
fn with_instances(
    alloc: Global,
    read: Readings<'_>,
    instances: &Option<Vec<Surveyed>>,
) -> Result<Option<List<Diag>>, NoMemory>
    requires { AreCut read.units.now }
    ensures { IfOk result (λ diags. diags ≡ with_instances read.entry.units.now read.entry.texts.now read.entry.index.now read.entry.packages.now (option_map (λ instances. instances.items) instances.now)) }
{
    match instances {
        Some(instances) => Ok(Some(all_diags(alloc, read, instances)?)),
        None => Ok(None),
    }
}

/// All diagnostics of a design: of the texts of its files, of its index, of its packages, whatever imports them, of the bodies of its
/// instances, and of the hierarchical names in these that are not found among all instances (IEEE 1800-2017, 23.8), in the order of files,
/// places, codes and arguments, each once; none where the instances cost more than the budget: each costs one, and what its body costs.
///
/// # Errors
/// `Stopped` where the bodies stopped, or `NoMemory`.
pub fn diagnostics<B: Bodies>(
    alloc: Global,
    read: Readings<'_>,
    bodies: &mut B,
    budget: u32,
) -> Result<Option<List<Diag>>, Halt>
    // The units are cut into their chunks.
    requires { AreCut read.units.now }

    // What the bodies tell stays, and so do they but for their notes.
    ensures tells { TellSame (B.tells bodies.old) (B.tells bodies.new) }
    ensures keeps { B.keeps bodies.old bodies.new }

    // The diagnostics of any design of which they tell, and the bodies that were asked for.
    ensures diagnostics { (design : Design) → IsOf design (B.tells bodies.old) → IfOk result (λ diags. diags ≡ diagnostics read.entry.units.now read.entry.texts.now read.entry.index.now read.entry.packages.now design budget) }
    ensures asked { (design : Design) → IsOf design (B.tells bodies.old) → OnOk result (B.asked bodies.new ≡ asked_on (walk_asks design budget) (B.asked bodies.old)) }

    // It halts only at a question that it asks and of which nothing is told, and the number of a stop is kept.
    ensures not_halted { OnOk result (B.halted bodies.new ≡ B.halted bodies.old) }
    ensures halted { (design : Design) → IsOf design (B.tells bodies.old)
        → IfErr result (λ halt. HaltedAmong (B.tells bodies.old) (walk_asks design budget) (B.halted bodies.old) (B.halted bodies.new)) }
    ensures stopped { IfErr result (HasStopped (B.stops bodies.old) (B.stops bodies.new)) }
    ensures not_stopped { OnOk result (B.stops bodies.new ≡ B.stops bodies.old) }
{
    let instances = surveyed_instances(alloc, bodies, budget)?;
    Ok(with_instances(alloc, read, &instances)?)
}

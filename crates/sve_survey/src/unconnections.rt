ghost use Rattle.std.specs.Prelude.{◌≡◌, ℕ, List, [], ◌++◌, IfErr, IfOk, OnOk};
ghost use Rattle.std.specs.List.{flat_map};
ghost use Rattle.std.specs.BTreeSet.{contains};
ghost use Rattle.std.specs.Ordering.{nat_cmp};
ghost use Rattle.std.specs.Cmp.Lexicographic.{slice_cmp};
ghost use Rattle.sve_told.specs.Told.{HasStopped, TellSame, asked_on};
ghost use Rattle.sve_facts.specs.Bodies.{Design, IsOf};
ghost use Rattle.sve_design.specs.Paying.{walk_asks};
ghost use Rattle.sve_design.specs.Halts.{HaltedAmong};
ghost use Rattle.sve_survey.specs.Visitors.{given_by_all};
ghost use Rattle.sve_survey.specs.Lint.{is_among, lint_facts, lint_facts_of, lint_visitor, port_if, ports_among};

use crate::surveying::survey;
use crate::visiting::Visitor;
use std::alloc::Global;
use std::collections::BTreeSet;
use std::sync::Arc;
use sve_bytes::{List, Name, NoMemory};
use sve_design::Visit;
use sve_facts::{Bodies, Facts, Port};
use sve_io::Halt;
use sve_lint::{InstanceFacts, UnconnectedPort};

/// The visitor that collects the instances as lint sees them, each with its ports that its parent connects to nothing (IEEE
/// 1800-2017, 23.3.2).
#[derive(Drop)]
pub struct Unconnections {
    instances: Vec<InstanceFacts>,
}

impl Unconnections {
    /// The visitor, with no instances. It takes no memory.
    pub fn new(alloc: Global) -> Unconnections
        ensures { ⟦<Unconnections as Visitor>⟧.state result ≡ lint_visitor [] }
    {
        Unconnections {
            instances: Vec::new(alloc),
        }
    }

    /// The instances that it holds, in order. It takes no memory.
    pub fn into_instances(self) -> List<InstanceFacts>
        ensures { ⟦<Unconnections as Visitor>⟧.state self ≡ lint_visitor result }
    {
        List::of(self.instances)
    }
}

/// The set of these names, so that each is looked up in few steps.
fn set_of(alloc: Global, names: &[Name]) -> Result<BTreeSet<Name>, NoMemory>
    ensures { IfOk result (λ set. (name : List ℕ) → is_among names.now name ≡ contains (slice_cmp nat_cmp) set name) }
{
    let mut set = BTreeSet::new(alloc);
    'names: for name in names {
        set.insert(name.copy()?)?;
    }
    Ok(set)
}

/// Adds a port, where its name is in the set.
fn add_port(
    named: &BTreeSet<Name>,
    port: &Port,
    ports: &mut Vec<UnconnectedPort>,
) -> Result<(), NoMemory>
    ensures { OnOk result (ports.new.items ≡ ports.old.items ++ port_if (contains (slice_cmp nat_cmp) named.now) port.now) }
{
    if named.contains(&port.name) {
        ports.push(UnconnectedPort {
            name: port.name.copy()?,
            direction: port.direction,
        })?;
    }
    Ok(())
}

/// The ports whose names are in the set, in their order.
fn ports_in(
    alloc: Global,
    named: &BTreeSet<Name>,
    ports: &[Port],
) -> Result<List<UnconnectedPort>, NoMemory>
    ensures { IfOk result (λ found. found ≡ flat_map (port_if (contains (slice_cmp nat_cmp) named.now)) ports.now) }
{
    let mut found = Vec::new(alloc);
    'ports: for port in ports {
        add_port(named, port, &mut found)?;
    }
    Ok(List::of(found))
}

/// The ports that have one of these names, in the order of the ports.
fn ports_among(
    alloc: Global,
    names: &[Name],
    ports: &[Port],
) -> Result<List<UnconnectedPort>, NoMemory>
    ensures { IfOk result (λ found. found ≡ ports_among names.now ports.now) }
{
    let named = set_of(alloc, names)?;
    ports_in(alloc, &named, ports)
}

/// An instance as lint sees it.
fn lint_facts(
    alloc: Global,
    visit: &Visit,
    unconnected: &[Name],
    facts: &Facts,
) -> Result<InstanceFacts, NoMemory>
    ensures { IfOk result (λ instance. instance ≡ lint_facts (record { visit = visit.now; unconnected = unconnected.now; facts = facts.now })) }
{
    Ok(InstanceFacts {
        path: visit.path.copy(alloc)?,
        module: visit.spec.definition.copy()?,
        depth: visit.depth,
        unconnected: ports_among(alloc, unconnected, facts.ports.items())?,
    })
}

impl Visitor for Unconnections {
    ghost use Rattle.sve_survey.specs.Lint.{lint_visitor};

    type Item = InstanceFacts;

    ghost state = { λ visitor. lint_visitor visitor.instances.items };

    fn visit(
        &mut self,
        alloc: Global,
        visit: &Visit,
        unconnected: &[Name],
        facts: &Arc<Facts>,
    ) -> Result<(), NoMemory> {
        let instance = lint_facts(alloc, visit, unconnected, facts)?;
        self.instances.push(instance)?;
        Ok(())
    }
}

/// All instances of a design as lint sees them, each before its children, and these in the order of the text (IEEE 1800-2017, 23.3);
/// none where they cost more than the budget.
///
/// # Errors
/// `Stopped` where the bodies stopped, or `NoMemory`.
pub fn instances_for_lint<B: Bodies>(
    alloc: Global,
    bodies: &mut B,
    budget: u32,
) -> Result<Option<List<InstanceFacts>>, Halt>
    // What the bodies tell stays, and so do they but for their notes.
    ensures tells { TellSame (B.tells bodies.old) (B.tells bodies.new) }
    ensures keeps { B.keeps bodies.old bodies.new }

    // The instances of any design of which they tell, and the bodies that were asked for.
    ensures instances { (design : Design) → IsOf design (B.tells bodies.old) → IfOk result (λ instances. instances ≡ given_by_all lint_facts_of design budget) }
    ensures asked { (design : Design) → IsOf design (B.tells bodies.old) → OnOk result (B.asked bodies.new ≡ asked_on (walk_asks design budget) (B.asked bodies.old)) }

    // It halts only at a question that it asks and of which nothing is told, and the number of a stop is kept.
    ensures not_halted { OnOk result (B.halted bodies.new ≡ B.halted bodies.old) }
    ensures halted { (design : Design) → IsOf design (B.tells bodies.old)
        → IfErr result (λ halt. HaltedAmong (B.tells bodies.old) (walk_asks design budget) (B.halted bodies.old) (B.halted bodies.new)) }
    ensures stopped { IfErr result (HasStopped (B.stops bodies.old) (B.stops bodies.new)) }
    ensures not_stopped { OnOk result (B.stops bodies.new ≡ B.stops bodies.old) }
{
    let mut visitor = Unconnections::new(alloc);
    if !survey(alloc, bodies, budget, &mut visitor)? {
        return Ok(None);
    }
    Ok(Some(visitor.into_instances()))
}

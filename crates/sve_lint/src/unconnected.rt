ghost use Rattle.std.specs.Prelude.{◌≡◌, [], ◌++◌, IfErr, OnOk};
ghost use Rattle.std.specs.List.{flat_map};
ghost use Rattle.sve_lint.specs.Rules.{HasPart};
ghost use Rattle.sve_lint.specs.Meanings.{port_findings, reads, unconnected_rule};

use crate::instance::{Finding, InstanceFacts, UnconnectedPort};
use crate::rule::Rule;
use std::alloc::Global;
use sve_bytes::{Dir, NoMemory};

/// The rule `unconnected`: it finds each input or inout port that an instance leaves unconnected (IEEE 1800-2017, 23.3.2), with
/// the port's name as detail. A top leaves none unconnected.
#[derive(Drop)]
pub struct Unconnected {
    found: Vec<Finding>,
}

impl Unconnected {
    /// The rule, with no findings. It takes no memory.
    pub fn new(alloc: Global) -> Unconnected
        ensures { ⟦<Unconnected as Rule>⟧.state result ≡ unconnected_rule [] }
    {
        Unconnected {
            found: Vec::new(alloc),
        }
    }
}

/// Whether a port of this direction reads what is connected to it.
fn reads(direction: Dir) -> bool
    ensures { result ≡ reads direction }
{
    match direction {
        Dir::Input | Dir::Inout => true,
        Dir::Output => false,
    }
}

/// Adds what a port gives that is connected to nothing.
fn visit_port(
    alloc: Global,
    instance: &InstanceFacts,
    port: &UnconnectedPort,
    found: &mut Vec<Finding>,
) -> Result<(), NoMemory>
    ensures added { OnOk result (found.new.items ≡ found.old.items ++ port_findings instance.now port.now) }
    ensures none { IfErr result (λ no_memory. found.new.items ≡ found.old.items) }
{
    if !reads(port.direction) {
        return Ok(());
    }
    found.push(Finding {
        path: instance.path.copy(alloc)?,
        detail: port.name.copy()?,
    })?;
    Ok(())
}

/// Adds what the ports of an instance give that are connected to nothing, in their order.
fn visit_ports(
    alloc: Global,
    instance: &InstanceFacts,
    found: &mut Vec<Finding>,
) -> Result<(), NoMemory>
    ensures seen { OnOk result (found.new.items ≡ found.old.items ++ flat_map (port_findings instance.now) instance.now.unconnected) }
    ensures part { HasPart (flat_map (port_findings instance.now) instance.now.unconnected) (unconnected_rule found.old.items) (unconnected_rule found.new.items) }
{
    'ports: for port in instance.unconnected.items() {
        visit_port(alloc, instance, port, found)?;
    }
    Ok(())
}

impl Rule for Unconnected {
    ghost use Rattle.sve_lint.specs.Meanings.{unconnected_rule};

    ghost state = { λ rule. unconnected_rule rule.found.items };

    fn name(&self) -> &[u8] {
        b"unconnected"
    }

    fn visit(&mut self, alloc: Global, instance: &InstanceFacts) -> Result<(), NoMemory> {
        if instance.depth <= 1 {
            return Ok(());
        }
        visit_ports(alloc, instance, &mut self.found)
    }

    fn findings(&self) -> &[Finding] {
        self.found.as_slice()
    }
}

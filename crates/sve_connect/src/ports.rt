//! Ports by their names.
ghost use Rattle.std.specs.Prelude.{◌≡◌, IfOk, []};
ghost use Rattle.sve_connect.specs.Links.{named_ports};

use std::alloc::Global;
use sve_bytes::{Name, NoMemory};
use sve_facts::Port;
use sve_table::{Named, Table};

/// The name of a port, and its place among the ports, from 0.
#[derive(Drop)]
pub(crate) struct PortName {
    pub(crate) name: Name,
    pub(crate) place: usize,
}

impl Named for PortName {
    ghost called = { λ p. p.name };

    fn name(&self) -> &Name {
        &self.name
    }
}

/// The names of ports; of two ports of one name the first counts.
#[tactic(auto, using(crate::proofs::Rows::port_named, crate::proofs::Rows::ports_named))]
pub(crate) fn named_ports(alloc: Global, ports: &[Port]) -> Result<Table<PortName>, NoMemory>
    ensures { IfOk result (λ t. t ≡ named_ports 0 ports.now []) }
{
    let mut names = Table::new(alloc);
    'ports: for (place, port) in ports.iter().enumerate() {
        let name = port.name.copy()?;
        names.add(PortName { name, place })?;
    }
    Ok(names)
}

//! The header of a body.
ghost use Rattle.std.specs.Prelude.{length};
ghost use Rattle.sve_fault.specs.Counts.{Counts, IsFuel};
ghost use Rattle.sve_plan.specs.Follows.{Follows, leaving};
ghost use Rattle.sve_item_names.specs.Declarations.{parameters_of, ports_of};
ghost use Rattle.sve_body.specs.Items.{header as heading};
ghost use Rattle.sve_body_whole.specs.Ports.{ports_in};

use sve_body::Work;
use sve_look::Look;
use sve_plan::{Fuel, Halted, Stop, spend_many};
use sve_tree::{Header, ParameterPorts, Ports};

/// Each parameter of a header costs one (own).
fn pay_parameters(list: &Option<ParameterPorts>, fuel: &mut Fuel) -> Result<(), Halted>
    requires { IsFuel fuel.old }
    ensures { Counts result fuel.old fuel.new (length (parameters_of list.now)) }
{
    let count = match list {
        Some(list) => list.parameters.as_slice().len(),
        None => 0,
    };
    spend_many(fuel, count as u64)
}

/// Each port of a header costs one (own).
fn pay_ports(list: &Option<Ports>, fuel: &mut Fuel) -> Result<(), Halted>
    requires { IsFuel fuel.old }
    ensures { Counts result fuel.old fuel.new (length (ports_of list.now)) }
{
    let count = match list {
        Some(list) => list.ports.as_slice().len(),
        None => 0,
    };
    spend_many(fuel, count as u64)
}

/// The ports of a header behind its parameters.
fn ports<S: Work, W: Look>(
    work: &mut S,
    header: &Header,
    world: &mut W,
    fuel: &mut Fuel,
) -> Result<(), Stop>
    requires { IsFuel fuel.old }
    ensures { Follows (record { tells = W.tells; keeps = W.keeps; halted = W.halted; stops = W.stops; asked = W.asked }) world.old world.new fuel.old fuel.new (ports_in S.steps header.now work.old) (leaving result work.new) }
{
    pay_ports(&header.ports, fuel)?;
    work.header_ports(header, fuel)?;
    Ok(())
}

/// The header of a body (IEEE 1800-2017, 23.2): its imports, its parameters, of which each costs one and what its value costs, and
/// then its ports, of which each costs one and what its type costs. It asks nothing.
///
/// # Errors
/// `Over` where they pass the most that may be spent, or for want of memory.
pub fn header<S: Work, W: Look>(
    work: &mut S,
    header: &Header,
    world: &mut W,
    fuel: &mut Fuel,
) -> Result<(), Stop>
    requires { IsFuel fuel.old }
    ensures { Follows (record { tells = W.tells; keeps = W.keeps; halted = W.halted; stops = W.stops; asked = W.asked }) world.old world.new fuel.old fuel.new (heading S.steps header.now work.old) (leaving result work.new) }
{
    pay_parameters(&header.parameters, fuel)?;
    work.header_imports(header)?;
    work.header_parameters(header, fuel)?;
    ports(work, header, world, fuel)
}

ghost use Rattle.sve_fault.specs.Counts.{IsFuel};
ghost use Rattle.sve_plan.specs.Plan.{ask};
ghost use Rattle.sve_plan.specs.Follows.{Follows};
ghost use Rattle.sve_look.specs.Questions.{ElementOf, IndexOf, NetAt, PackageOf, PortsOf, Question, Reply};
ghost use Rattle.sve_question.specs.Answered.{element_given, shared_in};

use std::sync::Arc;
use sve_bytes::{List, Name, NetType};
use sve_facts::{Facts, Port};
use sve_index::Index;
use sve_look::Look;
use sve_plan::{Fuel, Stop};
use sve_spec::Spec;
use sve_tree::Element;

/// The tree of a chunk of a file, counted from 0. It spends no fuel.
///
/// # Errors
/// As the object halts, or for want of memory.
pub fn ask_element<W: Look>(
    file: &Name,
    chunk: u32,
    world: &mut W,
    fuel: &Fuel,
) -> Result<Option<Arc<Element>>, Stop>
    requires { IsFuel fuel.now }
    ensures { Follows (record { tells = W.tells; keeps = W.keeps; halted = W.halted; stops = W.stops; asked = W.asked }) world.old world.new fuel.now fuel.now (ask (ElementOf file.now chunk)) (element_given result) }
{
    let element = world.element(file, chunk)?;
    Ok(element)
}

/// The net type that is in force at a token of a chunk (IEEE 1800-2017, 22.8). It spends no fuel.
///
/// # Errors
/// As the object halts, or for want of memory.
pub fn ask_net<W: Look>(
    file: &Name,
    chunk: u32,
    token: u32,
    world: &mut W,
    fuel: &Fuel,
) -> Result<NetType, Stop>
    requires { IsFuel fuel.now }
    ensures { Follows (record { tells = W.tells; keeps = W.keeps; halted = W.halted; stops = W.stops; asked = W.asked }) world.old world.new fuel.now fuel.now (ask (NetAt file.now chunk token)) result }
{
    let net = world.net(file, chunk, token)?;
    Ok(net)
}

/// Where modules, interfaces and packages are defined (3.13). It spends no fuel.
///
/// # Errors
/// As the object halts, or for want of memory.
pub fn ask_index<W: Look>(world: &mut W, fuel: &Fuel) -> Result<Arc<Index>, Stop>
    requires { IsFuel fuel.now }
    ensures { Follows (record { tells = W.tells; keeps = W.keeps; halted = W.halted; stops = W.stops; asked = W.asked }) world.old world.new fuel.now fuel.now (ask IndexOf) (shared_in result) }
{
    let index = world.index()?;
    Ok(index)
}

/// What is found of a package (clause 26). It spends no fuel.
///
/// # Errors
/// As the object halts, or for want of memory.
pub fn ask_package<W: Look>(name: &Name, world: &mut W, fuel: &Fuel) -> Result<Arc<Facts>, Stop>
    requires { IsFuel fuel.now }
    ensures { Follows (record { tells = W.tells; keeps = W.keeps; halted = W.halted; stops = W.stops; asked = W.asked }) world.old world.new fuel.now fuel.now (ask (PackageOf name.now)) (shared_in result) }
{
    let package = world.package(name)?;
    Ok(package)
}

/// The ports of a specialization (23.2.2). It spends no fuel.
///
/// # Errors
/// As the object halts, or for want of memory.
pub fn ask_ports<W: Look>(spec: &Spec, world: &mut W, fuel: &Fuel) -> Result<Arc<List<Port>>, Stop>
    requires { IsFuel fuel.now }
    ensures { Follows (record { tells = W.tells; keeps = W.keeps; halted = W.halted; stops = W.stops; asked = W.asked }) world.old world.new fuel.now fuel.now (ask (PortsOf spec.now)) (shared_in result) }
{
    let ports = world.ports(spec)?;
    Ok(ports)
}

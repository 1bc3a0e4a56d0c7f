ghost use Rattle.sve_fault.specs.Counts.{IsFuel};
ghost use Rattle.sve_plan.specs.Plan.{each};
ghost use Rattle.sve_plan.specs.Follows.{Follows, leaving};
ghost use Rattle.sve_look.specs.Questions.{element_in};
ghost use Rattle.sve_body.specs.Items.{defined_instances, instance, instances, instances_of, known_instance, sought_instances, special_instance, undefined_instances, unknown_instance};

use std::sync::Arc;
use sve_body::{Place, Work};
use sve_body_item::implied_all;
use sve_look::Look;
use sve_plan::{Fuel, Stop};
use sve_question::{ask_element, ask_index, ask_ports};
use sve_spec::Spec;
use sve_tree::{Element, Instance, Instantiation};

/// An instance without a specialization.
fn unknown_instance<S: Work, W: Look>(
    work: &mut S,
    one: &Instance,
    world: &mut W,
    fuel: &Fuel,
) -> Result<(), Stop>
    requires { IsFuel fuel.now }
    ensures { Follows (record { tells = W.tells; keeps = W.keeps; halted = W.halted; stops = W.stops; asked = W.asked }) world.old world.new fuel.now fuel.now (unknown_instance S.steps one.now work.old) (leaving result work.new) }
{
    let tokens = work.unknown_tokens(one)?;
    implied_all(work, tokens.as_slice(), world, fuel)?;
    work.unknown(one)?;
    Ok(())
}

/// An instance of a specialization.
fn special_instance<S: Work, W: Look>(
    work: &mut S,
    one: &Instance,
    spec: Spec,
    world: &mut W,
    fuel: &Fuel,
) -> Result<(), Stop>
    requires { IsFuel fuel.now }
    ensures { Follows (record { tells = W.tells; keeps = W.keeps; halted = W.halted; stops = W.stops; asked = W.asked }) world.old world.new fuel.now fuel.now (special_instance S.steps one.now spec work.old) (leaving result work.new) }
{
    let ports = ask_ports(&spec, world, fuel)?;
    let listed = ports.items();
    let tokens = work.connection_tokens(listed, one)?;
    implied_all(work, tokens.as_slice(), world, fuel)?;
    work.child(spec, listed, one)?;
    Ok(())
}

/// An instance, by what its specialization is.
fn known_instance<S: Work, W: Look>(
    work: &mut S,
    one: &Instance,
    spec: Option<Spec>,
    world: &mut W,
    fuel: &Fuel,
) -> Result<(), Stop>
    requires { IsFuel fuel.now }
    ensures { Follows (record { tells = W.tells; keeps = W.keeps; halted = W.halted; stops = W.stops; asked = W.asked }) world.old world.new fuel.now fuel.now (known_instance S.steps one.now spec work.old) (leaving result work.new) }
{
    match spec {
        Some(spec) => special_instance(work, one, spec, world, fuel),
        None => unknown_instance(work, one, world, fuel),
    }
}

/// An instance of a definition that is there.
fn instance<S: Work, W: Look>(
    work: &mut S,
    definition: u32,
    element: &Option<Arc<Element>>,
    one: &Instance,
    world: &mut W,
    fuel: &Fuel,
) -> Result<(), Stop>
    requires { IsFuel fuel.now }
    ensures { Follows (record { tells = W.tells; keeps = W.keeps; halted = W.halted; stops = W.stops; asked = W.asked }) world.old world.new fuel.now fuel.now (instance S.steps definition (element_in element.now) one.now work.old) (leaving result work.new) }
{
    let spec = work.specialized(definition, element, one)?;
    known_instance(work, one, spec, world, fuel)
}

/// Instances of a definition that is there, in order.
fn each_instance<S: Work, W: Look>(
    work: &mut S,
    definition: u32,
    element: &Option<Arc<Element>>,
    all: &[Instance],
    world: &mut W,
    fuel: &Fuel,
) -> Result<(), Stop>
    requires { IsFuel fuel.now }
    ensures { Follows (record { tells = W.tells; keeps = W.keeps; halted = W.halted; stops = W.stops; asked = W.asked }) world.old world.new fuel.now fuel.now (each (instance S.steps definition (element_in element.now)) all.now work.old) (leaving result work.new) }
{
    'all: for one in all {
        instance(work, definition, element, one, world, fuel)?;
    }
    Ok(())
}

/// Instances of a definition that is not there, in order.
fn each_unknown<S: Work, W: Look>(
    work: &mut S,
    all: &[Instance],
    world: &mut W,
    fuel: &Fuel,
) -> Result<(), Stop>
    requires { IsFuel fuel.now }
    ensures { Follows (record { tells = W.tells; keeps = W.keeps; halted = W.halted; stops = W.stops; asked = W.asked }) world.old world.new fuel.now fuel.now (each (unknown_instance S.steps) all.now work.old) (leaving result work.new) }
{
    'all: for one in all {
        unknown_instance(work, one, world, fuel)?;
    }
    Ok(())
}

/// An instantiation of a definition that stands there.
fn defined_instances<S: Work, W: Look>(
    work: &mut S,
    one: &Instantiation,
    place: &Place,
    world: &mut W,
    fuel: &Fuel,
) -> Result<(), Stop>
    requires { IsFuel fuel.now }
    ensures { Follows (record { tells = W.tells; keeps = W.keeps; halted = W.halted; stops = W.stops; asked = W.asked }) world.old world.new fuel.now fuel.now (defined_instances S.steps one.now place.now work.old) (leaving result work.new) }
{
    let element = ask_element(&place.file, place.chunk, world, fuel)?;
    each_instance(
        work,
        one.definition,
        &element,
        one.instances.as_slice(),
        world,
        fuel,
    )
}

/// An instantiation of a definition that is not there.
fn undefined_instances<S: Work, W: Look>(
    work: &mut S,
    one: &Instantiation,
    world: &mut W,
    fuel: &Fuel,
) -> Result<(), Stop>
    requires { IsFuel fuel.now }
    ensures { Follows (record { tells = W.tells; keeps = W.keeps; halted = W.halted; stops = W.stops; asked = W.asked }) world.old world.new fuel.now fuel.now (undefined_instances S.steps one.now work.old) (leaving result work.new) }
{
    work.no_definition(one.definition)?;
    each_unknown(work, one.instances.as_slice(), world, fuel)
}

/// An instantiation, by where its definition stands.
fn instances_of<S: Work, W: Look>(
    work: &mut S,
    one: &Instantiation,
    place: Option<Place>,
    world: &mut W,
    fuel: &Fuel,
) -> Result<(), Stop>
    requires { IsFuel fuel.now }
    ensures { Follows (record { tells = W.tells; keeps = W.keeps; halted = W.halted; stops = W.stops; asked = W.asked }) world.old world.new fuel.now fuel.now (instances_of S.steps one.now place work.old) (leaving result work.new) }
{
    match &place {
        Some(place) => defined_instances(work, one, place, world, fuel),
        None => undefined_instances(work, one, world, fuel),
    }
}

/// An instantiation whose overrides were evaluated.
fn sought_instances<S: Work, W: Look>(
    work: &mut S,
    one: &Instantiation,
    world: &mut W,
    fuel: &Fuel,
) -> Result<(), Stop>
    requires { IsFuel fuel.now }
    ensures { Follows (record { tells = W.tells; keeps = W.keeps; halted = W.halted; stops = W.stops; asked = W.asked }) world.old world.new fuel.now fuel.now (sought_instances S.steps one.now work.old) (leaving result work.new) }
{
    let index = ask_index(world, fuel)?;
    let place = work.definition_at(&index, one.definition)?;
    instances_of(work, one, place, world, fuel)
}

/// An instantiation (IEEE 1800-2017, 23.3): its overrides are evaluated once, then its definition is sought, and then each instance
/// is a child with its ports and connections, or none.
///
/// # Errors
/// `Over` where the overrides pass the most that may be spent, as the object halts through which it reads, or for want of memory.
pub fn instances<S: Work, W: Look>(
    work: &mut S,
    one: &Instantiation,
    world: &mut W,
    fuel: &mut Fuel,
) -> Result<(), Stop>
    requires { IsFuel fuel.old }
    ensures { Follows (record { tells = W.tells; keeps = W.keeps; halted = W.halted; stops = W.stops; asked = W.asked }) world.old world.new fuel.old fuel.new (instances S.steps one.now work.old) (leaving result work.new) }
{
    work.overrides(&one.overrides, fuel)?;
    sought_instances(work, one, world, fuel)
}

ghost use Rattle.sve_fault.specs.Counts.{IsFuel};
ghost use Rattle.sve_plan.specs.Plan.{each};
ghost use Rattle.sve_plan.specs.Follows.{Follows, leaving};
ghost use Rattle.sve_body.specs.Items.{assignment, implied};

use crate::plain::plain_names;
use std::alloc::Global;
use sve_body::Work;
use sve_look::Look;
use sve_plan::{Fuel, Stop};
use sve_question::ask_net;
use sve_tree::NetAssignment;

/// A name that nothing declares makes a net (IEEE 1800-2017, 6.10).
fn implied<S: Work, W: Look>(
    work: &mut S,
    token: u32,
    world: &mut W,
    fuel: &Fuel,
) -> Result<(), Stop>
    requires { IsFuel fuel.now }
    ensures { Follows (record { tells = W.tells; keeps = W.keeps; halted = W.halted; stops = W.stops; asked = W.asked }) world.old world.new fuel.now fuel.now (implied S.steps token work.old) (leaving result work.new) }
{
    if work.is_declared(token) {
        return Ok(());
    }
    let net = ask_net(work.file(), work.chunk(), token, world, fuel)?;
    work.implicit_net(token, net)?;
    Ok(())
}

/// Names of which each makes a net where nothing declares it, in order: of the net type that is in force there, and none where that is
/// none (IEEE 1800-2017, 6.10). They spend no fuel.
///
/// # Errors
/// As the object halts through which it reads, or for want of memory.
pub fn implied_all<S: Work, W: Look>(
    work: &mut S,
    tokens: &[u32],
    world: &mut W,
    fuel: &Fuel,
) -> Result<(), Stop>
    requires { IsFuel fuel.now }
    ensures { Follows (record { tells = W.tells; keeps = W.keeps; halted = W.halted; stops = W.stops; asked = W.asked }) world.old world.new fuel.now fuel.now (each (implied S.steps) tokens.now work.old) (leaving result work.new) }
{
    'tokens: for token in tokens {
        implied(work, *token, world, fuel)?;
    }
    Ok(())
}

/// A continuous assignment (10.3).
fn assignment<S: Work, W: Look>(
    alloc: Global,
    work: &mut S,
    one: &NetAssignment,
    world: &mut W,
    fuel: &Fuel,
) -> Result<(), Stop>
    requires { IsFuel fuel.now }
    ensures { Follows (record { tells = W.tells; keeps = W.keeps; halted = W.halted; stops = W.stops; asked = W.asked }) world.old world.new fuel.now fuel.now (assignment S.steps one.now work.old) (leaving result work.new) }
{
    let tokens = plain_names(alloc, &one.left)?;
    implied_all(work, tokens.as_slice(), world, fuel)?;
    work.use_assignment(one)?;
    Ok(())
}

/// The continuous assignments of an item, in order: plain names on the left of each make nets of the net type that is in force where
/// nothing declares them, and then all its names are used (IEEE 1800-2017, 6.10 and 10.3). They spend no fuel.
///
/// # Errors
/// As the object halts through which it reads, or for want of memory.
pub fn assignments<S: Work, W: Look>(
    alloc: Global,
    work: &mut S,
    all: &[NetAssignment],
    world: &mut W,
    fuel: &Fuel,
) -> Result<(), Stop>
    requires { IsFuel fuel.now }
    ensures { Follows (record { tells = W.tells; keeps = W.keeps; halted = W.halted; stops = W.stops; asked = W.asked }) world.old world.new fuel.now fuel.now (each (assignment S.steps) all.now work.old) (leaving result work.new) }
{
    'all: for one in all {
        assignment(alloc, work, one, world, fuel)?;
    }
    Ok(())
}

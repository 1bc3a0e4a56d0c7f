//! A header with the items behind it.
ghost use Rattle.sve_fault.specs.Counts.{IsFuel};
ghost use Rattle.sve_plan.specs.Follows.{Follows, leaving};
ghost use Rattle.sve_body.specs.Body.{body};

use crate::heading::header as elaborate_header;
use std::alloc::Global;
use sve_body::Work;
use sve_body_block::items as elaborate_items;
use sve_look::Look;
use sve_plan::{Fuel, Stop};
use sve_tree::{Header, Item};

/// The header of a body, and then its items in order (IEEE 1800-2017, clauses 23, 25 and 27).
///
/// # Errors
/// `Over` where they pass the most that may be spent, as the object halts through which they read, or for want of memory.
pub fn body<S: Work, W: Look>(
    alloc: Global,
    work: &mut S,
    header: &Header,
    items: &[Item],
    world: &mut W,
    fuel: &mut Fuel,
) -> Result<(), Stop>
    requires { IsFuel fuel.old }
    ensures { Follows (record { tells = W.tells; keeps = W.keeps; halted = W.halted; stops = W.stops; asked = W.asked }) world.old world.new fuel.old fuel.new (body S.steps header.now items.now work.old) (leaving result work.new) }
{
    elaborate_header(work, header, world, fuel)?;
    elaborate_items(alloc, work, items, world, fuel)
}

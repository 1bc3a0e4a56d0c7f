ghost use Rattle.std.specs.Prelude.{◌≡◌};
ghost use Rattle.sve_fault.specs.Counts.{Counts, IsFuel};
ghost use Rattle.sve_plan.specs.Plan.{each};
ghost use Rattle.sve_plan.specs.Follows.{Follows, leaving};
ghost use Rattle.sve_body.specs.Items.{done, plain_item};
ghost use Rattle.sve_body.specs.Body.{block_in, case_item_in, counted_item, if_in, item};
ghost use Rattle.sve_body_block.specs.Parts.{case_of_construct, contents_of, loop_of_construct, scoped_block, turn_of};

use std::alloc::Global;
use sve_body::Work;
use sve_body_construct::{
    begin, found_condition, found_item, found_values, genvar_is_wrong, is_part, opens,
};
use sve_body_instance::instances;
use sve_body_item::{assignments, plain_item};
use sve_look::Look;
use sve_plan::{Fuel, Halted, Stop, spend_many};
use sve_tree::{CaseGenerate, CaseGenerateItem, GenerateBlock, IfGenerate, Item, LoopGenerate};

/// An item costs one, each time that it is elaborated (own).
fn pay_item(fuel: &mut Fuel) -> Result<(), Halted>
    requires { IsFuel fuel.old }
    ensures { Counts result fuel.old fuel.new 1 }
{
    spend_many(fuel, 1)
}

/// An item that asks nothing.
fn plain<S: Work, W: Look>(
    work: &mut S,
    one: &Item,
    world: &mut W,
    fuel: &mut Fuel,
) -> Result<(), Stop>
    requires { IsFuel fuel.old }
    ensures { Follows (record { tells = W.tells; keeps = W.keeps; halted = W.halted; stops = W.stops; asked = W.asked }) world.old world.new fuel.old fuel.new (done (plain_item S.steps one.now work.old)) (leaving result work.new) }
{
    plain_item(work, one, fuel)?;
    Ok(())
}

/// Items in order, each of which costs one (IEEE 1800-2017, A.1.4 and clause 27): plain items, continuous assignments, instances,
/// regions and generate constructs with the blocks that they select.
///
/// # Errors
/// `Over` where they pass the most that may be spent, as the object halts through which they read, or for want of memory.
#[cycle(items)]
pub fn items<S: Work, W: Look>(
    alloc: Global,
    work: &mut S,
    all: &[Item],
    world: &mut W,
    fuel: &mut Fuel,
) -> Result<(), Stop>
    requires { IsFuel fuel.old }
    ensures { Follows (record { tells = W.tells; keeps = W.keeps; halted = W.halted; stops = W.stops; asked = W.asked }) world.old world.new fuel.old fuel.new (each (counted_item S.steps) all.now work.old) (leaving result work.new) }
{
    'all: for one in all {
        pay_item(fuel)?;
        item(alloc, work, None, one, world, fuel)?;
    }
    Ok(())
}

/// One item, once its one is paid. A conditional that is a part of the construct around it has the number of that construct.
#[cycle(items)]
fn item<S: Work, W: Look>(
    alloc: Global,
    work: &mut S,
    outer: Option<u64>,
    one: &Item,
    world: &mut W,
    fuel: &mut Fuel,
) -> Result<(), Stop>
    requires { IsFuel fuel.old }
    ensures { Follows (record { tells = W.tells; keeps = W.keeps; halted = W.halted; stops = W.stops; asked = W.asked }) world.old world.new fuel.old fuel.new (item S.steps outer one.now work.old) (leaving result work.new) }
{
    match one {
        Item::Assign { assignments: all } => {
            assignments(alloc, work, all.assignments.as_slice(), world, fuel)
        }
        Item::Instances { instantiation } => instances(work, instantiation, world, fuel),
        Item::Region { region } => items(alloc, work, &region.items, world, fuel),
        Item::LoopGenerate { construct } => {
            let number = begin(alloc, work, None, one)?;
            looped(alloc, work, number, construct, world, fuel)
        }
        Item::IfGenerate { construct } => {
            let number = begin(alloc, work, outer, one)?;
            conditional(alloc, work, number, construct, world, fuel)
        }
        Item::CaseGenerate { construct } => {
            let number = begin(alloc, work, outer, one)?;
            cased(alloc, work, number, construct, world, fuel)
        }
        Item::Empty { .. }
        | Item::Import { .. }
        | Item::Parameters { .. }
        | Item::Typedef { .. }
        | Item::Function { .. }
        | Item::Genvars { .. }
        | Item::Net { .. }
        | Item::Variable { .. }
        | Item::Data { .. }
        | Item::Clocked { .. }
        | Item::Plain { .. }
        | Item::Modports { .. }
        | Item::SystemTask { .. } => plain(work, one, world, fuel),
    }
}

/// A loop: each of its values has a block of its own.
#[cycle(items)]
fn looped<S: Work, W: Look>(
    alloc: Global,
    work: &mut S,
    number: u64,
    construct: &LoopGenerate,
    world: &mut W,
    fuel: &mut Fuel,
) -> Result<(), Stop>
    requires { IsFuel fuel.old }
    ensures { Follows (record { tells = W.tells; keeps = W.keeps; halted = W.halted; stops = W.stops; asked = W.asked }) world.old world.new fuel.old fuel.new (loop_of_construct S.steps number construct.now work.old) (leaving result work.new) }
{
    if genvar_is_wrong(work, construct)? {
        return Ok(());
    }
    match found_values(alloc, work, construct, fuel)? {
        None => Ok(()),
        Some(values) => turns(alloc, work, number, construct, values.items(), world, fuel),
    }
}

/// The genvar of a loop with one of its values.
fn turn_at(name: u32, value: &i32) -> Option<(u32, i32)>
    ensures { result ≡ Some (name, value.now) }
{
    Some((name, *value))
}

/// The blocks of the values of a loop, in order.
#[cycle(items)]
fn turns<S: Work, W: Look>(
    alloc: Global,
    work: &mut S,
    number: u64,
    construct: &LoopGenerate,
    values: &[i32],
    world: &mut W,
    fuel: &mut Fuel,
) -> Result<(), Stop>
    requires { IsFuel fuel.old }
    ensures { Follows (record { tells = W.tells; keeps = W.keeps; halted = W.halted; stops = W.stops; asked = W.asked }) world.old world.new fuel.old fuel.new (each (turn_of S.steps number construct.now) values.now work.old) (leaving result work.new) }
{
    'values: for value in values {
        let turn = turn_at(construct.name, value);
        block(
            alloc,
            work,
            false,
            number,
            turn,
            &construct.block,
            world,
            fuel,
        )?;
    }
    Ok(())
}

/// An `if` with the block that it selects.
#[cycle(items)]
fn conditional<S: Work, W: Look>(
    alloc: Global,
    work: &mut S,
    number: u64,
    construct: &IfGenerate,
    world: &mut W,
    fuel: &mut Fuel,
) -> Result<(), Stop>
    requires { IsFuel fuel.old }
    ensures { Follows (record { tells = W.tells; keeps = W.keeps; halted = W.halted; stops = W.stops; asked = W.asked }) world.old world.new fuel.old fuel.new (if_in S.steps number construct.now work.old) (leaving result work.new) }
{
    if found_condition(alloc, work, &construct.condition.value, fuel)? {
        return block(
            alloc,
            work,
            true,
            number,
            None,
            &construct.chosen,
            world,
            fuel,
        );
    }
    match &construct.otherwise {
        Some(branch) => block(alloc, work, true, number, None, &branch.block, world, fuel),
        None => Ok(()),
    }
}

/// A `case` with the block that it selects.
#[cycle(items)]
fn cased<S: Work, W: Look>(
    alloc: Global,
    work: &mut S,
    number: u64,
    construct: &CaseGenerate,
    world: &mut W,
    fuel: &mut Fuel,
) -> Result<(), Stop>
    requires { IsFuel fuel.old }
    ensures { Follows (record { tells = W.tells; keeps = W.keeps; halted = W.halted; stops = W.stops; asked = W.asked }) world.old world.new fuel.old fuel.new (case_of_construct S.steps number construct.now work.old) (leaving result work.new) }
{
    match found_item(
        alloc,
        work,
        &construct.selector.value,
        &construct.items,
        fuel,
    )? {
        None => Ok(()),
        Some(chosen) => {
            if chosen >= construct.items.len() {
                return Ok(());
            }
            case_item(alloc, work, number, &construct.items[chosen], world, fuel)
        }
    }
}

/// The item that a `case` selects.
#[cycle(items)]
fn case_item<S: Work, W: Look>(
    alloc: Global,
    work: &mut S,
    number: u64,
    one: &CaseGenerateItem,
    world: &mut W,
    fuel: &mut Fuel,
) -> Result<(), Stop>
    requires { IsFuel fuel.old }
    ensures { Follows (record { tells = W.tells; keeps = W.keeps; halted = W.halted; stops = W.stops; asked = W.asked }) world.old world.new fuel.old fuel.new (case_item_in S.steps number one.now work.old) (leaving result work.new) }
{
    match one {
        CaseGenerateItem::Default { block: chosen, .. } => {
            block(alloc, work, true, number, None, chosen, world, fuel)
        }
        CaseGenerateItem::Labels { block: chosen, .. } => {
            block(alloc, work, true, number, None, chosen, world, fuel)
        }
    }
}

/// A block of a construct with this number; that of a conditional may be a part of the construct itself.
#[cycle(items)]
fn block<S: Work, W: Look>(
    alloc: Global,
    work: &mut S,
    nests: bool,
    number: u64,
    turn: Option<(u32, i32)>,
    one: &GenerateBlock,
    world: &mut W,
    fuel: &mut Fuel,
) -> Result<(), Stop>
    requires { IsFuel fuel.old }
    ensures { Follows (record { tells = W.tells; keeps = W.keeps; halted = W.halted; stops = W.stops; asked = W.asked }) world.old world.new fuel.old fuel.new (block_in S.steps nests number turn one.now work.old) (leaving result work.new) }
{
    match one {
        GenerateBlock::Block { .. } => scoped(alloc, work, number, turn, one, world, fuel),
        GenerateBlock::Item { item: part } => {
            if is_part(nests, part) {
                pay_item(fuel)?;
                return item(alloc, work, Some(number), part, world, fuel);
            }
            scoped(alloc, work, number, turn, one, world, fuel)
        }
    }
}

/// A block in a scope of its own (27.3).
#[cycle(items)]
fn scoped<S: Work, W: Look>(
    alloc: Global,
    work: &mut S,
    number: u64,
    turn: Option<(u32, i32)>,
    one: &GenerateBlock,
    world: &mut W,
    fuel: &mut Fuel,
) -> Result<(), Stop>
    requires { IsFuel fuel.old }
    ensures { Follows (record { tells = W.tells; keeps = W.keeps; halted = W.halted; stops = W.stops; asked = W.asked }) world.old world.new fuel.old fuel.new (scoped_block S.steps number turn one.now work.old) (leaving result work.new) }
{
    if !opens(work, number, turn, one)? {
        return Ok(());
    }
    contents(alloc, work, one, world, fuel)?;
    work.leave()?;
    Ok(())
}

/// What stands in a block: items from `begin` to `end`, or one item.
#[cycle(items)]
fn contents<S: Work, W: Look>(
    alloc: Global,
    work: &mut S,
    one: &GenerateBlock,
    world: &mut W,
    fuel: &mut Fuel,
) -> Result<(), Stop>
    requires { IsFuel fuel.old }
    ensures { Follows (record { tells = W.tells; keeps = W.keeps; halted = W.halted; stops = W.stops; asked = W.asked }) world.old world.new fuel.old fuel.new (contents_of S.steps one.now work.old) (leaving result work.new) }
{
    match one {
        GenerateBlock::Block { block: body } => items(alloc, work, &body.items, world, fuel),
        GenerateBlock::Item { item: part } => {
            pay_item(fuel)?;
            item(alloc, work, None, part, world, fuel)
        }
    }
}

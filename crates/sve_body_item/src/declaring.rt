ghost use Rattle.std.specs.Prelude.{◌≡◌, OnOk};
ghost use Rattle.std.specs.List.{fold};
ghost use Rattle.sve_fault.specs.Counts.{IsFuel};
ghost use Rattle.sve_plan.specs.Follows.{Meters, leaving};
ghost use Rattle.sve_body.specs.Items.{plain_item, statement, events};

use sve_body::Work;
use sve_bytes::NoMemory;
use sve_fault::{Fuel, Halted};
use sve_tree::{ClockedProcedure, Item, Modport};

/// Genvars.
fn genvars<S: Work>(work: &mut S, names: &[u32]) -> Result<(), NoMemory>
    ensures { OnOk result (work.new ≡ fold (λ t name. S.steps.genvar name t) work.old names.now) }
{
    'names: for name in names {
        work.genvar(*name)?;
    }
    Ok(())
}

/// Modports.
fn modports<S: Work>(work: &mut S, all: &[Modport]) -> Result<(), NoMemory>
    ensures { OnOk result (work.new ≡ fold (λ t modport. S.steps.modport modport t) work.old all.now) }
{
    'all: for one in all {
        work.modport(one)?;
    }
    Ok(())
}

/// A procedure with its events.
fn clocked<S: Work>(
    work: &mut S,
    procedure: &ClockedProcedure,
    fuel: &mut Fuel,
) -> Result<(), Halted>
    requires { IsFuel fuel.old }
    ensures { Meters fuel.old fuel.new (statement S.steps procedure.now.statement.value (events S.steps procedure.now.control work.old)) (leaving result work.new) }
{
    work.use_events(&procedure.control)?;
    work.statement(&procedure.statement, fuel)
}

/// An item that holds no other items and makes neither nets nor children (IEEE 1800-2017, A.1.4): a declaration, an import, a
/// procedure with the names that it uses, or a system task. Any other item does nothing here.
///
/// # Errors
/// `Over` where what it evaluates passes the most that may be spent, and `NoMemory`.
pub fn plain_item<S: Work>(work: &mut S, item: &Item, fuel: &mut Fuel) -> Result<(), Halted>
    requires { IsFuel fuel.old }
    ensures { Meters fuel.old fuel.new (plain_item S.steps item.now work.old) (leaving result work.new) }
{
    match item {
        Item::Import { declaration } => Ok(work.import(declaration)?),
        Item::Parameters { declaration } => work.parameters(declaration, fuel),
        Item::Typedef { declaration } => work.typedef(declaration, fuel),
        Item::Function { function } => work.function(function, fuel),
        Item::Genvars { declaration } => Ok(genvars(work, declaration.names.as_slice())?),
        Item::Net { declaration } => work.nets(declaration, fuel),
        Item::Variable { declaration } => work.variables(declaration, fuel),
        Item::Data { declaration } => work.data_of_type(declaration, fuel),
        Item::Clocked { procedure } => clocked(work, procedure, fuel),
        Item::Plain { procedure } => work.statement(&procedure.statement, fuel),
        Item::Modports { declaration } => Ok(modports(work, declaration.modports.as_slice())?),
        Item::SystemTask { task } => Ok(work.system_task(task.name)?),
        Item::Empty { .. } | Item::Assign { .. } | Item::Instances { .. } => Ok(()),
        Item::Region { .. } | Item::LoopGenerate { .. } => Ok(()),
        Item::IfGenerate { .. } | Item::CaseGenerate { .. } => Ok(()),
    }
}

ghost use Rattle.std.specs.Prelude.{◌≡◌, ◌++◌, OnOk, map};
ghost use Rattle.std.specs.List.{flat_map};
ghost use Rattle.sve_formal.specs.Formals.{assignment_formal, item_formals, parameters_formals};

use crate::Formal;
use crate::formal::is_local_keyword;
use sve_bytes::NoMemory;
use sve_tree::{Item, ParameterAssignment, Parameters};

/// Adds the parameters that are local, or that can be overridden.
fn in_assignments(
    is_local: bool,
    assignments: &[ParameterAssignment],
    found: &mut Vec<Formal>,
) -> Result<(), NoMemory>
    ensures { OnOk result (found.new.items ≡ found.old.items ++ map (assignment_formal is_local) assignments.now) }
{
    for assignment in assignments {
        found.push(Formal {
            token: assignment.declarator.name,
            is_local,
            has_value: true,
        })?;
    }
    Ok(())
}

/// Adds the parameters of a declaration. Where the header has a list of parameters all of them are local (IEEE 1800-2017, 6.20.1).
fn in_parameters(
    has_list: bool,
    declaration: &Parameters,
    found: &mut Vec<Formal>,
) -> Result<(), NoMemory>
    ensures { OnOk result (found.new.items ≡ found.old.items ++ parameters_formals has_list declaration.now) }
{
    let is_local = has_list || is_local_keyword(declaration.keyword.kind);
    in_assignments(is_local, declaration.assignments.as_slice(), found)
}

/// Adds the parameters that an item declares in the scope of the body. Those of generate blocks are in scopes of their own; those of
/// a generate region are not (27.3).
#[cycle(items)]
#[tactic(auto, using(crate::proofs::Regions::of_parameters, crate::proofs::Regions::of_region, std::proofs::lemmas::Grind::common_steps), unfolding(crate::specs::Formals::item_formals))]
fn in_item(has_list: bool, item: &Item, found: &mut Vec<Formal>) -> Result<(), NoMemory>
    ensures { OnOk result (found.new.items ≡ found.old.items ++ item_formals has_list item.now) }
{
    match item {
        Item::Parameters { declaration } => in_parameters(has_list, declaration, found),
        Item::Region { region } => in_items(has_list, &region.items, found),
        Item::Empty { .. } | Item::Import { .. } | Item::Typedef { .. } => Ok(()),
        Item::Function { .. } | Item::Genvars { .. } | Item::Net { .. } => Ok(()),
        Item::Variable { .. } | Item::Data { .. } | Item::Assign { .. } => Ok(()),
        Item::Clocked { .. } | Item::Plain { .. } | Item::LoopGenerate { .. } => Ok(()),
        Item::IfGenerate { .. } | Item::CaseGenerate { .. } => Ok(()),
        Item::Modports { .. } | Item::SystemTask { .. } | Item::Instances { .. } => Ok(()),
    }
}

/// Adds the parameters that items declare in the scope of the body.
#[cycle(items)]
pub(crate) fn in_items(
    has_list: bool,
    items: &[Item],
    found: &mut Vec<Formal>,
) -> Result<(), NoMemory>
    ensures { OnOk result (found.new.items ≡ found.old.items ++ flat_map (item_formals has_list) items.now) }
{
    for item in items {
        in_item(has_list, item, found)?;
    }
    Ok(())
}

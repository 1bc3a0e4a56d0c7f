ghost use Rattle.std.specs.Prelude.{◌≡◌, ◌++◌, IfOk, OnOk};
ghost use Rattle.std.specs.List.{flat_map};
ghost use Rattle.sve_item_names.specs.Items.{item_names};
ghost use Rattle.sve_body.specs.Items.{say_all};
ghost use Rattle.sve_body.specs.Body.{begun, fault_list, label_fault_of, number_in};

use std::alloc::Global;
use sve_body::Work;
use sve_bytes::NoMemory;
use sve_fault::Fault;
use sve_item_names::{ItemName, names_of_item};
use sve_tree::Item;

/// Adds what is wrong, where something is.
fn add_fault(fault: Option<Fault>, faults: &mut Vec<Fault>) -> Result<(), NoMemory>
    ensures { OnOk result (faults.new.items ≡ faults.old.items ++ fault_list fault) }
{
    if let Some(fault) = fault {
        faults.push(fault)?;
    }
    Ok(())
}

/// Adds what is wrong with a label.
fn judge_label<S: Work>(
    work: &S,
    number: u64,
    name: ItemName,
    faults: &mut Vec<Fault>,
) -> Result<(), NoMemory>
    ensures { OnOk result (faults.new.items ≡ faults.old.items ++ label_fault_of S.steps number work.now name) }
{
    match name {
        ItemName::Block { token } => add_fault(work.label_fault(number, token)?, faults),
        ItemName::Declared { .. } | ItemName::Instance { .. } => Ok(()),
    }
}

/// What is wrong with the labels of a construct.
fn label_faults<S: Work>(
    alloc: Global,
    work: &S,
    number: u64,
    names: &[ItemName],
) -> Result<Vec<Fault>, NoMemory>
    ensures { IfOk result (λ faults. faults.items ≡ flat_map (label_fault_of S.steps number work.now) names.now) }
{
    let mut faults = Vec::new(alloc);
    'names: for name in names {
        judge_label(work, number, *name, &mut faults)?;
    }
    Ok(faults)
}

/// Faults are said, in order.
pub(crate) fn say_all<S: Work>(work: &mut S, faults: Vec<Fault>) -> Result<(), NoMemory>
    ensures { OnOk result (work.new ≡ say_all S.steps faults.items work.old) }
{
    'faults: for fault in faults {
        work.say(fault)?;
    }
    Ok(())
}

/// What is wrong, where something is, is said.
pub(crate) fn say_fault<S: Work>(work: &mut S, fault: Option<Fault>) -> Result<(), NoMemory>
    ensures { OnOk result (work.new ≡ say_all S.steps (fault_list fault) work.old) }
{
    match fault {
        Some(fault) => work.say(fault),
        None => Ok(()),
    }
}

/// A construct begins: it is counted and its labels are judged, unless it is a part of the one around it, which has this number
/// (IEEE 1800-2017, 27.6). It gives the construct's number.
///
/// # Errors
/// For want of memory alone.
pub fn begin<S: Work>(
    alloc: Global,
    work: &mut S,
    outer: Option<u64>,
    item: &Item,
) -> Result<u64, NoMemory>
    ensures number { IfOk result (λ number. number ≡ number_in S.steps outer work.old) }
    ensures begun { OnOk result (work.new ≡ begun S.steps outer (item_names item.now) work.old) }
{
    match outer {
        Some(number) => Ok(number),
        None => {
            let number = work.next_number();
            let names = names_of_item(alloc, item)?;
            let listed = names.as_slice();
            let faults = label_faults(alloc, work, number, listed)?;
            work.count_construct(listed)?;
            say_all(work, faults)?;
            Ok(number)
        }
    }
}

ghost use Rattle.std.specs.Prelude.{◌≡◌, ◌++◌, IfOk, OnOk, sum_by};
ghost use Rattle.std.specs.List.{flat_map};
ghost use Rattle.sve_fault.specs.Counts.{Counts, IsFuel};
ghost use Rattle.sve_rule.specs.Judged.{judged};
ghost use Rattle.sve_env.specs.Nodes.{nodes};
ghost use Rattle.sve_measure.specs.Constants.{measured};
ghost use Rattle.sve_choice.specs.Labels.{item_nodes, label_faults, labels_of, numbered, numbered_labels, valued};
ghost use Rattle.sve_choice.specs.Held.{labels_held};

use std::alloc::Global;
use sve_bytes::NoMemory;
use sve_env::Env;
use sve_fault::{Fault, Fuel, Halted};
use sve_measure::operand;
use sve_operand::Operand;
use sve_rule::Judged;
use sve_tree::{CaseGenerateItem, Expr};

/// A label with a value.
#[derive(Drop)]
pub(crate) struct Label {
    /// The number of its item, from 0.
    pub(crate) item: usize,
    /// What it means.
    pub(crate) operand: Operand,
}

/// The labels of a generate `case`, and what is wrong with others.
#[derive(Drop)]
pub(crate) struct Labels {
    /// The labels with a value, in order.
    pub(crate) valued: Vec<Label>,
    /// What is wrong with the others, in order.
    pub(crate) faults: Vec<Fault>,
}

/// Adds a label of an item, by what it means.
fn put(item: usize, meaning: Judged, labels: &mut Labels) -> Result<(), NoMemory>
    ensures valued { OnOk result (labels_held labels.new.valued.items ≡ labels_held labels.old.valued.items ++ valued (item, judged meaning)) }
    ensures faults { OnOk result (labels.new.faults.items ≡ labels.old.faults.items ++ label_faults (item, judged meaning)) }
{
    match meaning {
        Ok(operand) => {
            labels.valued.push(Label { item, operand })?;
            Ok(())
        }
        Err(fault) => {
            labels.faults.push(fault)?;
            Ok(())
        }
    }
}

/// Adds a label of an item.
fn add_label<E: Env>(
    alloc: Global,
    item: usize,
    label: &Expr,
    env: &E,
    labels: &mut Labels,
    fuel: &mut Fuel,
) -> Result<(), Halted>
    requires { IsFuel fuel.old }
    ensures valued { OnOk result (labels_held labels.new.valued.items ≡ labels_held labels.old.valued.items ++ valued (item, measured (E.told env.now) label.now)) }
    ensures faults { OnOk result (labels.new.faults.items ≡ labels.old.faults.items ++ label_faults (item, measured (E.told env.now) label.now)) }
    ensures count { Counts result fuel.old fuel.new (nodes (E.told env.now) label.now) }
{
    let meaning = operand(alloc, label, env, fuel)?;
    put(item, meaning, labels)?;
    Ok(())
}

/// Adds the labels of an item.
#[tactic(auto, using(crate::proofs::Steps::label_step, crate::proofs::Steps::label_end, crate::proofs::Steps::fault_step, crate::proofs::Steps::fault_end, crate::proofs::Steps::node_step, crate::proofs::Steps::node_end, std::proofs::lemmas::Grind::common_steps))]
fn add_labels<E: Env>(
    alloc: Global,
    item: usize,
    exprs: &[Expr],
    env: &E,
    labels: &mut Labels,
    fuel: &mut Fuel,
) -> Result<(), Halted>
    requires { IsFuel fuel.old }
    ensures valued { OnOk result (labels_held labels.new.valued.items ≡ labels_held labels.old.valued.items ++ flat_map valued (numbered_labels (E.told env.now) item exprs.now)) }
    ensures faults { OnOk result (labels.new.faults.items ≡ labels.old.faults.items ++ flat_map label_faults (numbered_labels (E.told env.now) item exprs.now)) }
    ensures count { Counts result fuel.old fuel.new (sum_by (nodes (E.told env.now)) exprs.now) }
{
    'labels: for expr in exprs {
        add_label(alloc, item, expr, env, labels, fuel)?;
    }
    Ok(())
}

/// Adds the labels of the item with this number.
fn add_item<E: Env>(
    alloc: Global,
    number: usize,
    item: &CaseGenerateItem,
    env: &E,
    labels: &mut Labels,
    fuel: &mut Fuel,
) -> Result<(), Halted>
    requires { IsFuel fuel.old }
    ensures valued { OnOk result (labels_held labels.new.valued.items ≡ labels_held labels.old.valued.items ++ flat_map valued (numbered_labels (E.told env.now) number (labels_of item.now))) }
    ensures faults { OnOk result (labels.new.faults.items ≡ labels.old.faults.items ++ flat_map label_faults (numbered_labels (E.told env.now) number (labels_of item.now))) }
    ensures count { Counts result fuel.old fuel.new (item_nodes (E.told env.now) item.now) }
{
    match item {
        CaseGenerateItem::Default { .. } => Ok(()),
        CaseGenerateItem::Labels { labels: exprs, .. } => {
            add_labels(alloc, number, exprs.as_slice(), env, labels, fuel)
        }
    }
}

/// Adds the labels of items, which are numbered from 0.
#[tactic(auto, using(crate::proofs::Steps::item_step, crate::proofs::Steps::item_end, crate::proofs::Steps::item_fault_step, crate::proofs::Steps::item_fault_end, crate::proofs::Steps::item_node_step, crate::proofs::Steps::item_node_end, std::proofs::lemmas::Grind::common_steps))]
fn add_items<E: Env>(
    alloc: Global,
    items: &[CaseGenerateItem],
    env: &E,
    labels: &mut Labels,
    fuel: &mut Fuel,
) -> Result<(), Halted>
    requires { IsFuel fuel.old }
    ensures valued { OnOk result (labels_held labels.new.valued.items ≡ labels_held labels.old.valued.items ++ flat_map valued (numbered (E.told env.now) 0 items.now)) }
    ensures faults { OnOk result (labels.new.faults.items ≡ labels.old.faults.items ++ flat_map label_faults (numbered (E.told env.now) 0 items.now)) }
    ensures count { Counts result fuel.old fuel.new (sum_by (item_nodes (E.told env.now)) items.now) }
{
    'items: for number in 0..items.len() {
        add_item(alloc, number, &items[number], env, labels, fuel)?;
    }
    Ok(())
}

/// The labels of the items of a generate `case`. It counts the nodes of all of them.
pub(crate) fn labels_of<E: Env>(
    alloc: Global,
    items: &[CaseGenerateItem],
    env: &E,
    faults: Vec<Fault>,
    fuel: &mut Fuel,
) -> Result<Labels, Halted>
    requires { IsFuel fuel.old }
    ensures valued { IfOk result (λ labels. labels_held labels.valued.items ≡ flat_map valued (numbered (E.told env.now) 0 items.now)) }
    ensures faults { IfOk result (λ labels. labels.faults.items ≡ faults.items ++ flat_map label_faults (numbered (E.told env.now) 0 items.now)) }
    ensures count { Counts result fuel.old fuel.new (sum_by (item_nodes (E.told env.now)) items.now) }
{
    let mut labels = Labels {
        valued: Vec::new(alloc),
        faults,
    };
    add_items(alloc, items, env, &mut labels, fuel)?;
    Ok(labels)
}

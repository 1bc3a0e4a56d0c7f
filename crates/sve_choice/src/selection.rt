ghost use Rattle.std.specs.Prelude.{◌≡◌, ◌∷◌, [], IfOk};
ghost use Rattle.sve_value.specs.Vector.{IsWidth};
ghost use Rattle.sve_operand.specs.Pending.{meaning_of};
ghost use Rattle.sve_fault.specs.Counts.{Counts, IsFuel};
ghost use Rattle.sve_choice.specs.Labels.{case_nodes, chosen, first_default, first_match, is_default, is_match, or_else, shape_of};
ghost use Rattle.sve_choice.specs.Held.{labels_held};

use crate::condition::is_true;
use crate::label::{Label, labels_of};
use std::alloc::Global;
use sve_bytes::NoMemory;
use sve_env::Env;
use sve_fault::{Fault, Fuel, Halted};
use sve_measure::operand;
use sve_operand::Operand;
use sve_tree::{CaseGenerateItem, Expr};
use sve_value::{Binary, binary, truth};

/// What is found of a generate `case`.
#[derive(Drop)]
pub struct Selection {
    /// The number of the item whose block is selected, from 0, where one is.
    pub item: Option<usize>,
    /// What is wrong with its selector and its labels, in the order of the text.
    pub faults: Vec<Fault>,
}

/// The size and the sign that a selector and labels are extended to.
#[derive(Clone, Copy)]
struct Shape {
    /// The size in bits, 1 to 128.
    width: u32,
    /// Whether it is signed.
    signed: bool,

    ghost is_width: { IsWidth width },
}

/// The widest of a selector and its labels, signed where all are (12.5).
#[tactic(auto, using(crate::proofs::Matches::shape_step, crate::proofs::Matches::shape_end))]
fn shape_of(selector: &Operand, labels: &[Label]) -> Shape
    ensures { (result.width, result.signed) ≡ shape_of (meaning_of selector.now) (labels_held labels.now) }
{
    let mut width = selector.width();
    let mut signed = selector.is_signed();
    'labels: for label in labels {
        width = width.max(label.operand.width());
        signed = signed & label.operand.is_signed();
    }
    Shape { width, signed }
}

/// Whether a label is the selector, bit for bit.
fn is_match(shape: Shape, selector: &Operand, label: &Operand) -> bool
    ensures { result ≡ is_match (shape.width, shape.signed) (meaning_of selector.now) (meaning_of label.now) }
{
    let selector = selector.value(shape.width, shape.signed);
    let label = label.value(shape.width, shape.signed);
    is_true(truth(binary(Binary::CaseEqual, selector, label)))
}

/// The number of the item with the first label that matches.
#[tactic(auto, using(crate::proofs::Matches::match_here, crate::proofs::Matches::match_later, crate::proofs::Matches::no_match))]
fn first_match(shape: Shape, selector: &Operand, labels: &[Label]) -> Option<usize>
    ensures { result ≡ first_match (shape.width, shape.signed) (meaning_of selector.now) (labels_held labels.now) }
{
    'labels: for label in labels {
        if is_match(shape, selector, &label.operand) {
            return Some(label.item);
        }
    }
    None
}

/// Whether an item is `default`.
fn is_default(item: &CaseGenerateItem) -> bool
    ensures { result ≡ is_default item.now }
{
    match item {
        CaseGenerateItem::Default { .. } => true,
        CaseGenerateItem::Labels { .. } => false,
    }
}

/// The number of the first `default`.
#[tactic(auto, using(crate::proofs::Matches::default_here, crate::proofs::Matches::default_later, crate::proofs::Matches::no_default))]
fn first_default(items: &[CaseGenerateItem]) -> Option<usize>
    ensures { result ≡ first_default 0 items.now }
{
    'items: for number in 0..items.len() {
        if is_default(&items[number]) {
            return Some(number);
        }
    }
    None
}

/// The item with the first label that matches, else the first `default`.
fn item_of(selector: &Operand, labels: &[Label], items: &[CaseGenerateItem]) -> Option<usize>
    ensures { result ≡ or_else (first_match (shape_of (meaning_of selector.now) (labels_held labels.now)) (meaning_of selector.now) (labels_held labels.now)) (first_default 0 items.now) }
{
    let shape = shape_of(selector, labels);
    match first_match(shape, selector, labels) {
        Some(number) => Some(number),
        None => first_default(items),
    }
}

/// A fault alone.
fn alone(alloc: Global, fault: Fault) -> Result<Vec<Fault>, NoMemory>
    ensures { IfOk result (λ faults. faults.items ≡ fault ∷ []) }
{
    let mut faults = Vec::new(alloc);
    faults.push(fault)?;
    Ok(faults)
}

/// The item of a generate `case` whose block is selected (IEEE 1800-2017, 27.5): the first with a label that is the selector, bit
/// for bit, x and z included, else the first `default`, wherever it stands, else none. All labels are evaluated, and all
/// expressions are extended to the widest, signed where all are (12.5). A label with a fault matches nothing and takes no part in
/// the size; a selector with a fault matches nothing (own). It counts the nodes of the selector and of all labels, and goes over
/// the items once for what they mean and once for what matches.
///
/// # Errors
/// `Over` where these pass the most that may be spent, and `NoMemory`.
pub fn select_item<E: Env>(
    alloc: Global,
    selector: &Expr,
    items: &[CaseGenerateItem],
    env: &E,
    fuel: &mut Fuel,
) -> Result<Selection, Halted>
    requires { IsFuel fuel.old }
    ensures item { IfOk result (λ s. s.item ≡ (chosen (E.told env.now) selector.now items.now).0) }
    ensures faults { IfOk result (λ s. s.faults.items ≡ (chosen (E.told env.now) selector.now items.now).1) }
    ensures count { Counts result fuel.old fuel.new (case_nodes (E.told env.now) selector.now items.now) }
{
    match operand(alloc, selector, env, fuel)? {
        Ok(value) => {
            let labels = labels_of(alloc, items, env, Vec::new(alloc), fuel)?;
            Ok(Selection {
                item: item_of(&value, &labels.valued, items),
                faults: labels.faults,
            })
        }
        Err(fault) => {
            let labels = labels_of(alloc, items, env, alone(alloc, fault)?, fuel)?;
            Ok(Selection {
                item: first_default(items),
                faults: labels.faults,
            })
        }
    }
}

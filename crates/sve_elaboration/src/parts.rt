//! Generate blocks and instances, as the steps of a body need them.
ghost use Rattle.std.specs.Prelude.{◌≡◌, [], IfOk, OnOk};
ghost use Rattle.sve_nested.specs.Blocks.{entered_in};
ghost use Rattle.sve_ahead.specs.Ahead.{ahead_in};
ghost use Rattle.sve_body.specs.Body.{block_label};
ghost use Rattle.sve_body.specs.Items.{is_failing};
ghost use Rattle.sve_elaboration.specs.Names.{and_one};
ghost use Rattle.sve_elaboration.specs.Scopes.{block_items};

use std::alloc::Global;
use std::{mem, slice};
use sve_ahead::{Ahead, seen_ahead};
use sve_bytes::{List, NoMemory};
use sve_contents::Contents;
use sve_nested::Nested;
use sve_tree::{GenerateBlock, Item, Label, Word};

/// The scopes of a body, taken out of their place. What is left there is a body in which nothing was found.
pub(crate) fn taken_nested(alloc: Global, nested: &mut Nested) -> Result<Nested, NoMemory>
    ensures { IfOk result (λ n. n ≡ nested.old) }
{
    let file = nested.contents.scope.file.copy()?;
    let chunk = nested.contents.scope.chunk;
    let nothing = Ahead {
        announced: List::of(Vec::new(alloc)),
        unnamed: List::of(Vec::new(alloc)),
    };
    let empty = Nested::begun(alloc, Contents::new(alloc, file, chunk), nothing)?;
    Ok(mem::replace(nested, empty))
}

/// A generate block with this label and these items begins.
fn entered(
    alloc: Global,
    words: &[Word],
    nested: Nested,
    number: u64,
    turn: Option<(u32, i32)>,
    label: &Option<Label>,
    items: &[Item],
) -> Result<Nested, NoMemory>
    ensures { IfOk result (λ n. n ≡ entered_in words.now nested number turn label.now (ahead_in words.now [] items.now)) }
{
    let ahead = seen_ahead(alloc, words, &[], items)?;
    nested.entered(alloc, words, number, turn, label, ahead)
}

/// A generate block begins (IEEE 1800-2017, 27.6).
pub(crate) fn block_entered(
    alloc: Global,
    words: &[Word],
    nested: Nested,
    number: u64,
    turn: Option<(u32, i32)>,
    block: &GenerateBlock,
) -> Result<Nested, NoMemory>
    ensures { IfOk result (λ n. n ≡ entered_in words.now nested number turn (block_label block.now) (ahead_in words.now [] (block_items block.now))) }
{
    match block {
        GenerateBlock::Block { block: body } => {
            entered(alloc, words, nested, number, turn, &body.label, &body.items)
        }
        GenerateBlock::Item { item } => {
            entered(
                alloc,
                words,
                nested,
                number,
                turn,
                &None,
                slice::from_ref(item),
            )
        }
    }
}

/// Adds one thing more, where there is one.
pub(crate) fn add_one<T: Drop>(list: &mut Vec<T>, one: Option<T>) -> Result<(), NoMemory>
    ensures { OnOk result (list.new.items ≡ and_one list.old.items one) }
{
    if let Some(one) = one {
        list.push(one)?;
    }
    Ok(())
}

/// Whether a system task says that something failed (IEEE 1800-2017, 20.10).
pub(crate) fn is_failing(name: &[u8]) -> bool
    ensures { result ≡ is_failing name.now }
{
    if name == b"$error".as_slice() {
        return true;
    }
    name == b"$fatal".as_slice()
}

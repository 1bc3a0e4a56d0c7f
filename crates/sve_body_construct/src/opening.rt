ghost use Rattle.std.specs.Prelude.{◌≡◌, IfOk, OnOk};
ghost use Rattle.sve_body.specs.Body.{block_label, is_part, label_is_wrong};
ghost use Rattle.sve_body_construct.specs.Parts.{opened, within_block};

use sve_body::Work;
use sve_bytes::NoMemory;
use sve_fault::Fault;
use sve_generate::{block_token, is_conditional, nesting_fault};
use sve_tree::{GenerateBlock, Item, Label};

/// Whether an item that is the whole of a branch of a conditional, where `nests` says so, is a part of the construct around it (IEEE
/// 1800-2017, 27.5). It takes no memory.
pub fn is_part(nests: bool, item: &Item) -> bool
    ensures { result ≡ is_part nests item.now }
{
    if nests {
        return is_conditional(item);
    }
    false
}

/// Whether a label, where one is written, is declared otherwise (27.6).
fn label_is_wrong<S: Work>(work: &S, number: u64, label: &Option<Label>) -> Result<bool, NoMemory>
    ensures { IfOk result (λ wrong. wrong ≡ label_is_wrong S.steps number label.now work.now) }
{
    match label {
        None => Ok(false),
        Some(label) => Ok(work.label_fault(number, label.name)?.is_some()),
    }
}

/// Whether a block is not made, since its label is declared otherwise. A block of one item has no label.
fn is_refused<S: Work>(work: &S, number: u64, block: &GenerateBlock) -> Result<bool, NoMemory>
    ensures { IfOk result (λ wrong. wrong ≡ label_is_wrong S.steps number (block_label block.now) work.now) }
{
    match block {
        GenerateBlock::Block { block: body } => label_is_wrong(work, number, &body.label),
        GenerateBlock::Item { .. } => Ok(false),
    }
}

/// Whether what stands in a block that was entered is gone over; where it is not, the block is left again.
fn is_within<S: Work>(work: &mut S, fault: Option<Fault>) -> Result<bool, NoMemory>
    ensures within { IfOk result (λ within. within ≡ (within_block S.steps fault work.old).0) }
    ensures left { OnOk result (work.new ≡ (within_block S.steps fault work.old).1) }
{
    match fault {
        None => Ok(true),
        Some(fault) => {
            work.say(fault)?;
            work.leave()?;
            Ok(false)
        }
    }
}

/// A block of the construct with this number is entered; whether what stands in it is gone over. One with a wrong label is not made,
/// and one that is the 33rd inside one another has no contents (own).
///
/// # Errors
/// For want of memory alone.
pub fn opens<S: Work>(
    work: &mut S,
    number: u64,
    turn: Option<(u32, i32)>,
    block: &GenerateBlock,
) -> Result<bool, NoMemory>
    ensures opened { IfOk result (λ opens. opens ≡ (opened S.steps number turn block.now work.old).0) }
    ensures left { OnOk result (work.new ≡ (opened S.steps number turn block.now work.old).1) }
{
    if is_refused(work, number, block)? {
        return Ok(false);
    }
    let fault = nesting_fault(work.depth(), block_token(block));
    work.enter(number, turn, block)?;
    is_within(work, fault)
}

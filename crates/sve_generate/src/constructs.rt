ghost use Rattle.std.specs.Prelude.{◌≡◌, ◌≤◌, ◌↔◌, IsTrue};
ghost use Rattle.sve_generate.specs.Constructs.{block_token, is_conditional, is_nested_conditional, nesting_fault};

use sve_diag::Code;
use sve_fault::Fault;
use sve_tree::{GenerateBlock, Item};

/// How many blocks may stand inside one another: one that is the 33rd has no contents (own).
pub const MAX_NESTING: usize = 32;

/// Whether an item is a generate `if` or `case` (27.5).
#[tactic(auto, unfolding(crate::specs::Constructs::is_conditional))]
pub fn is_conditional(item: &Item) -> bool
    ensures { result ≡ is_conditional item.now }
{
    match item {
        Item::IfGenerate { .. } | Item::CaseGenerate { .. } => true,
        Item::Region { .. } | Item::LoopGenerate { .. } => false,
        Item::Empty { .. } | Item::Import { .. } | Item::Parameters { .. } => false,
        Item::Typedef { .. } | Item::Function { .. } | Item::Genvars { .. } => false,
        Item::Net { .. } | Item::Variable { .. } | Item::Data { .. } => false,
        Item::Assign { .. } | Item::Clocked { .. } | Item::Plain { .. } => false,
        Item::Modports { .. } | Item::SystemTask { .. } | Item::Instances { .. } => false,
    }
}

/// Whether a block is a generate `if` or `case` without `begin`. Such a conditional, where it is the whole of a branch of another
/// one, belongs to the construct around it: it has no scope and no number of its own (27.5).
#[tactic(auto, unfolding(crate::specs::Constructs::is_nested_conditional))]
pub fn is_nested_conditional(block: &GenerateBlock) -> bool
    ensures { result ≡ is_nested_conditional block.now }
{
    match block {
        GenerateBlock::Item { item } => is_conditional(item),
        GenerateBlock::Block { .. } => false,
    }
}

/// Whether a block has no contents, since it stands inside so many blocks (own).
pub fn is_too_deep(around: usize) -> bool
    ensures { IsTrue result ↔ (MAX_NESTING ≤ around) }
{
    MAX_NESTING <= around
}

/// The number of a block's first token: `begin`, or that of its item.
#[tactic(auto, using(crate::proofs::Blocks::of_block, crate::proofs::Blocks::of_item))]
pub fn block_token(block: &GenerateBlock) -> u32
    ensures { result ≡ block_token block.now }
{
    match block {
        GenerateBlock::Block { block } => block.begin,
        GenerateBlock::Item { item } => item.first_token(),
    }
}

/// What is said of a block with this first token that has so many blocks around it: E15, where it is the 33rd of blocks inside one
/// another. Such a block is there and has no contents (own). It takes no memory.
pub fn nesting_fault(around: usize, token: u32) -> Option<Fault>
    ensures { result ≡ nesting_fault around token }
{
    if is_too_deep(around) {
        return Some(Fault::at(token, Code::E15));
    }
    None
}

ghost use Rattle.std.specs.Prelude.{◌≡◌, ◌+◌, ◌++◌, ◌≤◌, [], ◌∷◌, IfOk, OnOk, length, sum_by};
ghost use Rattle.sve_generate.specs.Constructs.{constructs};
ghost use Rattle.sve_generate.specs.BlockNames.{block_name, block_text, is_taken, most_zeros, names_from};

use itoa::Buffer;
use std::alloc::{AllocError, Global};
use sve_bytes::{BadName, Name, NoMemory};
use sve_table::{Named, Table};
use sve_tree::Item;

/// The word with which the name of a block without a label begins.
const WORD: &[u8] = b"genblk";

/// How many bytes a name has at most.
const MAX_NAME_LEN: usize = 1024;

/// How many zeros stand at most before a number, so that the name is no longer than a name may be.
fn most_zeros(number: u64) -> usize
    ensures { result ≡ most_zeros number }
{
    let mut buffer = Buffer::new();
    MAX_NAME_LEN - WORD.len() - buffer.format(number).len()
}

/// The word, so many zeros, and the number.
fn named(alloc: Global, zeros: usize, number: u64) -> Result<Name, NoMemory>
    requires { zeros ≤ most_zeros number }
    ensures { IfOk result (λ name. name ≡ block_text zeros number) }
{
    let mut text = Vec::new(alloc);
    text.extend_from_slice(WORD)?;
    'zeros: for zero in 0..zeros {
        text.push(b'0')?;
    }
    let mut buffer = Buffer::new();
    text.extend_from_slice(buffer.format(number).as_bytes())?;
    match Name::of(alloc, &text) {
        Ok(name) => Ok(name),
        Err(BadName::NoMemory) => Err(AllocError),
        Err(BadName::Empty) => unreachable!(),
        Err(BadName::TooLong(_)) => unreachable!(),
    }
}

/// The name of a block of the construct with this number: the first that is not declared (27.6).
fn free_name<T: Named>(alloc: Global, declared: &Table<T>, number: u64) -> Result<Name, NoMemory>
    ensures { IfOk result (λ name. name ≡ block_name (is_taken T.called declared.now) number) }
{
    let most = most_zeros(number);
    'tries: for zeros in 0..most {
        let name = named(alloc, zeros, number)?;
        match declared.get(&name) {
            None => return Ok(name),
            Some(_) => {}
        }
    }
    named(alloc, most, number)
}

/// Adds the name of the next construct.
fn add_name<T: Named>(
    alloc: Global,
    declared: &Table<T>,
    names: &mut Vec<Name>,
) -> Result<(), NoMemory>
    ensures { OnOk result (names.new.items ≡ names.old.items ++ block_name (is_taken T.called declared.now) (length names.old.items + 1) ∷ []) }
{
    let number = names.len() as u64 + 1;
    names.push(free_name(alloc, declared, number)?)?;
    Ok(())
}

/// Adds the names of the constructs of an item.
#[cycle(names)]
#[tactic(auto, using(crate::proofs::Items::of_region, std::proofs::lemmas::Grind::common_steps), unfolding(crate::specs::Constructs::constructs, crate::specs::BlockNames::names_from))]
fn add_item<T: Named>(
    alloc: Global,
    item: &Item,
    declared: &Table<T>,
    names: &mut Vec<Name>,
) -> Result<(), NoMemory>
    ensures { OnOk result (names.new.items ≡ names.old.items ++ names_from (is_taken T.called declared.now) (length names.old.items) (constructs item.now)) }
{
    match item {
        Item::Region { region } => add_items(alloc, &region.items, declared, names),
        Item::LoopGenerate { .. } | Item::IfGenerate { .. } => add_name(alloc, declared, names),
        Item::CaseGenerate { .. } => add_name(alloc, declared, names),
        Item::Empty { .. } | Item::Import { .. } | Item::Parameters { .. } => Ok(()),
        Item::Typedef { .. } | Item::Function { .. } | Item::Genvars { .. } => Ok(()),
        Item::Net { .. } | Item::Variable { .. } | Item::Data { .. } => Ok(()),
        Item::Assign { .. } | Item::Clocked { .. } | Item::Plain { .. } => Ok(()),
        Item::Modports { .. } | Item::SystemTask { .. } | Item::Instances { .. } => Ok(()),
    }
}

/// Adds the names of the constructs of items.
#[cycle(names)]
fn add_items<T: Named>(
    alloc: Global,
    items: &[Item],
    declared: &Table<T>,
    names: &mut Vec<Name>,
) -> Result<(), NoMemory>
    ensures { OnOk result (names.new.items ≡ names.old.items ++ names_from (is_taken T.called declared.now) (length names.old.items) (sum_by constructs items.now)) }
{
    'items: for item in items {
        add_item(alloc, item, declared, names)?;
    }
    Ok(())
}

/// The names of the blocks without a label, one for each generate construct of a scope with these items, in the order of the
/// text; those from `generate` to `endgenerate` stand in the scope itself. All blocks of one construct share its name. The first
/// construct has number 1, and where `genblk` with its number is declared in the scope, zeros stand before the number until it is
/// not (27.6). Where as many zeros as a name may have do not suffice, so many stand there (own).
///
/// # Errors
/// For want of memory alone.
pub fn block_names<T: Named>(
    alloc: Global,
    items: &[Item],
    declared: &Table<T>,
) -> Result<Vec<Name>, NoMemory>
    ensures { IfOk result (λ names. names.items ≡ names_from (is_taken T.called declared.now) 0 (sum_by constructs items.now)) }
{
    let mut names = Vec::new(alloc);
    add_items(alloc, items, declared, &mut names)?;
    Ok(names)
}

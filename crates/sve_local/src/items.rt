//! Statements in a scope.
ghost use Rattle.std.specs.Prelude.{◌≡◌, IfOk};
ghost use Rattle.std.specs.List.{flat_map, fold};
ghost use Rattle.sve_statement_use.specs.Statements.{block_item_steps};
ghost use Rattle.sve_local.specs.Steps.{stepped_in};

use crate::within::Within;
use std::alloc::Global;
use sve_bytes::NoMemory;
use sve_contents::Contents;
use sve_declare::Text;
use sve_statement_use::names_in_block_items;
use sve_tree::BlockItem;

/// What the declarations and statements of a block or of a function leave in its scope, one after another (IEEE 1800-2017, 9.3 and 13.4).
///
/// # Errors
/// For want of memory alone.
#[tactic(auto, using(crate::proofs::Folds::all_steps))]
pub fn items_within(
    alloc: Global,
    text: Text<'_>,
    contents: Contents,
    items: &[BlockItem],
) -> Result<Contents, NoMemory>
    ensures { IfOk result (λ c. c ≡ fold (stepped_in text.entry.packages.now text.entry.words.now) contents (flat_map block_item_steps items.now)) }
{
    let mut within = Within {
        alloc,
        text,
        contents,
    };
    names_in_block_items(items, &mut within)?;
    let Within {
        alloc: _,
        text: _,
        contents,
    } = within;
    Ok(contents)
}

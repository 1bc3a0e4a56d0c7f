//! Items of packages and of compilation units, one after another.
ghost use Rattle.std.specs.Prelude.{◌≡◌, IfOk};
ghost use Rattle.std.specs.List.{fold};
ghost use Rattle.sve_package.specs.Packages.{with_item, with_items};
ghost use Rattle.sve_package.specs.Opening.{opened};

use crate::Typing;
use crate::opening::opened;
use std::alloc::Global;
use sve_bytes::NoMemory;
use sve_contents::Contents;
use sve_heading::headings;
use sve_known::Known;
use sve_table::Table;
use sve_tree::{UnitItem, Word};

/// The scope, in which the functions of items are seen before the text comes to them.
fn opened_for(
    alloc: Global,
    words: &[Word],
    contents: Contents,
    items: &[UnitItem],
) -> Result<Contents, NoMemory>
    ensures { IfOk result (λ c. c ≡ opened words.now contents items.now) }
{
    let found = headings(alloc, items)?;
    let headings = found.as_slice();
    opened(words, contents, headings, Table::new(alloc))
}

/// An item, over what those in front of it left.
fn with_item<T: Typing>(
    alloc: Global,
    typing: &T,
    packages: &Table<Known>,
    words: &[Word],
    contents: Contents,
    item: &UnitItem,
) -> Result<Contents, NoMemory>
    ensures { IfOk result (λ c. c ≡ with_item (T.reads typing.now) packages.now words.now contents item.now) }
{
    match item {
        UnitItem::Empty { .. } => Ok(contents),
        UnitItem::Import { declaration } => contents.imported(packages, words, declaration),
        UnitItem::Parameters { declaration } => {
            typing.parameters(alloc, packages, words, contents, declaration)
        }
        UnitItem::Typedef { declaration } => {
            typing.typedef(alloc, packages, words, contents, declaration)
        }
        UnitItem::Function { function } => {
            typing.function(alloc, packages, words, contents, function)
        }
    }
}

/// One item after another.
fn all_items<T: Typing>(
    alloc: Global,
    typing: &T,
    packages: &Table<Known>,
    words: &[Word],
    contents: Contents,
    items: &[UnitItem],
) -> Result<Contents, NoMemory>
    ensures { IfOk result (λ c. c ≡ fold (with_item (T.reads typing.now) packages.now words.now) contents items.now) }
{
    let mut contents = contents;
    'items: for item in items {
        contents = with_item(alloc, typing, packages, words, contents, item)?;
    }
    Ok(contents)
}

/// Items in the order of their text, whose functions all of them see.
pub(crate) fn with_items<T: Typing>(
    alloc: Global,
    typing: &T,
    packages: &Table<Known>,
    words: &[Word],
    contents: Contents,
    items: &[UnitItem],
) -> Result<Contents, NoMemory>
    ensures { IfOk result (λ c. c ≡ with_items (T.reads typing.now) packages.now words.now contents items.now) }
{
    let contents = opened_for(alloc, words, contents, items)?;
    all_items(alloc, typing, packages, words, contents, items)
}

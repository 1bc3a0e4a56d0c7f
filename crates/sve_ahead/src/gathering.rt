ghost use Rattle.std.specs.Prelude.{◌≡◌, [], IfOk};
ghost use Rattle.std.specs.List.{fold};
ghost use Rattle.sve_item_names.specs.Items.{names_of};
ghost use Rattle.sve_scope.specs.Scopes.{itself};
ghost use Rattle.sve_table.specs.Tables.{with_item};
ghost use Rattle.sve_ahead.specs.Ahead.{ahead_in, ahead_of, first_token, gathered_in, is_ahead, is_whole, name_token, names_declared, unnamed_in, with_announced, with_heading, with_item_name, with_name, with_name_if};

use std::alloc::Global;
use sve_bytes::{List, Name, NoMemory};
use sve_generate::block_names;
use sve_heading::Heading;
use sve_item_names::{ItemName, item_names};
use sve_known::name_at;
use sve_table::Table;
use sve_tree::{Item, Word};

/// A name that is seen in its whole scope.
pub struct Announced {
    /// The name.
    pub name: Name,
    /// What it names: a function, an instance or a generate block.
    pub item: ItemName,
}

impl Drop for Announced {
    fn drop(self) {
        let Announced { name: _, item: _ } = self;
    }
}

/// What is known of a scope before its text is gone over.
pub struct Ahead {
    /// The names of functions, instances and generate blocks, selected or not, in the order of the text: of each name the first
    /// declaration of the scope, where that is one of these.
    pub announced: List<Announced>,
    /// The names of the blocks without a label, for each generate construct of the scope in the order of the text (27.6).
    pub unnamed: List<Name>,
}

impl Drop for Ahead {
    fn drop(self) {
        let Ahead {
            announced: _,
            unnamed: _,
        } = self;
    }
}

impl Ahead {
    /// The names of the blocks without a label, once the others were announced. It takes no memory.
    pub fn into_unnamed(self) -> List<Name>
        ensures { result ≡ self.unnamed }
    {
        let Ahead {
            announced: _,
            unnamed,
        } = self;
        unnamed
    }
}

/// What a text comes to as far as it was looked through: what is seen ahead, and all its names.
#[derive(Drop)]
pub(crate) struct Gathered {
    pub(crate) announced: List<Announced>,
    pub(crate) names: Table<Name>,
}

/// The number of the token of a name.
fn name_token(item: ItemName) -> u32
    ensures { result ≡ name_token item }
{
    match item {
        ItemName::Declared { heading } => heading.token,
        ItemName::Instance { token } => token,
        ItemName::Block { token } => token,
    }
}

/// The number of the first token of what is named: of a generate block with a label it is that of `begin`, in front of `:` and the
/// label (IEEE 1800-2017, 27.6). It takes no memory.
pub fn first_token(item: ItemName) -> u32
    ensures { result ≡ first_token item }
{
    match item {
        ItemName::Declared { heading } => heading.token,
        ItemName::Instance { token } => token,
        ItemName::Block { token } => token.saturating_sub(2),
    }
}

/// Whether what is named is seen in its whole scope: a function, an instance or a generate block (6.5 and 23.9).
fn is_whole(item: ItemName) -> bool
    ensures { result ≡ is_whole item }
{
    match item {
        ItemName::Declared { heading } => heading.is_function,
        ItemName::Instance { .. } => true,
        ItemName::Block { .. } => true,
    }
}

/// Whether what is named is seen ahead: it is the first of its name.
fn is_ahead(item: ItemName, names: &Table<Name>, name: &Name) -> bool
    ensures { result ≡ is_ahead item names.now name.now }
{
    is_whole(item) && names.get(name).is_none()
}

/// What is seen ahead, and one more, if it is to be.
fn with_announced(
    announced: List<Announced>,
    ahead: bool,
    item: ItemName,
    name: &Name,
) -> Result<List<Announced>, NoMemory>
    ensures { IfOk result (λ list. list ≡ with_announced announced ahead item name.now) }
{
    if !ahead {
        return Ok(announced);
    }
    let mut list = announced.into_vec();
    let name = name.copy()?;
    list.push(Announced { name, item })?;
    Ok(List::of(list))
}

/// The names of a text, and one more.
fn with_item(names: Table<Name>, name: &Name) -> Result<Table<Name>, NoMemory>
    ensures { IfOk result (λ all. all ≡ with_item itself names name.now) }
{
    let mut names = names;
    names.add(name.copy()?)?;
    Ok(names)
}

/// A name more of a text.
fn with_name(gathered: Gathered, item: ItemName, name: &Name) -> Result<Gathered, NoMemory>
    ensures { IfOk result (λ g. g ≡ with_name gathered item name.now) }
{
    let ahead = is_ahead(item, &gathered.names, name);
    let Gathered { announced, names } = gathered;
    let announced = with_announced(announced, ahead, item, name)?;
    let names = with_item(names, name)?;
    Ok(Gathered { announced, names })
}

/// The name of an item more.
fn with_item_name(gathered: Gathered, words: &[Word], item: ItemName) -> Result<Gathered, NoMemory>
    ensures { IfOk result (λ g. g ≡ with_item_name words.now gathered item) }
{
    match name_at(words, name_token(item)) {
        Some(name) => with_name(gathered, item, name),
        None => Ok(gathered),
    }
}

/// The names of a header.
fn of_headings(
    words: &[Word],
    headings: &[Heading],
    gathered: Gathered,
) -> Result<Gathered, NoMemory>
    ensures { IfOk result (λ g. g ≡ fold (with_heading words.now) gathered headings.now) }
{
    let mut gathered = gathered;
    'headings: for heading in headings {
        gathered = with_item_name(gathered, words, ItemName::Declared { heading: *heading })?;
    }
    Ok(gathered)
}

/// The names of items behind those of a header.
fn of_items(words: &[Word], items: &[ItemName], gathered: Gathered) -> Result<Gathered, NoMemory>
    ensures { IfOk result (λ g. g ≡ fold (with_item_name words.now) gathered items.now) }
{
    let mut gathered = gathered;
    'items: for item in items {
        gathered = with_item_name(gathered, words, *item)?;
    }
    Ok(gathered)
}

/// The names of a header and of items.
fn gather(
    alloc: Global,
    words: &[Word],
    headings: &[Heading],
    items: &[Item],
) -> Result<Gathered, NoMemory>
    ensures { IfOk result (λ g. g ≡ gathered_in words.now headings.now items.now) }
{
    let names = item_names(alloc, items)?;
    let nothing = Gathered {
        announced: List::of(Vec::new(alloc)),
        names: Table::new(alloc),
    };
    let header = of_headings(words, headings, nothing)?;
    of_items(words, &names, header)
}

/// The names that the text of a scope declares, in the order of the text (IEEE 1800-2017, 23.9): those of the header of a module or an
/// interface and those of items, with the labels of generate blocks, selected or not. The words are those of the chunk of the text.
///
/// # Errors
/// For want of memory alone.
pub fn names_declared(
    alloc: Global,
    words: &[Word],
    headings: &[Heading],
    items: &[Item],
) -> Result<Table<Name>, NoMemory>
    ensures { IfOk result (λ names. names ≡ names_declared words.now headings.now items.now) }
{
    let Gathered {
        announced: _,
        names,
    } = gather(alloc, words, headings, items)?;
    Ok(names)
}

/// What is known of a scope by its names and its items.
fn ahead_of(alloc: Global, gathered: Gathered, items: &[Item]) -> Result<Ahead, NoMemory>
    ensures { IfOk result (λ a. a ≡ ahead_of gathered items.now) }
{
    let unnamed = List::of(block_names(alloc, items, &gathered.names)?);
    let Gathered {
        announced,
        names: _,
    } = gathered;
    Ok(Ahead { announced, unnamed })
}

/// What is known of a scope before its text is gone over (IEEE 1800-2017, 23.9, 27.5 and 27.6): functions, instances and generate
/// blocks, which are seen in the whole scope, and how blocks without a label are named. `headings` are the names of the header of a
/// module or an interface, and none for a generate block; the words are those of the chunk of the text. It goes over the items once
/// and evaluates nothing.
///
/// # Errors
/// For want of memory alone.
pub fn seen_ahead(
    alloc: Global,
    words: &[Word],
    headings: &[Heading],
    items: &[Item],
) -> Result<Ahead, NoMemory>
    ensures { IfOk result (λ a. a ≡ ahead_in words.now headings.now items.now) }
{
    let gathered = gather(alloc, words, headings, items)?;
    ahead_of(alloc, gathered, items)
}

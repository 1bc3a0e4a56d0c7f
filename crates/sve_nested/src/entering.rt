ghost use Rattle.std.specs.Prelude.{◌≡◌, ◌-◌, IfOk, codes, option_map, slice_get};
ghost use Rattle.sve_genvar.specs.Genvar.{genvar_value};
ghost use Rattle.sve_contents.specs.Nested.{entered};
ghost use Rattle.sve_nested.specs.Blocks.{announcing_all, block_name, declared_ahead, entered_as, entered_by, entered_in, genvar_declared, label_name, path_to, turn_value, unnamed_at, what_ahead, with_announced, with_genvar, with_turn};

use crate::block::Block;
use crate::blocks::begun_scope;
use crate::nested::Nested;
use std::alloc::{AllocError, Global};
use sve_ahead::{Ahead, Announced, first_token};
use sve_bytes::{List, Name, NoMemory, Path, Step};
use sve_contents::Contents;
use sve_genvar::integer_type;
use sve_item_names::ItemName;
use sve_known::name_at;
use sve_scope::{Constant, Declared, SharedType, What};
use sve_tree::{Label, Word};
use sve_types::Value;
use sve_value::Bits;

/// The word with which the name of a block without a label begins.
const NO_CONSTRUCT: &[u8] = b"genblk";

/// What a name that is seen ahead stands for there.
fn what_ahead(item: ItemName) -> What
    ensures { result ≡ what_ahead item }
{
    match item {
        ItemName::Declared { .. } => What::Function(None),
        ItemName::Instance { .. } => What::Instance,
        ItemName::Block { .. } => What::Block,
    }
}

/// The declaration of a name that is seen ahead.
fn declared_ahead(contents: &Contents, announced: &Announced) -> Result<Declared, NoMemory>
    ensures { IfOk result (λ d. d ≡ declared_ahead contents.now announced.now) }
{
    let from = first_token(announced.item);
    let at = contents.spot(from)?;
    let name = announced.name.copy()?;
    let what = what_ahead(announced.item);
    Ok(Declared {
        name,
        what,
        at,
        from,
    })
}

/// A name that is seen ahead more.
fn with_announced(contents: Contents, announced: &Announced) -> Result<Contents, NoMemory>
    ensures { IfOk result (λ c. c ≡ with_announced contents announced.now) }
{
    let declared = declared_ahead(&contents, announced)?;
    contents.announced(declared)
}

/// All names that are seen ahead.
pub(crate) fn announcing_all(
    contents: Contents,
    announced: &[Announced],
) -> Result<Contents, NoMemory>
    ensures { IfOk result (λ c. c ≡ announcing_all contents announced.now) }
{
    let mut contents = contents;
    'announced: for one in announced {
        contents = with_announced(contents, one)?;
    }
    Ok(contents)
}

/// The name that names have for the construct with a number.
fn name_of(names: &[Name], number: u64) -> Option<&Name>
    ensures { option_map (λ n. n.now) result ≡ slice_get names.now (number - 1) }
{
    match names.get(number.saturating_sub(1) as usize) {
        Some(name) => Some(name),
        None => None,
    }
}

/// The name of a block without a label whose construct is none of its scope.
fn no_construct(alloc: Global) -> Result<Name, NoMemory>
    ensures { IfOk result (λ n. n ≡ codes "genblk") }
{
    match Name::of(alloc, NO_CONSTRUCT) {
        Ok(name) => Ok(name),
        Err(_) => Err(AllocError),
    }
}

/// The name of the blocks without a label of the construct with a number.
fn unnamed_at(alloc: Global, names: &[Name], number: u64) -> Result<Name, NoMemory>
    ensures { IfOk result (λ n. n ≡ unnamed_at names.now number) }
{
    match name_of(names, number) {
        Some(name) => name.copy(),
        None => no_construct(alloc),
    }
}

/// The label of a block, where it has one.
fn label_name<'a>(words: &'a [Word], label: &Option<Label>) -> Option<&'a Name>
    ensures { option_map (λ n. n.now) result ≡ label_name words.now label.now }
{
    match label {
        None => None,
        Some(label) => name_at(words, label.name),
    }
}

/// The name of a block of the construct with a number.
fn block_name(
    alloc: Global,
    words: &[Word],
    block: &Block,
    number: u64,
    label: &Option<Label>,
) -> Result<Name, NoMemory>
    ensures { IfOk result (λ n. n ≡ block_name words.now block.now number label.now) }
{
    match label_name(words, label) {
        Some(name) => name.copy(),
        None => unnamed_at(alloc, block.unnamed.items(), number),
    }
}

/// The value of the genvar in a block of a loop.
fn turn_value(turn: Option<(u32, i32)>) -> Option<i32>
    ensures { result ≡ turn_value turn }
{
    match turn {
        None => None,
        Some((_, value)) => Some(value),
    }
}

/// The path of a block in a scope.
fn path_to(
    alloc: Global,
    path: &Path,
    name: Name,
    turn: Option<(u32, i32)>,
) -> Result<Path, NoMemory>
    ensures { IfOk result (λ p. p ≡ path_to path.now name turn) }
{
    let Path { steps } = path.copy(alloc)?;
    let mut steps = steps.into_vec();
    let index = turn_value(turn);
    steps.push(Step { name, index })?;
    Ok(Path {
        steps: List::of(steps),
    })
}

/// A genvar's value, of type `integer`.
fn genvar_value(value: i32) -> Bits
    ensures { result ≡ genvar_value value }
{
    let digits = (value as i64).rem_euclid(4_294_967_296).unsigned_abs();
    Bits::number(32, true, digits as u128)
}

/// The genvar in a block of its loop, as a local parameter.
fn genvar_declared(
    alloc: Global,
    contents: &Contents,
    token: u32,
    value: i32,
    name: &Name,
) -> Result<Declared, NoMemory>
    ensures { IfOk result (λ d. d ≡ genvar_declared contents.now token value name.now) }
{
    let at = contents.spot(token)?;
    let name = name.copy()?;
    let ty = Some(SharedType::of(alloc, integer_type(alloc))?);
    let value = Some(Value::Bits(genvar_value(value)));
    Ok(Declared {
        name,
        what: What::LocalParameter(Constant { ty, value }),
        at,
        from: token,
    })
}

/// A genvar with its value more, where its token is a name.
fn with_genvar(
    alloc: Global,
    contents: Contents,
    token: u32,
    value: i32,
    name: Option<&Name>,
) -> Result<Contents, NoMemory>
    ensures { IfOk result (λ c. c ≡ with_genvar contents token value (option_map (λ n. n.now) name.entry)) }
{
    match name {
        None => Ok(contents),
        Some(name) => {
            let declared = genvar_declared(alloc, &contents, token, value, name)?;
            contents.declared(declared)
        }
    }
}

/// The genvar of a block of a loop.
fn with_turn(
    alloc: Global,
    words: &[Word],
    contents: Contents,
    turn: Option<(u32, i32)>,
) -> Result<Contents, NoMemory>
    ensures { IfOk result (λ c. c ≡ with_turn words.now contents turn) }
{
    match turn {
        None => Ok(contents),
        Some((token, value)) => with_genvar(alloc, contents, token, value, name_at(words, token)),
    }
}

/// The innermost scope of a block that begins.
fn inner(
    alloc: Global,
    words: &[Word],
    contents: Contents,
    turn: Option<(u32, i32)>,
    announced: &[Announced],
) -> Result<Contents, NoMemory>
    ensures { IfOk result (λ c. c ≡ with_turn words.now (announcing_all (entered contents) announced.now) turn) }
{
    let contents = contents.entered(alloc)?;
    let contents = announcing_all(contents, announced)?;
    with_turn(alloc, words, contents, turn)
}

impl Nested {
    /// A block with a name and a path begins.
    #[tactic(auto, unfolding(crate::specs::Blocks::entered_as))]
    fn entered_as(
        self,
        alloc: Global,
        words: &[Word],
        name: Name,
        path: Path,
        turn: Option<(u32, i32)>,
        ahead: Ahead,
    ) -> Result<Nested, NoMemory>
        ensures { IfOk result (λ n. n ≡ entered_as words.now self name path turn ahead) }
    {
        let Nested { contents, blocks } = self;
        let scope = begun_scope(alloc, path.copy(alloc)?, &contents)?;
        let contents = inner(alloc, words, contents, turn, ahead.announced.items())?;
        let blocks = blocks.within(alloc, path, name, ahead.into_unnamed(), scope)?;
        Ok(Nested { contents, blocks })
    }

    /// A block with a name begins.
    fn entered_by(
        self,
        alloc: Global,
        words: &[Word],
        name: Name,
        turn: Option<(u32, i32)>,
        ahead: Ahead,
    ) -> Result<Nested, NoMemory>
        ensures { IfOk result (λ n. n ≡ entered_by words.now self name turn ahead) }
    {
        let path = path_to(alloc, &self.blocks.inner.path, name.copy()?, turn)?;
        self.entered_as(alloc, words, name, path, turn, ahead)
    }

    /// A generate block of the construct with a number begins (IEEE 1800-2017, 27.4 to 27.6), of a loop with the token of the genvar in
    /// its header and the value. Its name is its label, or the name of its construct's blocks without one. What its text declares ahead
    /// is announced, and the genvar is a local parameter of type `integer` in it.
    ///
    /// # Errors
    /// For want of memory alone.
    pub fn entered(
        self,
        alloc: Global,
        words: &[Word],
        number: u64,
        turn: Option<(u32, i32)>,
        label: &Option<Label>,
        ahead: Ahead,
    ) -> Result<Nested, NoMemory>
        ensures { IfOk result (λ n. n ≡ entered_in words.now self number turn label.now ahead) }
    {
        let name = block_name(alloc, words, &self.blocks.inner, number, label)?;
        self.entered_by(alloc, words, name, turn, ahead)
    }
}

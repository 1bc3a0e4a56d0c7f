//! Which item begins at a place, by its first token.

ghost use Rattle.std.specs.Prelude.{◌≡◌, ◌≤◌, Some};
ghost use Rattle.sve_grammar.specs.Token.{kind_at};
ghost use Rattle.sve_grammar.specs.Rule.{opens};
ghost use Rattle.sve_parse_flat_item.specs.Alternatives.{IsFormOf, FindsItem, EntersItem, FindsUnitItem};

use sve_grammar::{Stop, Symbol, kind_here};
use sve_token::{Keyword, Kind, Token};

/// The forms of an item that packages and the compilation unit's scope have too (IEEE 1800-2017, A.1.11), in the order in
/// which the grammar has them.
#[derive(Clone, Copy)]
pub enum PackageForm {
    /// `;`.
    Empty,
    /// Imports.
    Import,
    /// Parameters.
    Parameters,
    /// A type.
    Typedef,
    /// A function.
    Function,
}

/// The forms of an item that declares names and holds neither statements nor items.
#[derive(Clone, Copy)]
pub enum DeclarationForm {
    /// Genvars.
    Genvars,
    /// Nets.
    Net,
    /// Variables with `var`.
    Variable,
    /// Variables without `var` whose type begins with a keyword.
    Data,
    /// Modports.
    Modports,
}

/// The forms of an item that assigns or runs, and the one that begins with a name.
#[derive(Clone, Copy)]
pub enum ProcessForm {
    /// Continuous assignments.
    Assign,
    /// A procedure with an event control.
    Clocked,
    /// A procedure without one.
    Plain,
    /// A system task.
    SystemTask,
    /// Instances, or variables whose type begins with a name.
    Named,
}

/// The forms of an item that hold items.
#[derive(Clone, Copy)]
pub enum ConstructForm {
    /// A generate region.
    Region,
    /// A generate loop.
    Loop,
    /// A generate `if`.
    If,
    /// A generate `case`.
    Case,
}

/// The forms of an item: the alternatives of A.1.4, in groups.
#[derive(Clone, Copy)]
pub enum ItemForm {
    /// What packages have too.
    Package(PackageForm),
    /// Another declaration.
    Declaration(DeclarationForm),
    /// What assigns or runs, or begins with a name.
    Process(ProcessForm),
    /// What holds items.
    Construct(ConstructForm),
}

/// The form of the item that begins here, and the depth of what stands for it. Else the machine stops here: `deep` where an
/// item begins and the depth is 512.
#[tactic(auto, unfolding(sve_grammar::specs::Reading::symbol))]
pub fn enter_item(tokens: &[Token], at: u32, depth: u32) -> Result<(ItemForm, u32), Stop>
    requires { depth ≤ 512 }
    ensures { EntersItem tokens.now depth at result }
{
    let Some(form) = item_here(tokens, at) else {
        return Err(Stop::At {
            index: at,
            deep: false,
        });
    };
    if depth == 512 {
        return Err(Stop::At {
            index: at,
            deep: true,
        });
    }
    Ok((form, depth + 1))
}

/// Whether an item begins here.
pub fn begins_item(tokens: &[Token], at: u32) -> bool
    ensures { result ≡ opens Symbol.Item (kind_at tokens.now at) }
{
    match item_here(tokens, at) {
        Some(_) => true,
        None => false,
    }
}

/// The form of the item of a package that begins here.
pub(crate) fn package_item_here(tokens: &[Token], at: u32) -> Option<PackageForm>
    ensures { FindsUnitItem tokens.now at result }
{
    match item_here(tokens, at) {
        Some(form) => match form {
            ItemForm::Package(form) => Some(form),
            ItemForm::Declaration(_) => None,
            ItemForm::Process(_) => None,
            ItemForm::Construct(_) => None,
        },
        None => None,
    }
}

/// The form of the item that begins here.
fn item_here(tokens: &[Token], at: u32) -> Option<ItemForm>
    ensures form { IsFormOf (kind_at tokens.now at) result }
    ensures finds { FindsItem tokens.now at result }
{
    match kind_here(tokens, at) {
        Some(kind) => form_of_kind(kind),
        None => None,
    }
}

/// The form of an item whose first token is of this kind.
fn form_of_kind(kind: Kind) -> Option<ItemForm>
    ensures { IsFormOf (Some kind) result }
{
    match kind {
        Kind::Keyword(word) => form_of_keyword(word),
        Kind::Semicolon => Some(ItemForm::Package(PackageForm::Empty)),
        Kind::SystemName => Some(ItemForm::Process(ProcessForm::SystemTask)),
        Kind::Identifier => Some(ItemForm::Process(ProcessForm::Named)),
        _ => None,
    }
}

/// The form of an item whose first token is this keyword.
fn form_of_keyword(word: Keyword) -> Option<ItemForm>
    ensures { IsFormOf (Some (Kind.Keyword word)) result }
{
    match word {
        Keyword::KwImport => Some(ItemForm::Package(PackageForm::Import)),
        Keyword::KwParameter | Keyword::KwLocalparam => Some(ItemForm::Package(
            PackageForm::Parameters,
        )),
        Keyword::KwTypedef => Some(ItemForm::Package(PackageForm::Typedef)),
        Keyword::KwFunction => Some(ItemForm::Package(PackageForm::Function)),
        Keyword::KwGenvar => Some(ItemForm::Declaration(DeclarationForm::Genvars)),
        Keyword::KwWire
        | Keyword::KwTri
        | Keyword::KwUwire
        | Keyword::KwWand
        | Keyword::KwWor
        | Keyword::KwTriand
        | Keyword::KwTrior
        | Keyword::KwTri0
        | Keyword::KwTri1
        | Keyword::KwSupply0
        | Keyword::KwSupply1 => Some(ItemForm::Declaration(DeclarationForm::Net)),
        Keyword::KwVar => Some(ItemForm::Declaration(DeclarationForm::Variable)),
        Keyword::KwByte
        | Keyword::KwShortint
        | Keyword::KwInt
        | Keyword::KwLongint
        | Keyword::KwInteger
        | Keyword::KwTime
        | Keyword::KwBit
        | Keyword::KwLogic
        | Keyword::KwReg
        | Keyword::KwString
        | Keyword::KwEnum
        | Keyword::KwStruct => Some(ItemForm::Declaration(DeclarationForm::Data)),
        Keyword::KwAssign => Some(ItemForm::Process(ProcessForm::Assign)),
        Keyword::KwAlways | Keyword::KwAlwaysFf => Some(ItemForm::Process(ProcessForm::Clocked)),
        Keyword::KwAlwaysComb | Keyword::KwAlwaysLatch | Keyword::KwInitial => {
            Some(ItemForm::Process(ProcessForm::Plain))
        }
        Keyword::KwGenerate => Some(ItemForm::Construct(ConstructForm::Region)),
        Keyword::KwFor => Some(ItemForm::Construct(ConstructForm::Loop)),
        Keyword::KwIf => Some(ItemForm::Construct(ConstructForm::If)),
        Keyword::KwCase => Some(ItemForm::Construct(ConstructForm::Case)),
        Keyword::KwModport => Some(ItemForm::Declaration(DeclarationForm::Modports)),
        _ => None,
    }
}

//! What a statement or an item of a block is, by its next token. Each form is told by one look at the token's kind.

ghost use Rattle.std.specs.Prelude.{Some};
ghost use Rattle.sve_parse_form.specs.Forms.{IsForm, IsItem, LeadsTo, FindsItem};

use sve_grammar::kind_here;
use sve_token::{Keyword, Kind, Token};

/// The forms of a statement: its alternatives (IEEE 1800-2017, A.6.4), those that hold statements apart from the others.
#[derive(Clone, Copy)]
pub enum Form {
    /// A block.
    Block,
    /// `if` or `case`.
    Choice,
    /// `for`.
    For,
    /// `foreach`.
    Foreach,
    /// `while` or `repeat`.
    Loop,
    /// `do`.
    Do,
    /// A statement that holds no statement.
    Plain(Plain),
}

/// The forms of a statement that holds no statement.
#[derive(Clone, Copy)]
pub enum Plain {
    /// `;`.
    Empty,
    /// `return`.
    Return,
    /// `break`.
    Break,
    /// `continue`.
    Continue,
    /// A system task or function.
    SystemTask,
    /// A call whose result is dropped.
    VoidCall,
    /// An increment with its operator in front.
    Step,
    /// An assignment to left sides in braces.
    Concatenation,
    /// What begins with a name, or nothing that begins a statement.
    Name,
}

/// The forms of an item of a block (A.2.8).
#[derive(Clone, Copy)]
pub enum ItemForm {
    /// A declaration, or what begins with a name.
    Declared(Declared),
    /// Any other statement.
    Statement,
}

/// The forms of a declaration of a block, and of what begins with a name there.
#[derive(Clone, Copy)]
pub enum Declared {
    /// A declaration with a lifetime.
    Local,
    /// A declaration with `var`.
    Variable,
    /// A declaration that begins with its type's keyword.
    Data,
    /// Parameters.
    Parameters,
    /// A type.
    Typedef,
    /// What begins with a name: a declaration by a type's name, or a statement.
    Name,
}

/// The form of the statement that begins here.
#[tactic(auto, using(crate::proofs::Leads::leads_here, crate::proofs::Leads::leads_nowhere))]
pub fn statement_here(tokens: &[Token], at: u32) -> Form
    ensures { LeadsTo tokens.now at result }
{
    match kind_here(tokens, at) {
        Some(kind) => form_of(kind),
        None => Form::Plain(Plain::Name),
    }
}

/// The form of a statement that begins with this kind.
fn form_of(kind: Kind) -> Form
    ensures { IsForm (Some kind) result }
{
    match kind {
        Kind::Identifier => Form::Plain(Plain::Name),
        Kind::Keyword(word) => form_of_keyword(word),
        Kind::Semicolon => Form::Plain(Plain::Empty),
        Kind::SystemName => Form::Plain(Plain::SystemTask),
        Kind::PlusPlus => Form::Plain(Plain::Step),
        Kind::MinusMinus => Form::Plain(Plain::Step),
        Kind::LeftBrace => Form::Plain(Plain::Concatenation),
        _ => Form::Plain(Plain::Name),
    }
}

/// The form of a statement that begins with this keyword.
fn form_of_keyword(word: Keyword) -> Form
    ensures { IsForm (Some (Kind.Keyword word)) result }
{
    match word {
        Keyword::KwBegin => Form::Block,
        Keyword::KwIf
        | Keyword::KwCase
        | Keyword::KwCasez
        | Keyword::KwCasex
        | Keyword::KwUnique
        | Keyword::KwUnique0
        | Keyword::KwPriority => Form::Choice,
        Keyword::KwFor => Form::For,
        Keyword::KwForeach => Form::Foreach,
        Keyword::KwWhile | Keyword::KwRepeat => Form::Loop,
        Keyword::KwDo => Form::Do,
        Keyword::KwReturn => Form::Plain(Plain::Return),
        Keyword::KwBreak => Form::Plain(Plain::Break),
        Keyword::KwContinue => Form::Plain(Plain::Continue),
        Keyword::KwVoid => Form::Plain(Plain::VoidCall),
        _ => Form::Plain(Plain::Name),
    }
}

/// The form of the item of a block that begins here, if one does.
#[tactic(auto, using(crate::proofs::Leads::item_here, crate::proofs::Leads::no_item_here))]
pub fn item_here(tokens: &[Token], at: u32) -> Option<ItemForm>
    ensures { FindsItem tokens.now at result }
{
    match kind_here(tokens, at) {
        Some(kind) => item_of(kind),
        None => None,
    }
}

/// The form of an item of a block that begins with this kind, if one does.
fn item_of(kind: Kind) -> Option<ItemForm>
    ensures { IsItem (Some kind) result }
{
    match kind {
        Kind::Identifier => Some(ItemForm::Declared(Declared::Name)),
        Kind::Keyword(word) => item_of_keyword(word),
        Kind::Semicolon => Some(ItemForm::Statement),
        Kind::SystemName => Some(ItemForm::Statement),
        Kind::PlusPlus => Some(ItemForm::Statement),
        Kind::MinusMinus => Some(ItemForm::Statement),
        Kind::LeftBrace => Some(ItemForm::Statement),
        _ => None,
    }
}

/// The form of an item of a block that begins with this keyword, if one does.
fn item_of_keyword(word: Keyword) -> Option<ItemForm>
    ensures { IsItem (Some (Kind.Keyword word)) result }
{
    match word {
        Keyword::KwAutomatic | Keyword::KwStatic => Some(ItemForm::Declared(Declared::Local)),
        Keyword::KwVar => Some(ItemForm::Declared(Declared::Variable)),
        Keyword::KwByte
        | Keyword::KwShortint
        | Keyword::KwInt
        | Keyword::KwLongint
        | Keyword::KwInteger
        | Keyword::KwTime
        | Keyword::KwBit
        | Keyword::KwLogic
        | Keyword::KwReg
        | Keyword::KwString
        | Keyword::KwEnum
        | Keyword::KwStruct => Some(ItemForm::Declared(Declared::Data)),
        Keyword::KwParameter | Keyword::KwLocalparam => Some(ItemForm::Declared(
            Declared::Parameters,
        )),
        Keyword::KwTypedef => Some(ItemForm::Declared(Declared::Typedef)),
        Keyword::KwBegin
        | Keyword::KwIf
        | Keyword::KwCase
        | Keyword::KwCasez
        | Keyword::KwCasex
        | Keyword::KwUnique
        | Keyword::KwUnique0
        | Keyword::KwPriority
        | Keyword::KwFor
        | Keyword::KwForeach
        | Keyword::KwWhile
        | Keyword::KwRepeat
        | Keyword::KwDo
        | Keyword::KwReturn
        | Keyword::KwBreak
        | Keyword::KwContinue
        | Keyword::KwVoid => Some(ItemForm::Statement),
        _ => None,
    }
}

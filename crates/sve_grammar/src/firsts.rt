//! What each of the seven symbols begins with.

ghost use Rattle.std.specs.Prelude.{◌≡◌, ◌≤◌, Some};
ghost use Rattle.sve_grammar.specs.Token.{kind_at};
ghost use Rattle.sve_grammar.specs.Rule.{opens};
ghost use Rattle.sve_grammar.specs.Gives.{Enters};

use crate::take::{is_one_of, kind_here};
use crate::{Stop, Symbol};
use sve_token::{Keyword, Kind, Token};

/// Whether the symbol can begin with the token at this place.
pub fn opens_here(tokens: &[Token], at: u32, symbol: Symbol) -> bool
    ensures { result ≡ opens symbol (kind_at tokens.now at) }
{
    // a name is what most begins with, and stands last in the lists
    match kind_here(tokens, at) {
        Some(Kind::Identifier) => begins_with_name(symbol),
        _ => is_first_of(tokens, at, symbol),
    }
}

/// Whether the symbol can begin with a name.
#[tactic(auto, unfolding(crate::specs::Rule::opens, crate::specs::Token::same_kind))]
fn begins_with_name(symbol: Symbol) -> bool
    ensures { result ≡ opens symbol (Some Kind.Identifier) }
{
    match symbol {
        Symbol::Expression | Symbol::Conditional | Symbol::Unary => true,
        Symbol::DataType => false,
        Symbol::LeftSide | Symbol::Statement | Symbol::Item => true,
    }
}

/// Whether the token at this place is among those that the symbol can begin with.
#[tactic(auto, unfolding(crate::specs::Rule::opens))]
fn is_first_of(tokens: &[Token], at: u32, symbol: Symbol) -> bool
    ensures { result ≡ opens symbol (kind_at tokens.now at) }
{
    match symbol {
        Symbol::Expression | Symbol::Conditional | Symbol::Unary => is_one_of(
            tokens,
            at,
            &OPERAND_FIRSTS,
        ),
        Symbol::DataType => is_one_of(tokens, at, &DATA_TYPE_FIRSTS),
        Symbol::LeftSide => is_one_of(tokens, at, &LEFT_SIDE_FIRSTS),
        Symbol::Statement => is_one_of(tokens, at, &STATEMENT_FIRSTS),
        Symbol::Item => is_one_of(tokens, at, &ITEM_FIRSTS),
    }
}

/// The depth of what stands for the symbol, which has to begin here. Else the machine stops here: `deep` where the token fits
/// and the depth is 512.
#[tactic(auto, unfolding(crate::specs::Reading::symbol))]
pub fn enter(tokens: &[Token], at: u32, depth: u32, symbol: Symbol) -> Result<u32, Stop>
    requires { depth ≤ 512 }
    ensures { Enters tokens.now depth symbol at result }
{
    let fits = opens_here(tokens, at, symbol);
    if !fits || depth == 512 {
        return Err(Stop::At {
            index: at,
            deep: fits,
        });
    }
    Ok(depth + 1)
}

const OPERAND_FIRSTS: [Kind; 31] = [
    Kind::Plus,
    Kind::Minus,
    Kind::Bang,
    Kind::Tilde,
    Kind::Ampersand,
    Kind::TildeAmpersand,
    Kind::Pipe,
    Kind::TildePipe,
    Kind::Caret,
    Kind::TildeCaret,
    Kind::CaretTilde,
    Kind::Decimal,
    Kind::Based,
    Kind::Unbased,
    Kind::Text,
    Kind::LeftParen,
    Kind::ApostropheLeftBrace,
    Kind::LeftBrace,
    Kind::Keyword(Keyword::KwSigned),
    Kind::Keyword(Keyword::KwUnsigned),
    Kind::Keyword(Keyword::KwByte),
    Kind::Keyword(Keyword::KwShortint),
    Kind::Keyword(Keyword::KwInt),
    Kind::Keyword(Keyword::KwLongint),
    Kind::Keyword(Keyword::KwInteger),
    Kind::Keyword(Keyword::KwTime),
    Kind::Keyword(Keyword::KwBit),
    Kind::Keyword(Keyword::KwLogic),
    Kind::Keyword(Keyword::KwReg),
    Kind::SystemName,
    Kind::Identifier,
];

const DATA_TYPE_FIRSTS: [Kind; 12] = [
    Kind::Keyword(Keyword::KwByte),
    Kind::Keyword(Keyword::KwShortint),
    Kind::Keyword(Keyword::KwInt),
    Kind::Keyword(Keyword::KwLongint),
    Kind::Keyword(Keyword::KwInteger),
    Kind::Keyword(Keyword::KwTime),
    Kind::Keyword(Keyword::KwBit),
    Kind::Keyword(Keyword::KwLogic),
    Kind::Keyword(Keyword::KwReg),
    Kind::Keyword(Keyword::KwString),
    Kind::Keyword(Keyword::KwEnum),
    Kind::Keyword(Keyword::KwStruct),
];

const LEFT_SIDE_FIRSTS: [Kind; 2] = [Kind::Identifier, Kind::LeftBrace];

const STATEMENT_FIRSTS: [Kind; 23] = [
    Kind::Semicolon,
    Kind::Keyword(Keyword::KwBegin),
    Kind::Keyword(Keyword::KwUnique),
    Kind::Keyword(Keyword::KwUnique0),
    Kind::Keyword(Keyword::KwPriority),
    Kind::Keyword(Keyword::KwIf),
    Kind::Keyword(Keyword::KwCase),
    Kind::Keyword(Keyword::KwCasez),
    Kind::Keyword(Keyword::KwCasex),
    Kind::Keyword(Keyword::KwFor),
    Kind::Keyword(Keyword::KwForeach),
    Kind::Keyword(Keyword::KwWhile),
    Kind::Keyword(Keyword::KwRepeat),
    Kind::Keyword(Keyword::KwDo),
    Kind::Keyword(Keyword::KwReturn),
    Kind::Keyword(Keyword::KwBreak),
    Kind::Keyword(Keyword::KwContinue),
    Kind::SystemName,
    Kind::Keyword(Keyword::KwVoid),
    Kind::PlusPlus,
    Kind::MinusMinus,
    Kind::LeftBrace,
    Kind::Identifier,
];

const ITEM_FIRSTS: [Kind; 44] = [
    Kind::Semicolon,
    Kind::Keyword(Keyword::KwImport),
    Kind::Keyword(Keyword::KwParameter),
    Kind::Keyword(Keyword::KwLocalparam),
    Kind::Keyword(Keyword::KwTypedef),
    Kind::Keyword(Keyword::KwFunction),
    Kind::Keyword(Keyword::KwGenvar),
    Kind::Keyword(Keyword::KwWire),
    Kind::Keyword(Keyword::KwTri),
    Kind::Keyword(Keyword::KwUwire),
    Kind::Keyword(Keyword::KwWand),
    Kind::Keyword(Keyword::KwWor),
    Kind::Keyword(Keyword::KwTriand),
    Kind::Keyword(Keyword::KwTrior),
    Kind::Keyword(Keyword::KwTri0),
    Kind::Keyword(Keyword::KwTri1),
    Kind::Keyword(Keyword::KwSupply0),
    Kind::Keyword(Keyword::KwSupply1),
    Kind::Keyword(Keyword::KwVar),
    Kind::Keyword(Keyword::KwByte),
    Kind::Keyword(Keyword::KwShortint),
    Kind::Keyword(Keyword::KwInt),
    Kind::Keyword(Keyword::KwLongint),
    Kind::Keyword(Keyword::KwInteger),
    Kind::Keyword(Keyword::KwTime),
    Kind::Keyword(Keyword::KwBit),
    Kind::Keyword(Keyword::KwLogic),
    Kind::Keyword(Keyword::KwReg),
    Kind::Keyword(Keyword::KwString),
    Kind::Keyword(Keyword::KwEnum),
    Kind::Keyword(Keyword::KwStruct),
    Kind::Keyword(Keyword::KwAssign),
    Kind::Keyword(Keyword::KwAlways),
    Kind::Keyword(Keyword::KwAlwaysFf),
    Kind::Keyword(Keyword::KwAlwaysComb),
    Kind::Keyword(Keyword::KwAlwaysLatch),
    Kind::Keyword(Keyword::KwInitial),
    Kind::Keyword(Keyword::KwGenerate),
    Kind::Keyword(Keyword::KwFor),
    Kind::Keyword(Keyword::KwIf),
    Kind::Keyword(Keyword::KwCase),
    Kind::Keyword(Keyword::KwModport),
    Kind::SystemName,
    Kind::Identifier,
];

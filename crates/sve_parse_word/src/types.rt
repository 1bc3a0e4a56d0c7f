//! Keywords of declarations.

ghost use Rattle.std.specs.Prelude.{◌≡◌};
ghost use Rattle.sve_grammar.specs.Expressions.{signing, integer_atom_type, integer_vector_type, integer_type};
ghost use Rattle.sve_grammar.specs.Types.{net_type, parameter_keyword, direction};
ghost use Rattle.sve_grammar.specs.Declarations.{lifetime};
ghost use Rattle.sve_grammar.specs.Gives.{Finds};
ghost use Rattle.sve_tree.specs.Words.{sign_tree, lifetime_tree, net_tree, atom_keyword_tree, vector_keyword_tree, integer_keyword_tree, parameter_keyword_tree, dir_tree};

use sve_bytes::Dir;
use sve_grammar::{is_kind, keyword_here};
use sve_token::{Keyword, Kind, Token};
use sve_tree::{AtomKeyword, IntegerKeyword, Lifetime, Net, ParameterKeyword, Sign, VectorKeyword};

/// The sign that is written here (IEEE 1800-2017, 6.8).
#[tactic(auto, unfolding(sve_grammar::specs::Expressions::signing, sve_grammar::specs::Reading::token))]
pub fn sign(tokens: &[Token], at: u32) -> Option<Sign>
    ensures { Finds tokens.now signing sign_tree at result }
{
    if is_kind(tokens, at, Kind::Keyword(Keyword::KwSigned)) {
        Some(Sign::Signed)
    } else if is_kind(tokens, at, Kind::Keyword(Keyword::KwUnsigned)) {
        Some(Sign::Unsigned)
    } else {
        None
    }
}

/// The lifetime that is written here (6.21).
#[tactic(auto, unfolding(sve_grammar::specs::Declarations::lifetime, sve_grammar::specs::Reading::token))]
pub fn lifetime(tokens: &[Token], at: u32) -> Option<Lifetime>
    ensures { Finds tokens.now lifetime lifetime_tree at result }
{
    if is_kind(tokens, at, Kind::Keyword(Keyword::KwAutomatic)) {
        Some(Lifetime::Automatic)
    } else if is_kind(tokens, at, Kind::Keyword(Keyword::KwStatic)) {
        Some(Lifetime::Static)
    } else {
        None
    }
}

/// The net type that is written here (6.6).
#[tactic(auto, unfolding(sve_grammar::specs::Types::net_type, sve_grammar::specs::Reading::token, sve_grammar::specs::Token::same_kind))]
pub fn net(tokens: &[Token], at: u32) -> Option<Net>
    ensures { Finds tokens.now net_type net_tree at result }
{
    match keyword_here(tokens, at) {
        Some(word) => match word {
            Keyword::KwWire => Some(Net::Wire),
            Keyword::KwTri => Some(Net::Tri),
            Keyword::KwUwire => Some(Net::Uwire),
            Keyword::KwWand => Some(Net::Wand),
            Keyword::KwWor => Some(Net::Wor),
            Keyword::KwTriand => Some(Net::Triand),
            Keyword::KwTrior => Some(Net::Trior),
            Keyword::KwTri0 => Some(Net::Tri0),
            Keyword::KwTri1 => Some(Net::Tri1),
            Keyword::KwSupply0 => Some(Net::Supply0),
            Keyword::KwSupply1 => Some(Net::Supply1),
            _ => None,
        },
        None => None,
    }
}

/// The keyword here of an integer type with a width of its own (6.11).
#[tactic(auto, unfolding(sve_grammar::specs::Expressions::integer_atom_type, sve_grammar::specs::Reading::token, sve_grammar::specs::Token::same_kind))]
pub fn atom_keyword(tokens: &[Token], at: u32) -> Option<AtomKeyword>
    ensures { Finds tokens.now integer_atom_type atom_keyword_tree at result }
{
    match keyword_here(tokens, at) {
        Some(word) => match word {
            Keyword::KwByte => Some(AtomKeyword::Byte),
            Keyword::KwShortint => Some(AtomKeyword::Shortint),
            Keyword::KwInt => Some(AtomKeyword::Int),
            Keyword::KwLongint => Some(AtomKeyword::Longint),
            Keyword::KwInteger => Some(AtomKeyword::Integer),
            Keyword::KwTime => Some(AtomKeyword::Time),
            _ => None,
        },
        None => None,
    }
}

/// The keyword here of an integer type of as many bits as its packed dimensions say (6.11).
#[tactic(auto, unfolding(sve_grammar::specs::Expressions::integer_vector_type, sve_grammar::specs::Reading::token, sve_grammar::specs::Token::same_kind))]
pub fn vector_keyword(tokens: &[Token], at: u32) -> Option<VectorKeyword>
    ensures { Finds tokens.now integer_vector_type vector_keyword_tree at result }
{
    match keyword_here(tokens, at) {
        Some(word) => match word {
            Keyword::KwBit => Some(VectorKeyword::Bit),
            Keyword::KwLogic => Some(VectorKeyword::Logic),
            Keyword::KwReg => Some(VectorKeyword::Reg),
            _ => None,
        },
        None => None,
    }
}

/// The keyword here of an integer type (6.11).
#[tactic(auto, unfolding(sve_grammar::specs::Expressions::integer_type))]
pub fn integer_keyword(tokens: &[Token], at: u32) -> Option<IntegerKeyword>
    ensures { Finds tokens.now integer_type integer_keyword_tree at result }
{
    if let Some(keyword) = atom_keyword(tokens, at) {
        return Some(IntegerKeyword::Atom(keyword));
    }
    match vector_keyword(tokens, at) {
        Some(keyword) => Some(IntegerKeyword::Vector(keyword)),
        None => None,
    }
}

/// Whether a parameter or a local one is declared here (6.20).
#[tactic(auto, unfolding(sve_grammar::specs::Types::parameter_keyword, sve_grammar::specs::Reading::token))]
pub fn parameter_keyword(tokens: &[Token], at: u32) -> Option<ParameterKeyword>
    ensures { Finds tokens.now parameter_keyword parameter_keyword_tree at result }
{
    if is_kind(tokens, at, Kind::Keyword(Keyword::KwParameter)) {
        Some(ParameterKeyword::Parameter)
    } else if is_kind(tokens, at, Kind::Keyword(Keyword::KwLocalparam)) {
        Some(ParameterKeyword::Localparam)
    } else {
        None
    }
}

/// The direction that is written here (23.2.2).
#[tactic(auto, unfolding(sve_grammar::specs::Types::direction, sve_grammar::specs::Reading::token))]
pub fn direction(tokens: &[Token], at: u32) -> Option<Dir>
    ensures { Finds tokens.now direction dir_tree at result }
{
    if is_kind(tokens, at, Kind::Keyword(Keyword::KwInput)) {
        Some(Dir::Input)
    } else if is_kind(tokens, at, Kind::Keyword(Keyword::KwOutput)) {
        Some(Dir::Output)
    } else if is_kind(tokens, at, Kind::Keyword(Keyword::KwInout)) {
        Some(Dir::Inout)
    } else {
        None
    }
}

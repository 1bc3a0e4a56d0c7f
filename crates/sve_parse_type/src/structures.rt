//! Types that begin with a keyword, structures among them, and types as members have them (IEEE 1800-2017, 7.2.1 and A.2.2.1).

ghost use Rattle.std.specs.Prelude.{◌≡◌, ◌<◌, ◌≤◌, ◌^◌, false, length, IfOk};
ghost use Rattle.sve_grammar.specs.Token.{kind_at, has_kind};
ghost use Rattle.sve_grammar.specs.Rule.{sym, starts};
ghost use Rattle.sve_grammar.specs.Reading.{at_depth};
ghost use Rattle.sve_grammar.specs.Gives.{Gives};
ghost use Rattle.sve_grammar.specs.Types.{data_type, type_reference, member, members, structure};
ghost use Rattle.sve_tree.specs.Shape.{first_tree, others_tree};
ghost use Rattle.sve_tree.specs.Types.{data_type_tree, structure_tree, members_tree, type_ref_tree};

use crate::enumerations::enumeration;
use crate::integers::{atom_type, vector_type};
use crate::names::named_type;
use std::alloc::Global;
use sve_grammar::{Stop, Symbol, accept, enter, expect, is_kind, opens_here};
use sve_parse_expr::dimensions;
use sve_parse_word::{atom_keyword, more_names, optional_sign, vector_keyword};
use sve_token::{Keyword, Kind, Token};
use sve_tree::{DataType, Members, Structure, TypeRef};

/// A type that begins with a keyword (IEEE 1800-2017, A.2.2.1), and the place behind it. Structures nest, so what other types
/// need of the stack is taken by a function of its own.
#[cycle(data_type)]
#[tactic(auto, using(crate::proofs::DataTypes::structure_way, sve_tree::proofs::TypeTrees::struct_data_type), unfolding(sve_grammar::specs::Grammar::rule))]
pub fn data_type(
    alloc: Global,
    tokens: &[Token],
    from: u32,
    depth: u32,
) -> Result<(DataType, u32), Stop>
    requires few { length tokens.now < 2 ^ 32 }
    requires from { from ≤ length tokens.now }
    requires depth { depth ≤ 512 }
    ensures tree { Gives (λ x. (data_type_tree x.0, x.1)) result (at_depth tokens.now depth (sym Symbol.DataType) from) }
    ensures end { IfOk result (λ x. (from < x.1) × (x.1 ≤ length tokens.now)) }
{
    let depth = enter(tokens, from, depth, Symbol::DataType)?;
    if is_kind(tokens, from, Kind::Keyword(Keyword::KwStruct)) {
        let (structure, end) = structure(alloc, tokens, from, depth)?;
        return Ok((DataType::Struct { structure }, end));
    }
    plain_type(alloc, tokens, from, depth)
}

/// A type that begins with a keyword and is no structure, and the place behind it.
#[inline(never)]
#[tactic(auto, using(crate::proofs::DataTypes::plain_atom, crate::proofs::DataTypes::plain_vector, crate::proofs::DataTypes::plain_text, crate::proofs::DataTypes::plain_enum, crate::proofs::DataTypes::plain_stops, sve_tree::proofs::TypeTrees::atom_data_type, sve_tree::proofs::TypeTrees::vector_data_type, sve_tree::proofs::TypeTrees::text_data_type, sve_tree::proofs::TypeTrees::enum_data_type))]
fn plain_type(
    alloc: Global,
    tokens: &[Token],
    from: u32,
    depth: u32,
) -> Result<(DataType, u32), Stop>
    requires few { length tokens.now < 2 ^ 32 }
    requires from { from ≤ length tokens.now }
    requires depth { depth ≤ 512 }
    requires plain { has_kind (kind_at tokens.now from) (Kind.Keyword Keyword.KwStruct) ≡ false }
    ensures tree { Gives (λ x. (data_type_tree x.0, x.1)) result (at_depth tokens.now depth data_type from) }
    ensures end { IfOk result (λ x. (from < x.1) × (x.1 ≤ length tokens.now)) }
{
    if let Some(kind) = atom_keyword(tokens, from) {
        let (atom, end) = atom_type(tokens, from, kind);
        return Ok((DataType::Atom { atom }, end));
    }
    if let Some(kind) = vector_keyword(tokens, from) {
        let (vector, end) = vector_type(alloc, tokens, from, kind, depth)?;
        return Ok((DataType::Vector { vector }, end));
    }
    if let Some(end) = accept(tokens, from, Kind::Keyword(Keyword::KwString)) {
        return Ok((DataType::Text { keyword: from }, end));
    }
    if is_kind(tokens, from, Kind::Keyword(Keyword::KwEnum)) {
        let (enumeration, end) = enumeration(alloc, tokens, from, depth)?;
        let enumeration = Box::new(alloc, enumeration)?;
        return Ok((DataType::Enum { enumeration }, end));
    }
    Err(Stop::At {
        index: from,
        deep: false,
    })
}

/// A packed structure, and the place behind it.
#[cycle(data_type)]
#[tactic(auto, using(sve_tree::proofs::TypeTrees::structure_made), unfolding(sve_grammar::specs::Types::structure))]
fn structure(
    alloc: Global,
    tokens: &[Token],
    from: u32,
    depth: u32,
) -> Result<(Box<Structure>, u32), Stop>
    requires few { length tokens.now < 2 ^ 32 }
    requires from { from ≤ length tokens.now }
    requires depth { depth ≤ 512 }
    ensures tree { Gives (λ x. (structure_tree x.0.value, x.1)) result (at_depth tokens.now depth structure from) }
    ensures end { IfOk result (λ x. (from < x.1) × (x.1 ≤ length tokens.now)) }
{
    let packed = expect(tokens, from, Kind::Keyword(Keyword::KwStruct))?;
    let at = expect(tokens, packed, Kind::Keyword(Keyword::KwPacked))?;
    let (sign, opening) = optional_sign(tokens, at);
    let at = expect(tokens, opening, Kind::LeftBrace)?;
    let (first, at) = member(alloc, tokens, at, depth)?;
    let (members, closing) = more_members(alloc, tokens, at, depth, first)?;
    let at = expect(tokens, closing, Kind::RightBrace)?;
    let (dimensions, end) = dimensions(alloc, tokens, at, depth)?;
    let structure = Structure {
        keyword: from,
        packed,
        sign,
        opening,
        members,
        closing,
        dimensions,
    };
    Ok((Box::new(alloc, structure)?, end))
}

/// The further members of a structure behind the first, and the place behind them.
#[cycle(data_type)]
fn more_members(
    alloc: Global,
    tokens: &[Token],
    from: u32,
    depth: u32,
    first: Members,
) -> Result<(Vec<Members>, u32), Stop>
    requires few { length tokens.now < 2 ^ 32 }
    requires from { from ≤ length tokens.now }
    requires depth { depth ≤ 512 }
    ensures tree { Gives (λ x. (others_tree members_tree x.0.items, x.1)) result (at_depth tokens.now depth members from) }
    ensures first { IfOk result (λ x. first_tree members_tree x.0.items ≡ members_tree first) }
    ensures end { IfOk result (λ x. (from ≤ x.1) × (x.1 ≤ length tokens.now)) }
{
    let mut items = Vec::new(alloc);
    items.push(first)?;
    let mut at = from;
    'turns: while member_here(tokens, at) {
        let (item, end) = member(alloc, tokens, at, depth)?;
        items.push(item)?;
        at = end;
    }
    Ok((items, at))
}

/// Members of one type, and the place behind them.
#[cycle(data_type)]
#[tactic(auto, unfolding(sve_grammar::specs::Types::member))]
fn member(alloc: Global, tokens: &[Token], from: u32, depth: u32) -> Result<(Members, u32), Stop>
    requires few { length tokens.now < 2 ^ 32 }
    requires from { from ≤ length tokens.now }
    requires depth { depth ≤ 512 }
    ensures tree { Gives (λ x. (members_tree x.0, x.1)) result (at_depth tokens.now depth member from) }
    ensures end { IfOk result (λ x. (from < x.1) × (x.1 ≤ length tokens.now)) }
{
    let (data_type, first) = type_reference(alloc, tokens, from, depth)?;
    let at = expect(tokens, first, Kind::Identifier)?;
    let (names, semicolon) = more_names(alloc, tokens, at, depth, first)?;
    let end = expect(tokens, semicolon, Kind::Semicolon)?;
    Ok((
        Members {
            data_type,
            names,
            semicolon,
        },
        end,
    ))
}

/// A type by itself, one that begins with a keyword or one by its name (A.2.2.1), and the place behind it.
#[cycle(data_type)]
#[tactic(auto, using(crate::proofs::DataTypes::written_way, crate::proofs::DataTypes::named_way, sve_tree::proofs::TypeTrees::written_type_ref, sve_tree::proofs::TypeTrees::named_type_ref))]
pub fn type_reference(
    alloc: Global,
    tokens: &[Token],
    from: u32,
    depth: u32,
) -> Result<(TypeRef, u32), Stop>
    requires few { length tokens.now < 2 ^ 32 }
    requires from { from ≤ length tokens.now }
    requires depth { depth ≤ 512 }
    ensures tree { Gives (λ x. (type_ref_tree x.0, x.1)) result (at_depth tokens.now depth type_reference from) }
    ensures end { IfOk result (λ x. (from < x.1) × (x.1 ≤ length tokens.now)) }
{
    if opens_here(tokens, from, Symbol::DataType) {
        let (data_type, end) = data_type(alloc, tokens, from, depth)?;
        return Ok((TypeRef::Written { data_type }, end));
    }
    let (named, end) = named_type(alloc, tokens, from, depth)?;
    Ok((TypeRef::Named { named }, end))
}

#[tactic(auto, using(sve_grammar::proofs::StartsOfTypes::member_starts))]
fn member_here(tokens: &[Token], at: u32) -> bool
    ensures { result ≡ starts member (kind_at tokens.now at) }
{
    opens_here(tokens, at, Symbol::DataType) || is_kind(tokens, at, Kind::Identifier)
}

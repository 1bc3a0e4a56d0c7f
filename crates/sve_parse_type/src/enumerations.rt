//! Enumerations (IEEE 1800-2017, 6.19 and A.2.2.1).

ghost use Rattle.std.specs.Prelude.{◌≡◌, ◌<◌, ◌≤◌, ◌^◌, length, IfOk};
ghost use Rattle.sve_grammar.specs.Rule.{opt};
ghost use Rattle.sve_grammar.specs.Reading.{leaf, at_depth};
ghost use Rattle.sve_grammar.specs.Gives.{Gives};
ghost use Rattle.sve_grammar.specs.Types.{enum_base, enum_name, more_enum_names, enumeration};
ghost use Rattle.sve_tree.specs.Shape.{optional_tree, row_first, row_rest};
ghost use Rattle.sve_tree.specs.Types.{enum_base_tree, enum_name_tree, enumeration_tree};

use crate::integers::{atom_type, vector_type};
use crate::names::{named_type, optional_initializer};
use std::alloc::Global;
use sve_grammar::{Stop, accept, expect, is_kind};
use sve_parse_expr::dimensions;
use sve_parse_word::{atom_keyword, vector_keyword};
use sve_token::{Keyword, Kind, Token};
use sve_tree::{EnumBase, EnumName, Enumeration, Row};

/// An enumeration, and the place behind it.
#[tactic(auto, unfolding(sve_grammar::specs::Types::enumeration))]
pub fn enumeration(
    alloc: Global,
    tokens: &[Token],
    from: u32,
    depth: u32,
) -> Result<(Enumeration, u32), Stop>
    requires few { length tokens.now < 2 ^ 32 }
    requires from { from ≤ length tokens.now }
    requires depth { depth ≤ 512 }
    ensures tree { Gives (λ x. (enumeration_tree x.0, x.1)) result (at_depth tokens.now depth enumeration from) }
    ensures end { IfOk result (λ x. (from < x.1) × (x.1 ≤ length tokens.now)) }
{
    let at = expect(tokens, from, Kind::Keyword(Keyword::KwEnum))?;
    let (base, opening) = optional_base(alloc, tokens, at, depth)?;
    let at = expect(tokens, opening, Kind::LeftBrace)?;
    let (first, at) = enum_name(alloc, tokens, at, depth)?;
    let (names, closing) = more_enum_names(alloc, tokens, at, depth, first)?;
    let at = expect(tokens, closing, Kind::RightBrace)?;
    let (dimensions, end) = dimensions(alloc, tokens, at, depth)?;
    Ok((
        Enumeration {
            keyword: from,
            base,
            opening,
            names,
            closing,
            dimensions,
        },
        end,
    ))
}

/// The base type where one stands here, and the place behind it.
#[tactic(auto, using(crate::proofs::DataTypes::base_atom, crate::proofs::DataTypes::base_vector, crate::proofs::DataTypes::base_named, crate::proofs::DataTypes::base_none))]
fn optional_base(
    alloc: Global,
    tokens: &[Token],
    from: u32,
    depth: u32,
) -> Result<(Option<EnumBase>, u32), Stop>
    requires few { length tokens.now < 2 ^ 32 }
    requires from { from ≤ length tokens.now }
    requires depth { depth ≤ 512 }
    ensures tree { Gives (λ x. (optional_tree enum_base_tree x.0, x.1)) result (at_depth tokens.now depth (opt enum_base) from) }
    ensures end { IfOk result (λ x. (from ≤ x.1) × (x.1 ≤ length tokens.now)) }
{
    if let Some(kind) = atom_keyword(tokens, from) {
        let (atom, end) = atom_type(tokens, from, kind);
        return Ok((Some(EnumBase::Atom { atom }), end));
    }
    if let Some(kind) = vector_keyword(tokens, from) {
        let (vector, end) = vector_type(alloc, tokens, from, kind, depth)?;
        return Ok((Some(EnumBase::Vector { vector }), end));
    }
    if is_kind(tokens, from, Kind::Identifier) {
        let (named, end) = named_type(alloc, tokens, from, depth)?;
        return Ok((Some(EnumBase::Named { named }), end));
    }
    Ok((None, from))
}

#[tactic(auto, unfolding(sve_grammar::specs::Types::enum_name))]
fn enum_name(
    alloc: Global,
    tokens: &[Token],
    from: u32,
    depth: u32,
) -> Result<(EnumName, u32), Stop>
    requires few { length tokens.now < 2 ^ 32 }
    requires from { from ≤ length tokens.now }
    requires depth { depth ≤ 512 }
    ensures tree { Gives (λ x. (enum_name_tree x.0, x.1)) result (at_depth tokens.now depth enum_name from) }
    ensures end { IfOk result (λ x. (from < x.1) × (x.1 ≤ length tokens.now)) }
{
    let at = expect(tokens, from, Kind::Identifier)?;
    let (value, end) = optional_initializer(alloc, tokens, at, depth)?;
    Ok((EnumName { name: from, value }, end))
}

/// The further names of an enumeration behind the first, and the place behind them.
fn more_enum_names(
    alloc: Global,
    tokens: &[Token],
    from: u32,
    depth: u32,
    first: EnumName,
) -> Result<(Row<EnumName>, u32), Stop>
    requires few { length tokens.now < 2 ^ 32 }
    requires from { from ≤ length tokens.now }
    requires depth { depth ≤ 512 }
    ensures tree { Gives (λ x. (row_rest enum_name_tree leaf x.0, x.1)) result (at_depth tokens.now depth more_enum_names from) }
    ensures first { IfOk result (λ x. row_first enum_name_tree x.0 ≡ enum_name_tree first) }
    ensures end { IfOk result (λ x. (from ≤ x.1) × (x.1 ≤ length tokens.now)) }
{
    let mut items = Vec::new(alloc);
    items.push(first)?;
    let mut separators = Vec::new(alloc);
    let mut at = from;
    'turns: while let Some(next) = accept(tokens, at, Kind::Comma) {
        let (item, end) = enum_name(alloc, tokens, next, depth)?;
        separators.push(at)?;
        items.push(item)?;
        at = end;
    }
    Ok((Row { items, separators }, at))
}

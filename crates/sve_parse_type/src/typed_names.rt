//! Declared names with their types, which may be left out (IEEE 1800-2017, 6.10, 6.20.2 and A.2.2.1).

ghost use Rattle.std.specs.Prelude.{◌≡◌, ◌<◌, ◌≤◌, ◌+◌, ◌^◌, length, Ok, IfOk};
ghost use Rattle.sve_grammar.specs.Rule.{tok, sym, ◌∙◌};
ghost use Rattle.sve_grammar.specs.Reading.{leaf, at_depth, both, with_left, with_right};
ghost use Rattle.sve_grammar.specs.Gives.{Gives, Finds};
ghost use Rattle.sve_grammar.specs.Expressions.{signing, dimension, dimensions};
ghost use Rattle.sve_grammar.specs.Types.{declared_name, declared_type, declared_type_end};
ghost use Rattle.sve_tree.specs.Shape.{others_tree, BeginsWith};
ghost use Rattle.sve_tree.specs.Words.{sign_tree};
ghost use Rattle.sve_tree.specs.Expressions.{dimension_tree};
ghost use Rattle.sve_tree.specs.Types.{typed_name_tree};

use crate::names::declared_name;
use crate::structures::data_type;
use std::alloc::Global;
use sve_grammar::{Stop, Symbol, expect, is_kind, opens_here};
use sve_parse_expr::{dimension, dimensions};
use sve_parse_word::sign;
use sve_token::{Kind, Token};
use sve_tree::{
    Declarator, DeclaredType, Dimension, Mark, NamedType, PackageScope, ScopedName, Sign, TypeRef,
    TypedName,
};

/// A declared name with its type, as far as one is written (A.2.2.1), and the place behind it. Where an identifier with its
/// dimensions has no name behind it, it is the declared name and no type.
#[tactic(auto, using(sve_grammar::proofs::StartsOfExpressions::signing_full, sve_grammar::proofs::StartsOfExpressions::dimension_starts, sve_grammar::proofs::StartsOfExpressions::dimension_full), unfolding(sve_grammar::specs::Types::declared_type))]
pub fn type_name(
    alloc: Global,
    tokens: &[Token],
    from: u32,
    depth: u32,
) -> Result<(TypedName, u32), Stop>
    requires few { length tokens.now < 2 ^ 32 }
    requires from { from ≤ length tokens.now }
    requires depth { depth ≤ 512 }
    ensures tree { Gives (λ x. (typed_name_tree x.0, x.1)) result (at_depth tokens.now depth declared_type from) }
    ensures end { IfOk result (λ x. (from < x.1) × (x.1 ≤ length tokens.now)) }
{
    if opens_here(tokens, from, Symbol::DataType) {
        return written_name(alloc, tokens, from, depth);
    }
    if let Some(kind) = sign(tokens, from) {
        return signed_name(alloc, tokens, from, kind, depth);
    }
    if is_kind(tokens, from, Kind::LeftBracket) {
        return ranged_name(alloc, tokens, from, depth);
    }
    if is_kind(tokens, from, Kind::Identifier) {
        return type_or_name(alloc, tokens, from, depth);
    }
    Err(Stop::At {
        index: from,
        deep: false,
    })
}

/// A declared name behind a type that begins with a keyword, and the place behind it.
fn written_name(
    alloc: Global,
    tokens: &[Token],
    from: u32,
    depth: u32,
) -> Result<(TypedName, u32), Stop>
    requires few { length tokens.now < 2 ^ 32 }
    requires from { from ≤ length tokens.now }
    requires depth { depth ≤ 512 }
    ensures tree { Gives (λ x. (typed_name_tree x.0, x.1)) result (with_left (at_depth tokens.now depth (sym Symbol.DataType ∙ declared_name) from)) }
    ensures end { IfOk result (λ x. (from < x.1) × (x.1 ≤ length tokens.now)) }
{
    let (data_type, at) = data_type(alloc, tokens, from, depth)?;
    let (declarator, end) = declared_name(alloc, tokens, at, depth)?;
    let data_type = DeclaredType::Explicit {
        data_type: TypeRef::Written { data_type },
    };
    Ok((
        TypedName {
            data_type,
            declarator,
        },
        end,
    ))
}

/// A declared name behind a sign, which stands here, and packed dimensions; and the place behind it.
fn signed_name(
    alloc: Global,
    tokens: &[Token],
    from: u32,
    kind: Sign,
    depth: u32,
) -> Result<(TypedName, u32), Stop>
    requires few { length tokens.now < 2 ^ 32 }
    requires keyword { Finds tokens.now signing sign_tree from (Some kind) }
    requires depth { depth ≤ 512 }
    ensures tree { Gives (λ x. (typed_name_tree x.0, x.1)) result (with_right (with_left (at_depth tokens.now depth (signing ∙ dimensions ∙ declared_name) from))) }
    ensures end { IfOk result (λ x. (from < x.1) × (x.1 ≤ length tokens.now)) }
{
    let (dimensions, at) = dimensions(alloc, tokens, from + 1, depth)?;
    let (declarator, end) = declared_name(alloc, tokens, at, depth)?;
    let sign = Some(Mark { kind, token: from });
    Ok((
        TypedName {
            data_type: DeclaredType::Implicit { sign, dimensions },
            declarator,
        },
        end,
    ))
}

/// A declared name behind packed dimensions, and the place behind it.
#[tactic(auto, using(sve_tree::proofs::TypeTrees::ranged_name))]
fn ranged_name(
    alloc: Global,
    tokens: &[Token],
    from: u32,
    depth: u32,
) -> Result<(TypedName, u32), Stop>
    requires few { length tokens.now < 2 ^ 32 }
    requires from { from ≤ length tokens.now }
    requires depth { depth ≤ 512 }
    ensures tree { Gives (λ x. (typed_name_tree x.0, x.1)) result (with_right (with_right (with_left (at_depth tokens.now depth (dimension ∙ dimensions ∙ declared_name) from)))) }
    ensures end { IfOk result (λ x. (from < x.1) × (x.1 ≤ length tokens.now)) }
{
    let (first, at) = dimension(alloc, tokens, from, depth)?;
    let (dimensions, at) = more_dimensions(alloc, tokens, at, depth, first)?;
    let (declarator, end) = declared_name(alloc, tokens, at, depth)?;
    let data_type = DeclaredType::Implicit {
        sign: None,
        dimensions,
    };
    Ok((
        TypedName {
            data_type,
            declarator,
        },
        end,
    ))
}

/// The further dimensions behind the first, and the place behind them.
fn more_dimensions(
    alloc: Global,
    tokens: &[Token],
    from: u32,
    depth: u32,
    first: Dimension,
) -> Result<(Vec<Dimension>, u32), Stop>
    requires few { length tokens.now < 2 ^ 32 }
    requires from { from ≤ length tokens.now }
    requires depth { depth ≤ 512 }
    ensures tree { Gives (λ x. (others_tree dimension_tree x.0.items, x.1)) result (at_depth tokens.now depth dimensions from) }
    ensures first { IfOk result (λ x. BeginsWith first x.0.items) }
    ensures end { IfOk result (λ x. (from ≤ x.1) × (x.1 ≤ length tokens.now)) }
{
    let mut items = Vec::new(alloc);
    items.push(first)?;
    let mut at = from;
    'turns: while is_kind(tokens, at, Kind::LeftBracket) {
        let (item, end) = dimension(alloc, tokens, at, depth)?;
        items.push(item)?;
        at = end;
    }
    Ok((items, at))
}

/// What begins with an identifier: the name of a type, of a package or of what is declared.
#[tactic(auto, using(crate::proofs::DeclaredType::scoped_end, crate::proofs::DeclaredType::plain_end, sve_tree::proofs::TypeTrees::bare_name, sve_grammar::proofs::StartsOfTypes::declared_name_starts, sve_grammar::proofs::StartsOfTypes::declared_name_full))]
fn type_or_name(
    alloc: Global,
    tokens: &[Token],
    from: u32,
    depth: u32,
) -> Result<(TypedName, u32), Stop>
    requires few { length tokens.now < 2 ^ 32 }
    requires from { from ≤ length tokens.now }
    requires depth { depth ≤ 512 }
    ensures tree { Gives (λ x. (typed_name_tree x.0, x.1)) result (with_right (with_right (with_right (at_depth tokens.now depth (tok Kind.Identifier ∙ declared_type_end) from)))) }
    ensures end { IfOk result (λ x. (from < x.1) × (x.1 ≤ length tokens.now)) }
{
    let at = expect(tokens, from, Kind::Identifier)?;
    if is_kind(tokens, at, Kind::ColonColon) {
        return behind_package(alloc, tokens, at, depth, from);
    }
    let (dimensions, at) = dimensions(alloc, tokens, at, depth)?;
    if is_kind(tokens, at, Kind::Identifier) {
        let (declarator, end) = declared_name(alloc, tokens, at, depth)?;
        let named = NamedType {
            name: ScopedName {
                scope: None,
                name: from,
            },
            dimensions,
        };
        let data_type = DeclaredType::Explicit {
            data_type: TypeRef::Named { named },
        };
        return Ok((
            TypedName {
                data_type,
                declarator,
            },
            end,
        ));
    }
    let data_type = DeclaredType::Implicit {
        sign: None,
        dimensions: Vec::new(alloc),
    };
    let declarator = Declarator {
        name: from,
        dimensions,
    };
    Ok((
        TypedName {
            data_type,
            declarator,
        },
        at,
    ))
}

/// A declared name with its type, from behind the name of the type's package on, and the place behind it.
fn behind_package(
    alloc: Global,
    tokens: &[Token],
    from: u32,
    depth: u32,
    scope: u32,
) -> Result<(TypedName, u32), Stop>
    requires few { length tokens.now < 2 ^ 32 }
    requires from { from ≤ length tokens.now }
    requires depth { depth ≤ 512 }
    ensures tree { Gives (λ x. (typed_name_tree x.0, x.1)) result (with_right (with_right (with_right (both (Ok (leaf scope, from)) (λ i. with_left (at_depth tokens.now depth (tok Kind.ColonColon ∙ tok Kind.Identifier ∙ dimensions ∙ declared_name) i)))))) }
    ensures end { IfOk result (λ x. (from < x.1) × (x.1 ≤ length tokens.now)) }
{
    let name = expect(tokens, from, Kind::ColonColon)?;
    let at = expect(tokens, name, Kind::Identifier)?;
    let (dimensions, at) = dimensions(alloc, tokens, at, depth)?;
    let (declarator, end) = declared_name(alloc, tokens, at, depth)?;
    let scope = Some(PackageScope {
        name: scope,
        colons: from,
    });
    let named = NamedType {
        name: ScopedName { scope, name },
        dimensions,
    };
    let data_type = DeclaredType::Explicit {
        data_type: TypeRef::Named { named },
    };
    Ok((
        TypedName {
            data_type,
            declarator,
        },
        end,
    ))
}

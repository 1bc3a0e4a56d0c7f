//! Names: of a type, and of what is declared, with dimensions and values.

ghost use Rattle.std.specs.Prelude.{◌≡◌, ◌<◌, ◌≤◌, ◌^◌, length, IfOk};
ghost use Rattle.sve_grammar.specs.Rule.{◌∙◌, opt};
ghost use Rattle.sve_grammar.specs.Reading.{Tree, leaf, at_depth};
ghost use Rattle.sve_grammar.specs.Gives.{Gives};
ghost use Rattle.sve_grammar.specs.Types.{named_type, declared_name, initializer, more_declarators, declaration_end};
ghost use Rattle.sve_tree.specs.Shape.{optional_tree, row_rest, IsRow};
ghost use Rattle.sve_tree.specs.Types.{named_type_tree, declarator_tree, initializer_tree};
ghost use Rattle.sve_tree.specs.Declarations.{initialized_declarator_tree, first_declarator, declaration_end_tree};

use std::alloc::Global;
use sve_grammar::{Stop, accept, expect, is_kind};
use sve_parse_expr::{boxed_expr, dimensions};
use sve_parse_word::scoped_name;
use sve_token::{Kind, Token};
use sve_tree::{Declarator, InitializedDeclarator, Initializer, NamedType, Row};

/// A type by its name, perhaps behind the name of a package, with packed dimensions (IEEE 1800-2017, A.2.2.1), and the place
/// behind it.
#[tactic(auto, unfolding(sve_grammar::specs::Types::named_type))]
pub fn named_type(
    alloc: Global,
    tokens: &[Token],
    from: u32,
    depth: u32,
) -> Result<(NamedType, u32), Stop>
    requires few { length tokens.now < 2 ^ 32 }
    requires from { from ≤ length tokens.now }
    requires depth { depth ≤ 512 }
    ensures tree { Gives (λ x. (named_type_tree x.0, x.1)) result (at_depth tokens.now depth named_type from) }
    ensures end { IfOk result (λ x. (from < x.1) × (x.1 ≤ length tokens.now)) }
{
    let (name, at) = scoped_name(tokens, from, depth)?;
    let (dimensions, end) = dimensions(alloc, tokens, at, depth)?;
    Ok((NamedType { name, dimensions }, end))
}

/// A name that is declared, with its unpacked dimensions (A.2.5), and the place behind it.
#[tactic(auto, unfolding(sve_grammar::specs::Types::declared_name))]
pub fn declared_name(
    alloc: Global,
    tokens: &[Token],
    from: u32,
    depth: u32,
) -> Result<(Declarator, u32), Stop>
    requires few { length tokens.now < 2 ^ 32 }
    requires from { from ≤ length tokens.now }
    requires depth { depth ≤ 512 }
    ensures tree { Gives (λ x. (declarator_tree x.0, x.1)) result (at_depth tokens.now depth declared_name from) }
    ensures end { IfOk result (λ x. (from < x.1) × (x.1 ≤ length tokens.now)) }
{
    let at = expect(tokens, from, Kind::Identifier)?;
    let (dimensions, end) = dimensions(alloc, tokens, at, depth)?;
    Ok((
        Declarator {
            name: from,
            dimensions,
        },
        end,
    ))
}

/// `=` and a value, and the place behind it.
#[tactic(auto, unfolding(sve_grammar::specs::Types::initializer))]
pub fn initializer(
    alloc: Global,
    tokens: &[Token],
    from: u32,
    depth: u32,
) -> Result<(Initializer, u32), Stop>
    requires few { length tokens.now < 2 ^ 32 }
    requires from { from ≤ length tokens.now }
    requires depth { depth ≤ 512 }
    ensures tree { Gives (λ x. (initializer_tree x.0, x.1)) result (at_depth tokens.now depth initializer from) }
    ensures end { IfOk result (λ x. (from < x.1) × (x.1 ≤ length tokens.now)) }
{
    let at = expect(tokens, from, Kind::Assign)?;
    let (value, end) = boxed_expr(alloc, tokens, at, depth)?;
    Ok((
        Initializer {
            equals: from,
            value,
        },
        end,
    ))
}

/// `=` and a value where they stand here, and the place behind them.
#[tactic(auto, using(sve_grammar::proofs::StartsOfTypes::initializer_starts, sve_grammar::proofs::StartsOfTypes::initializer_full))]
pub fn optional_initializer(
    alloc: Global,
    tokens: &[Token],
    from: u32,
    depth: u32,
) -> Result<(Option<Initializer>, u32), Stop>
    requires few { length tokens.now < 2 ^ 32 }
    requires from { from ≤ length tokens.now }
    requires depth { depth ≤ 512 }
    ensures tree { Gives (λ x. (optional_tree initializer_tree x.0, x.1)) result (at_depth tokens.now depth (opt initializer) from) }
    ensures end { IfOk result (λ x. (from ≤ x.1) × (x.1 ≤ length tokens.now)) }
{
    if is_kind(tokens, from, Kind::Assign) {
        let (value, end) = initializer(alloc, tokens, from, depth)?;
        return Ok((Some(value), end));
    }
    Ok((None, from))
}

/// The declared names of one declaration with their values, where they have any (IEEE 1800-2017, A.2.3): what stands behind the
/// first name, which was read before; and the place behind it all. No token need be there.
#[tactic(auto, unfolding(sve_grammar::specs::Types::declaration_end))]
pub fn declaration_end(
    alloc: Global,
    tokens: &[Token],
    from: u32,
    depth: u32,
    first: Declarator,
) -> Result<(Row<InitializedDeclarator>, u32), Stop>
    requires few { length tokens.now < 2 ^ 32 }
    requires from { from ≤ length tokens.now }
    requires depth { depth ≤ 512 }
    ensures tree { Gives (λ x. (declaration_end_tree x.0, x.1)) result (at_depth tokens.now depth declaration_end from) }
    ensures first { IfOk result (λ x. (f : Declarator → Tree) → first_declarator f x.0 ≡ f first) }
    ensures end { IfOk result (λ x. (from ≤ x.1) × (x.1 ≤ length tokens.now)) }
{
    let (value, at) = optional_initializer(alloc, tokens, from, depth)?;
    let first = InitializedDeclarator {
        declarator: first,
        value,
    };
    more_declarators(alloc, tokens, at, depth, first)
}

/// The further names of a declaration behind the first, and the place behind them.
fn more_declarators(
    alloc: Global,
    tokens: &[Token],
    from: u32,
    depth: u32,
    first: InitializedDeclarator,
) -> Result<(Row<InitializedDeclarator>, u32), Stop>
    requires few { length tokens.now < 2 ^ 32 }
    requires from { from ≤ length tokens.now }
    requires depth { depth ≤ 512 }
    ensures tree { Gives (λ x. (row_rest initialized_declarator_tree leaf x.0, x.1)) result (at_depth tokens.now depth more_declarators from) }
    ensures first { IfOk result (λ x. IsRow first x.0.items.items x.0.separators.items) }
    ensures end { IfOk result (λ x. (from ≤ x.1) × (x.1 ≤ length tokens.now)) }
{
    let mut items = Vec::new(alloc);
    items.push(first)?;
    let mut separators = Vec::new(alloc);
    let mut at = from;
    'turns: while let Some(next) = accept(tokens, at, Kind::Comma) {
        let (item, end) = initialized_declarator(alloc, tokens, next, depth)?;
        separators.push(at)?;
        items.push(item)?;
        at = end;
    }
    Ok((Row { items, separators }, at))
}

/// A declared name and its value, where it has one, and the place behind them.
fn initialized_declarator(
    alloc: Global,
    tokens: &[Token],
    from: u32,
    depth: u32,
) -> Result<(InitializedDeclarator, u32), Stop>
    requires few { length tokens.now < 2 ^ 32 }
    requires from { from ≤ length tokens.now }
    requires depth { depth ≤ 512 }
    ensures tree { Gives (λ x. (initialized_declarator_tree x.0, x.1)) result (at_depth tokens.now depth (declared_name ∙ opt initializer) from) }
    ensures end { IfOk result (λ x. (from < x.1) × (x.1 ≤ length tokens.now)) }
{
    let (declarator, at) = declared_name(alloc, tokens, from, depth)?;
    let (value, end) = optional_initializer(alloc, tokens, at, depth)?;
    Ok((InitializedDeclarator { declarator, value }, end))
}

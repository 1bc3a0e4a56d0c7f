//! Declarations of types (IEEE 1800-2017, 6.18 and A.2.1.3).

ghost use Rattle.std.specs.Prelude.{◌≡◌, ◌<◌, ◌≤◌, ◌^◌, length, IfOk};
ghost use Rattle.sve_grammar.specs.Reading.{at_depth};
ghost use Rattle.sve_grammar.specs.Gives.{Gives};
ghost use Rattle.sve_grammar.specs.Declarations.{type_declaration};
ghost use Rattle.sve_tree.specs.Declarations.{typedef_tree, decl_tree};

use std::alloc::Global;
use sve_grammar::{Stop, expect};
use sve_parse_type::{declared_name, type_reference};
use sve_token::{Keyword, Kind, Token};
use sve_tree::{Decl, Typedef};

/// A declaration of a type, and the place behind it. The tree is `Typedef`.
pub fn typedef(alloc: Global, tokens: &[Token], from: u32, depth: u32) -> Result<(Decl, u32), Stop>
    requires few { length tokens.now < 2 ^ 32 }
    requires from { from ≤ length tokens.now }
    requires depth { depth ≤ 512 }
    ensures tree { Gives (λ x. (decl_tree x.0, x.1)) result (at_depth tokens.now depth type_declaration from) }
    ensures end { IfOk result (λ x. (from < x.1) × (x.1 ≤ length tokens.now)) }
{
    let (declaration, end) = type_declaration(alloc, tokens, from, depth)?;
    Ok((Decl::Typedef { declaration }, end))
}

/// A declaration of a type by itself, and the place behind it.
#[tactic(auto, unfolding(sve_grammar::specs::Declarations::type_declaration))]
pub fn type_declaration(
    alloc: Global,
    tokens: &[Token],
    from: u32,
    depth: u32,
) -> Result<(Typedef, u32), Stop>
    requires few { length tokens.now < 2 ^ 32 }
    requires from { from ≤ length tokens.now }
    requires depth { depth ≤ 512 }
    ensures tree { Gives (λ x. (typedef_tree x.0, x.1)) result (at_depth tokens.now depth type_declaration from) }
    ensures end { IfOk result (λ x. (from < x.1) × (x.1 ≤ length tokens.now)) }
{
    let at = expect(tokens, from, Kind::Keyword(Keyword::KwTypedef))?;
    let (data_type, at) = type_reference(alloc, tokens, at, depth)?;
    let (declarator, semicolon) = declared_name(alloc, tokens, at, depth)?;
    let end = expect(tokens, semicolon, Kind::Semicolon)?;
    Ok((
        Typedef {
            keyword: from,
            data_type,
            declarator,
            semicolon,
        },
        end,
    ))
}

//! Declarations of nets and of variables (IEEE 1800-2017, 6.7, 6.8 and A.2.1.3).

ghost use Rattle.std.specs.Prelude.{◌<◌, ◌≤◌, ◌^◌, length, IfOk};
ghost use Rattle.sve_grammar.specs.Reading.{at_depth};
ghost use Rattle.sve_grammar.specs.Gives.{Gives};
ghost use Rattle.sve_grammar.specs.Types.{net_type};
ghost use Rattle.sve_grammar.specs.Declarations.{net_declaration, variable_declaration, data_declaration};
ghost use Rattle.sve_tree.specs.Shape.{mark_tree};
ghost use Rattle.sve_tree.specs.Words.{net_tree};
ghost use Rattle.sve_tree.specs.Declarations.{net_declaration_tree, variable_declaration_tree};
ghost use Rattle.sve_parse_data.specs.Written.{IsWritten, data_declaration_tree};

use std::alloc::Global;
use sve_grammar::{Stop, expect};
use sve_parse_type::{data_type, declaration_end, declared_name, type_name};
use sve_parse_word::net;
use sve_token::{Keyword, Kind, Token};
use sve_tree::{DataDeclaration, Mark, Net, NetDeclaration, TypeRef, VariableDeclaration};

/// A declaration of nets: `wire [3:0] a, b = 1;` (6.7), and the place behind it. It stops where the grammar's machine stops and
/// where memory runs out, as every parser here does.
#[tactic(auto, unfolding(sve_grammar::specs::Declarations::net_declaration))]
pub fn net_declaration(
    alloc: Global,
    tokens: &[Token],
    from: u32,
    depth: u32,
) -> Result<(NetDeclaration, u32), Stop>
    requires few { length tokens.now < 2 ^ 32 }
    requires from { from ≤ length tokens.now }
    requires depth { depth ≤ 512 }
    ensures tree { Gives (λ x. (net_declaration_tree x.0, x.1)) result (at_depth tokens.now depth net_declaration from) }
    ensures end { IfOk result (λ x. (from < x.1) × (x.1 ≤ length tokens.now)) }
{
    let (net, at) = net_mark(tokens, from, depth)?;
    let (typed, at) = type_name(alloc, tokens, at, depth)?;
    let (declarators, semicolon) = declaration_end(alloc, tokens, at, depth, typed.declarator)?;
    let end = expect(tokens, semicolon, Kind::Semicolon)?;
    Ok((
        NetDeclaration {
            net,
            data_type: typed.data_type,
            declarators,
            semicolon,
        },
        end,
    ))
}

/// A net type's keyword, and the place behind it.
#[tactic(auto, using(crate::proofs::Stops::net_type_stops))]
fn net_mark(tokens: &[Token], from: u32, depth: u32) -> Result<(Mark<Net>, u32), Stop>
    requires few { length tokens.now < 2 ^ 32 }
    requires from { from ≤ length tokens.now }
    requires depth { depth ≤ 512 }
    ensures tree { Gives (λ x. (mark_tree net_tree x.0, x.1)) result (at_depth tokens.now depth net_type from) }
    ensures end { IfOk result (λ x. (from < x.1) × (x.1 ≤ length tokens.now)) }
{
    if let Some(kind) = net(tokens, from) {
        return Ok((Mark { kind, token: from }, from + 1));
    }
    Err(Stop::At {
        index: from,
        deep: false,
    })
}

/// A declaration of variables with `var`: `var logic a, b;` (6.8), and the place behind it.
#[tactic(auto, unfolding(sve_grammar::specs::Declarations::variable_declaration))]
pub fn variable_declaration(
    alloc: Global,
    tokens: &[Token],
    from: u32,
    depth: u32,
) -> Result<(VariableDeclaration, u32), Stop>
    requires few { length tokens.now < 2 ^ 32 }
    requires from { from ≤ length tokens.now }
    requires depth { depth ≤ 512 }
    ensures tree { Gives (λ x. (variable_declaration_tree x.0, x.1)) result (at_depth tokens.now depth variable_declaration from) }
    ensures end { IfOk result (λ x. (from < x.1) × (x.1 ≤ length tokens.now)) }
{
    let at = expect(tokens, from, Kind::Keyword(Keyword::KwVar))?;
    let (typed, at) = type_name(alloc, tokens, at, depth)?;
    let (declarators, semicolon) = declaration_end(alloc, tokens, at, depth, typed.declarator)?;
    let end = expect(tokens, semicolon, Kind::Semicolon)?;
    Ok((
        VariableDeclaration {
            keyword: from,
            data_type: typed.data_type,
            declarators,
            semicolon,
        },
        end,
    ))
}

/// A declaration of variables that begins with its type's keyword: `int a = 1, b;` (6.8), and the place behind it. One that
/// begins with a type's name is another rule's.
#[tactic(auto, unfolding(sve_grammar::specs::Declarations::data_declaration))]
pub fn data_declaration(
    alloc: Global,
    tokens: &[Token],
    from: u32,
    depth: u32,
) -> Result<(DataDeclaration, u32), Stop>
    requires few { length tokens.now < 2 ^ 32 }
    requires from { from ≤ length tokens.now }
    requires depth { depth ≤ 512 }
    ensures tree { Gives (λ x. (data_declaration_tree x.0, x.1)) result (at_depth tokens.now depth data_declaration from) }
    ensures written { IfOk result (λ x. IsWritten x.0.data_type) }
    ensures end { IfOk result (λ x. (from < x.1) × (x.1 ≤ length tokens.now)) }
{
    let (data_type, at) = data_type(alloc, tokens, from, depth)?;
    let (first, at) = declared_name(alloc, tokens, at, depth)?;
    let (declarators, semicolon) = declaration_end(alloc, tokens, at, depth, first)?;
    let end = expect(tokens, semicolon, Kind::Semicolon)?;
    Ok((
        DataDeclaration {
            data_type: TypeRef::Written { data_type },
            declarators,
            semicolon,
        },
        end,
    ))
}

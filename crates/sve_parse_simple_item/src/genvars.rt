//! Genvars and the step of a generate loop (IEEE 1800-2017, 27.4, A.2.1.3 and A.4.2).

ghost use Rattle.std.specs.Prelude.{◌<◌, ◌≤◌, ◌^◌, length, IfOk};
ghost use Rattle.sve_grammar.specs.Reading.{at_depth};
ghost use Rattle.sve_grammar.specs.Gives.{Gives};
ghost use Rattle.sve_grammar.specs.Items.{genvar_declaration, genvar_iteration};
ghost use Rattle.sve_tree.specs.Items.{genvar_declaration_tree, genvar_step_tree};

use std::alloc::Global;
use sve_grammar::{Stop, accept, expect};
use sve_parse_assign::change;
use sve_parse_word::{more_names, step_operator};
use sve_token::{Keyword, Kind, Token};
use sve_tree::{GenvarDeclaration, GenvarStep, Mark};

/// A declaration of genvars (IEEE 1800-2017, 27.4 and A.2.1.3), and the place behind it.
#[tactic(auto, unfolding(sve_grammar::specs::Items::genvar_declaration))]
pub fn genvar_declaration(
    alloc: Global,
    tokens: &[Token],
    from: u32,
    depth: u32,
) -> Result<(GenvarDeclaration, u32), Stop>
    requires few { length tokens.now < 2 ^ 32 }
    requires from { from ≤ length tokens.now }
    requires depth { depth ≤ 512 }
    ensures tree { Gives (λ x. (genvar_declaration_tree x.0, x.1)) result (at_depth tokens.now depth genvar_declaration from) }
    ensures end { IfOk result (λ x. (from < x.1) × (x.1 ≤ length tokens.now)) }
{
    let first = expect(tokens, from, Kind::Keyword(Keyword::KwGenvar))?;
    let at = expect(tokens, first, Kind::Identifier)?;
    let (names, semicolon) = more_names(alloc, tokens, at, depth, first)?;
    let end = expect(tokens, semicolon, Kind::Semicolon)?;
    Ok((
        GenvarDeclaration {
            keyword: from,
            names,
            semicolon,
        },
        end,
    ))
}

/// The step of a generate loop (27.4 and A.4.2), and the place behind it.
#[tactic(auto, using(sve_grammar::proofs::StartsOfStatements::increment_operator_full), unfolding(sve_grammar::specs::Items::genvar_iteration))]
pub fn genvar_iteration(
    alloc: Global,
    tokens: &[Token],
    from: u32,
    depth: u32,
) -> Result<(GenvarStep, u32), Stop>
    requires few { length tokens.now < 2 ^ 32 }
    requires from { from ≤ length tokens.now }
    requires depth { depth ≤ 512 }
    ensures tree { Gives (λ x. (genvar_step_tree x.0, x.1)) result (at_depth tokens.now depth genvar_iteration from) }
    ensures end { IfOk result (λ x. (from < x.1) × (x.1 ≤ length tokens.now)) }
{
    if let Some(kind) = step_operator(tokens, from) {
        let name = from + 1;
        let end = expect(tokens, name, Kind::Identifier)?;
        let operator = Mark { kind, token: from };
        return Ok((GenvarStep::Before { operator, name }, end));
    }
    if let Some(at) = accept(tokens, from, Kind::Identifier) {
        let (change, end) = change(alloc, tokens, at, depth)?;
        return Ok((GenvarStep::Change { name: from, change }, end));
    }
    Err(Stop::At {
        index: from,
        deep: false,
    })
}

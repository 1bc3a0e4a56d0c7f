//! Functions (IEEE 1800-2017, 13.4 and A.2.6).

ghost use Rattle.std.specs.Prelude.{◌<◌, ◌≤◌, ◌^◌, length, IfOk};
ghost use Rattle.sve_grammar.specs.Reading.{at_depth};
ghost use Rattle.sve_grammar.specs.Gives.{Gives};
ghost use Rattle.sve_grammar.specs.Statements.{function_declaration};
ghost use Rattle.sve_tree.specs.Statements.{func_tree};

use crate::statements::block_items;
use std::alloc::Global;
use sve_grammar::{Stop, expect};
use sve_parse_formal::{function_result, optional_formals};
use sve_parse_part::end_label;
use sve_parse_word::optional_lifetime;
use sve_token::{Keyword, Kind, Token};
use sve_tree::Func;

/// A function (A.2.6), and the place behind it.
#[tactic(auto, unfolding(sve_grammar::specs::Statements::function_declaration))]
pub fn function(alloc: Global, tokens: &[Token], from: u32, depth: u32) -> Result<(Func, u32), Stop>
    requires few { length tokens.now < 2 ^ 32 }
    requires from { from ≤ length tokens.now }
    requires depth { depth ≤ 512 }
    ensures tree { Gives (λ x. (func_tree x.0, x.1)) result (at_depth tokens.now depth function_declaration from) }
    ensures end { IfOk result (λ x. (from < x.1) × (x.1 ≤ length tokens.now)) }
{
    let at = expect(tokens, from, Kind::Keyword(Keyword::KwFunction))?;
    let (lifetime, at) = optional_lifetime(tokens, at);
    let (result_type, at) = function_result(alloc, tokens, at, depth)?;
    let (formals, semicolon) = optional_formals(alloc, tokens, at, depth)?;
    let at = expect(tokens, semicolon, Kind::Semicolon)?;
    let (items, end) = block_items(alloc, tokens, at, depth)?;
    let (label, last) = end_label(tokens, end, depth, Keyword::KwEndfunction)?;
    Ok((
        Func {
            keyword: from,
            lifetime,
            result_type,
            formals,
            semicolon,
            items,
            end,
            label,
        },
        last,
    ))
}

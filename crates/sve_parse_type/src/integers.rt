//! Integer types (IEEE 1800-2017, A.2.2.1), behind whose keyword a sign and dimensions may stand.

ghost use Rattle.std.specs.Prelude.{◌≡◌, ◌<◌, ◌≤◌, ◌+◌, ◌^◌, length, IfOk};
ghost use Rattle.sve_grammar.specs.Reading.{at_depth};
ghost use Rattle.sve_grammar.specs.Gives.{Gives, Finds};
ghost use Rattle.sve_grammar.specs.Expressions.{integer_atom_type, integer_vector_type};
ghost use Rattle.sve_grammar.specs.Types.{atom_type, vector_type};
ghost use Rattle.sve_tree.specs.Words.{atom_keyword_tree, vector_keyword_tree};
ghost use Rattle.sve_tree.specs.Types.{atom_type_tree, vector_type_tree};
ghost use Rattle.sve_parse_word.specs.Takes.{Takes};

use std::alloc::Global;
use sve_grammar::Stop;
use sve_parse_expr::dimensions;
use sve_parse_word::optional_sign;
use sve_token::Token;
use sve_tree::{AtomKeyword, AtomType, Mark, VectorKeyword, VectorType};

/// The type with a width of its own whose keyword stands at `from`, and the place behind it.
#[tactic(auto, unfolding(sve_grammar::specs::Types::atom_type))]
pub fn atom_type(tokens: &[Token], from: u32, kind: AtomKeyword) -> (AtomType, u32)
    requires few { length tokens.now < 2 ^ 32 }
    requires keyword { Finds tokens.now integer_atom_type atom_keyword_tree from (Some kind) }
    ensures tree { Takes tokens.now atom_type (λ x. (atom_type_tree x.0, x.1)) from result }
    ensures end { (from < result.1) × (result.1 ≤ length tokens.now) }
{
    let (sign, end) = optional_sign(tokens, from + 1);
    let keyword = Mark { kind, token: from };
    (AtomType { keyword, sign }, end)
}

/// The type of as many bits as its packed dimensions say whose keyword stands at `from`, and the place behind it.
#[tactic(auto, unfolding(sve_grammar::specs::Types::vector_type))]
pub fn vector_type(
    alloc: Global,
    tokens: &[Token],
    from: u32,
    kind: VectorKeyword,
    depth: u32,
) -> Result<(VectorType, u32), Stop>
    requires few { length tokens.now < 2 ^ 32 }
    requires keyword { Finds tokens.now integer_vector_type vector_keyword_tree from (Some kind) }
    requires depth { depth ≤ 512 }
    ensures tree { Gives (λ x. (vector_type_tree x.0, x.1)) result (at_depth tokens.now depth vector_type from) }
    ensures end { IfOk result (λ x. (from < x.1) × (x.1 ≤ length tokens.now)) }
{
    let (sign, at) = optional_sign(tokens, from + 1);
    let (dimensions, end) = dimensions(alloc, tokens, at, depth)?;
    let keyword = Mark { kind, token: from };
    Ok((
        VectorType {
            keyword,
            sign,
            dimensions,
        },
        end,
    ))
}

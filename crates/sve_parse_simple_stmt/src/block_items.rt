//! What stands in a block and holds no statement, and is no declaration of its own kind (IEEE 1800-2017, A.2.8).

ghost use Rattle.std.specs.Prelude.{◌<◌, ◌≤◌, ◌+◌, ◌^◌, length, Some, IfOk};
ghost use Rattle.sve_token.specs.declared.kind.Kind.TheVariants.{Semicolon};
ghost use Rattle.sve_grammar.specs.Rule.{tok, ◌∙◌};
ghost use Rattle.sve_grammar.specs.Reading.{at_depth, with_left, with_right};
ghost use Rattle.sve_grammar.specs.Gives.{Gives, Finds};
ghost use Rattle.sve_grammar.specs.Expressions.{scoped_name, selects};
ghost use Rattle.sve_grammar.specs.Types.{declared_name, declaration_end};
ghost use Rattle.sve_grammar.specs.Declarations.{lifetime};
ghost use Rattle.sve_grammar.specs.Statements.{local_declaration, block_item_end};
ghost use Rattle.sve_tree.specs.Shape.{◌▸◌};
ghost use Rattle.sve_tree.specs.Words.{lifetime_tree};
ghost use Rattle.sve_tree.specs.Types.{declarator_tree};
ghost use Rattle.sve_tree.specs.Declarations.{first_declarator, declaration_end_tree};
ghost use Rattle.sve_tree.specs.Statements.{local_tree, block_item_tree};

use std::alloc::Global;
use sve_grammar::{Stop, Symbol, expect, is_kind, opens_here};
use sve_parse_assign::statement_tail;
use sve_parse_expr::selects;
use sve_parse_type::{data_type, declaration_end, declared_name, named_type};
use sve_parse_word::scoped_name;
use sve_token::{Kind, Token};
use sve_tree::{
    BlockItem, DataDeclaration, InitializedDeclarator, Lifetime, Mark, NameStatement,
    NamedDeclaration, Row, TypeRef,
};

/// The declaration behind a lifetime, which stands at `from` (IEEE 1800-2017, 6.21), and the place behind it. Among the items of a
/// block it is the first alternative.
#[tactic(auto, using(sve_tree::proofs::StatementTrees::local_block_item))]
pub fn local_declaration(
    alloc: Global,
    tokens: &[Token],
    from: u32,
    kind: Lifetime,
    depth: u32,
) -> Result<(BlockItem, u32), Stop>
    requires few { length tokens.now < 2 ^ 32 }
    requires keyword { Finds tokens.now lifetime lifetime_tree from (Some kind) }
    requires depth { depth ≤ 512 }
    ensures tree { Gives (λ x. (block_item_tree x.0, x.1)) result (with_left (at_depth tokens.now depth (lifetime ∙ local_declaration ∙ tok Semicolon) from)) }
    ensures end { IfOk result (λ x. (from < x.1) × (x.1 ≤ length tokens.now)) }
{
    let (variables, semicolon) = local_variables(alloc, tokens, from + 1, depth)?;
    let end = expect(tokens, semicolon, Kind::Semicolon)?;
    let declaration = Box::new(
        alloc,
        DataDeclaration {
            data_type: variables.data_type,
            declarators: variables.declarators,
            semicolon,
        },
    )?;
    let lifetime = Mark { kind, token: from };
    Ok((
        BlockItem::Local {
            lifetime,
            declaration,
        },
        end,
    ))
}

/// Variables of one type, without the semicolon behind them.
#[derive(Drop)]
struct Variables {
    /// Their type.
    data_type: TypeRef,
    /// Their names with their values.
    declarators: Row<InitializedDeclarator>,
}

/// A type and the names that it declares, and the place behind them.
#[tactic(auto, using(crate::proofs::Ways::written_local, crate::proofs::Ways::named_local))]
fn local_variables(
    alloc: Global,
    tokens: &[Token],
    from: u32,
    depth: u32,
) -> Result<(Variables, u32), Stop>
    requires few { length tokens.now < 2 ^ 32 }
    requires from { from ≤ length tokens.now }
    requires depth { depth ≤ 512 }
    ensures tree { Gives (λ x. (local_tree x.0.data_type x.0.declarators, x.1)) result (at_depth tokens.now depth local_declaration from) }
    ensures end { IfOk result (λ x. (from < x.1) × (x.1 ≤ length tokens.now)) }
{
    if opens_here(tokens, from, Symbol::DataType) {
        let (data_type, at) = data_type(alloc, tokens, from, depth)?;
        let (declarators, end) = declarators(alloc, tokens, at, depth)?;
        let data_type = TypeRef::Written { data_type };
        return Ok((
            Variables {
                data_type,
                declarators,
            },
            end,
        ));
    }
    let (named, at) = named_type(alloc, tokens, from, depth)?;
    let (declarators, end) = declarators(alloc, tokens, at, depth)?;
    let data_type = TypeRef::Named { named };
    Ok((
        Variables {
            data_type,
            declarators,
        },
        end,
    ))
}

/// Declared names with their values, where they have any, and the place behind them.
fn declarators(
    alloc: Global,
    tokens: &[Token],
    from: u32,
    depth: u32,
) -> Result<(Row<InitializedDeclarator>, u32), Stop>
    requires few { length tokens.now < 2 ^ 32 }
    requires from { from ≤ length tokens.now }
    requires depth { depth ≤ 512 }
    ensures tree { Gives (λ x. (first_declarator declarator_tree x.0 ▸ declaration_end_tree x.0, x.1)) result (at_depth tokens.now depth (declared_name ∙ declaration_end) from) }
    ensures end { IfOk result (λ x. (from < x.1) × (x.1 ≤ length tokens.now)) }
{
    let (first, at) = declared_name(alloc, tokens, from, depth)?;
    declaration_end(alloc, tokens, at, depth, first)
}

/// What begins with a name in a block (A.2.8), and the place behind it: a declaration by a type's name where a second name follows the first
/// and its selects, and else a statement. Among the items of a block it is the sixth alternative.
#[tactic(auto, using(crate::proofs::Ways::declaring_end, crate::proofs::Ways::doing_end, sve_tree::proofs::StatementTrees::named_data_block_item, sve_tree::proofs::StatementTrees::name_block_item))]
pub fn named_block_item(
    alloc: Global,
    tokens: &[Token],
    from: u32,
    depth: u32,
) -> Result<(BlockItem, u32), Stop>
    requires few { length tokens.now < 2 ^ 32 }
    requires from { from ≤ length tokens.now }
    requires depth { depth ≤ 512 }
    ensures tree { Gives (λ x. (block_item_tree x.0, x.1)) result (with_right (with_right (with_right (with_right (with_right (with_left (at_depth tokens.now depth (scoped_name ∙ selects ∙ block_item_end ∙ tok Semicolon) from))))))) }
    ensures end { IfOk result (λ x. (from < x.1) × (x.1 ≤ length tokens.now)) }
{
    let (name, at) = scoped_name(tokens, from, depth)?;
    let (selects, at) = selects(alloc, tokens, at, depth)?;
    if is_kind(tokens, at, Kind::Identifier) {
        let (declarators, semicolon) = declarators(alloc, tokens, at, depth)?;
        let end = expect(tokens, semicolon, Kind::Semicolon)?;
        let declaration = Box::new(
            alloc,
            NamedDeclaration {
                name,
                selects,
                declarators,
                semicolon,
            },
        )?;
        return Ok((BlockItem::NamedData { declaration }, end));
    }
    let (tail, semicolon) = statement_tail(alloc, tokens, at, depth)?;
    let end = expect(tokens, semicolon, Kind::Semicolon)?;
    let statement = Box::new(
        alloc,
        NameStatement {
            name,
            selects,
            tail,
            semicolon,
        },
    )?;
    Ok((BlockItem::Name { statement }, end))
}

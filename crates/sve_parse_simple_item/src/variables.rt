//! Variables of a type by its name (IEEE 1800-2017, 6.8, 6.18 and A.2.1.3).

ghost use Rattle.std.specs.Prelude.{◌≡◌, ◌<◌, ◌≤◌, ◌^◌, true, false, length, IfOk, IfErr};
ghost use Rattle.sve_token.specs.declared.kind.Kind.TheVariants.{Semicolon};
ghost use Rattle.sve_grammar.specs.declared.stop.Stop.TheVariants.{NoMemory};
ghost use Rattle.sve_grammar.specs.Token.{kind_at, has_kind};
ghost use Rattle.sve_grammar.specs.Rule.{tok, ◌∙◌};
ghost use Rattle.sve_grammar.specs.Reading.{Tree, leaf, at_depth};
ghost use Rattle.sve_grammar.specs.Gives.{Gives};
ghost use Rattle.sve_grammar.specs.Types.{declared_name, declaration_end};
ghost use Rattle.sve_grammar.specs.Items.{instances_or_variables, named_item};
ghost use Rattle.sve_tree.specs.Shape.{◌▸◌, final};
ghost use Rattle.sve_tree.specs.Types.{declarator_tree};
ghost use Rattle.sve_tree.specs.Declarations.{first_declarator, declaration_end_tree};
ghost use Rattle.sve_tree.specs.Items.{scoped_data_tree, item_tree};
ghost use Rattle.sve_parse_simple_item.specs.Named.{behind_name, behind_names};

use std::alloc::Global;
use sve_grammar::{Stop, expect};
use sve_parse_expr::dimensions;
use sve_parse_type::{declaration_end, declared_name};
use sve_token::{Kind, Token};
use sve_tree::{
    DataDeclaration, Declarator, Dimension, InitializedDeclarator, Item, NamedType, PackageScope,
    Row, ScopedName, TypeRef,
};

/// Variables of a type of the package `scope`, from the `::` behind it on (IEEE 1800-2017, 26.3 and A.2.2.1), and the place
/// behind them.
#[tactic(auto, using(crate::proofs::Ways::package_way))]
pub(crate) fn package_variables(
    alloc: Global,
    tokens: &[Token],
    from: u32,
    depth: u32,
    scope: u32,
) -> Result<(Item, u32), Stop>
    requires few { length tokens.now < 2 ^ 32 }
    requires from { from ≤ length tokens.now }
    requires depth { depth ≤ 512 }
    requires colons { has_kind (kind_at tokens.now from) Kind.ColonColon ≡ true }
    ensures tree { Gives (λ x. (item_tree x.0, x.1)) result (behind_name scope from (at_depth tokens.now depth named_item)) }
    ensures end { IfOk result (λ x. (from < x.1) × (x.1 ≤ length tokens.now)) }
{
    let name = expect(tokens, from, Kind::ColonColon)?;
    let at = expect(tokens, name, Kind::Identifier)?;
    let (dimensions, at) = dimensions(alloc, tokens, at, depth)?;
    let (variables, end) = declared_variables(alloc, tokens, at, depth)?;
    let scope = Some(PackageScope {
        name: scope,
        colons: from,
    });
    let name = ScopedName { scope, name };
    let item = data_item(alloc, name, dimensions, variables)?;
    Ok((item, end))
}

/// Variables of the type `name`, from its packed dimensions on, of which one at least stands here (7.4.1 and A.2.2.1); and the
/// place behind them.
#[tactic(auto, using(crate::proofs::Ways::ranged_way, crate::proofs::Ways::ranged_tree))]
pub(crate) fn ranged_variables(
    alloc: Global,
    tokens: &[Token],
    from: u32,
    depth: u32,
    name: u32,
) -> Result<(Item, u32), Stop>
    requires few { length tokens.now < 2 ^ 32 }
    requires from { from ≤ length tokens.now }
    requires depth { depth ≤ 512 }
    requires opening { has_kind (kind_at tokens.now from) Kind.LeftBracket ≡ true }
    ensures tree { Gives (λ x. (item_tree x.0, x.1)) result (behind_name name from (at_depth tokens.now depth named_item)) }
    ensures end { IfOk result (λ x. (from < x.1) × (x.1 ≤ length tokens.now)) }
{
    let (dimensions, at) = dimensions(alloc, tokens, from, depth)?;
    let (variables, end) = declared_variables(alloc, tokens, at, depth)?;
    let name = ScopedName { scope: None, name };
    let item = data_item(alloc, name, dimensions, variables)?;
    Ok((item, end))
}

/// Variables of the type `type_name`, from what stands behind the name of the first on, which is `name`; and the place behind
/// them.
#[tactic(auto, using(crate::proofs::Ways::variables_way, sve_tree::proofs::ItemTrees::plain_named_data))]
pub(crate) fn plain_variables(
    alloc: Global,
    tokens: &[Token],
    from: u32,
    depth: u32,
    type_name: u32,
    name: u32,
) -> Result<(Item, u32), Stop>
    requires few { length tokens.now < 2 ^ 32 }
    requires from { from ≤ length tokens.now }
    requires depth { depth ≤ 512 }
    requires opening { has_kind (kind_at tokens.now from) Kind.LeftParen ≡ false }
    ensures tree { Gives (λ x. (item_tree x.0, x.1)) result (behind_names type_name name from (at_depth tokens.now depth instances_or_variables)) }
    ensures end { IfOk result (λ x. (from < x.1) × (x.1 ≤ length tokens.now)) }
{
    let (dimensions, at) = dimensions(alloc, tokens, from, depth)?;
    let first = Declarator { name, dimensions };
    let (variables, end) = further_variables(alloc, tokens, at, depth, first)?;
    let name = ScopedName {
        scope: None,
        name: type_name,
    };
    let item = data_item(alloc, name, Vec::new(alloc), variables)?;
    Ok((item, end))
}

/// Declared names with their values, and the semicolon behind them.
#[derive(Drop)]
struct Variables {
    /// The names with their values.
    declarators: Row<InitializedDeclarator>,
    /// `;`.
    semicolon: u32,
}

/// Declared names with their values, where they have any, and a semicolon; and the place behind them.
fn declared_variables(
    alloc: Global,
    tokens: &[Token],
    from: u32,
    depth: u32,
) -> Result<(Variables, u32), Stop>
    requires few { length tokens.now < 2 ^ 32 }
    requires from { from ≤ length tokens.now }
    requires depth { depth ≤ 512 }
    ensures tree { Gives (λ x. (first_declarator declarator_tree x.0.declarators ▸ declaration_end_tree x.0.declarators ▸ leaf x.0.semicolon, x.1)) result (at_depth tokens.now depth (declared_name ∙ declaration_end ∙ tok Semicolon) from) }
    ensures end { IfOk result (λ x. (from < x.1) × (x.1 ≤ length tokens.now)) }
{
    let (first, at) = declared_name(alloc, tokens, from, depth)?;
    further_variables(alloc, tokens, at, depth, first)
}

/// The same behind the first name, which was read before.
fn further_variables(
    alloc: Global,
    tokens: &[Token],
    from: u32,
    depth: u32,
    first: Declarator,
) -> Result<(Variables, u32), Stop>
    requires few { length tokens.now < 2 ^ 32 }
    requires from { from ≤ length tokens.now }
    requires depth { depth ≤ 512 }
    ensures tree { Gives (λ x. (declaration_end_tree x.0.declarators ▸ leaf x.0.semicolon, x.1)) result (at_depth tokens.now depth (declaration_end ∙ tok Semicolon) from) }
    ensures first { IfOk result (λ x. (f : Declarator → Tree) → first_declarator f x.0.declarators ≡ f first) }
    ensures end { IfOk result (λ x. (from < x.1) × (x.1 ≤ length tokens.now)) }
{
    let (declarators, semicolon) = declaration_end(alloc, tokens, from, depth, first)?;
    let end = expect(tokens, semicolon, Kind::Semicolon)?;
    Ok((
        Variables {
            declarators,
            semicolon,
        },
        end,
    ))
}

/// The item that declares these variables of the type with this name and these packed dimensions.
#[tactic(auto, using(sve_tree::proofs::ItemTrees::data_item))]
fn data_item(
    alloc: Global,
    name: ScopedName,
    dimensions: Vec<Dimension>,
    variables: Variables,
) -> Result<Item, Stop>
    ensures made { IfOk result (λ x. item_tree x ≡ final 18 (scoped_data_tree name.scope name.name dimensions.items variables.declarators variables.semicolon)) }
    ensures stop { IfErr result (λ e. e ≡ NoMemory) }
{
    let named = NamedType { name, dimensions };
    let declaration = Box::new(
        alloc,
        DataDeclaration {
            data_type: TypeRef::Named { named },
            declarators: variables.declarators,
            semicolon: variables.semicolon,
        },
    )?;
    Ok(Item::Data { declaration })
}

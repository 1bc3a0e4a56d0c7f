//! Modules, interfaces and packages (IEEE 1800-2017, 23.2, 25.3, 26.2 and A.1.2).

ghost use Rattle.std.specs.Prelude.{◌<◌, ◌≤◌, ◌^◌, length, IfOk};
ghost use Rattle.sve_grammar.specs.Rule.{word, ◌∙◌, opt};
ghost use Rattle.sve_grammar.specs.Reading.{at_depth};
ghost use Rattle.sve_grammar.specs.Gives.{Gives};
ghost use Rattle.sve_grammar.specs.Declarations.{header, label};
ghost use Rattle.sve_grammar.specs.Items.{items, package_declaration, design};
ghost use Rattle.sve_tree.specs.Shape.{optional_tree};
ghost use Rattle.sve_tree.specs.Elements.{definition_tree, package_tree, design_tree};

use std::alloc::Global;
use sve_grammar::{Stop, accept, expect, is_kind};
use sve_parse_decl::header;
use sve_parse_item::{items, unit_items};
use sve_parse_word::{module_keyword, optional_label, optional_lifetime};
use sve_token::{Keyword, Kind, Token};
use sve_tree::{Definition, Design, Mark, Package};

/// The module, interface or package where one stands here, and the place behind it.
#[tactic(auto, using(crate::proofs::DesignWays::design_module, crate::proofs::DesignWays::design_interface, crate::proofs::DesignWays::design_package, crate::proofs::DesignWays::design_none))]
pub(crate) fn optional_design(
    alloc: Global,
    tokens: &[Token],
    from: u32,
    depth: u32,
) -> Result<(Option<Design>, u32), Stop>
    requires few { length tokens.now < 2 ^ 32 }
    requires from { from ≤ length tokens.now }
    requires depth { depth ≤ 512 }
    ensures tree { Gives (λ x. (optional_tree design_tree x.0, x.1)) result (at_depth tokens.now depth (opt design) from) }
    ensures end { IfOk result (λ x. (from ≤ x.1) × (x.1 ≤ length tokens.now)) }
{
    if let Some(kind) = module_keyword(tokens, from) {
        let last = Keyword::KwEndmodule;
        let (definition, end) = definition(alloc, tokens, from + 1, depth, last)?;
        let keyword = Mark { kind, token: from };
        let module = Design::Module {
            keyword,
            definition,
        };
        return Ok((Some(module), end));
    }
    if let Some(at) = accept(tokens, from, Kind::Keyword(Keyword::KwInterface)) {
        let last = Keyword::KwEndinterface;
        let (definition, end) = definition(alloc, tokens, at, depth, last)?;
        let interface = Design::Interface {
            keyword: from,
            definition,
        };
        return Ok((Some(interface), end));
    }
    if is_kind(tokens, from, Kind::Keyword(Keyword::KwPackage)) {
        let (unit, end) = package(alloc, tokens, from, depth)?;
        return Ok((Some(Design::Package { unit }), end));
    }
    Ok((None, from))
}

/// A module or an interface from behind its keyword on to its last keyword, which is given, and the label behind it (23.2 and
/// 25.3); and the place behind it all.
fn definition(
    alloc: Global,
    tokens: &[Token],
    from: u32,
    depth: u32,
    last: Keyword,
) -> Result<(Box<Definition>, u32), Stop>
    requires few { length tokens.now < 2 ^ 32 }
    requires from { from ≤ length tokens.now }
    requires depth { depth ≤ 512 }
    ensures tree { Gives (λ x. (definition_tree x.0.value, x.1)) result (at_depth tokens.now depth (header ∙ items ∙ word last ∙ opt label) from) }
    ensures end { IfOk result (λ x. (from < x.1) × (x.1 ≤ length tokens.now)) }
{
    let (header, at) = header(alloc, tokens, from, depth)?;
    let (items, end) = items(alloc, tokens, at, depth)?;
    let at = expect(tokens, end, Kind::Keyword(last))?;
    let (label, behind) = optional_label(tokens, at, depth)?;
    let definition = Definition {
        header,
        items,
        end,
        label,
    };
    Ok((Box::new(alloc, definition)?, behind))
}

/// A package (26.2), and the place behind it.
#[tactic(auto, unfolding(sve_grammar::specs::Items::package_declaration))]
fn package(
    alloc: Global,
    tokens: &[Token],
    from: u32,
    depth: u32,
) -> Result<(Box<Package>, u32), Stop>
    requires few { length tokens.now < 2 ^ 32 }
    requires from { from ≤ length tokens.now }
    requires depth { depth ≤ 512 }
    ensures tree { Gives (λ x. (package_tree x.0.value, x.1)) result (at_depth tokens.now depth package_declaration from) }
    ensures end { IfOk result (λ x. (from < x.1) × (x.1 ≤ length tokens.now)) }
{
    let at = expect(tokens, from, Kind::Keyword(Keyword::KwPackage))?;
    let (lifetime, name) = optional_lifetime(tokens, at);
    let semicolon = expect(tokens, name, Kind::Identifier)?;
    let at = expect(tokens, semicolon, Kind::Semicolon)?;
    let (items, end) = unit_items(alloc, tokens, at, depth)?;
    let at = expect(tokens, end, Kind::Keyword(Keyword::KwEndpackage))?;
    let (label, behind) = optional_label(tokens, at, depth)?;
    let package = Package {
        keyword: from,
        lifetime,
        name,
        semicolon,
        items,
        end,
        label,
    };
    Ok((Box::new(alloc, package)?, behind))
}

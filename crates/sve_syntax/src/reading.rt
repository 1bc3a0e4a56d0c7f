//! The parsers, each called for the part that a line names.
ghost use Rattle.std.specs.Prelude.{◌<◌, ◌≤◌, ◌^◌, length};

use crate::outcome::{Outcome, outcome_of_stop};
use crate::part::Part;
use std::alloc::Global;
use sve_bytes::NoMemory;
use sve_grammar::Stop;
use sve_parse_decl::{header, import, modport, param, typedef};
use sve_parse_expr::expr;
use sve_parse_type::{data_type, type_name, type_reference};
use sve_show::{
    Writer, write_data_type, write_declaration, write_expression, write_header, write_type,
    write_typed_name,
};
use sve_token::Token;
use sve_tree::{DataType, Decl, Expr, Header, TypeRef, TypedName};

/// The tree of a part.
#[derive(Drop)]
enum PartTree {
    Expression(Expr),
    TypedName(TypedName),
    Type(TypeRef),
    DataType(DataType),
    Header(Header),
    Declaration(Decl),
}

/// Reads a part from a place on, and writes its tree.
pub fn read_part(
    alloc: Global,
    part: Part,
    tokens: &[Token],
    from: u32,
) -> Result<Outcome, NoMemory>
    requires few { length tokens.now < 2 ^ 32 }
    requires from { from ≤ length tokens.now }
{
    match parse_part(alloc, part, tokens, from) {
        Ok((tree, end)) => outcome_of_tree(alloc, tokens, from, &tree, end),
        Err(stop) => outcome_of_stop(stop),
    }
}

fn parse_part(
    alloc: Global,
    part: Part,
    tokens: &[Token],
    from: u32,
) -> Result<(PartTree, u32), Stop>
    requires few { length tokens.now < 2 ^ 32 }
    requires from { from ≤ length tokens.now }
{
    match part {
        Part::Expression => {
            let (tree, end) = expr(alloc, tokens, from, 0)?;
            Ok((PartTree::Expression(tree), end))
        }
        Part::DeclaredType => {
            let (tree, end) = type_name(alloc, tokens, from, 0)?;
            Ok((PartTree::TypedName(tree), end))
        }
        Part::TypeReference => {
            let (tree, end) = type_reference(alloc, tokens, from, 0)?;
            Ok((PartTree::Type(tree), end))
        }
        Part::DataType => {
            let (tree, end) = data_type(alloc, tokens, from, 0)?;
            Ok((PartTree::DataType(tree), end))
        }
        Part::Header => {
            let (tree, end) = header(alloc, tokens, from, 0)?;
            Ok((PartTree::Header(tree), end))
        }
        Part::Parameters => {
            let (tree, end) = param(alloc, tokens, from, 0)?;
            Ok((PartTree::Declaration(tree), end))
        }
        Part::Typedef => {
            let (tree, end) = typedef(alloc, tokens, from, 0)?;
            Ok((PartTree::Declaration(tree), end))
        }
        Part::Import => {
            let (tree, end) = import(alloc, tokens, from, 0)?;
            Ok((PartTree::Declaration(tree), end))
        }
        Part::Modport => {
            let (tree, end) = modport(alloc, tokens, from, 0)?;
            Ok((PartTree::Declaration(tree), end))
        }
    }
}

/// The tree as text, and whether its tokens are those from the one to the other, in order.
fn outcome_of_tree(
    alloc: Global,
    tokens: &[Token],
    from: u32,
    tree: &PartTree,
    end: u32,
) -> Result<Outcome, NoMemory> {
    let mut w = Writer::new(alloc, tokens, from);
    match tree {
        PartTree::Expression(tree) => write_expression(&mut w, tree),
        PartTree::TypedName(tree) => write_typed_name(&mut w, tree),
        PartTree::Type(tree) => write_type(&mut w, tree),
        PartTree::DataType(tree) => write_data_type(&mut w, tree),
        PartTree::Header(tree) => write_header(&mut w, tree),
        PartTree::Declaration(tree) => write_declaration(&mut w, tree),
    }
    let written = w.finish()?;
    Ok(Outcome::Read {
        text: written.text,
        end,
        in_order: written.in_order && written.end == end,
    })
}

//! What an expression comes to.
ghost use Rattle.std.specs.Prelude.{IfSome};
ghost use Rattle.sve_value.specs.Vector.{IsWidth};

use std::alloc::{AllocError, Global};
use std::fmt::Write;
use sve_bytes::NoMemory;
use sve_const::{ConstFault, eval, size_sign};
use sve_fault::Fuel;
use sve_given::{Entry, Scope, note_text, words_of};
use sve_parse_expr::expr;
use sve_row::{name_of, spell};
use sve_show::tokens_of;
use sve_tree::{Expr, Word};
use sve_types::Value;

/// What the expression of a text comes to among names, where so many nodes may be evaluated.
pub fn outcome(
    alloc: Global,
    names: &[Entry],
    context: Option<(u32, bool)>,
    text: &str,
    most: u64,
) -> Result<Option<String>, NoMemory>
    requires { IfSome context (λ z. IsWidth z.0) }
{
    let list = tokens_of(alloc, text.as_bytes())?;
    let tokens = list.items();
    if tokens.len() > u32::MAX as usize {
        return Ok(None);
    }
    let Ok((tree, end)) = expr(alloc, tokens, 0, 0) else {
        return Ok(None);
    };
    if end as usize != tokens.len() {
        return Ok(None);
    }
    let words = words_of(alloc, tokens)?;
    among(alloc, &tree, words.as_slice(), names, context, most)
}

/// What a tree over the tokens of a text comes to, where so many nodes may be evaluated.
pub fn tree_outcome(
    alloc: Global,
    tree: &Expr,
    text: &str,
    most: u64,
) -> Result<Option<String>, NoMemory> {
    let list = tokens_of(alloc, text.as_bytes())?;
    let words = words_of(alloc, list.items())?;
    among(alloc, tree, words.as_slice(), &[], None, most)
}

/// What a tree over these words comes to among names.
fn among(
    alloc: Global,
    tree: &Expr,
    words: &[Word],
    names: &[Entry],
    context: Option<(u32, bool)>,
    most: u64,
) -> Result<Option<String>, NoMemory>
    requires { IfSome context (λ z. IsWidth z.0) }
{
    let Some(file) = name_of(alloc, b"table")? else {
        return Ok(None);
    };
    let scope = Scope {
        alloc,
        file: &file,
        words,
        names,
    };
    let mut out = String::new(alloc);
    evaluated(alloc, &mut out, tree, &scope, context, most)?;
    Ok(Some(out))
}

/// Adds what an expression is evaluated to.
fn evaluated(
    alloc: Global,
    out: &mut String,
    tree: &Expr,
    scope: &Scope,
    context: Option<(u32, bool)>,
    most: u64,
) -> Result<(), NoMemory>
    requires { IfSome context (λ z. IsWidth z.0) }
{
    let mut fuel = Fuel { used: 0, most };
    match eval(alloc, tree, scope, context, &mut fuel) {
        Err(ConstFault::Over) => return out.push_str("over"),
        Err(ConstFault::NoMemory) => return Err(AllocError),
        Err(ConstFault::Bad(None)) => out.push_str("silent")?,
        Err(ConstFault::Bad(Some(note))) => note_text(out, &note)?,
        Ok(value) => {
            size_text(alloc, out, tree, scope)?;
            value_text(alloc, out, &value)?;
        }
    }
    let used = fuel.used;
    write!(out, " | {used}")?;
    Ok(())
}

/// Adds the size and the sign of an expression by itself, where it has them.
fn size_text(alloc: Global, out: &mut String, tree: &Expr, scope: &Scope) -> Result<(), NoMemory> {
    let fuel = Fuel {
        used: 0,
        most: u64::MAX,
    };
    if let Ok((width, signed)) = size_sign(alloc, tree, scope, fuel) {
        let sign = if signed { "signed" } else { "unsigned" };
        write!(out, "{width} {sign} ")?;
    }
    Ok(())
}

/// Adds a value.
fn value_text(alloc: Global, out: &mut String, value: &Value) -> Result<(), NoMemory> {
    match value {
        Value::Bits(bits) => spell(out, &sve_value::print(alloc, *bits)?),
        Value::Text(text) => {
            out.push('"')?;
            spell(out, text.items())?;
            out.push('"')
        }
        Value::OfType(_) => out.push_str("type"),
    }
}

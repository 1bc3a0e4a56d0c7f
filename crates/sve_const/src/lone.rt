ghost use Rattle.std.specs.Prelude.{◌≡◌, Ok, IfOk};
ghost use Rattle.sve_const.specs.Answers.{is_name_alone, text_in, lone_name, lone_text, lone_seen};

use std::alloc::Global;
use sve_bytes::NoMemory;
use sve_env::Env;
use sve_form::name_token;
use sve_literal::unquoted;
use sve_tree::{Expr, Postfix, ScopedName};
use sve_types::Value;

/// A string by itself: where it begins, and its bytes.
#[derive(Drop)]
pub(crate) struct LoneText {
    /// Its first token.
    pub(crate) token: u32,
    /// Its bytes.
    pub(crate) bytes: Vec<u8>,
}

/// Whether nothing is applied to a name.
#[tactic(auto, using(crate::proofs::Rows::alone_is))]
fn is_alone(postfixes: &Vec<Postfix>) -> bool
    ensures { result ≡ is_name_alone postfixes.now }
{
    postfixes.is_empty()
}

/// A value that is a string.
fn text_in(token: u32, value: Value) -> Option<LoneText>
    ensures { lone_seen result ≡ text_in token (Ok value) }
{
    match value {
        Value::Text(text) => Some(LoneText {
            token,
            bytes: text.into_vec(),
        }),
        Value::Bits(_) => None,
        Value::OfType(_) => None,
    }
}

/// The string that a name has, if nothing is applied to it. It fails for want of memory alone.
fn lone_name<E: Env>(
    name: ScopedName,
    is_alone: bool,
    env: &E,
) -> Result<Option<LoneText>, NoMemory>
    ensures { IfOk result (λ r. lone_seen r ≡ lone_name (E.told env.now) name is_alone) }
{
    if !is_alone {
        return Ok(None);
    }
    match env.constant(name)? {
        Ok(value) => Ok(text_in(name_token(name), value)),
        Err(_) => Ok(None),
    }
}

/// The string that an expression is: a literal, or a name that has one, in brackets too. It fails for want of memory alone.
#[cycle(lone_text)]
#[tactic(auto, unfolding(crate::specs::Answers::lone_text))]
pub(crate) fn lone_text<E: Env>(
    alloc: Global,
    expr: &Expr,
    env: &E,
) -> Result<Option<LoneText>, NoMemory>
    ensures { IfOk result (λ r. lone_seen r ≡ lone_text (E.told env.now) expr.now) }
{
    match expr {
        Expr::Text { token } => Ok(Some(LoneText {
            token: *token,
            bytes: unquoted(alloc, env.text(*token))?,
        })),
        Expr::Parenthesized { inner } => lone_text(alloc, &inner.value, env),
        Expr::Name { name, postfixes } => lone_name(*name, is_alone(postfixes), env),
        _ => Ok(None),
    }
}

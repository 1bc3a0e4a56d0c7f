//! The rows of names, and the steps of those of scopes: `names` with steps that are parted by ` | `, each of which does something to
//! a chain of scopes or asks it.
//!
//! - `scope FILE CHUNK`: a scope inside of the others, whose text is in this chunk.
//! - `text FILE CHUNK`: what follows stands in this chunk, as the items of a compilation unit's scope do.
//! - `declare KIND NAME TOKEN FROM`: a declaration in the innermost scope at this token, seen from that one on. The answer is
//!   `new`, `again` or `clash`.
//! - `import PACKAGE NAME TOKEN`: an import of one name. The answer is the same.
//! - `all PACKAGE TOKEN NAME ..`: an import of all names of a package, which has these. The answer is `new` or `again`.
//! - `use NAME TOKEN`: a use in the innermost scope. The answer is `FILE:CHUNK:TOKEN` of a declaration; `PACKAGE::NAME`, and behind
//!   it `*N` where it came through an import of all names in scope N of the chain; `PACKAGE or PACKAGE`; or `nothing`. An import of
//!   all names has then taken effect.
//! - `leave`: the innermost scope ends, and what follows stands in the one around it.
//! - `member NAME`: what `p::NAME` stands for where the innermost scope is that of `p`: a place, or `nothing`.
use crate::chain::{
    Chain, all_step, declare_step, import_step, leave_step, member_step, scope_step, text_step,
    use_step,
};
use crate::many::many_row;
use crate::packages::rounds_row;
use std::alloc::Global;
use sve_bytes::NoMemory;
use sve_row::{Table, fields_of, words_of};

/// The rows of names.
#[derive(Clone, Copy)]
pub struct Names;

impl Table for Names {
    fn answer(&self, alloc: Global, kind: &str, row: &str) -> Result<Option<String>, NoMemory> {
        match kind {
            "names" => names_row(alloc, row),
            "many" => many_row(alloc, row),
            "rounds" => rounds_row(alloc, row),
            _ => Ok(None),
        }
    }
}

/// The answers to the steps of a row.
fn names_row(alloc: Global, row: &str) -> Result<Option<String>, NoMemory> {
    let Some(mut chain) = Chain::new(alloc)? else {
        return Ok(None);
    };
    let mut out = String::new(alloc);
    for step in &fields_of(alloc, row)? {
        if !did_step(alloc, &mut chain, &mut out, step)? {
            return Ok(None);
        }
    }
    Ok(Some(out))
}

/// Does a step and adds its answer, if it has one; or answers that it has no form.
fn did_step(
    alloc: Global,
    chain: &mut Chain,
    out: &mut String,
    step: &str,
) -> Result<bool, NoMemory> {
    let words = words_of(alloc, step)?;
    let kind = words.first().copied().unwrap_or("");
    match kind {
        "scope" => scope_step(alloc, chain, &words),
        "text" => text_step(alloc, chain, &words),
        "declare" => declare_step(alloc, chain, out, &words),
        "import" => import_step(alloc, chain, out, &words),
        "all" => all_step(alloc, chain, out, &words),
        "use" => use_step(alloc, chain, out, &words),
        "leave" => Ok(leave_step(chain)),
        "member" => member_step(alloc, chain, out, &words),
        _ => Ok(false),
    }
}

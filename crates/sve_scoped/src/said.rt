//! What a declaration leaves in a scope, and what is said of it.
ghost use Rattle.std.specs.Prelude.{◌≡◌, IfOk};
ghost use Rattle.sve_scoped.specs.Said.{declared_at, out_if};

use sve_bytes::NoMemory;
use sve_contents::Contents;
use sve_diag::Code;
use sve_known::name_at;
use sve_scope::{Declared, What};
use sve_tree::Word;

/// Says that the type of the name at a token is out for its place (E06), if it is.
///
/// # Errors
/// For want of memory alone.
#[tactic(auto, unfolding(crate::specs::Said::out_if))]
pub fn out_if(
    words: &[Word],
    contents: Contents,
    token: u32,
    is_out: bool,
) -> Result<Contents, NoMemory>
    ensures { IfOk result (λ c. c ≡ out_if words.now contents token is_out) }
{
    if !is_out {
        return Ok(contents);
    }
    match name_at(words, token) {
        Some(name) => contents.remarked(token, Code::E06, name.copy()?),
        None => Ok(contents),
    }
}

/// A declaration of the name at a token, which is seen from another on: behind its value for a parameter (IEEE 1800-2017, 23.9). Where no
/// name stands there nothing is declared.
///
/// # Errors
/// For want of memory alone.
#[tactic(auto, unfolding(crate::specs::Said::declared_at))]
pub fn declared_at(
    words: &[Word],
    contents: Contents,
    token: u32,
    what: What,
    from: u32,
) -> Result<Contents, NoMemory>
    ensures { IfOk result (λ c. c ≡ declared_at words.now contents token what from) }
{
    match name_at(words, token) {
        Some(name) => {
            let at = contents.spot(token)?;
            contents.declared(Declared {
                name: name.copy()?,
                what,
                at,
                from,
            })
        }
        None => Ok(contents),
    }
}

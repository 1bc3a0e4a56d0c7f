//! Names of which something is said.
ghost use Rattle.std.specs.Prelude.{◌≡◌, IfOk};
ghost use Rattle.sve_child.specs.Saying.{all_said, token_said};

use sve_bytes::NoMemory;
use sve_contents::Contents;
use sve_diag::Code;
use sve_known::name_at;
use sve_tree::Word;

/// Says this of the name at a token. Of a token without a name nothing is said.
///
/// # Errors
/// For want of memory alone.
pub fn token_said(
    words: &[Word],
    contents: Contents,
    code: Code,
    token: u32,
) -> Result<Contents, NoMemory>
    ensures { IfOk result (λ c. c ≡ token_said words.now code contents token) }
{
    match name_at(words, token) {
        Some(name) => contents.remarked(token, code, name.copy()?),
        None => Ok(contents),
    }
}

/// Says it of the names at these tokens, in their order.
///
/// # Errors
/// For want of memory alone.
pub fn all_said(
    words: &[Word],
    contents: Contents,
    code: Code,
    tokens: &[u32],
) -> Result<Contents, NoMemory>
    ensures { IfOk result (λ c. c ≡ all_said words.now code contents tokens.now) }
{
    let mut contents = contents;
    'tokens: for token in tokens {
        contents = token_said(words, contents, code, *token)?;
    }
    Ok(contents)
}

//! Uses of plain names, token by token.
ghost use Rattle.std.specs.Prelude.{◌≡◌, ◌+◌, ◌-◌, IfOk, option_map};
ghost use Rattle.sve_enumerated.specs.Passing.{has_kind, is_colons, is_link, is_plain_name, passed_to, used_at, used_from, word_before};

use sve_bytes::NoMemory;
use sve_contents::Contents;
use sve_token::Kind;
use sve_tree::Word;

/// A scope, whose text was looked through up to a token.
#[derive(Drop)]
pub struct Passed {
    /// The scope, and what is to be said of it.
    pub contents: Contents,
    /// The last token that was looked at, in the chunk of the scope's text.
    pub at: u32,
}

/// Whether a word stands in front of the name of a member, of an argument, or of a package's name.
fn is_link(word: Option<&Word>) -> bool
    ensures { result ≡ has_kind is_link (option_map (λ w. w.now) word.entry) }
{
    match word {
        Some(word) => word.kind == Kind::ColonColon || word.kind == Kind::Dot,
        None => false,
    }
}

/// Whether a word stands behind the name of a package.
fn is_colons(word: Option<&Word>) -> bool
    ensures { result ≡ has_kind is_colons (option_map (λ w. w.now) word.entry) }
{
    match word {
        Some(word) => word.kind == Kind::ColonColon,
        None => false,
    }
}

/// The word in front of a token.
fn word_before(words: &[Word], token: u32) -> Option<&Word>
    ensures { option_map (λ w. w.now) result ≡ word_before words.now token }
{
    if token == 0 {
        return None;
    }
    words.get(token as usize - 1)
}

/// Whether an identifier at a token is a plain name: neither a package, nor a name of one, nor a name behind a dot.
fn is_plain_name(words: &[Word], token: u32) -> bool
    ensures { result ≡ is_plain_name words.now token }
{
    !is_link(word_before(words, token)) && !is_colons(words.get(token as usize + 1))
}

/// The scope behind a token of its text.
#[tactic(auto, unfolding(crate::specs::Passing::used_at))]
fn used_at(words: &[Word], contents: Contents, token: u32) -> Result<Contents, NoMemory>
    ensures { IfOk result (λ c. c ≡ used_at words.now contents token) }
{
    if is_plain_name(words, token) {
        contents.with_use(words, token)
    } else {
        Ok(contents)
    }
}

/// The scope behind the tokens between two others.
#[tactic(auto, using(crate::proofs::Tokens::used_step, crate::proofs::Tokens::used_end))]
fn used_between(
    words: &[Word],
    contents: Contents,
    after: u32,
    until: u32,
) -> Result<Contents, NoMemory>
    ensures { IfOk result (λ c. c ≡ used_from words.now contents (after + 1) (until - (after + 1))) }
{
    let mut contents = contents;
    'tokens: for token in after as usize + 1..until as usize {
        contents = used_at(words, contents, token as u32)?;
    }
    Ok(contents)
}

impl Passed {
    /// The scope, whose text was looked through up to another token, which is no use. Each plain name in between is one: where it is
    /// found through an import of all names of a package, that import has taken effect for it (IEEE 1800-2017, 26.3).
    ///
    /// # Errors
    /// For want of memory alone.
    pub fn to(self, words: &[Word], token: u32) -> Result<Passed, NoMemory>
        ensures { IfOk result (λ p. p ≡ passed_to words.now self token) }
    {
        let Passed { contents, at } = self;
        Ok(Passed {
            contents: used_between(words, contents, at, token)?,
            at: token,
        })
    }
}

ghost use Rattle.std.specs.Prelude.{◌≡◌, ◌<◌, ◌≤◌, ◌+◌, ◌^◌, List as Items, drop, length, IfOk};
ghost use Rattle.sve_token.specs.declared.token.Token.{Token};
ghost use Rattle.sve_unit.specs.Chunks.{chunks_of, ends_at, first_size, joined, label_size, parts};

use std::alloc::Global;
use sve_bytes::NoMemory;
use sve_grammar::{is_kind, is_one_of};
use sve_token::{Keyword, Kind, Token};

/// A chunk of a file: some of its tokens, one behind the other.
#[derive(Clone, Copy)]
pub struct Chunk {
    /// The number of its first token in the file, from 0.
    pub from: u32,
    /// The number behind its last token.
    pub to: u32,
}

/// Whether the token at this place ends a chunk.
pub(crate) fn ends_chunk(tokens: &[Token], at: u32) -> bool
    ensures { result ≡ ends_at tokens.now at }
{
    is_one_of(
        tokens,
        at,
        &[
            Kind::Keyword(Keyword::KwEndmodule),
            Kind::Keyword(Keyword::KwEndinterface),
            Kind::Keyword(Keyword::KwEndpackage),
        ],
    )
}

/// How many tokens the label at this place has, where one stands here, else 0.
#[tactic(auto, using(crate::proofs::Places::label_here, crate::proofs::Places::stands_within))]
fn label_size(tokens: &[Token], at: u32) -> u32
    requires within { at ≤ length tokens.now }
    requires few { length tokens.now < 2 ^ 32 }
    ensures size { result ≡ label_size (drop at tokens.now) }
    ensures inside { at + result ≤ length tokens.now }
{
    if is_kind(tokens, at, Kind::Colon) && is_kind(tokens, at + 1, Kind::Identifier) {
        2
    } else {
        0
    }
}

/// The place behind the chunk that begins here.
#[tactic(auto, using(crate::proofs::Places::ended, crate::proofs::Places::passed, crate::proofs::Places::behind))]
fn chunk_end(tokens: &[Token], from: u32) -> u32
    requires here { from < length tokens.now }
    requires few { length tokens.now < 2 ^ 32 }
    ensures size { result ≡ from + first_size (drop from tokens.now) }
    ensures further { from < result }
    ensures inside { result ≤ length tokens.now }
{
    for at in from..tokens.len() as u32 {
        if ends_chunk(tokens, at) {
            let label = label_size(tokens, at + 1);
            return at + 1 + label;
        }
    }
    tokens.len() as u32
}

/// The chunks of a file: its tokens are cut behind each `endmodule`, `endinterface` and `endpackage` with the label that follows
/// it (IEEE 1800-2017, A.1.2). Tokens behind the last of these words are the last chunk.
///
/// # Errors
/// For want of memory alone.
pub fn chunks(alloc: Global, tokens: &[Token]) -> Result<Vec<Chunk>, NoMemory>
    requires few { length tokens.now < 2 ^ 32 }
    ensures { IfOk result (λ chunks. chunks.items ≡ chunks_of tokens.now) }
{
    let mut chunks = Vec::new(alloc);
    let mut from = 0;
    'cut: while from < tokens.len() as u32 {
        let to = chunk_end(tokens, from);
        chunks.push(Chunk { from, to })?;
        from = to;
    }
    Ok(chunks)
}

/// No token is lost, and none is moved: the chunks of a file, joined, are its tokens.
pub fn chunks_are_the_tokens()
    ensures { (ts : Items Token) → joined (parts ts) ≡ ts }
{}

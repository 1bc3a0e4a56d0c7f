//! What the values of files are made of, once the values that they need are there.
ghost use Rattle.std.specs.Prelude.{◌≡◌, ◌<◌, ◌^◌, length, IfOk};
ghost use Rattle.std.specs.List.{slice_get};
ghost use Rattle.sve_lex.specs.Tokens.{tokens};
ghost use Rattle.sve_unit.specs.Chunks.{chunks_of};
ghost use Rattle.sve_make.specs.Make.{part_of, reading_at, reading_of};

use std::alloc::{AllocError, Global};
use std::sync::Arc;
use sve_bytes::{List, NetType, NoMemory};
use sve_diag::Diag;
use sve_element::element;
use sve_grammar::Stop;
use sve_key::{FileChunks, FileTokens, Reading};
use sve_lex::lex;
use sve_origin::Expanded;
use sve_token::Token;
use sve_unit::{Chunk, chunks};

fn copies(alloc: Global, diags: &[Diag]) -> Result<List<Diag>, NoMemory>
    ensures { IfOk result (λ all. all ≡ diags.now) }
{
    let mut all = Vec::with_capacity(alloc, diags.len())?;
    'copies: for diag in diags {
        all.push(diag.copy()?)?;
    }
    Ok(List::of(all))
}

fn net_copies(alloc: Global, pairs: &[(u32, NetType)]) -> Result<List<(u32, NetType)>, NoMemory>
    ensures { IfOk result (λ all. all ≡ pairs.now) }
{
    let mut all = Vec::with_capacity(alloc, pairs.len())?;
    'copies: for pair in pairs {
        all.push((pair.0, pair.1))?;
    }
    Ok(List::of(all))
}

/// The tokens of an expanded text, fewer than its bytes.
#[tactic(auto, using(crate::proofs::Counts::few_tokens))]
fn lexed(alloc: Global, text: &Expanded) -> Result<List<Token>, NoMemory>
    ensures tokens { IfOk result (λ ts. ts ≡ tokens text.now.cells) }
    ensures few { IfOk result (λ ts. length ts < 2 ^ 32) }
{
    let _ = text.bytes();
    lex(alloc, text)
}

/// The tokens of an expanded text, with what the expansion has to say.
pub fn file_tokens(alloc: Global, text: &Expanded) -> Result<FileTokens, NoMemory>
    ensures { IfOk result (λ file. file ≡ record { tokens = tokens text.now.cells; diags = text.now.diags; net_types = text.now.net_types }) }
{
    let tokens = lexed(alloc, text)?;
    let diags = copies(alloc, text.diags())?;
    let net_types = net_copies(alloc, text.net_types())?;
    Ok(FileTokens::of(tokens, diags, net_types))
}

/// The chunks of a file's tokens.
#[tactic(auto, using(sve_front::proofs::Parts::few_chunks))]
pub fn file_chunks(alloc: Global, tokens: &[Token]) -> Result<FileChunks, NoMemory>
    requires few { length tokens.now < 2 ^ 32 }
    ensures { IfOk result (λ all. all ≡ chunks_of tokens.now) }
{
    let all = chunks(alloc, tokens)?;
    Ok(FileChunks::of(List::of(all)))
}

/// The tokens of a chunk; one that does not lie among the tokens has none. It takes no memory.
pub fn chunk_tokens(tokens: &[Token], chunk: Chunk) -> &[Token]
    requires few { length tokens.now < 2 ^ 32 }
    ensures part { result.now ≡ part_of tokens.now chunk }
    ensures few { length result.now < 2 ^ 32 }
{
    let (from, to) = (chunk.from as usize, chunk.to as usize);
    if from <= to && to <= tokens.len() {
        &tokens[from..to]
    } else {
        &[]
    }
}

/// What the tokens of a chunk are read as.
#[tactic(auto, using(crate::proofs::OfWords::of_words, crate::proofs::OfWords::whole_reads, crate::proofs::OfWords::stop_reads))]
fn reading_of(alloc: Global, tokens: &[Token]) -> Result<Reading, NoMemory>
    requires few { length tokens.now < 2 ^ 32 }
    ensures { IfOk result (λ reading. reading ≡ reading_of tokens.now) }
{
    match element(alloc, tokens) {
        Ok(element) => Ok(Reading::whole(Arc::new(alloc, element)?)),
        Err(Stop::At { index, deep }) => Ok(Reading::stopped(index, deep)),
        Err(Stop::NoMemory) => Err(AllocError),
    }
}

/// What the chunk with this number is read as; one that is not there stops at its front.
pub fn file_reading(
    alloc: Global,
    tokens: &[Token],
    chunks: &[Chunk],
    n: u32,
) -> Result<Reading, NoMemory>
    requires few { length tokens.now < 2 ^ 32 }
    ensures { IfOk result (λ reading. reading ≡ reading_at tokens.now (slice_get chunks.now n)) }
{
    match chunks.get(n as usize) {
        Some(chunk) => reading_of(alloc, chunk_tokens(tokens, *chunk)),
        None => Ok(Reading::stopped(0, false)),
    }
}

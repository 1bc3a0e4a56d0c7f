//! The text of a unit, cut into tokens and chunks.
ghost use Rattle.std.specs.Prelude.{◌≡◌, ◌<◌, ◌^◌, length, IfOk};
ghost use Rattle.sve_lex.specs.Tokens.{Rise, starts, tokens};
ghost use Rattle.sve_unit.specs.Chunks.{chunks_of};
ghost use Rattle.sve_front.specs.Expansions.{expanded};
ghost use Rattle.sve_front.specs.Units.{file_end, unit_nets, unit_tokens};

use crate::nets::nets_at;
use crate::unit::file_end;
use std::alloc::Global;
use sve_bytes::{List, Name, NetType, NoMemory};
use sve_diag::Place;
use sve_lex::{Lexed, lex_with_starts};
use sve_prep::Expanded;
use sve_text::Files;
use sve_token::Token;
use sve_unit::{Chunk, chunks};

/// A unit without its trees.
#[derive(Drop)]
pub(crate) struct Cut {
    /// The name of the file.
    pub(crate) file: Name,
    /// The end of the file.
    pub(crate) end: Place,
    /// Its tokens.
    pub(crate) tokens: List<Token>,
    /// Its chunks, in order.
    pub(crate) chunks: List<Chunk>,
    /// The net type in force where each of its tokens begins.
    pub(crate) nets: List<NetType>,
}

/// The tokens of an expanded text, and where they begin. They are fewer than its bytes.
#[tactic(auto, using(crate::proofs::Counts::few_tokens))]
fn lexed(alloc: Global, text: &Expanded) -> Result<Lexed, NoMemory>
    ensures tokens { IfOk result (λ l. l.tokens ≡ tokens text.now.cells) }
    ensures starts { IfOk result (λ l. l.starts ≡ starts text.now.cells) }
    ensures rise { IfOk result (λ l. Rise 0 l.starts) }
    ensures few { IfOk result (λ l. length l.tokens < 2 ^ 32) }
{
    let _ = text.bytes();
    lex_with_starts(alloc, text)
}

/// What a unit whose text is expanded is cut into.
pub(crate) fn cut_of(
    alloc: Global,
    files: &Files,
    name: &Name,
    text: &Expanded,
) -> Result<Cut, NoMemory>
    requires { text.now ≡ expanded files.now.rows name.now }
    ensures file { IfOk result (λ cut. cut.file ≡ name.now) }
    ensures end { IfOk result (λ cut. cut.end ≡ file_end files.now.rows name.now) }
    ensures tokens { IfOk result (λ cut. cut.tokens ≡ unit_tokens files.now.rows name.now) }
    ensures few { IfOk result (λ cut. length cut.tokens < 2 ^ 32) }
    ensures chunks { IfOk result (λ cut. cut.chunks ≡ chunks_of cut.tokens) }
    ensures nets { IfOk result (λ cut. cut.nets ≡ unit_nets files.now.rows name.now) }
{
    let Lexed { tokens, starts } = lexed(alloc, text)?;
    let nets = nets_at(alloc, text.net_types(), starts.items())?;
    let chunks = List::of(chunks(alloc, tokens.items())?);
    Ok(Cut {
        file: name.copy()?,
        end: file_end(files, name)?,
        tokens,
        chunks,
        nets,
    })
}

//! A file's tokens cut into chunks, and the diagnostic of a chunk that the grammar refuses.
#![tactic(auto)]

mod chunk;
mod stop;

pub use chunk::{Chunk, chunks, chunks_are_the_tokens};
pub use stop::{end_mark, place_at, stop_diag};

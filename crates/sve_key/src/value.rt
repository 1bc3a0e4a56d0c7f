ghost use Rattle.std.specs.Prelude.{◌≡◌, ◌<◌, ◌^◌, length, is_some, IfOk};
ghost use Rattle.sve_prep.specs.Told.{IsShort, text_in};
ghost use Rattle.sve_key.specs.Values.{text_in_value, names_in_value, file_in_value, chunks_in_value, reading_in_value, stop_in, tops_in_value, notes_in_value};

use crate::file_chunks::FileChunks;
use crate::file_text::FileText;
use crate::file_tokens::FileTokens;
use crate::reading::Reading;
use std::sync::Arc;
use sve_bytes::{List, Name, NoMemory};
use sve_diag::{Diag, Note};
use sve_index::Index;
use sve_token::Token;
use sve_unit::Chunk;

/// What a key stands for at some files, by the kind of the key.
pub enum Value {
    /// The text of a file.
    Text(FileText),
    /// The names of the files that are there, in byte order, each once.
    Names(List<Name>),
    /// The tokens of a file.
    Tokens(FileTokens),
    /// The chunks of a file, in order.
    Chunks(FileChunks),
    /// What a chunk is read as.
    Element(Reading),
    /// The index of the design.
    Index(Index),
}

impl Drop for Value {
    fn drop(self) {
        match self {
            Value::Text(_) => {}
            Value::Names(_) => {}
            Value::Tokens(_) => {}
            Value::Chunks(_) => {}
            Value::Element(_) => {}
            Value::Index(_) => {}
        }
    }
}

impl Value {
    /// The text that it is, shared; none where it is no text.
    ///
    /// # Errors
    /// For want of memory alone.
    pub fn text(&self) -> Result<Option<Arc<List<u8>>>, NoMemory>
        ensures text { IfOk result (λ text. text_in text ≡ (text_in_value self.now).text) }
        ensures short { IfOk result IsShort }
    {
        match self {
            Value::Text(text) => text.share(),
            _ => Ok(None),
        }
    }

    /// Whether it is a text that is there. It takes no memory.
    pub fn is_there(&self) -> bool
        ensures { result ≡ is_some (text_in_value self.now).text }
    {
        match self {
            Value::Text(text) => text.bytes().is_some(),
            _ => false,
        }
    }

    /// The names that it is; none where it is something else. It takes no memory.
    pub fn names(&self) -> &[Name]
        ensures { result.now ≡ names_in_value self.now }
    {
        match self {
            Value::Names(names) => names.items(),
            _ => &[],
        }
    }

    /// The tokens that it has; none where it has none. It takes no memory.
    pub fn tokens(&self) -> &[Token]
        ensures tokens { result.now ≡ (file_in_value self.now).tokens }
        ensures few { length result.now < 2 ^ 32 }
    {
        match self {
            Value::Tokens(file) => file.tokens(),
            _ => &[],
        }
    }

    /// The diagnostics of an expansion that it has; none where it has none. It takes no memory.
    pub fn diags(&self) -> &[Diag]
        ensures { result.now ≡ (file_in_value self.now).diags }
    {
        match self {
            Value::Tokens(file) => file.diags(),
            _ => &[],
        }
    }

    /// The chunks that it is; none where it is something else. It takes no memory.
    pub fn chunks(&self) -> &[Chunk]
        ensures chunks { result.now ≡ chunks_in_value self.now }
        ensures few { length result.now < 2 ^ 32 }
    {
        match self {
            Value::Chunks(chunks) => chunks.items(),
            _ => &[],
        }
    }

    /// Where the grammar stops in the chunk, if it does; a value of another kind is as a chunk that is not there, which stops at its
    /// front. It takes no memory.
    pub fn stop(&self) -> Option<(u32, bool)>
        ensures { result ≡ stop_in (reading_in_value self.now) }
    {
        match self {
            Value::Element(reading) => reading.stop(),
            _ => Some((0, false)),
        }
    }

    /// The tops of an index; none where it is something else. It takes no memory.
    pub fn tops(&self) -> &[Name]
        ensures { result.now ≡ tops_in_value self.now }
    {
        match self {
            Value::Index(index) => index.tops.items(),
            _ => &[],
        }
    }

    /// The notes of an index; none where it is something else. It takes no memory.
    pub fn notes(&self) -> &[Note]
        ensures { result.now ≡ notes_in_value self.now }
    {
        match self {
            Value::Index(index) => index.diags.items(),
            _ => &[],
        }
    }
}

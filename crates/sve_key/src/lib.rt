//! Keys over the files of a revision, and what they stand for.
#![tactic(auto)]

mod file_chunks;
mod file_text;
mod file_tokens;
mod key;
mod reading;
mod same;
mod threads;
mod value;

pub use file_chunks::FileChunks;
pub use file_text::FileText;
pub use file_tokens::FileTokens;
pub use key::Key;
pub use reading::Reading;
pub use value::Value;

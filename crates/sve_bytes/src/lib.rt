//! Names and lists of bytes, the vocabulary of every layer above.
#![tactic(auto)]

mod bytes;
mod direction;
mod file_name;
mod keyword;
mod laws;
mod list;
mod name;
mod net_type;
mod path;
mod path_order;
mod path_reading;
mod position;
mod span;

pub use bytes::{
    begins_identifier, continues_identifier, identifier_len, identifier_rest_len, is_white_space,
    white_space_len,
};
pub use direction::Dir;
pub use file_name::is_file_name;
pub use keyword::{Keyword, is_keyword, keywords_from};
pub use laws::trees_are_ordered;
pub use list::List;
pub use name::{BadName, Name};
pub use net_type::NetType;
pub use path::{Path, Step};
pub use path_reading::BadPath;
pub use position::line_col;
pub use span::Span;

/// Want of memory, where it is all that can go wrong in a call.
pub type NoMemory = std::alloc::AllocError;

ghost use Rattle.std.specs.Prelude.{◌≡◌, Option, option_map};
ghost use Rattle.sve_index.specs.Sources.{called, element_in, name_at};

use std::sync::Arc;
use sve_bytes::Name;
use sve_tree::{Element, Word};

/// The element of a chunk, and where the chunk stands.
pub struct FileElement {
    /// The name of the file.
    pub file: Name,
    /// The number of the chunk in its file, from 0.
    pub chunk: u32,
    /// The element.
    pub element: Arc<Element>,
}

impl Drop for FileElement {
    fn drop(self) {
        let FileElement {
            file: _,
            chunk: _,
            element: _,
        } = self;
    }
}

impl FileElement {
    /// The element. It takes no memory.
    pub fn element(&self) -> &Element
        ensures { result.now ≡ element_in self.now }
    {
        &self.element
    }
}

/// The name that the word of this number is, where it is one.
pub(crate) fn name_at(words: &[Word], token: u32) -> Option<&Name>
    ensures { option_map (λ n. n.now) result ≡ name_at words.now token }
{
    match words.get(token as usize) {
        Some(word) => word.name(),
        None => None,
    }
}

/// The name that is told by the word of this number, where there is a number.
pub(crate) fn called(words: &[Word], token: Option<u32>) -> Option<&Name>
    ensures { option_map (λ n. n.now) result ≡ called words.now token }
{
    match token {
        Some(token) => name_at(words, token),
        None => None,
    }
}

ghost use Rattle.std.specs.Prelude.{◌≡◌};
ghost use Rattle.sve_text.specs.Files.{name_of};

use sve_bytes::Name;
use sve_rope::Text;

/// The greatest length of a file's text, in bytes (own).
pub const MAX_FILE_LEN: usize = 1_048_576;

/// The greatest number of files that are there at once (own).
pub const MAX_FILES: usize = 2_048;

/// One change of a commit to one file. Offsets and lengths count bytes.
pub enum Edit {
    /// The file has this text from now on, whether or not it was there (own).
    Put {
        name: Name,
        text: Text,
    },
    /// The file, which is there, is there no longer (own).
    Drop {
        name: Name,
    },
    /// In the file, which is there, `text` takes the place of the `cut` bytes that begin at offset `at`.
    /// `base` is the revision whose commit last touched the file, unless an earlier edit of this commit
    /// names it (own).
    Splice {
        name: Name,
        base: u64,
        at: u32,
        cut: u32,
        text: Text,
    },
}

impl Drop for Edit {
    fn drop(self) {
        match self {
            Edit::Put { name: _, text: _ } => {}
            Edit::Drop { name: _ } => {}
            Edit::Splice {
                name: _,
                base: _,
                at: _,
                cut: _,
                text: _,
            } => {}
        }
    }
}

impl Edit {
    /// The name of the file that the edit touches.
    pub(crate) fn name(&self) -> &Name
        ensures { result.now ≡ name_of self.now }
    {
        match self {
            Edit::Put { name, .. } => name,
            Edit::Drop { name } => name,
            Edit::Splice { name, .. } => name,
        }
    }
}

/// What an ask wants where a newer revision comes while it is answered (own).
#[derive(Clone, Copy, PartialEq, Eq)]
pub enum Mode {
    /// It may be cancelled.
    Latest,
    /// It is answered at the revision at which it began.
    Pinned,
}

//! What a refused commit is told.
/// Why a commit is refused: one of its edits, counted from 1, and what speaks against it.
#[derive(Clone, Copy, PartialEq, Eq)]
pub struct Refusal {
    pub edit: u32,
    pub why: Why,
}

/// What speaks against an edit (own). Where several of these do, the one that stands first here is told.
#[derive(Clone, Copy, PartialEq, Eq)]
pub enum Why {
    /// A drop or a splice names a file that is not there.
    NoFile,
    /// A splice is the first edit of its commit that names the file, and its base is not the file's
    /// stamp, which is this.
    Stale { stamp: u64 },
    /// A splice reaches beyond the end of the text, whose length in bytes is this.
    Range { length: u32 },
    /// The text would have so many bytes, above 1,048,576.
    FileTooLarge { bytes: u64 },
    /// A put names a file that is not there, where 2,048 files are.
    TooManyFiles,
}

ghost use Rattle.std.specs.Prelude.{◌≡◌, ◌+◌, ◌≤◌, count_by, length};
ghost use Rattle.sve_bytes.specs.LineColumn.{is_line_feed};
ghost use Rattle.sve_origin.specs.Origins.{moved};
ghost use Rattle.sve_unread.specs.Bytes.{line_past};

use std::sync::Arc;
use sve_bytes::{List, Name};

/// A text that is being read.
#[derive(Drop)]
pub(crate) struct Frame {
    pub text: Arc<List<u8>>,
    /// How many bytes of it are read.
    pub at: usize,
    /// Where its first byte comes from, and whether the others come from the offsets behind.
    pub file: Name,
    pub offset: u32,
    pub copied: bool,
    /// The line of its next byte, from 1.
    pub line: u32,
    /// The macros from whose results it comes, the innermost first.
    pub macros: List<Name>,
    /// How many includes lead to it.
    pub level: u32,
}

fn line_feeds(text: &[u8]) -> usize
    ensures count { result ≡ count_by is_line_feed text.now }
    ensures bound { result ≤ length text.now }
{
    text.iter().filter(|b| **b == b'\n').count()
}

impl Frame {
    ghost use Rattle.sve_unread.specs.Frames.{frame_origin, IsOpen, passed};
    ghost use Rattle.sve_origin.specs.Origins.{moved};

    /// The offset of its next byte.
    pub fn offset_now(&self) -> u32
        requires { IsOpen self.now }
        ensures { result ≡ (moved self.now.at (frame_origin self.now)).offset }
    {
        if self.copied {
            self.offset + self.at as u32
        } else {
            self.offset
        }
    }

    /// The offset behind its last byte, or that of all bytes.
    pub fn end_offset(&self) -> u32
        requires { IsOpen self.now }
        ensures { result ≡ (moved (length self.now.text.value) (frame_origin self.now)).offset }
    {
        if self.copied {
            self.offset + self.text.items().len() as u32
        } else {
            self.offset
        }
    }

    /// The line behind its next bytes.
    fn line_behind(&self, count: usize) -> u32
        requires open { IsOpen self.now }
        requires within { self.now.at + count ≤ length self.now.text.value }
        ensures { result ≡ (passed count self.now).line }
    {
        if self.copied {
            let text = self.text.items();
            self.line + line_feeds(&text[self.at..self.at + count]) as u32
        } else {
            self.line
        }
    }

    /// Goes on by some bytes.
    pub fn pass(&mut self, count: usize)
        requires open { IsOpen self.old }
        requires within { self.old.at + count ≤ length self.old.text.value }
        ensures { self.new ≡ passed count self.old }
    {
        self.line = self.line_behind(count);
        self.at += count;
    }
}

ghost use Rattle.std.specs.Prelude.{◌≡◌, ◌∷◌, ◌++◌, [], length, IfOk};
ghost use Rattle.sve_report.specs.Lines.{text_of_lines, barred, Lacks};

use crate::cutting::add_cut;
use memchr::memchr;
use std::alloc::Global;
use std::marker::Model;
use sve_bytes::{List, NoMemory};
use sve_text::Piece;

/// The lines of an answer. They are held as one text, in which a line feed ends each of them.
#[derive(Drop)]
pub struct Lines {
    text: Vec<u8>,
    count: usize,
}

impl Model for Lines {
    ghost use Rattle.std.specs.Prelude.{◌≡◌, ℕ, List, length};
    ghost use Rattle.sve_report.specs.Lines.{lines_in, text_of_lines};

    ghost Value = { List (List ℕ) };

    ghost view = { λ l. lines_in l.text.items };

    ghost invariant = { λ l. (text_of_lines (lines_in l.text.items) ≡ l.text.items) × (l.count ≡ length (lines_in l.text.items)) };
}

impl Lines {
    /// No lines.
    pub fn none(alloc: Global) -> Lines
        ensures { result ≡ [] }
    {
        Lines {
            text: Vec::new(alloc),
            count: 0,
        }
    }

    /// How many lines there are. It takes no memory.
    pub fn count(&self) -> usize
        ensures { result ≡ length self.now }
    {
        self.count
    }

    /// The lines as one text, each with a line feed behind it. It takes no memory.
    pub fn text(&self) -> &[u8]
        ensures { result.now ≡ text_of_lines self.now }
    {
        self.text.as_slice()
    }

    /// These lines and one more, on condition that it has no line feed.
    pub fn with_line(self, line: &[u8]) -> Result<Lines, NoMemory>
        requires one_line { Lacks 10 line.now }
        ensures { IfOk result (λ l. l ≡ self ++ line.now ∷ []) }
    {
        let Lines { mut text, count } = self;
        text.extend_from_slice(line)?;
        text.push(b'\n')?;
        Ok(Lines {
            text,
            count: count + 1,
        })
    }

    /// These lines and, each after a bar, those of the text. A text that ends with a line feed has an empty last line.
    pub fn with_text(self, piece: &Piece<'_>) -> Result<Lines, NoMemory>
        ensures { IfOk result (λ l. l ≡ self ++ barred piece.now) }
    {
        let Lines { mut text, count } = self;
        let line_feeds = add_cut(&mut text, piece)?;
        Ok(Lines {
            text,
            count: count + line_feeds + 1,
        })
    }

    /// The same lines, each as a text of its own.
    ///
    /// # Errors
    /// Only for want of memory.
    pub fn into_list(self, alloc: Global) -> Result<List<List<u8>>, NoMemory>
        ensures { IfOk result (λ list. list ≡ self) }
    {
        let Lines { text, count: _ } = self;
        let mut lines = Vec::new(alloc);
        let mut at = 0usize;
        'lines: while let Some(length) = memchr(b'\n', &text[at..]) {
            let end = at + length;
            lines.push(List::of(Vec::from_slice(alloc, &text[at..end])?))?;
            at = end + 1;
        }
        Ok(List::of(lines))
    }
}

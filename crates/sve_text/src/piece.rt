ghost use Rattle.std.specs.Prelude.{◌≡◌, ◌<◌, length, take, drop};

use std::marker::Model;
use sve_rope::Text;

/// A text, as that of a file, lent from what holds it.
#[derive(Drop)]
pub struct Piece<'a> {
    lent: Lent<'a>,
}

/// What a piece is lent from.
#[derive(Drop)]
pub(crate) enum Lent<'a> {
    Bytes(&'a [u8]),
    Whole(&'a Text),
}

impl<'a> Model for Piece<'a> {
    ghost use Rattle.std.specs.Prelude.{ℕ, List};
    ghost use Rattle.sve_text.specs.Piece.{bytes_lent};

    ghost Value = { List ℕ };

    ghost view = { λ p. bytes_lent p.lent };
}

impl<'a> Piece<'a> {
    /// The piece that is these bytes, in one run. It takes no memory.
    pub fn of(bytes: &'a [u8]) -> Piece<'a>
        ensures { result ≡ bytes.now }
    {
        Piece {
            lent: Lent::Bytes(bytes),
        }
    }

    /// The piece that is this text. It takes no memory.
    pub fn of_text(text: &'a Text) -> Piece<'a>
        ensures { result ≡ text.now }
    {
        Piece {
            lent: Lent::Whole(text),
        }
    }

    /// The length of the text, in bytes. It takes no memory.
    pub fn len(&self) -> usize
        ensures { result ≡ length self.now }
    {
        match &self.lent {
            Lent::Bytes(bytes) => bytes.len(),
            Lent::Whole(text) => text.len(),
        }
    }

    /// Some of the text from this offset on, at least one byte of it, on condition that the offset is
    /// below the length. A text may lie in several runs. It takes no memory.
    pub fn run(&self, at: usize) -> &[u8]
        requires { at < length self.now }
        ensures some { 0 < length result.now }
        ensures run { result.now ≡ take (length result.now) (drop at self.now) }
    {
        match &self.lent {
            Lent::Bytes(bytes) => &bytes[at..],
            Lent::Whole(text) => text.run(at),
        }
    }
}

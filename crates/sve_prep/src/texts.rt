ghost use Rattle.std.specs.Prelude.{◌≡◌, ℕ, ◌⊎◌, List, Option, Some, IfOk, IfErr, OnOk};
ghost use Rattle.sve_prep.specs.Told.{TellSame, text_in, noted, IsShort, HasStopped, IsMissing};

use std::sync::Arc;
use sve_bytes::{List, Name};
use sve_io::Halt;

/// Where the texts of files come from. What reads through it is proved over any such object: over one that tells the
/// text of every name, over one that tells some and notes for which it was asked, and over one that stops in between.
pub trait Texts {
    // What the object tells of a name: that no file of it is there, or the text of the file.
    ghost tells: { Self → List ℕ → Option (List ℕ) → Type 0 };

    // The two are the same object but for its notes.
    ghost keeps: { Self → Self → Type 0 };

    // The name at which it halted for want of a text, where it did.
    ghost halted: { Self → Option (List ℕ) };

    // The numbers with which it stopped calls, in order.
    ghost stops: { Self → List ℕ };

    // The names for which it was asked, in order, where it notes them.
    ghost asked: { Self → Option (List (List ℕ)) };

    /// The text of a file of at most 1,048,576 bytes, or `None` where no file of this name is there.
    ///
    /// # Errors
    /// `Stopped` with a number of the object's own, or `NoMemory`.
    fn text(&mut self, name: &Name) -> Result<Option<Arc<List<u8>>>, Halt>
        // What it tells stays, and so does all but its notes.
        ensures tells { TellSame (tells self.old) (tells self.new) }
        ensures keeps { keeps self.old self.new }

        // It answers what it tells.
        ensures found { IfOk result (λ text. tells self.old name.now (text_in text)) }
        ensures short { IfOk result IsShort }
        ensures asked { OnOk result (asked self.new ≡ noted name.now (asked self.old)) }

        // It halts only at a name of which it tells nothing, and the number of a stop is kept.
        ensures not_halted { OnOk result (halted self.new ≡ halted self.old) }
        ensures halted { (other : List ℕ) → halted self.new ≡ Some other
            → (halted self.old ≡ Some other) ⊎ IsMissing (tells self.old) (asked self.old) (asked self.new) name.now result other }
        ensures stopped { IfErr result (HasStopped (stops self.old) (stops self.new)) }
        ensures not_stopped { OnOk result (stops self.new ≡ stops self.old) };

    // Each object is the same as itself, and what is the same as the same is the same.
    ghost keeps_itself: { (texts : Self) → keeps texts texts };

    ghost keeps_on: { (old now new : Self) → keeps old now → keeps now new → keeps old new };
}

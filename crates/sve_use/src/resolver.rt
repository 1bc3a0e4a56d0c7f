ghost use Rattle.std.specs.Prelude.{◌≡◌, OnOk};
ghost use Rattle.sve_use.specs.Use.{Called, Dotted, Named, Use, applied};

use sve_bytes::NoMemory;
use sve_tree::{Postfix, ScopedName, Select};

/// What each name that is used is handed to, in the order of the text. Tokens are named by their numbers in the chunk.
pub trait Resolver {
    // What it becomes with one more use.
    ghost after: { Self → Use → Self };

    /// A name by itself, or one of a package, whatever is applied to it: a value, a type of a cast or of a pattern
    /// (IEEE 1800-2017, 23.9 and 26.3).
    ///
    /// # Errors
    /// For want of memory alone.
    fn named(&mut self, name: ScopedName) -> Result<(), NoMemory>
        ensures { OnOk result (self.new ≡ after self.old (Named name)) };

    /// The name of a function that is called (13.4).
    ///
    /// # Errors
    /// For want of memory alone.
    fn called(&mut self, name: ScopedName) -> Result<(), NoMemory>
        ensures { OnOk result (self.new ≡ after self.old (Called name)) };

    /// A plain name with all that is applied to it, where a member is among the selects that come first: a hierarchical name, or a
    /// part of a structure (23.6 and 7.2).
    ///
    /// # Errors
    /// For want of memory alone.
    fn dotted(&mut self, name: u32, postfixes: &[Postfix]) -> Result<(), NoMemory>
        ensures { OnOk result (self.new ≡ after self.old (Dotted name postfixes.now)) };

    /// The same on the left of an assignment.
    ///
    /// # Errors
    /// For want of memory alone.
    fn selected(&mut self, name: u32, selects: &[Select]) -> Result<(), NoMemory>
        ensures { OnOk result (self.new ≡ after self.old (Dotted name (applied selects.now))) };
}

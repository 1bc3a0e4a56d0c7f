//! What lies on the machine's stack, and what one step makes of it.

ghost use Rattle.std.specs.Prelude.{◌≡◌, ◌≤◌};

use crate::part::Part;

/// A part on the stack, and how deep it is.
#[derive(Clone, Copy)]
pub struct Entry {
    /// What is to be read.
    pub part: Part,
    /// How many symbols it stands below, at most 512.
    pub depth: u32,
    ghost shallow: { depth ≤ 512 },
}

impl Entry {
    /// A part at a depth.
    pub fn of(part: Part, depth: u32) -> Entry
        requires { depth ≤ 512 }
        ensures part { result.part ≡ part }
        ensures depth { result.depth ≡ depth }
    {
        Entry { part, depth }
    }
}

/// What a step does with the top of the stack.
#[derive(Clone, Copy)]
pub enum Step {
    /// The next token is taken.
    Token,
    /// The top is taken away.
    Nothing,
    /// This stands in its place.
    One(Entry),
    /// The first of these stands in its place, above the second.
    Two(Entry, Entry),
    /// The machine stops; whether only the depth stands against going on.
    Stop(bool),
}

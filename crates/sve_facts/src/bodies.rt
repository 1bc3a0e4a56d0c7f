ghost use Rattle.std.specs.Prelude.{◌≡◌, ℕ, ◌⊎◌, List, Option, Some, IfErr, IfOk, OnOk};
ghost use Rattle.sve_told.specs.Told.{HasStopped, IsMissing, TellSame, noted};
ghost use Rattle.sve_facts.specs.Bodies.{Answer, CostsWithin, OfBody, OfTops, Question, body_value};

use crate::facts::Facts;
use std::alloc::Global;
use std::sync::Arc;
use sve_bytes::List;
use sve_io::Halt;
use sve_spec::Spec;

/// The body of a specialization, or that it costs more than was allowed.
pub enum Body {
    /// The body, and what it costs: a count of items, declarations, connections and nodes of constant expressions.
    Done {
        /// What is found of it.
        facts: Arc<Facts>,
        /// What it costs.
        cost: u32,
    },
    /// It costs more.
    Over,
}

impl Drop for Body {
    fn drop(self) {
        match self {
            Body::Done { facts: _, cost: _ } => {}
            Body::Over => {}
        }
    }
}

/// Where bodies come from. What reads through it is proved over any such object: over one that elaborates each body anew, over one
/// that keeps what it found, and over one that stops in between.
pub trait Bodies {
    // What the object tells of a question.
    ghost tells: { Self → (question : Question) → Answer question → Type 0 };

    // The two are the same object but for its notes.
    ghost keeps: { Self → Self → Type 0 };

    // The question at which it halted for want of an answer, where it did.
    ghost halted: { Self → Option Question };

    // The numbers with which it stopped calls, in order.
    ghost stops: { Self → List ℕ };

    // The questions that it was asked, in order, where it notes them.
    ghost asked: { Self → Option (List Question) };

    /// The body of a specialization, where it costs no more than `fuel`. A name of no module or interface has a body with nothing
    /// in it, which costs nothing.
    ///
    /// # Errors
    /// `Stopped` with a number of the object's own, or `NoMemory`.
    fn body(&mut self, alloc: Global, spec: &Spec, fuel: u32) -> Result<Body, Halt>
        // What it tells stays, and so does all but its notes.
        ensures tells { TellSame (tells self.old) (tells self.new) }
        ensures keeps { keeps self.old self.new }

        // It answers what it tells, and nothing that costs more than was allowed.
        ensures found { IfOk result (λ body. tells self.old (OfBody spec.now fuel) (body_value body)) }
        ensures within { IfOk result (CostsWithin fuel) }
        ensures asked { OnOk result (asked self.new ≡ noted (OfBody spec.now fuel) (asked self.old)) }

        // It halts only at a question of which it tells nothing, and the number of a stop is kept.
        ensures not_halted { OnOk result (halted self.new ≡ halted self.old) }
        ensures halted { (other : Question) → halted self.new ≡ Some other
            → (halted self.old ≡ Some other) ⊎ IsMissing (tells self.old) (asked self.old) (asked self.new) (OfBody spec.now fuel) result other }
        ensures stopped { IfErr result (HasStopped (stops self.old) (stops self.new)) }
        ensures not_stopped { OnOk result (stops self.new ≡ stops self.old) };

    /// The specializations of the tops, in the order of the index.
    ///
    /// # Errors
    /// `Stopped` with a number of the object's own, or `NoMemory`.
    fn tops(&mut self, alloc: Global) -> Result<List<Spec>, Halt>
        ensures tells { TellSame (tells self.old) (tells self.new) }
        ensures keeps { keeps self.old self.new }
        ensures found { IfOk result (λ tops. tells self.old OfTops tops) }
        ensures asked { OnOk result (asked self.new ≡ noted OfTops (asked self.old)) }
        ensures not_halted { OnOk result (halted self.new ≡ halted self.old) }
        ensures halted { (other : Question) → halted self.new ≡ Some other
            → (halted self.old ≡ Some other) ⊎ IsMissing (tells self.old) (asked self.old) (asked self.new) OfTops result other }
        ensures stopped { IfErr result (HasStopped (stops self.old) (stops self.new)) }
        ensures not_stopped { OnOk result (stops self.new ≡ stops self.old) };

    // Each object is the same as itself, and what is the same as the same is the same.
    ghost keeps_itself: { (bodies : Self) → keeps bodies bodies };

    ghost keeps_on: { (old now new : Self) → keeps old now → keeps now new → keeps old new };
}

ghost use Rattle.std.specs.Arc.{arc_value};
ghost use Rattle.std.specs.Prelude.{◌≡◌, ℕ, ◌⊎◌, List, Option, Some, IfErr, IfOk, OnOk};
ghost use Rattle.sve_told.specs.Told.{HasStopped, IsMissing, TellSame, noted};
ghost use Rattle.sve_look.specs.Questions.{ElementOf, IndexOf, NetAt, PackageOf, PortsOf, Question, Reply, element_in};

use std::sync::Arc;
use sve_bytes::{List, Name, NetType};
use sve_facts::{Facts, Port};
use sve_index::Index;
use sve_io::Halt;
use sve_spec::Spec;
use sve_tree::Element;

/// Where the elaboration of a body reads. What reads through it is proved over any such object: over one that computes each answer,
/// over one that tells some and notes for which it was asked, and over one that stops in between. Each question is that of one key,
/// and has answers of a type of its own.
pub trait Look {
    // What the object tells of a question.
    ghost tells: { Self → (question : Question) → Reply question → Type 0 };

    // The two are the same object but for its notes.
    ghost keeps: { Self → Self → Type 0 };

    // The question at which it halted for want of an answer, where it did.
    ghost halted: { Self → Option Question };

    // The numbers with which it stopped calls, in order.
    ghost stops: { Self → List ℕ };

    // The questions that it was asked, in order, where it notes them.
    ghost asked: { Self → Option (List Question) };

    /// The tree of a chunk of a file, counted from 0; a chunk that is refused has none.
    ///
    /// # Errors
    /// `Stopped` with a number of the object's own, or `NoMemory`.
    fn element(&mut self, file: &Name, chunk: u32) -> Result<Option<Arc<Element>>, Halt>
        // What it tells stays, and so does all but its notes.
        ensures tells { TellSame (tells self.old) (tells self.new) }
        ensures keeps { keeps self.old self.new }

        // It answers what it tells.
        ensures found { IfOk result (λ answer. tells self.old (ElementOf file.now chunk) (element_in answer)) }
        ensures asked { OnOk result (asked self.new ≡ noted (ElementOf file.now chunk) (asked self.old)) }

        // It halts only at a question of which it tells nothing, and the number of a stop is kept.
        ensures not_halted { OnOk result (halted self.new ≡ halted self.old) }
        ensures halted { (other : Question) → halted self.new ≡ Some other
            → (halted self.old ≡ Some other) ⊎ IsMissing (tells self.old) (asked self.old) (asked self.new) (ElementOf file.now chunk) result other }
        ensures stopped { IfErr result (HasStopped (stops self.old) (stops self.new)) }
        ensures not_stopped { OnOk result (stops self.new ≡ stops self.old) };

    /// The net type that is in force at a token of a chunk, counted from 0 in it (IEEE 1800-2017, 22.8).
    ///
    /// # Errors
    /// `Stopped` with a number of the object's own, or `NoMemory`.
    fn net(&mut self, file: &Name, chunk: u32, token: u32) -> Result<NetType, Halt>
        ensures tells { TellSame (tells self.old) (tells self.new) }
        ensures keeps { keeps self.old self.new }
        ensures found { IfOk result (λ answer. tells self.old (NetAt file.now chunk token) answer) }
        ensures asked { OnOk result (asked self.new ≡ noted (NetAt file.now chunk token) (asked self.old)) }
        ensures not_halted { OnOk result (halted self.new ≡ halted self.old) }
        ensures halted { (other : Question) → halted self.new ≡ Some other
            → (halted self.old ≡ Some other) ⊎ IsMissing (tells self.old) (asked self.old) (asked self.new) (NetAt file.now chunk token) result other }
        ensures stopped { IfErr result (HasStopped (stops self.old) (stops self.new)) }
        ensures not_stopped { OnOk result (stops self.new ≡ stops self.old) };

    /// Where modules, interfaces and packages are defined (3.13).
    ///
    /// # Errors
    /// `Stopped` with a number of the object's own, or `NoMemory`.
    fn index(&mut self) -> Result<Arc<Index>, Halt>
        ensures tells { TellSame (tells self.old) (tells self.new) }
        ensures keeps { keeps self.old self.new }
        ensures found { IfOk result (λ answer. tells self.old IndexOf (arc_value answer)) }
        ensures asked { OnOk result (asked self.new ≡ noted IndexOf (asked self.old)) }
        ensures not_halted { OnOk result (halted self.new ≡ halted self.old) }
        ensures halted { (other : Question) → halted self.new ≡ Some other
            → (halted self.old ≡ Some other) ⊎ IsMissing (tells self.old) (asked self.old) (asked self.new) IndexOf result other }
        ensures stopped { IfErr result (HasStopped (stops self.old) (stops self.new)) }
        ensures not_stopped { OnOk result (stops self.new ≡ stops self.old) };

    /// What is found of a package (clause 26). Of one that is not there, or that stands on a cycle of imports or leads to one, it is
    /// nothing.
    ///
    /// # Errors
    /// `Stopped` with a number of the object's own, or `NoMemory`.
    fn package(&mut self, name: &Name) -> Result<Arc<Facts>, Halt>
        ensures tells { TellSame (tells self.old) (tells self.new) }
        ensures keeps { keeps self.old self.new }
        ensures found { IfOk result (λ answer. tells self.old (PackageOf name.now) (arc_value answer)) }
        ensures asked { OnOk result (asked self.new ≡ noted (PackageOf name.now) (asked self.old)) }
        ensures not_halted { OnOk result (halted self.new ≡ halted self.old) }
        ensures halted { (other : Question) → halted self.new ≡ Some other
            → (halted self.old ≡ Some other) ⊎ IsMissing (tells self.old) (asked self.old) (asked self.new) (PackageOf name.now) result other }
        ensures stopped { IfErr result (HasStopped (stops self.old) (stops self.new)) }
        ensures not_stopped { OnOk result (stops self.new ≡ stops self.old) };

    /// The ports of a specialization, in the order of its text (23.2.2).
    ///
    /// # Errors
    /// `Stopped` with a number of the object's own, or `NoMemory`.
    fn ports(&mut self, spec: &Spec) -> Result<Arc<List<Port>>, Halt>
        ensures tells { TellSame (tells self.old) (tells self.new) }
        ensures keeps { keeps self.old self.new }
        ensures found { IfOk result (λ answer. tells self.old (PortsOf spec.now) (arc_value answer)) }
        ensures asked { OnOk result (asked self.new ≡ noted (PortsOf spec.now) (asked self.old)) }
        ensures not_halted { OnOk result (halted self.new ≡ halted self.old) }
        ensures halted { (other : Question) → halted self.new ≡ Some other
            → (halted self.old ≡ Some other) ⊎ IsMissing (tells self.old) (asked self.old) (asked self.new) (PortsOf spec.now) result other }
        ensures stopped { IfErr result (HasStopped (stops self.old) (stops self.new)) }
        ensures not_stopped { OnOk result (stops self.new ≡ stops self.old) };

    // Each object is the same as itself, and what is the same as the same is the same.
    ghost keeps_itself: { (world : Self) → keeps world world };

    ghost keeps_on: { (old now new : Self) → keeps old now → keeps now new → keeps old new };
}

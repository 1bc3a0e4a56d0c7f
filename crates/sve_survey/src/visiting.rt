ghost use Rattle.std.specs.Prelude.{◌≡◌, OnOk};
ghost use Rattle.std.specs.Arc.{arc_value};
ghost use Rattle.sve_survey.specs.Visitors.{VisitorState, having_seen};

use std::alloc::Global;
use std::sync::Arc;
use sve_bytes::{Name, NoMemory};
use sve_design::Visit;
use sve_facts::Facts;

/// What is shown one instance of a design after the other (IEEE 1800-2017, 23.3), and holds what they give.
pub trait Visitor: Drop {
    /// What an instance gives some of.
    type Item;

    // What one instance gives, and what it holds.
    ghost state: { Self → VisitorState Self.Item };

    /// Adds what an instance gives behind what it holds: the instance of a visit, with the names of its ports that its parent
    /// connects to nothing (23.3.2), and with what is found of its body.
    ///
    /// # Errors
    /// For want of memory alone; then nothing is said of what it holds.
    fn visit(
        &mut self,
        alloc: Global,
        visit: &Visit,
        unconnected: &[Name],
        facts: &Arc<Facts>,
    ) -> Result<(), NoMemory>
        ensures { OnOk result (state self.new ≡ having_seen (record { visit = visit.now; unconnected = unconnected.now; facts = arc_value facts.now }) (state self.old)) };
}

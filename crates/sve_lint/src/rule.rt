ghost use Rattle.std.specs.Prelude.{◌≡◌, OnOk};
ghost use Rattle.sve_lint.specs.Rules.{RuleState, HasPart, having_seen};

use crate::instance::{Finding, InstanceFacts};
use std::alloc::Global;
use sve_bytes::NoMemory;

/// A lint rule: it is shown one instance of a design after the other, and holds what it found.
pub trait Rule: Drop {
    // Its name, the findings that one instance gives, and those that it holds.
    ghost state: { Self → RuleState };

    /// Its name. It takes no memory.
    fn name(&self) -> &[u8]
        ensures { result.now ≡ (state self.now).name };

    /// Adds the findings that an instance gives behind those that it holds.
    ///
    /// # Errors
    /// For want of memory alone; then the first of these findings, perhaps none, were added.
    fn visit(&mut self, alloc: Global, instance: &InstanceFacts) -> Result<(), NoMemory>
        ensures seen { OnOk result (state self.new ≡ having_seen instance.now (state self.old)) }
        ensures part { HasPart ((state self.old).meaning instance.now) (state self.old) (state self.new) };

    /// The findings that it holds, in the order in which it found them. It takes no memory.
    fn findings(&self) -> &[Finding]
        ensures { result.now ≡ (state self.now).found };
}

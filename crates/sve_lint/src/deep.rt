ghost use Rattle.std.specs.Prelude.{◌≡◌, []};
ghost use Rattle.sve_lint.specs.Meanings.{deep_rule};

use crate::instance::{Finding, InstanceFacts};
use crate::rule::Rule;
use std::alloc::Global;
use sve_bytes::NoMemory;

/// The greatest depth at which the rule `deep` finds nothing.
const MAX_SHALLOW_DEPTH: u32 = 8;

/// The rule `deep`: it finds each instance at a depth above 8, with the name of its module as detail.
#[derive(Drop)]
pub struct Deep {
    found: Vec<Finding>,
}

impl Deep {
    /// The rule, with no findings. It takes no memory.
    pub fn new(alloc: Global) -> Deep
        ensures { ⟦<Deep as Rule>⟧.state result ≡ deep_rule [] }
    {
        Deep {
            found: Vec::new(alloc),
        }
    }
}

impl Rule for Deep {
    ghost use Rattle.sve_lint.specs.Meanings.{deep_rule};

    ghost state = { λ rule. deep_rule rule.found.items };

    fn name(&self) -> &[u8] {
        b"deep"
    }

    fn visit(&mut self, alloc: Global, instance: &InstanceFacts) -> Result<(), NoMemory> {
        if instance.depth > MAX_SHALLOW_DEPTH {
            self.found.push(Finding {
                path: instance.path.copy(alloc)?,
                detail: instance.module.copy()?,
            })?;
        }
        Ok(())
    }

    fn findings(&self) -> &[Finding] {
        self.found.as_slice()
    }
}

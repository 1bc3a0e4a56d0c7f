ghost use Rattle.std.specs.Prelude.{◌≡◌, IfOk};

use std::alloc::Global;
use sve_bytes::NoMemory;
use sve_types::Value;

/// What an instance gives a parameter (IEEE 1800-2017, 23.10).
#[derive(Drop)]
pub enum Given {
    /// Nothing, so the parameter has its default.
    Default,
    /// This value, which has not been converted to the parameter's type.
    Value(Value),
    /// An override of which something was said, so the parameter has no value.
    Bad,
}

impl Given {
    /// The same, with memory of its own.
    pub fn copy(&self, alloc: Global) -> Result<Given, NoMemory>
        ensures { IfOk result (λ g. g ≡ self.now) }
    {
        match self {
            Given::Default => Ok(Given::Default),
            Given::Value(value) => Ok(Given::Value(value.copy(alloc)?)),
            Given::Bad => Ok(Given::Bad),
        }
    }
}

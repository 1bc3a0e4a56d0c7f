//! A lint rule that tells when it is dropped.
use std::alloc::{AllocError, Global};
use std::sync::Arc;
use std::sync::atomic::{AtomicU64, Ordering};
use sve_lint::{Finding, InstanceFacts, Rule};

/// A rule that finds nothing, and counts how often it is dropped.
pub struct Counting {
    drops: Arc<AtomicU64>,
}

impl Counting {
    pub fn new(drops: Arc<AtomicU64>) -> Counting {
        Counting { drops }
    }
}

impl Drop for Counting {
    fn drop(self) {
        let Counting { drops } = self;
        drops.fetch_add(1, Ordering::SeqCst);
    }
}

impl Rule for Counting {
    ghost use Rattle.std.specs.Prelude.{[], codes};

    ghost state = { λ rule. record { name = codes "counting"; meaning = λ instance. []; found = [] } };

    fn name(&self) -> &[u8] {
        b"counting"
    }

    fn visit(&mut self, _alloc: Global, _instance: &InstanceFacts) -> Result<(), AllocError> {
        Ok(())
    }

    fn findings(&self) -> &[Finding] {
        &[]
    }
}

/// So many counts of drops.
pub fn counts(alloc: Global, number: u32) -> Result<Vec<Arc<AtomicU64>>, AllocError> {
    let mut counts = Vec::new(alloc);
    for _ in 0..number {
        counts.push(Arc::new(alloc, AtomicU64::new(0))?)?;
    }
    Ok(counts)
}

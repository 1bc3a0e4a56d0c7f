use std::alloc::Global;
use sve_bytes::NoMemory;

/// Which packages wait for which. It tells the search where to look next, and what the search finds does not rest on it: a package
/// that is not told here is found by the next sweep.
#[derive(Drop)]
pub(crate) struct Waiters {
    /// For each package the last of those that wait for it.
    last: Vec<Option<usize>>,
    /// For each package that waits the one that came before it to wait for the same.
    earlier: Vec<Option<usize>>,
}

impl Waiters {
    /// Of so many packages none waits.
    pub(crate) fn new(alloc: Global, packages: usize) -> Result<Waiters, NoMemory> {
        Ok(Waiters {
            last: vec![in alloc; None; packages]?,
            earlier: vec![in alloc; None; packages]?,
        })
    }

    /// A package waits for another.
    pub(crate) fn add(&mut self, import: usize, package: usize) {
        if import < self.last.len() && package < self.earlier.len() {
            self.earlier[package] = self.last[import];
            self.last[import] = Some(package);
        }
    }

    /// One of those that wait for a package, which waits for it no longer.
    pub(crate) fn take(&mut self, import: usize) -> Option<usize> {
        if import >= self.last.len() {
            return None;
        }
        let package = self.last[import]?;
        self.last[import] = match self.earlier.get(package) {
            Some(earlier) => *earlier,
            None => None,
        };
        Some(package)
    }
}

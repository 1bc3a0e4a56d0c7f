use crate::kinds::Keyed;
use std::marker::PhantomData;

/// The values that were computed while one query was answered. It holds none yet: nothing that is computed is kept.
pub struct Fresh<K: Keyed> {
    of: PhantomData<K>,
}

impl<K: Keyed> Fresh<K> {
    /// No value. It takes no memory.
    pub fn new() -> Fresh<K> {
        Fresh { of: PhantomData }
    }
}

impl<K: Keyed> Drop for Fresh<K> {
    fn drop(self) {
        let Fresh { of: _ } = self;
    }
}

use crate::store::Store;
use sve_store::Kinds;

fn may_be_shared<T: Send + Sync>(_value: &T) {}

/// A store whose keys and values may go to other threads may do so, and may be read by several at once. It does nothing.
pub fn may_cross_threads<K>(store: &Store<K>)
where
    K: Kinds,
    K::Key: Send + Sync,
    K::Value: Send + Sync,
{
    may_be_shared(store);
}

use crate::text::Text;

fn may_be_shared<T: Send + Sync>(_value: &T) {}

/// Texts may go to other threads and be read by several at once. It does nothing.
pub fn may_cross_threads(text: &Text) {
    may_be_shared(text);
}

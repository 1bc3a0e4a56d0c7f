use sve_key::Value;

fn may_be_shared<T: Send + Sync>(_value: &T) {}

/// The value of a key may go to another thread and be read by several at once. It does nothing.
pub fn may_cross_threads(value: &Value) {
    may_be_shared(value);
}

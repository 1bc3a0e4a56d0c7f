use crate::sessions::Script;
use sve_command::Command;

fn may_be_shared<T: Send + Sync>(_value: &T) {}

/// A session and its commands may go to other threads and be read by several at once. It does nothing.
pub fn may_cross_threads(script: &Script, command: &Command) {
    may_be_shared(script);
    may_be_shared(command);
}

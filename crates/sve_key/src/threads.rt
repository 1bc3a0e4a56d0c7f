use crate::key::Key;
use crate::value::Value;

/// What threads may share: an `impl` is refused where they may not.
trait IsShared: Send + Sync {}

impl IsShared for Key {}

impl IsShared for Value {}

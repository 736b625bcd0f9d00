/// Compiles only where the value may be sent to another thread and shared with it.
pub(crate) fn may_cross_threads<T: Send + Sync>(_value: &T) {}

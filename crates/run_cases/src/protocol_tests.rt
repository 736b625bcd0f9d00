use dflp_protocol::Dflp;
use spin_protocol::Spin;

/// Compiles only where the value may be sent to another thread and shared with it.
fn may_cross_threads<T: Send + Sync>(_value: &T) {}

#[test]
fn further_protocols_may_cross_threads() {
    may_cross_threads(&Dflp);
    may_cross_threads(&Spin);
}

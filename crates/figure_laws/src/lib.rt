//! Defines the figures of an audit, and says what is true of them in a lawful schedule.
//!
//! Each function here does nothing: its contract is a law. The lemmas that prove it are in `proofs/`.
#![tactic(auto)]

mod laws;

pub use laws::{blocked_ticks_lie_inside, classes_add_up};

//! Judges certificates: do bounds and duals prove that a task set meets every deadline? It needs no trust in what made them.
//!
//! A certificate is valid under three conditions. Each bound and its task's jitter together are within the deadline. Each dual covers
//! every column of its program. The response time, with the dual's value as blocking, is within the bound. In `schedule_answers`,
//! `specs/Tests.antt` defines these tests, and `specs/Failures.antt` their order.
#![tactic(auto)]

mod duals;
mod judging;
mod lacks;
mod laws;
mod sums;

pub use judging::{check, check_with, has_denominators, judge};
pub use laws::{failures_are_exact, what_passes_is_sound};
pub use schedule_answers::{Invalid, Valid};

//! Confirms refusals: do the steps show that a task set has no fitting bounds? You need not trust what made them.
//!
//! Each step of a refusal is tested at the bounds before it. `specs/Tests.antt` has the tests, and `specs/Faults.antt` their order.
#![tactic(auto)]

mod batches;
mod confirming;
mod fault;
mod laws;
mod points;
mod sums;
mod walk;

pub use confirming::{confirm, has_denominators};
pub use fault::{Fault, Part};
pub use laws::faults_are_exact;
pub use points::fault_of_point;

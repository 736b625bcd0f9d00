//! Makes the schedule that a locking protocol chooses for a list of jobs.
#![tactic(auto)]

mod by_protocol;
mod choosing;
mod places;
mod simulating;
mod writing;

pub use by_protocol::{simulate, simulations_are_unique};
pub use simulating::simulate_with;

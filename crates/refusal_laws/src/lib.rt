//! Certificates of refusal: what they are, and that a set has no fitting bounds if one holds for it.
//!
//! A refusal begins with the costs. Each step raises one task's bound, by a point of the task's program at the bounds so far. It ends with
//! a bound that is above the task's latest one, which is the deadline less the jitter. The definitions are in `specs/`.
#![tactic(auto)]

mod laws;
mod refusal;

pub use laws::{refusals_are_right, what_passes_the_latest_bound_passes_the_deadline};
pub use refusal::{Refusal, RefusalStep};

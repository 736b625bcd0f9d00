//! Task sets that are generated from a number, and a study of them: how many are schedulable under each protocol?
//!
//! The same number gives the same sets and the same counts on every machine.
#![tactic(auto)]

mod counting;
mod generator;
mod parts;

pub use counting::{StudyCounts, study};
pub use parts::make_set;

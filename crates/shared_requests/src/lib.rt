//! Which resources tasks of several processors use, how many requests a task makes of these, and how many of them tasks of a processor
//! may hold up: what the limits of closer rows are made of.
#![tactic(auto)]

mod counts;
mod holders;
mod rows;
mod sharing;

pub use counts::{held_up, held_up_of, requests_shared_out};
pub use holders::Holders;
pub use rows::LocalPreemptionRow;
pub use sharing::{has_holder, is_shared_out, shared_out};

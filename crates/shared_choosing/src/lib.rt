//! Chooses the next row under MPCP and FMLP+, over the order in which a protocol grants requests and runs holders. What doesn't depend on
//! that order, such as how a row's names are written, is in public modules for other protocols.
#![tactic(auto)]

pub mod choosing;
pub mod claims;
mod laws;
pub mod row_choice;
pub mod visiting;

pub use choosing::choose_shared;
pub use laws::each_schedule_has_a_next_row;

//! The tables of a task set.
#![tactic(auto)]

mod proved;
mod table;

pub use proved::full_table;
pub use table::set_table;

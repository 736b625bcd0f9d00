//! Worked task sets, built from rows of numbers, for the tests of the crates above. The product calls nothing of it.
#![tactic(auto)]

mod building;
pub mod files;
mod homes;
mod rows;
mod sets;

pub use building::set_of;
pub use homes::suits;
pub use rows::{EntryRow, SetRow, TaskRow};
pub use sets::{BESIDE, FOUR, PAIR, THREE};

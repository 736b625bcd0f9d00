//! A machine that takes the rows of a schedule and keeps what they lead to, what it and a row say of a job, and the traits of what judges
//! and chooses rows with it.
#![tactic(auto)]

mod at_place;
pub mod columns;
mod judge;
mod laws;
pub mod lookup;
mod machine;
mod order;
mod phase;
mod place;
mod script;
mod starting;
mod stepping;
mod stretch;
mod trying;

pub use judge::Judge;
pub use laws::{
    each_schedule_is_shown, machines_read_earlier_rows, machines_show_the_definitions,
    machines_take_what_can_be_taken,
};
pub use machine::Machine;
pub use order::Order;
pub use phase::Phase;
pub use schedule_model::Rule;
pub use trying::{can_take, is_row_for};

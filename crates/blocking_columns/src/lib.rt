//! The columns of blocking programs: which a task has, in which order they stand, and how many requests they count.
#![tactic(auto)]

mod class_order;
mod columns;
mod homes;
mod linking;
mod passing;
mod places;
mod stretches;
mod windows;

pub use class_order::classes_stand_in_order;
pub use columns::{Class, Fragment, fragments, most_columns};
pub use homes::{asked_beside, blocks_at_home};
pub use passing::{ColumnTest, fragments_where};
pub use places::{ceiling_place, home, lower_local, share_processor, uses};
pub use stretches::{
    TaskPlace, columns_stand_in_order, passing_stand_in_order, requests_end, task_places,
};
pub use windows::{cnt, jobs, requests_at, requests_of};

//! Judges a schedule by the rules of a locking protocol, and measures what it does to each task.
#![tactic(auto)]

mod conforming;
mod counting;
mod counts;
mod measures;

pub use conforming::{conform, conform_rows, conform_rows_with, conform_with};
pub use counting::JobCounter;
pub use counts::{JobCount, no_counts};
pub use measures::measures_of;
pub use schedule_answers::{Breach, Measured, TaskMeasure, Unlawful};

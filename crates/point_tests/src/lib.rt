//! Exact tests of a program's points, whose numbers may have any size.
//!
//! A point gives each column a number over one denominator. [`is_worth`] says exactly whether it meets every row and is worth so many
//! whole ticks. So whoever finds a point needs no trust.
#![tactic(auto)]

mod points;
mod sums;

pub use points::is_worth;
pub use sums::worth_sum;

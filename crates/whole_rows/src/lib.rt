//! Rows of a table as whole numbers, over one denominator for each row. And what an exchange does to such rows.
//!
//! A row has a number for each place, and one for its limit. If a bound on its numbers is above 2^63 - 1 after all common divisors are
//! removed, the answer is [`RowStop::Large`]. Its cells, each in lowest terms, may fit all the same.
#![tactic(auto)]

mod dense_row;
mod divisors;
mod entries;
mod mark_words;
mod marks;
mod numbers;
mod pivot;
mod row;
mod short_list;
mod short_row;
mod stops;

pub use entries::{Entry, push_num};
pub use marks::RowMarks;
pub use pivot::Pivot;
pub use row::WholeRow;
pub use stops::RowStop;

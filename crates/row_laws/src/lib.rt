//! Laws of rows. The ticks that block a job are charged to requests in the columns of its task's program. The fractions of the columns that
//! they fill meet every row. So a dual of the program bounds these ticks.
//!
//! Each function here does nothing: its contract is a law. The lemmas that prove it are in `proofs/`, one file for each subject. Proofs of
//! crates above use them too.
#![tactic(auto)]

mod column_laws;
mod dual_laws;
mod point_laws;

pub use column_laws::blocked_ticks_lie_in_columns;
pub use dual_laws::{duals_bound_blocked_ticks, duals_bound_charged_ticks};
pub use point_laws::{fractions_meet_every_row, met_rows_make_a_point};

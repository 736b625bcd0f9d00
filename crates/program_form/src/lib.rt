//! Blocking programs, blocks of their rows, duals and certificates, and what is true of a program alone.
//!
//! A program has columns, which are at least zero, and rows. In each row a sum of coefficient times column is at most a limit. The
//! definitions in `specs/` are about all points of a program: scaled points, the values that they reach, the optimum, feasible duals and
//! their values. They know no table. The functions of `laws` say how these are related.
#![tactic(auto)]

mod certificate;
mod laws;
mod program;
mod reach_laws;
mod row_block;
mod sparse_program;
mod sparse_rows;

pub use certificate::{Certificate, Dual};
pub use laws::{
    a_dual_bounds_what_is_reached, a_program_has_a_dual, equal_values_are_best,
    greater_limits_reach_no_less, less_is_reached_too, refusals_are_exact,
    seven_rows_reach_fourteen_thirds, the_optimum_is_one, weak_duality, whole_part_is_greatest,
};
pub use program::{Program, ProgramRefusal};
pub use reach_laws::{a_greatest_reached_value_exists, reaching_is_decided};
pub use row_block::RowBlock;
pub use sparse_program::SparseProgram;
pub use sparse_rows::{Coefficient, SparseRows};

/// The greatest number that a program may hold.
pub const MOST_NUMBER: u64 = 9_223_372_036_854_775_807;

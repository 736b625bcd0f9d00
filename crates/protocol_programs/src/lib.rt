//! Each task's blocking program under MPCP, FMLP+ and DPCP, what its limits follow, and the interference of higher tasks.
#![tactic(auto)]

mod counting;
mod keeping;
mod parts;
mod programs;
mod written;

pub use counting::interference;
pub use keeping::keeps_jobs;
pub use parts::{ProgramParts, limits_with, program_with, sparse_program_with};
pub use program_sources::ProgramSource;
pub use programs::{add_rows, limits, program, sparse_program};
pub use written::Written;

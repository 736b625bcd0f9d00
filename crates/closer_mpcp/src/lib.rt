//! MPCP with the closer analysis: its programs have further rows behind those of MPCP, without MPCP's rows that these dominate.
#![tactic(auto)]

mod ceilings;
mod first_ticks;
mod held;
mod holdings;
mod keeping;
mod laws;
mod lower;
mod lower_holders;
mod places;
mod programs;
mod protocol;
mod rows;
mod searching;
mod steady;
mod sums;
mod ticks;
mod wait_rows;
mod waits;
mod windows;

pub use laws::programs_are_small;
pub use programs::{CloserMpcpRows, program};
pub use protocol::{CLOSER_MPCP, CloserMpcp};

//! Spin locks, analysed more closely. [`CloserSpin`] has the rules, columns and charges of spin locks, and programs whose rows say more:
//! the one request of the lower tasks of a processor that is open at a job's release is of one resource.
//!
//! [`CloserSpin`] judges and chooses rows, gives programs and charges ticks, so the calls over a protocol's type take it.
#![tactic(auto)]

mod groups;
mod programs;
mod protocol;
mod rows;
mod tables;

pub use programs::CloserSpinRows;
pub use protocol::{CLOSER_SPIN, CloserSpin};

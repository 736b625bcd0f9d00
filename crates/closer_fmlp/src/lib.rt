//! FMLP+ with the closer analysis: its programs have further rows behind those of FMLP+.
#![tactic(auto)]

mod laws;
mod programs;
mod protocol;
mod rows;

pub use laws::programs_are_small;
pub use programs::{CloserFmlpPlusRows, program};
pub use protocol::{CLOSER_FMLP_PLUS, CloserFmlpPlus};

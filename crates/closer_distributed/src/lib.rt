//! The closer analyses of DPCP and of the distributed FIFO protocol, as types: the plain protocols, with programs that have further rows.
#![tactic(auto)]

mod counting;
mod dflp;
mod dpcp;
mod laws;
mod rows;

pub use dflp::{CLOSER_DFLP, CloserDflp, CloserDflpRows};
pub use dpcp::{CLOSER_DPCP, CloserDpcp, CloserDpcpRows};
pub use laws::programs_are_small;

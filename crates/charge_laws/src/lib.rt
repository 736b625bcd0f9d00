//! To what a blocked tick is charged under MPCP, FMLP+ and DPCP, and in which window ticks are counted. The definitions are in `specs/`.
//! They speak of ticks, jobs and rows, and of no analysis. Two laws of charging follow. Each blocked tick is charged to one request that
//! executes. And no more ticks of a job's window are interference than an analysis counts.
//!
//! Each function here does nothing: its contract is a law. The lemmas that prove it are in `proofs/`, one file for each subject. Proofs of
//! crates above use them too.
#![tactic(auto)]

mod charge_laws;
mod interference_laws;

pub use charge_laws::{
    charges_stay_through_stretches, dpcp_charges_blocked_ticks, shared_memory_charges_blocked_ticks,
};
pub use interference_laws::{
    dpcp_interferes_within_the_local_limit, interference_is_counted,
    jobs_are_active_until_they_end, jobs_interfere_within_the_cost,
};

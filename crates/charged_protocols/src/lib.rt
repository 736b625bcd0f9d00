//! Protocols that charge each blocked tick of a schedule to the request that executes at it: the trait of charged protocols, its
//! implementations for MPCP, FMLP+ and DPCP, and what follows for every one.
//!
//! A protocol that implements [`ChargedProtocol`] gives its programs and its charges, and proves the laws that relate them. From these laws
//! alone it follows that the bounds of a valid certificate are sound.
#![tactic(auto)]

mod bounds;
pub mod distributed;
mod instances;
mod laws;
mod protocol;
pub mod shared;

pub use bounds::are_bounds;
pub use laws::{charged_protocols_are_analysed, valid_certificates_bound_each_task};
pub use protocol::ChargedProtocol;

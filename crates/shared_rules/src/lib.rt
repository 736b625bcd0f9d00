//! The rules that MPCP and FMLP+ share, over the order in which a protocol grants requests and runs holders: they judge a row, and say
//! which ticks are blocked. What doesn't depend on that order, such as the walk through the active jobs, is in public modules, for the
//! judges of other protocols.
#![tactic(auto)]

mod blocking;
pub mod judging;
pub mod rule_tests;
pub mod walking;

pub use blocking::blocked_shared;
pub use judging::judge_shared;

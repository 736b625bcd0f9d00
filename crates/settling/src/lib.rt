//! Settling task sets: least bounds or a refusal, also if an analysis is wide.
//!
//! A search over numbers of any size finds points and duals of programs. Each point is tested without rounding before it raises a bound. A
//! certificate is judged before it is answered.
#![tactic(auto)]

mod ahead;
mod answer;
mod certificates;
mod finding;
mod laws;
mod reached;
mod refusals;
mod rising;
mod rounds;
mod settling;
mod shortening;
mod steps;

pub use answer::{SettleStop, Settled};
pub use laws::{
    certificates_of_analyses_need_no_more_bits, no_rounded_dual_keeps_the_whole_part,
    walks_have_one_ending,
};
pub use settling::{settle_by, settle_with};

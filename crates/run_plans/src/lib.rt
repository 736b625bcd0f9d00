//! What a run of the program is: commands as plans of inputs and a work, their outcomes and replies, and the laws of these.
#![tactic(auto)]

mod laws;

pub use command_inputs::{Halt, Reply, Status, fault, refusal, reply_of};
pub use laws::{
    analysed_then_checked, checked_for_another_set, closer_analyses_lose_nothing,
    never_accepted_and_refused, other_words_have_one_outcome, refuted_then_confirmed,
    settled_as_analysed, settled_as_refuted, settled_then_checked, settled_then_confirmed,
    two_runs, upgraded_then_checked, windows_lose_nothing,
};

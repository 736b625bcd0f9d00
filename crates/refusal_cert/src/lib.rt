//! Refusals of task sets. The rounds of an analysis may come to a task whose value passes its latest bound. Then the steps on the way
//! are the proof, each with a point of a task's program. A reader can judge them without solving anything.
//!
//! [`refute`] goes through the same rounds as an analysis, one program at a time. It forms each program once. `refusal_laws` says what
//! a refusal is and why it is right. `specs/` says which steps the rounds give.
#![tactic(auto)]

mod answer;
mod laws;
mod refuting;
mod rounds;
mod task_run;

pub use answer::{Answer, RefuteStop};
pub use laws::{refutations_follow_analyses, the_rounds_of_refusals_have_one_ending};
pub use refuting::refute;

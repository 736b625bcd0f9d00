//! The program's one call: it reads words, loads inputs and writes an answer.
#![tactic(auto)]

mod auditing;
mod commands;
mod deciding;
mod edge;
mod judging;
mod refusing;
mod study;
mod top;
mod tying;
mod upgrading;
mod work;

pub use command_inputs::Status;
pub use command_words::DEFAULT_ALLOWANCE;
pub use edge::{Ended, ProcessWords, Words, answer_words};
pub use top::run;

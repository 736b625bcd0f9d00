//! The calls of an analysis, of settling, of refusals, of checks and of schedules by a protocol's name. Each is one `match` over the names.
#![tactic(auto)]

mod calls;
mod deciding;
mod refusing;

pub use calls::{analyse, audit_rows, check, conform_rows, simulate};
pub use deciding::settle;
pub use named_laws::{
    figures_are_proved, programs_are_sound, programs_rise, refusals_are_right,
    rounds_give_refusals_that_hold, schedules_are_unique, words_are_texts,
};
pub use refusing::{confirm, refute};

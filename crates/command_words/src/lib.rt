//! The forms of words that the program takes.
#![tactic(auto)]

mod spelled;
mod words;

pub use spelled::forms_are_spelled;
pub use words::{
    AuditInputs, Command, DEFAULT_ALLOWANCE, GREATEST_ALLOWANCE, MOST_SETS, PlainWork, TiedWork,
    Work, command_of,
};

//! The texts of replies: of answers, and of the reasons for which inputs are refused.
#![tactic(auto)]

mod plain;
mod refusals;
mod refuted;
mod study;
mod texts;

pub use plain::{
    allowance_line, fault_line, no_form_line, other_set_line, refused_line, valid_line,
};
pub use refusals::{cert_reason, jobs_reason, reason, refusal_reason, rows_reason};
pub use refuted::{confirmed_line, schedulable_line, unconfirmed_line};
pub use study::study_lines;
pub use texts::{broken_line, invalid_line, kept_lines, lawful_lines, not_shown_line, wide_line};

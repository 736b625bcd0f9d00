//! Soundness here is never about nothing: lawful schedules and lawful jobs exist, under every protocol. Each function does nothing: its
//! contract is the law.
#![tactic(auto)]

mod laws;

pub use laws::{each_task_has_a_lawful_job, lawful_jobs_have_schedules};

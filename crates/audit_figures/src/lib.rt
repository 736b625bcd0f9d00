//! Audits a schedule against a certificate. It judges both, and shows what happened to each task in the schedule next to what the
//! certificate proves of it. It also shows the blocked ticks of each task's jobs, by the way in which a request blocked them.
#![tactic(auto)]

mod auditing;
mod beside;
mod sums;

pub use auditing::{audit, audit_rows, audit_rows_with, audit_with};
pub use schedule_answers::{AuditStop, TaskFigures};

//! The answers of the calls that judge, check and audit: the types, and in `specs/` what each answer says. The calls are in
//! `trace_conform`, `dual_check` and `audit_figures`, which pass these types on.
#![tactic(auto)]

mod audited;
mod checked;
mod judged;

pub use audited::{AuditStop, TaskFigures};
pub use checked::{Invalid, Valid};
pub use judged::{Breach, Measured, TaskMeasure, Unlawful};

//! Jobs of a task set, schedules of them, and the rules of locking protocols for a schedule.
#![tactic(auto)]

mod job;
mod job_list;
mod judging;
mod kept_jobs;
mod kept_segments;
mod limits;
mod list_laws;
mod listed;
mod listed_rows;
mod protocol;
mod refusal;
mod row;
mod row_list;
mod row_reader;
mod rule;
mod script;

pub use job::{Job, JobId, Segment};
pub use job_list::JobList;
pub use limits::{MOST_JOBS, MOST_SEGMENTS};
pub use list_laws::{job_refusals_are_exact, list_limits_are_fixed};
pub use listed::{ListedJob, ListedScript};
pub use listed_rows::ListedRows;
pub use protocol::BlockingProtocol;
pub use refusal::{JobRefusal, RowRefusal};
pub use row::{Row, RowRun};
pub use row_list::RowList;
pub use row_reader::RowReader;
pub use rule::Rule;

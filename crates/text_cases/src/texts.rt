//! Sets, jobs and rows from their texts. No function here has a contract, so what a test knows doesn't have the texts.

use schedule_model::{JobList, RowList};
use sporadic_model::TaskSet;
use std::alloc::Global;
use std::test::Fail;
use trace_csv::{read_jobs, read_rows};
use worked_sets::files::set_from;

pub(crate) fn set_in(alloc: Global, text: &str) -> Result<TaskSet, Fail> {
    set_from(alloc, text)
}

pub(crate) fn jobs_in<'a>(
    alloc: Global,
    set: &'a TaskSet,
    text: &str,
) -> Result<JobList<'a>, Fail> {
    Ok(read_jobs(alloc, set, text.as_bytes())?)
}

pub(crate) fn rows_in(alloc: Global, jobs: &JobList, text: &str) -> Result<RowList, Fail> {
    Ok(read_rows(alloc, jobs, text.as_bytes())?)
}

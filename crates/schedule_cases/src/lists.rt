//! Sets and lists of jobs and rows, as the tests build them. No function here has a contract, so what a test knows has none of their rows.

use crate::scripts::{Part, held_job, request_below};
use schedule_model::{Job, JobId, JobList, JobRefusal, Row};
use sporadic_model::TaskSet;
use std::alloc::{AllocError, Global};
use std::test::Fail;
use worked_sets::{SetRow, set_of};

/// The set of the rows.
pub(crate) fn built_set(alloc: Global, rows: SetRow<'_>) -> Result<TaskSet, Fail> {
    Ok(set_of(alloc, rows)?)
}

/// A list without jobs.
pub(crate) fn no_jobs<'a>(alloc: Global, set: &'a TaskSet) -> JobList<'a> {
    JobList::new(alloc, set)
}

/// Why the list doesn't take the job, or none if it takes it.
pub(crate) fn refusal_of(jobs: &mut JobList, job: Job) -> Result<Option<JobRefusal>, Fail> {
    let set = jobs.set();
    if job.task.0 >= set.tasks() || !request_below(&job.script, set.resources()) {
        return Err("no such task or resource".into());
    }
    Ok(jobs.push(job).err())
}

/// The same for the job of a task that arrives at the first tick and is released at the second.
pub(crate) fn refusal_to(
    alloc: Global,
    jobs: &mut JobList,
    task: u32,
    times: (u64, u64),
    script: &[Part],
) -> Result<Option<JobRefusal>, Fail> {
    let job = held_job(alloc, task, times, script)?;
    refusal_of(jobs, job)
}

/// A job by its task, its release and its script. It arrives when it is released.
pub(crate) type Work = (u32, u64, &'static [Part]);

/// The list of these jobs.
pub(crate) fn list_of<'a>(
    alloc: Global,
    set: &'a TaskSet,
    work: &[Work],
) -> Result<JobList<'a>, Fail> {
    let mut jobs = no_jobs(alloc, set);
    for (task, release, script) in work {
        let times = (*release, *release);
        if refusal_to(alloc, &mut jobs, *task, times, script)?.is_some() {
            return Err("refused".into());
        }
    }
    Ok(jobs)
}

pub(crate) fn job_named(job: Option<u32>) -> Option<JobId> {
    match job {
        Some(job) => Some(JobId(job)),
        None => None,
    }
}

/// A row by what runs in each column, and by which job holds the only resource.
pub(crate) fn row_of(
    alloc: Global,
    running: &[Option<u32>],
    holder: Option<u32>,
) -> Result<Row, AllocError> {
    let mut row = Row {
        running: Vec::new(alloc),
        holders: Vec::new(alloc),
    };
    for job in running {
        row.running.push(job_named(*job))?;
    }
    row.holders.push(job_named(holder))?;
    Ok(row)
}

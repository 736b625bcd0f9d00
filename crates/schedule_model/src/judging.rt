ghost use Rattle.std.specs.Prelude.{◌≡◌, ◌<◌, ◌+◌, false, nat_lt, length};
ghost use Rattle.std.specs.Option.{option_map_or};
ghost use Rattle.schedule_model.specs.LawfulJobs.{IsScriptOf};
ghost use Rattle.schedule_model.specs.JobLists.{is_too_close, is_too_many, is_late, first_refusal};
ghost use Rattle.schedule_model.specs.Seen.{job_seen};

use crate::job::Job;
use crate::kept_jobs::KeptJobs;
use crate::limits::{MOST_JOBS, MOST_SEGMENTS};
use crate::refusal::JobRefusal;
use crate::script::{is_listed_script, stays_within_budget};
use sporadic_model::{MOST_TICKS, TaskSet};

/// Does the job arrive less than a period after the last listed job of its task, or is it released after tick 10^9?
#[tactic(auto, unfolding(crate::specs::JobLists::is_too_close))]
fn follows_too_closely(set: &TaskSet, jobs: &KeptJobs, job: &Job) -> bool
    requires { job.now.task.0 < length set.now.tasks }
    ensures { result ≡ is_too_close (record { set = set.now; jobs = jobs.now }) (job_seen job.now) }
{
    if is_within(
        jobs.last_arrival_of(job.task),
        set.period(job.task),
        job.arrival,
    ) {
        return true;
    }
    job.release > MOST_TICKS
}

/// Is the tick less than a period after the last arrival, if there was one?
fn is_within(last: Option<u64>, period: u64, tick: u64) -> bool
    ensures { result ≡ option_map_or (λ last. nat_lt tick (last + period)) last false }
{
    match last {
        Some(last) => tick < last || tick - last < period,
        None => false,
    }
}

/// Is there no room for the job behind the listed ones?
#[tactic(auto, unfolding(crate::specs::JobLists::is_too_many))]
fn passes_limits(jobs: &KeptJobs, job: &Job) -> bool
    ensures { result ≡ is_too_many jobs.now (job_seen job.now) }
{
    if jobs.len() as u64 >= MOST_JOBS {
        return true;
    }
    job.script.len() as u64 > MOST_SEGMENTS - jobs.segments()
}

/// Is the job released before it arrives, or later than its task's jitter lets it be?
#[tactic(auto, unfolding(crate::specs::JobLists::is_late))]
fn leaves_its_jitter(set: &TaskSet, job: &Job) -> bool
    requires { job.now.task.0 < length set.now.tasks }
    ensures { result ≡ is_late set.now (job_seen job.now) }
{
    if job.release < job.arrival {
        return true;
    }
    job.release - job.arrival > set.jitter(job.task)
}

/// The first refusal that is due for the job behind the listed ones.
pub(crate) fn refusal_of(set: &TaskSet, jobs: &KeptJobs, job: &Job) -> Option<JobRefusal>
    requires { IsScriptOf set.now job.now.task.0 (job_seen job.now).script }
    ensures { result ≡ first_refusal (record { set = set.now; jobs = jobs.now }) (job_seen job.now) }
{
    if !is_listed_script(&job.script) {
        return Some(JobRefusal::Script);
    }
    if !stays_within_budget(set, job) {
        return Some(JobRefusal::OverBudget);
    }
    if follows_too_closely(set, jobs, job) {
        return Some(JobRefusal::TooClose);
    }
    if passes_limits(jobs, job) {
        return Some(JobRefusal::TooMany);
    }
    if leaves_its_jitter(set, job) {
        return Some(JobRefusal::Late);
    }
    None
}

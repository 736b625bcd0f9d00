ghost use Rattle.std.specs.Prelude.{ℕ, ◌<◌, ◌≤◌, length, map, slice_index_or};
ghost use Rattle.sporadic_model.specs.declared.limits.TheConstants.{MOST_TICKS};
ghost use Rattle.schedule_model.specs.JobDef.{job_of};
ghost use Rattle.schedule_model.specs.Seen.{place_seen};
ghost use Rattle.phase_machine.specs.MachineDef.{IsComing, task_in, no_place};
ghost use Rattle.phase_machine.specs.Least.{IsLeft, IsAhead};
ghost use Rattle.phase_machine.specs.Given.{IsInSegment, IsLeftAt, IsCurrentJob, RunFromPlaces, IsAheadBy, IsLeastSome};

use crate::place::ScriptPlace;
use crate::script::{list_is_lawful, segment_at, task_of, ticks_of};
use schedule_model::{JobId, JobList};
use sporadic_model::MOST_TICKS;

/// How many ticks are left of the phase of the place's job.
fn left_at(jobs: &JobList, place: &ScriptPlace) -> u64
    requires { IsInSegment jobs.now.jobs place.now }
    ensures { IsLeftAt jobs.now.jobs place.now result }
{
    let segment = segment_at(jobs, place.job, place.segment);
    if place.ticks < segment.local {
        return segment.local - place.ticks;
    }
    ticks_of(&segment) - place.ticks
}

/// How many ticks are left of the phase of a task's current job.
fn left_of(jobs: &JobList, j: JobId, places: &[ScriptPlace]) -> u64
    requires { IsCurrentJob jobs.now places.now j.0 }
    ensures { IsLeftAt jobs.now.jobs (slice_index_or places.now (task_in jobs.now.jobs j.0) no_place) result }
{
    left_at(jobs, &places[task_of(jobs, j.0).0 as usize])
}

/// The least of `most` and the ticks that are left of the phases of these running jobs.
pub(crate) fn least_left(
    jobs: &JobList,
    running: &[Option<JobId>],
    places: &[ScriptPlace],
    most: u64,
) -> u64
    requires at { RunFromPlaces jobs.now places.now (map place_seen running.now) }
    requires some { 1 ≤ most }
    ensures { IsLeastSome most (IsLeft jobs.now.jobs places.now (map place_seen running.now) (length running.now)) result }
{
    list_is_lawful(jobs);
    let mut least = most;
    for named in running {
        if let Some(j) = named {
            least = least.min(left_of(jobs, *j, places));
        }
    }
    least
}

/// In how many ticks the job is released. If no job has the number, it is 10^9.
fn ahead(jobs: &JobList, tick: u64, j: u32) -> u64
    requires { j < length jobs.now.jobs → tick < (job_of jobs.now.jobs j).release }
    ensures { IsAheadBy jobs.now.jobs tick j result }
{
    if j < jobs.len() {
        return jobs.job(JobId(j)).release - tick;
    }
    MOST_TICKS
}

/// The least of 10^9 and the ticks until the tasks' next jobs are released.
pub(crate) fn least_ahead(jobs: &JobList, tick: u64, coming: &[u32]) -> u64
    requires { (x : ℕ) → x < length coming.now → IsComing jobs.now.jobs tick x (slice_index_or coming.now x 0) }
    ensures { IsLeastSome MOST_TICKS (IsAhead jobs.now.jobs tick coming.now (length coming.now)) result }
{
    let mut least = MOST_TICKS;
    for x in 0..coming.len() {
        least = least.min(ahead(jobs, tick, coming[x]));
    }
    least
}

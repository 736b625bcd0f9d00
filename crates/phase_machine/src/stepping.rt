ghost use Rattle.std.specs.Prelude.{◌≤◌, map};
ghost use Rattle.sporadic_model.specs.declared.limits.TheConstants.{MOST_TICKS};
ghost use Rattle.schedule_model.specs.Seen.{place_seen};
ghost use Rattle.phase_machine.specs.MachineDef.{IsDue, IsComing};
ghost use Rattle.phase_machine.specs.Steps.{StepsTo};
ghost use Rattle.phase_machine.specs.Given.{CanStep, IsCurrentJob, StepsAlone, RunFromPlaces, AreMoved, AreDue, AreComing};

use crate::place::ScriptPlace;
use crate::script::{list_is_lawful, next_of, segment_at, segments_of, task_of, ticks_of};
use schedule_model::{JobId, JobList};

/// The place of task `x` after its job has executed this many more ticks of the segment, at tick `after`.
fn place_after(jobs: &JobList, after: u64, more: u64, x: u32, place: &ScriptPlace) -> ScriptPlace
    requires { CanStep jobs.now.jobs more x place.now }
    ensures { StepsTo jobs.now.jobs after more x place.now result }
{
    list_is_lawful(jobs);
    let segments = segments_of(jobs, place.job);
    let segment = segment_at(jobs, place.job, place.segment);
    let ticks = place.ticks + more;
    if ticks < ticks_of(&segment) {
        let issued = if ticks == segment.local {
            after
        } else {
            place.issued
        };
        return ScriptPlace {
            job: place.job,
            segment: place.segment,
            ticks,
            issued,
        };
    }
    if place.segment + 1 < segments {
        return ScriptPlace {
            job: place.job,
            segment: place.segment + 1,
            ticks: 0,
            issued: place.issued,
        };
    }
    ScriptPlace {
        job: next_of(jobs, x, place.job + 1),
        segment: 0,
        ticks: 0,
        issued: place.issued,
    }
}

/// Moves the place of the task that has this current job.
fn step_one(jobs: &JobList, after: u64, more: u64, j: JobId, places: &mut [ScriptPlace])
    requires at { IsCurrentJob jobs.now places.old j.0 }
    requires most { more ≤ MOST_TICKS }
    ensures { StepsAlone jobs.now after more j.0 places.old places.new }
{
    let x = task_of(jobs, j.0);
    places[x.0 as usize] = place_after(jobs, after, more, x.0, &places[x.0 as usize]);
}

/// Moves the places of the tasks whose jobs run in the columns, this many ticks on.
pub(crate) fn step_all(
    jobs: &JobList,
    after: u64,
    more: u64,
    running: &[Option<JobId>],
    places: &mut [ScriptPlace],
)
    requires at { RunFromPlaces jobs.now places.old (map place_seen running.now) }
    requires most { more ≤ MOST_TICKS }
    ensures { AreMoved jobs.now after more (map place_seen running.now) places.old places.new }
{
    list_is_lawful(jobs);
    for named in running {
        if let Some(j) = named {
            step_one(jobs, after, more, *j, places);
        }
    }
}

/// The first job of task `x` that is released after the tick. The search begins with the first one released at the tick or later.
#[tactic(auto, using(crate::proofs::Coming::coming_here))]
pub(crate) fn coming_after(jobs: &JobList, tick: u64, x: u32, due: u32) -> u32
    requires { IsDue jobs.now.jobs tick x due }
    ensures { IsComing jobs.now.jobs tick x result }
{
    list_is_lawful(jobs);
    if due < jobs.len() && jobs.job(JobId(due)).release <= tick {
        return next_of(jobs, x, due + 1);
    }
    due
}

/// Goes on to the jobs that are released after the tick.
pub(crate) fn move_on(jobs: &JobList, tick: u64, coming: &mut [u32])
    requires { AreDue jobs.now tick coming.old }
    ensures { AreComing jobs.now tick coming.new }
{
    for x in 0..jobs.set().tasks() {
        coming[x as usize] = coming_after(jobs, tick, x, coming[x as usize]);
    }
}

ghost use Rattle.std.specs.Prelude.{◌≤◌, length};
ghost use Rattle.phase_machine.specs.Now.{phase_at_place, current_in};
ghost use Rattle.phase_machine.specs.Given.{IsJobAt, IsPhase, NamesJob};

use crate::phase::Phase;
use crate::place::ScriptPlace;
use crate::script::segment_at;
use schedule_model::{JobId, JobList};

/// The phase of the job, whose task is at this place.
pub(crate) fn phase_at(jobs: &JobList, place: &ScriptPlace, j: JobId) -> Phase
    requires { IsJobAt jobs.now.jobs j.0 place.now }
    ensures { IsPhase jobs.now (phase_at_place jobs.now.jobs j.0 place.now) result }
{
    if j.0 < place.job {
        return Phase::Finished;
    }
    if j.0 > place.job {
        return Phase::Local;
    }
    let segment = segment_at(jobs, place.job, place.segment);
    if place.ticks < segment.local {
        return Phase::Local;
    }
    match segment.request {
        Some((q, _)) => Phase::Asking(place.segment, q),
        None => Phase::Finished,
    }
}

/// The job of the place, if it is released by the tick.
pub(crate) fn current_at(jobs: &JobList, tick: u64, place: &ScriptPlace) -> Option<JobId>
    requires { place.now.job ≤ length jobs.now.jobs }
    ensures { NamesJob jobs.now (current_in jobs.now.jobs tick place.now) result }
{
    if place.job < jobs.len() && jobs.job(JobId(place.job)).release <= tick {
        return Some(JobId(place.job));
    }
    None
}

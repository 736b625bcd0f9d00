ghost use Rattle.std.specs.Prelude.{◌≡◌, map, replicate, None, IfOk};
ghost use Rattle.schedule_model.specs.Seen.{place_seen};
ghost use Rattle.phase_machine.specs.Given.{AreFirstPlaces, AreComing};

use crate::place::ScriptPlace;
use crate::script::next_of;
use crate::stepping::coming_after;
use schedule_model::{JobId, JobList};
use std::alloc::{AllocError, Global};

/// The place of each task before the first row: at the start of its first job.
pub(crate) fn first_places(alloc: Global, jobs: &JobList) -> Result<Vec<ScriptPlace>, AllocError>
    ensures { IfOk result (λ v. AreFirstPlaces jobs.now v.items) }
{
    let tasks = jobs.set().tasks();
    let mut places = Vec::with_capacity(alloc, tasks as usize)?;
    for x in 0..tasks {
        places.push(ScriptPlace {
            job: next_of(jobs, x, 0),
            segment: 0,
            ticks: 0,
            issued: 0,
        })?;
    }
    Ok(places)
}

/// The first job of each task that is released after tick 0.
pub(crate) fn first_coming(alloc: Global, jobs: &JobList) -> Result<Vec<u32>, AllocError>
    ensures { IfOk result (λ v. AreComing jobs.now 0 v.items) }
{
    let tasks = jobs.set().tasks();
    let mut coming = Vec::with_capacity(alloc, tasks as usize)?;
    for x in 0..tasks {
        coming.push(coming_after(jobs, 0, x, next_of(jobs, x, 0)))?;
    }
    Ok(coming)
}

/// No holder for each of this many resources.
pub(crate) fn no_holders(alloc: Global, resources: u32) -> Result<Vec<Option<JobId>>, AllocError>
    ensures { IfOk result (λ v. map place_seen v.items ≡ replicate resources None) }
{
    let mut holders = Vec::with_capacity(alloc, resources as usize)?;
    for _ in 0..resources {
        holders.push(None)?;
    }
    Ok(holders)
}

ghost use Rattle.std.specs.Prelude.{◌≡◌, map};
ghost use Rattle.std.specs.List.{list_all};
ghost use Rattle.schedule_model.specs.LawfulJobs.{is_resource_in};
ghost use Rattle.schedule_model.specs.Seen.{segment_seen};

use schedule_model::{Job, ListedScript, Segment};
use sporadic_model::{ResourceId, TaskId};
use std::alloc::{AllocError, Global};

pub(crate) const Q: ResourceId = ResourceId(0);

/// The local ticks of a segment, and the length of its request of the only resource, if it has one.
pub(crate) type Part = (u64, Option<u64>);

pub(crate) fn segment((local, length): Part) -> Segment {
    let request = match length {
        Some(length) => Some((Q, length)),
        None => None,
    };
    Segment { local, request }
}

/// A job that arrives at the first tick and is released at the second.
pub(crate) fn held_job(
    alloc: Global,
    task: u32,
    (arrival, release): (u64, u64),
    script: &[Part],
) -> Result<Job, AllocError> {
    let mut segments = Vec::new(alloc);
    for part in script {
        segments.push(segment(*part))?;
    }
    Ok(Job {
        task: TaskId(task),
        arrival,
        release,
        script: segments,
    })
}

/// Are these the segments of the listed script?
pub(crate) fn has_segments(script: &ListedScript, wanted: &[Segment]) -> bool {
    if script.len() != wanted.len() {
        return false;
    }
    for n in 0..script.len() {
        if script.at(n) != wanted[n] {
            return false;
        }
    }
    true
}

fn requests_below(segment: &Segment, resources: u32) -> bool
    ensures { result ≡ is_resource_in resources (segment_seen segment.now) }
{
    match segment.request {
        Some((q, _)) => q.0 < resources,
        None => true,
    }
}

fn each_requests_below(script: &[Segment], resources: u32) -> bool
    ensures { result ≡ list_all (λ s. is_resource_in resources (segment_seen s)) script.now }
{
    script
        .iter()
        .all(|segment| requests_below(segment, resources))
}

/// Is each request of a script for one of the resources below this number?
pub(crate) fn request_below(script: &[Segment], resources: u32) -> bool
    ensures { result ≡ list_all (is_resource_in resources) (map segment_seen script.now) }
{
    each_requests_below(script, resources)
}

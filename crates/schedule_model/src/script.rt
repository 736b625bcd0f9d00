ghost use Rattle.std.specs.Prelude.{◌≡◌, ◌<◌, IsTrue, nat_le, map, length, is_some};
ghost use Rattle.std.specs.Int.{is_in_range};
ghost use Rattle.std.specs.List.{list_all};
ghost use Rattle.schedule_model.specs.JobDef.{total_ticks, local_ticks, number_of_requests, request_ticks, asks_for};
ghost use Rattle.schedule_model.specs.LawfulJobs.{are_counts_kept, is_length_kept, is_resource_in, IsScriptOf};
ghost use Rattle.schedule_model.specs.JobLists.{is_listed_segment, is_listed_script, is_within_budget};
ghost use Rattle.schedule_model.specs.Seen.{segment_seen, job_seen};

use crate::job::{Job, Segment};
use sporadic_model::{MOST_TICKS, ResourceId, TaskId, TaskSet};

fn is_in_ticks(ticks: u64) -> bool
    ensures { result ≡ is_in_range 1 MOST_TICKS ticks }
{
    1 <= ticks && ticks <= MOST_TICKS
}

fn is_listed_segment(segment: &Segment) -> bool
    ensures { result ≡ is_listed_segment (segment_seen segment.now) }
{
    let keeps_length = match segment.request {
        Some((_, length)) => is_in_ticks(length),
        None => true,
    };
    is_in_ticks(segment.local) && keeps_length
}

fn are_segments(script: &[Segment]) -> bool
    ensures { result ≡ list_all (λ s. is_listed_segment (segment_seen s)) script.now }
{
    script.iter().all(is_listed_segment)
}

fn are_requests(script: &[Segment]) -> bool
    ensures { result ≡ list_all (λ s. is_some s.request) script.now }
{
    script.iter().all(|segment| segment.request.is_some())
}

/// Does a list take the script? It has one or more segments, each number is from 1 to 10^9, and only the last segment may have no request.
pub(crate) fn is_listed_script(script: &[Segment]) -> bool
    ensures { result ≡ is_listed_script (map segment_seen script.now) }
{
    if script.is_empty() {
        return false;
    }
    if !are_segments(script) {
        return false;
    }
    are_requests(&script[..script.len() - 1])
}

/// Does the script take at most this many ticks?
fn takes_at_most(script: &[Segment], most: u64) -> bool
    ensures { result ≡ nat_le (total_ticks (map segment_seen script.now)) most }
{
    let mut left = most;
    for segment in script {
        let ticks = ticks_of_request(segment);
        if segment.local > left || ticks > left - segment.local {
            return false;
        }
        left -= segment.local + ticks;
    }
    true
}

fn ticks_of_request(segment: &Segment) -> u64
    ensures { result ≡ request_ticks (segment_seen segment.now) }
{
    match segment.request {
        Some((_, length)) => length,
        None => 0,
    }
}

/// Does the script take at most this many ticks outside its requests?
fn stays_local_at_most(script: &[Segment], most: u64) -> bool
    ensures { result ≡ nat_le (local_ticks (map segment_seen script.now)) most }
{
    let mut left = most;
    for segment in script {
        if segment.local > left {
            return false;
        }
        left -= segment.local;
    }
    true
}

fn requests(segment: &Segment, q: ResourceId) -> bool
    ensures { result ≡ asks_for q.0 (segment_seen segment.now) }
{
    match segment.request {
        Some((requested, _)) => requested == q,
        None => false,
    }
}

/// How often does the script request the resource?
fn number_of_requests(script: &[Segment], q: ResourceId) -> usize
    ensures { result ≡ number_of_requests (map segment_seen script.now) q.0 }
{
    script.iter().filter(|segment| requests(segment, q)).count()
}

/// Does the script request each resource at most as often as a job of the task may?
fn keeps_counts(set: &TaskSet, x: TaskId, script: &[Segment]) -> bool
    requires { x.0 < length set.now.tasks }
    ensures { result ≡ are_counts_kept set.now x.0 (map segment_seen script.now) }
{
    for q in 0..set.resources() {
        let count = number_of_requests(script, ResourceId(q)) as u64;
        if count > set.count(x, ResourceId(q)) {
            return false;
        }
    }
    true
}

/// Is the segment's request, if it has one, no longer than a job of the task may request its resource?
fn keeps_length(set: &TaskSet, x: TaskId, segment: &Segment) -> bool
    requires task { x.0 < length set.now.tasks }
    requires resource { IsTrue (is_resource_in (length set.now.resources) (segment_seen segment.now)) }
    ensures { result ≡ is_length_kept set.now x.0 (segment_seen segment.now) }
{
    match segment.request {
        Some((q, length)) => length <= set.length(x, q),
        None => true,
    }
}

/// Is each request of the script no longer than a job of the task may request its resource?
fn keeps_lengths(set: &TaskSet, x: TaskId, script: &[Segment]) -> bool
    requires { IsScriptOf set.now x.0 (map segment_seen script.now) }
    ensures { result ≡ list_all (is_length_kept set.now x.0) (map segment_seen script.now) }
{
    for segment in script {
        if !keeps_length(set, x, segment) {
            return false;
        }
    }
    true
}

/// Does the job stay within what its task may execute and request?
#[tactic(auto, unfolding(crate::specs::JobLists::is_within_budget))]
pub(crate) fn stays_within_budget(set: &TaskSet, job: &Job) -> bool
    requires { IsScriptOf set.now job.now.task.0 (job_seen job.now).script }
    ensures { result ≡ is_within_budget set.now (job_seen job.now) }
{
    if !takes_at_most(&job.script, set.cost(job.task)) {
        return false;
    }
    if !stays_local_at_most(&job.script, set.local(job.task)) {
        return false;
    }
    if !keeps_counts(set, job.task, &job.script) {
        return false;
    }
    keeps_lengths(set, job.task, &job.script)
}

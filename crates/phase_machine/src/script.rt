ghost use Rattle.std.specs.Prelude.{◌≡◌, ◌<◌, ◌≤◌, true, length};
ghost use Rattle.schedule_model.specs.JobLists.{is_listed_segment};
ghost use Rattle.schedule_model.specs.Seen.{segment_seen};
ghost use Rattle.phase_machine.specs.MachineDef.{IsNext};
ghost use Rattle.phase_machine.specs.Given.{KeepsItsRules, IsInScript, IsSegmentAt, IsSegmentCountOf, IsTicksOf, IsTaskOf};

use schedule_model::{JobId, JobList, Segment};
use sporadic_model::TaskId;

/// The jobs of every list are lawful, and each task of its set has its numbers in their ranges. This call says so in a proof, and does
/// nothing.
pub(crate) fn list_is_lawful(jobs: &JobList)
    ensures { KeepsItsRules jobs.now }
{
    jobs.keeps_its_rules();
    jobs.set().keeps_the_model();
}

/// Segment number `n` of a listed job.
pub(crate) fn segment_at(jobs: &JobList, j: u32, n: u32) -> Segment
    requires { IsInScript jobs.now.jobs j n }
    ensures { IsSegmentAt jobs.now j n result }
{
    jobs.job(JobId(j)).script.at(n as usize)
}

/// How many segments a listed job has.
pub(crate) fn segments_of(jobs: &JobList, j: u32) -> u32
    requires { j < length jobs.now.jobs }
    ensures { IsSegmentCountOf jobs.now.jobs j result }
{
    jobs.job(JobId(j)).script.len() as u32
}

/// How many ticks the segment takes, with its request.
pub(crate) fn ticks_of(segment: &Segment) -> u64
    requires { is_listed_segment (segment_seen segment.now) ≡ true }
    ensures { IsTicksOf (segment_seen segment.now) result }
{
    match segment.request {
        Some((_, length)) => segment.local + length,
        None => segment.local,
    }
}

/// The task of a listed job.
pub(crate) fn task_of(jobs: &JobList, j: u32) -> TaskId
    requires { j < length jobs.now.jobs }
    ensures { IsTaskOf jobs.now j result.0 }
{
    jobs.job(JobId(j)).task
}

/// The task's first job from this one on, or the number of jobs if there is none.
pub(crate) fn next_of(jobs: &JobList, x: u32, from: u32) -> u32
    requires { from ≤ length jobs.now.jobs }
    ensures { IsNext jobs.now.jobs x from result }
{
    for j in from..jobs.len() {
        if task_of(jobs, j) == TaskId(x) {
            return j;
        }
    }
    jobs.len()
}

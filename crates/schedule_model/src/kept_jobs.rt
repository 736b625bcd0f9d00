ghost use Rattle.std.specs.Prelude.{◌≡◌, ◌+◌, ◌<◌, ◌≤◌, ◌++◌, ◌∷◌, [], true, map, length};
ghost use Rattle.std.specs.List.{list_all};
ghost use Rattle.schedule_model.specs.JobDef.{job_of};
ghost use Rattle.schedule_model.specs.JobLists.{last_arrival, segment_count, is_listed_segment};
ghost use Rattle.schedule_model.specs.LawfulJobs.{is_resource_in};
ghost use Rattle.schedule_model.specs.Kept.{kept_jobs, start_of, FitsBehind, AllOrNone};
ghost use Rattle.schedule_model.specs.Listed.{listed_seen};
ghost use Rattle.schedule_model.specs.Seen.{job_seen};

use crate::job::Job;
use crate::kept_segments::KeptSegments;
use crate::limits::{MOST_JOBS, MOST_SEGMENTS};
use crate::listed::{ListedJob, ListedScript};
use sporadic_model::{MOST_RESOURCES, MOST_TICKS, TaskId};
use std::alloc::{AllocError, Global};
use std::marker::Model;

/// What is kept of a job, without its segments.
#[derive(Clone, Copy, Debug)]
pub(crate) struct KeptJob {
    task: TaskId,
    arrival: u32,
    release: u32,
    /// Where its segments end, among the segments of all jobs. They begin where those of the job before end.
    end: u32,
}

/// Jobs, in 16 bytes each and 9 bytes for each segment.
#[derive(Drop)]
pub(crate) struct KeptJobs {
    jobs: Vec<KeptJob>,
    segments: KeptSegments,
}

impl Model for KeptJobs {
    ghost use Rattle.std.specs.Prelude.{List};
    ghost use Rattle.schedule_model.specs.JobDef.{JobDef};

    ghost Value = { List JobDef };

    ghost use Rattle.schedule_model.specs.KeptViews.{kept_view, AreJobsKept};

    ghost view = { kept_view };

    ghost invariant = { AreJobsKept };
}

impl KeptJobs {
    pub(crate) fn new(alloc: Global) -> KeptJobs
        ensures { result ≡ [] }
    {
        KeptJobs {
            jobs: Vec::new(alloc),
            segments: KeptSegments::new(alloc),
        }
    }

    pub(crate) fn len(&self) -> usize
        ensures value { result ≡ length self.now }
        ensures most { result ≤ MOST_JOBS }
    {
        self.jobs.len()
    }

    /// How many segments the jobs have in all.
    pub(crate) fn segments(&self) -> u64
        ensures value { result ≡ segment_count self.now }
        ensures most { result ≤ MOST_SEGMENTS }
    {
        self.segments.len() as u64
    }

    /// When did the task's last job arrive, if it has one?
    pub(crate) fn last_arrival_of(&self, x: TaskId) -> Option<u64>
        ensures { result ≡ last_arrival self.now x.0 }
    {
        last_arrival_among(&self.jobs, x)
    }

    /// Job number `j`.
    pub(crate) fn job(&self, j: usize) -> ListedJob<'_>
        requires { j < length self.now }
        ensures { listed_seen result ≡ job_of self.now j }
    {
        let kept = self.jobs[j];
        ListedJob {
            task: kept.task,
            arrival: u64::from(kept.arrival),
            release: u64::from(kept.release),
            script: ListedScript::new(&self.segments, start_of(&self.jobs, j), kept.end),
        }
    }

    /// Puts the job at the end, whole or not at all.
    pub(crate) fn push(&mut self, job: &Job) -> Result<(), AllocError>
        requires { FitsBehind self.old (job_seen job.now) }
        ensures { AllOrNone result self.old self.new (job_seen job.now ∷ []) }
    {
        self.jobs.reserve(1)?;
        self.segments.append(&job.script)?;
        self.jobs.push_reserved(KeptJob {
            task: job.task,
            arrival: job.arrival as u32,
            release: job.release as u32,
            end: self.segments.len() as u32,
        });
        Ok(())
    }
}

/// Where the segments of job number `j` begin.
fn start_of(jobs: &[KeptJob], j: usize) -> u32
    requires { j < length jobs.now }
    ensures { result ≡ start_of 0 jobs.now j }
{
    if j == 0 {
        return 0;
    }
    jobs[j - 1].end
}

/// When did the task's last job of these arrive, if it has one?
fn last_arrival_among(jobs: &[KeptJob], x: TaskId) -> Option<u64>
    ensures { result ≡ last_arrival (kept_jobs [] 0 jobs.now) x.0 }
{
    let mut left = jobs.len();
    while left > 0 {
        left -= 1;
        let job = &jobs[left];
        if job.task == x {
            return Some(u64::from(job.arrival));
        }
    }
    None
}

ghost use Rattle.std.specs.Prelude.{◌≡◌, ◌<◌, ◌≤◌, [], length, IsTrue};
ghost use Rattle.std.specs.List.{list_all};
ghost use Rattle.schedule_model.specs.JobDef.{job_of};
ghost use Rattle.schedule_model.specs.LawfulJobs.{AreLawfulJobs, is_resource_in};
ghost use Rattle.schedule_model.specs.JobLists.{JobJudged, IsJobList};
ghost use Rattle.schedule_model.specs.Listed.{listed_seen};
ghost use Rattle.schedule_model.specs.Seen.{job_seen};

use crate::job::{Job, JobId};
use crate::judging::refusal_of;
use crate::kept_jobs::KeptJobs;
use crate::limits::MOST_JOBS;
use crate::listed::ListedJob;
use crate::refusal::JobRefusal;
use sporadic_model::TaskSet;
use std::alloc::{AllocError, Global};
use std::marker::Model;

/// Lawful jobs of a task set, in the order in which they were pushed. Any two of one task arrive at least a period apart.
#[derive(Drop)]
pub struct JobList<'a> {
    set: &'a TaskSet,
    jobs: KeptJobs,
}

impl<'a> Model for JobList<'a> {
    ghost use Rattle.schedule_model.specs.JobDef.{JobsDef};

    ghost Value = { JobsDef };

    ghost use Rattle.schedule_model.specs.ListViews.{jobs_view, IsJobsKept};

    ghost view = { jobs_view };

    ghost invariant = { IsJobsKept };
}

impl<'a> JobList<'a> {
    /// A list without jobs.
    pub fn new(alloc: Global, set: &'a TaskSet) -> JobList<'a>
        ensures { result ≡ record { set = set.now; jobs = [] } }
    {
        JobList {
            set,
            jobs: KeptJobs::new(alloc),
        }
    }

    /// Takes the job into the list, at its end, or names the first refusal that is due. The refusals are tried in the order of
    /// [`JobRefusal`]. After a refusal the list is as it was.
    pub fn push(&mut self, job: Job) -> Result<(), JobRefusal>
        requires task { job.task.0 < length self.old.set.tasks }
        requires resources { IsTrue (list_all (is_resource_in (length self.old.set.resources)) (job_seen job).script) }
        ensures value { JobJudged result self.old self.new (job_seen job) }
        ensures set { self.new.set ≡ self.old.set }
    {
        match refusal_of(self.set, &self.jobs, &job) {
            Some(refusal) => return Err(refusal),
            None => {}
        }
        // a byte is enough for a resource's number: no set has more than 32 resources
        self.set.keeps_the_model();
        match self.jobs.push(&job) {
            Ok(()) => Ok(()),
            Err(AllocError) => Err(JobRefusal::Memory),
        }
    }

    /// How many jobs there are, at most 100,000.
    pub fn len(&self) -> u32
        ensures value { result ≡ length self.now.jobs }
        ensures lawful { AreLawfulJobs self.now }
        ensures listed { IsJobList self.now }
        ensures most { result ≤ MOST_JOBS }
    {
        self.jobs.len() as u32
    }

    /// Job `j` of the list.
    pub fn job(&self, j: JobId) -> ListedJob<'_>
        requires { j.0 < length self.now.jobs }
        ensures value { listed_seen result ≡ job_of self.now.jobs j.0 }
        ensures lawful { AreLawfulJobs self.now }
        ensures listed { IsJobList self.now }
    {
        self.jobs.job(j.0 as usize)
    }

    /// The jobs of every list are lawful, and within the limits of lists. This call says so in a proof, and does nothing.
    pub fn keeps_its_rules(&self)
        ensures lawful { AreLawfulJobs self.now }
        ensures listed { IsJobList self.now }
    {
        // a proof knows what every list keeps once a field is read
        let _jobs = &self.jobs;
    }

    /// The task set of the jobs.
    pub fn set(&self) -> &'a TaskSet
        ensures { result.now ≡ self.now.set }
    {
        self.set
    }
}

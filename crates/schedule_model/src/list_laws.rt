//! Laws of lists of jobs and of rows. Each function here does nothing: what it ensures holds for all lists.

ghost use Rattle.std.specs.Prelude.{◌≡◌, ◌<◌, ◌↔◌, IsTrue, length, None};
ghost use Rattle.std.specs.List.{list_all};
ghost use Rattle.schedule_model.specs.JobDef.{JobDef, JobsDef};
ghost use Rattle.schedule_model.specs.LawfulJobs.{AreLawfulJobs, is_resource_in};
ghost use Rattle.schedule_model.specs.JobLists.{IsJobList, first_refusal, with_job};

use crate::limits::{MOST_JOBS, MOST_SEGMENTS};

/// Take lawful jobs within the limits of lists, and a job whose task and resources are of the set. No refusal of the job is due if and only
/// if the list with it at its end is lawful and within the limits.
pub fn job_refusals_are_exact()
    ensures { (jobs : JobsDef) (job : JobDef) → AreLawfulJobs jobs → IsJobList jobs → job.task < length jobs.set.tasks
        → IsTrue (list_all (is_resource_in (length jobs.set.resources)) job.script)
        → (first_refusal jobs job ≡ None) ↔ (AreLawfulJobs (with_job jobs job) × IsJobList (with_job jobs job)) }
{}

/// The limits that lists of jobs keep, as numbers.
pub fn list_limits_are_fixed()
    ensures jobs { MOST_JOBS ≡ 100000 }
    ensures segments { MOST_SEGMENTS ≡ 1000000 }
{}

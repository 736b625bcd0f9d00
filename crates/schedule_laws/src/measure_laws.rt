ghost use Rattle.std.specs.Prelude.{◌≡◌, ℕ, ◌+◌, ◌<◌, ◌≤◌, Bool, true, false, length};
ghost use Rattle.number_laws.specs.Sums.{flag};
ghost use Rattle.number_laws.specs.Tests.{count_below};
ghost use Rattle.sporadic_model.specs.SetDef.{task_at, jobs_within};
ghost use Rattle.sporadic_model.specs.Accepted.{TaskNumbers};
ghost use Rattle.schedule_model.specs.JobDef.{JobsDef, job_of};
ghost use Rattle.schedule_model.specs.LawfulJobs.{AreLawfulJobs};
ghost use Rattle.schedule_model.specs.RowDef.{Trace};
ghost use Rattle.schedule_model.specs.Phase.{phase_of, is_finished};
ghost use Rattle.schedule_model.specs.Phase.Phase.{Finished};
ghost use Rattle.schedule_model.specs.BlockedTicks.{is_blocked};
ghost use Rattle.schedule_model.specs.Measures.{has_finished, finish_of, response_of, blocking_of};

/// A job is finished from its finish on and not before, and further rows don't change that. If it is finished some ticks after its release,
/// its response is no more than these. Its blocked ticks rise by one at a blocked tick.
pub fn measures_are_kept()
    ensures finished { (w : Trace) (n j : ℕ) → has_finished w n j ≡ true → phase_of w (finish_of w n j) j ≡ Finished }
    ensures before { (w : Trace) (n t j : ℕ) → t < finish_of w n j → is_finished (phase_of w t j) ≡ false }
    ensures stays { (w : Trace) (n m j : ℕ) → n ≤ m → has_finished w n j ≡ true → finish_of w m j ≡ finish_of w n j }
    ensures new { (w : Trace) (n j : ℕ) → has_finished w n j ≡ false → finish_of w (n + 1) j ≡ n + 1 }
    ensures response { (w : Trace) (n b j : ℕ) → phase_of w ((job_of w.jobs j).release + b) j ≡ Finished → response_of w n j ≤ b }
    ensures blocking { (interferes : Trace → ℕ → ℕ → Bool) (w : Trace) (n j : ℕ)
        → blocking_of interferes w (n + 1) j ≡ blocking_of interferes w n j + flag (is_blocked interferes w n j) }
{}

/// Take the jobs of one task that arrive in a window, or less than `bound` ticks before it. They are at most as many as can run in the
/// window of a sporadic task with that bound and its period.
pub fn arrivals_are_spaced()
    ensures { (jobs : JobsDef) (x n r window bound : ℕ) (p : ℕ → Bool) → AreLawfulJobs jobs
        → 0 < (task_at jobs.set x).period → n ≤ length jobs.jobs
        → ((j : ℕ) → p j ≡ true → (job_of jobs.jobs j).task ≡ x)
        → ((j : ℕ) → p j ≡ true → r < (job_of jobs.jobs j).arrival + bound)
        → ((j : ℕ) → p j ≡ true → (job_of jobs.jobs j).arrival < r + window)
        → count_below n p ≤ jobs_within window bound (task_at jobs.set x).period }
{}

/// Jobs of one task are released in the order in which they are listed, since a jitter is below its task's period. Their releases may be
/// less than a period apart.
pub fn releases_rise()
    ensures { (jobs : JobsDef) (a b : ℕ) → AreLawfulJobs jobs → TaskNumbers jobs.set (job_of jobs.jobs a).task
        → a < b → b < length jobs.jobs → (job_of jobs.jobs a).task ≡ (job_of jobs.jobs b).task
        → (job_of jobs.jobs a).release < (job_of jobs.jobs b).release }
{}

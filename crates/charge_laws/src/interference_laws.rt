ghost use Rattle.std.specs.Prelude.{◌≡◌, ℕ, ◌+◌, ◌-◌, ◌*◌, ◌<◌, ◌≤◌, Bool, true, false, length};
ghost use Rattle.number_laws.specs.Tests.{count_below};
ghost use Rattle.sporadic_model.specs.SetDef.{task_at, jobs_within};
ghost use Rattle.sporadic_model.specs.Accepted.{IsAccepted};
ghost use Rattle.schedule_model.specs.JobDef.{job_of};
ghost use Rattle.schedule_model.specs.LawfulJobs.{AreLawfulJobs, IsLawfulJob};
ghost use Rattle.schedule_model.specs.RowDef.{Trace, jobs_of};
ghost use Rattle.schedule_model.specs.Phase.{phase_of, is_finished};
ghost use Rattle.schedule_model.specs.Activity.{task_of, is_active};
ghost use Rattle.schedule_model.specs.Keeping.{KeepsBefore};
ghost use Rattle.schedule_model.specs.BlockedTicks.{is_dpcp_interference};
ghost use Rattle.charge_laws.specs.Interferers.{interferes_with_some, is_interference_of};
ghost use Rattle.charge_laws.specs.Windows.{AreBounds, bound_end, window_end, EndedBy, EndedBefore};
ghost use Rattle.schedule_laws.specs.Agreement.{RunsActiveBefore};

use schedule_model::BlockingProtocol;

/// Let each job whose bound has passed by a job's release be finished by then. Then this job is active from its release until it ends.
pub fn jobs_are_active_until_they_end()
    ensures { (w : Trace) (bound : ℕ → ℕ) (t j : ℕ) → IsAccepted w.set → AreLawfulJobs (jobs_of w) → AreBounds w.set bound
        → j < length w.jobs → EndedBy w bound (job_of w.jobs j).release → (job_of w.jobs j).release ≤ t
        → is_finished (phase_of w t j) ≡ false → is_active w t j ≡ true }
{}

/// Under every protocol a lawful job interferes with others at no more ticks than its task's cost.
pub fn jobs_interfere_within_the_cost<P: BlockingProtocol>()
    ensures { (p : P) (w : Trace) (n y : ℕ) → P.suits p w.set → KeepsBefore (P.keeps p) w n → IsLawfulJob w.set (job_of w.jobs y)
        → count_below n (λ t. interferes_with_some (P.interferes p) w t y) ≤ (task_at w.set (task_of w y)).cost }
{}

/// Under DPCP a lawful job interferes with others at no more ticks than its task's local limit.
pub fn dpcp_interferes_within_the_local_limit()
    ensures { (w : Trace) (n y : ℕ) → IsLawfulJob w.set (job_of w.jobs y)
        → count_below n (λ t. interferes_with_some is_dpcp_interference w t y) ≤ (task_at w.set (task_of w y)).local }
{}

/// Under every protocol: let no job of a task x interfere at more than `g x` ticks. Let each job whose bound passes before job j's bound be
/// finished by then. Then at most this many ticks of j's window are interference by jobs of task h.
pub fn interference_is_counted<P: BlockingProtocol>()
    ensures { (p : P) (w : Trace) (bound g : ℕ → ℕ) (n j h : ℕ) → P.suits p w.set → KeepsBefore (P.keeps p) w n
        → IsAccepted w.set → AreLawfulJobs (jobs_of w) → AreBounds w.set bound → h < length w.set.tasks → g h ≤ bound h
        → ((m y : ℕ) → m ≤ n → y < length w.jobs → count_below m (λ t. interferes_with_some (P.interferes p) w t y) ≤ g (task_of w y))
        → j < length w.jobs → EndedBefore w bound (bound_end w bound j)
        → count_below (window_end w bound n j) (λ t. is_interference_of (P.interferes p) w t j h)
        ≤ jobs_within (bound (task_of w j)) (bound h + (task_at w.set h).jitter - g h) (task_at w.set h).period * g h }
{}

ghost use Rattle.std.specs.Prelude.{◌≡◌, ℕ, ◌+◌, ◌<◌, ◌≤◌, ◌↔◌, true, false, length, None, Some};
ghost use Rattle.number_laws.specs.Sums.{flag};
ghost use Rattle.schedule_model.specs.JobDef.{job_of};
ghost use Rattle.schedule_model.specs.LawfulJobs.{is_script};
ghost use Rattle.schedule_model.specs.RowDef.{Trace, runs_in};
ghost use Rattle.schedule_model.specs.Phase.{is_finished, executed, phase_of};
ghost use Rattle.schedule_model.specs.Phase.Phase.{Asking, Finished};
ghost use Rattle.schedule_model.specs.Activity.{task_of, is_active, active_job_of};
ghost use Rattle.schedule_laws.specs.Agreement.{RunsActiveBefore};

/// A job's executed ticks begin with 0. They rise by one at a tick at which it runs, and else stay.
pub fn executed_ticks_rise_by_one()
    ensures none { (w : Trace) (j : ℕ) → executed w 0 j ≡ 0 }
    ensures next { (w : Trace) (t j : ℕ) → executed w (t + 1) j ≡ executed w t j + flag (runs_in (w.row t) j) }
{}

/// A phase moves forward. It stays if the job doesn't run, and a finished job stays finished. A request that is open at two ticks is open
/// at each tick between. The numbers of requests never fall, and one number is a request of one resource.
pub fn phases_move_forward()
    ensures waits { (w : Trace) (t j : ℕ) → runs_in (w.row t) j ≡ false → phase_of w (t + 1) j ≡ phase_of w t j }
    ensures finished { (w : Trace) (u t j : ℕ) → u ≤ t → phase_of w u j ≡ Finished → phase_of w t j ≡ Finished }
    ensures between { (w : Trace) (u t v j m q r : ℕ) → phase_of w u j ≡ Asking m q → phase_of w v j ≡ Asking m r → u ≤ t → t ≤ v
        → phase_of w t j ≡ Asking m q }
    ensures forward { (w : Trace) (u t j m n q r : ℕ) → phase_of w u j ≡ Asking m q → phase_of w t j ≡ Asking n r → u ≤ t → m ≤ n }
    ensures resource { (w : Trace) (u v j m q r : ℕ) → phase_of w u j ≡ Asking m q → phase_of w v j ≡ Asking m r → q ≡ r }
{}

/// An active job is in the list. It is the only active one of its task, and so the task's active job. It stays active until it is finished.
pub fn tasks_have_one_active_job()
    ensures listed { (w : Trace) (t j : ℕ) → is_active w t j ≡ true → j < length w.jobs }
    ensures one { (w : Trace) (t i j : ℕ) → is_active w t i ≡ true → is_active w t j ≡ true → task_of w i ≡ task_of w j → i ≡ j }
    ensures stays { (w : Trace) (u t j : ℕ) → is_active w u j ≡ true → u ≤ t → is_finished (phase_of w t j) ≡ false
        → is_active w t j ≡ true }
    ensures some { (w : Trace) (t x j : ℕ) → (active_job_of w t x ≡ Some j) ↔ ((is_active w t j ≡ true) × (task_of w j ≡ x)) }
    ensures none { (w : Trace) (t x : ℕ) → (active_job_of w t x ≡ None) ↔ ((j : ℕ) → task_of w j ≡ x → is_active w t j ≡ false) }
{}

/// The jobs of a task finish in their order, if running jobs are active. So a job is active from when it is released and the last job of
/// its task before it is finished, until it is finished itself.
pub fn jobs_finish_in_order()
    ensures order { (w : Trace) (n t p e : ℕ) → RunsActiveBefore w n → t ≤ n → is_script (job_of w.jobs p).script ≡ true
        → phase_of w t p ≡ Finished → e < p → task_of w e ≡ task_of w p → phase_of w t e ≡ Finished }
    ensures after { (w : Trace) (n t p j : ℕ) → RunsActiveBefore w n → t ≤ n → is_script (job_of w.jobs p).script ≡ true → p < j
        → task_of w p ≡ task_of w j → ((e : ℕ) → p < e → e < j → task_of w e ≡ task_of w j → ⊥)
        → (job_of w.jobs j).release ≤ t → is_finished (phase_of w t j) ≡ false → phase_of w t p ≡ Finished
        → is_active w t j ≡ true }
{}

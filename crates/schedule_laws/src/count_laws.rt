ghost use Rattle.std.specs.Prelude.{◌≡◌, ℕ, ◌*◌, ◌<◌, ◌≤◌, Bool, true, false, length, slice_index_or};
ghost use Rattle.number_laws.specs.Sums.{sum_below};
ghost use Rattle.number_laws.specs.Tests.{count_below};
ghost use Rattle.sporadic_model.specs.SetDef.{SetDef};
ghost use Rattle.sporadic_model.specs.Users.{count_of, length_of};
ghost use Rattle.schedule_model.specs.JobDef.{JobDef, job_of, asks_for, total_ticks, local_ticks, number_of_requests, no_segment};
ghost use Rattle.schedule_model.specs.LawfulJobs.{IsLawfulJob};
ghost use Rattle.schedule_model.specs.RowDef.{Trace};
ghost use Rattle.schedule_model.specs.Phase.{Phase, is_local, is_asking, executed, phase_of};
ghost use Rattle.schedule_model.specs.Phase.Phase.{Asking, Finished};
ghost use Rattle.schedule_laws.specs.Agreement.{RunsActiveBefore};
ghost use Rattle.schedule_laws.specs.Counting.{ticks_where, executed_in, is_request, requests_in, requests_begun, HasUser};

/// A job runs in a kind of phase at most as often as its script has ticks of that kind, and exactly as often once it is finished. So it
/// runs Local for at most its local ticks, and in all for no more than its script's ticks. In requests of a resource it runs for at most
/// their number times the length that its task may have, and in one request for at most that length.
pub fn executed_ticks_are_counted_along_the_script()
    ensures most { (p : Phase → Bool) (w : Trace) (t j : ℕ) → p Finished ≡ false
        → executed_in p w t j ≤ ticks_where p 0 (job_of w.jobs j).script }
    ensures finished { (p : Phase → Bool) (w : Trace) (t j : ℕ) → p Finished ≡ false → phase_of w t j ≡ Finished
        → executed_in p w t j ≡ ticks_where p 0 (job_of w.jobs j).script }
    ensures local { (w : Trace) (t j : ℕ) → executed_in is_local w t j ≤ local_ticks (job_of w.jobs j).script }
    ensures resource { (set : SetDef) (w : Trace) (t q j : ℕ) → IsLawfulJob set (job_of w.jobs j)
        → executed_in (is_asking q) w t j ≤ number_of_requests (job_of w.jobs j).script q * length_of set (job_of w.jobs j).task q }
    ensures request { (set : SetDef) (w : Trace) (t m q j : ℕ) → IsLawfulJob set (job_of w.jobs j)
        → executed_in (is_request m q) w t j ≤ length_of set (job_of w.jobs j).task q }
    ensures all { (w : Trace) (n t j : ℕ) → RunsActiveBefore w n → t ≤ n → executed w t j ≤ total_ticks (job_of w.jobs j).script }
{}

/// The number of requests that a job has begun never falls, and is at most its script's. It is the same at two ticks of one request. If it
/// is the same at two ticks, a request that is open at the later one was open at the earlier one.
pub fn requests_begun_are_counted()
    ensures up { (w : Trace) (u t j : ℕ) → u ≤ t → requests_begun w u j ≤ requests_begun w t j }
    ensures most { (w : Trace) (t j : ℕ) → requests_begun w t j ≤ requests_in (job_of w.jobs j).script }
    ensures open { (w : Trace) (u t j m q : ℕ) → u ≤ t → requests_begun w u j ≡ requests_begun w t j
        → phase_of w t j ≡ Asking m q → phase_of w u j ≡ Asking m q }
    ensures same { (w : Trace) (u t j m q r : ℕ) → phase_of w u j ≡ Asking m q → phase_of w t j ≡ Asking m r
        → requests_begun w u j ≡ requests_begun w t j }
{}

/// A lawful job requests resources of the set that its task uses, each by the segment of the request's number. It has no more requests, of
/// one resource or of all, than its task may make.
pub fn requests_are_within_the_budget()
    ensures resource { (set : SetDef) (w : Trace) (t j m q : ℕ) → IsLawfulJob set (job_of w.jobs j) → phase_of w t j ≡ Asking m q
        → HasUser set q (job_of w.jobs j).task }
    ensures segment { (w : Trace) (t j m q : ℕ) → phase_of w t j ≡ Asking m q
        → (m < length (job_of w.jobs j).script) × (asks_for q (slice_index_or (job_of w.jobs j).script m no_segment) ≡ true) }
    ensures own { (set : SetDef) (job : JobDef) (q : ℕ) → IsLawfulJob set job
        → count_below (length job.script) (λ m. asks_for q (slice_index_or job.script m no_segment)) ≤ count_of set job.task q }
    ensures all { (set : SetDef) (job : JobDef) → IsLawfulJob set job
        → requests_in job.script ≤ sum_below (length set.resources) (λ q. count_of set job.task q) }
{}

ghost use Rattle.std.specs.Prelude.{◌≡◌, ℕ, ◌+◌, ◌≤◌, true, false};
ghost use Rattle.schedule_model.specs.JobDef.{job_of};
ghost use Rattle.schedule_model.specs.LawfulJobs.{is_script};
ghost use Rattle.schedule_model.specs.RowDef.{Trace};
ghost use Rattle.schedule_model.specs.Phase.{is_same_request, phase_of};
ghost use Rattle.schedule_model.specs.Phase.Phase.{Asking};
ghost use Rattle.schedule_model.specs.Activity.{issue_tick_of, is_active};
ghost use Rattle.schedule_model.specs.SharedRules.{Ranks};
ghost use Rattle.schedule_model.specs.Protocols.{shared_rule, dpcp_rule};
ghost use Rattle.schedule_laws.specs.Agreement.{RunsActiveBefore};
ghost use Rattle.schedule_laws.specs.LocalRuns.{LocalRun};
ghost use Rattle.schedule_laws.specs.ProtocolFacts.{HoldersStay};

/// The issue tick of a request is no later than each tick at which the request is open. The request is open from then on, and its issue
/// tick stays while it is open. If the request is new, it is the present tick.
pub fn issue_ticks_are_first()
    ensures present { (w : Trace) (t j : ℕ) → issue_tick_of w t j ≤ t }
    ensures least { (w : Trace) (u t j : ℕ) → is_same_request (phase_of w u j) (phase_of w t j) ≡ true → issue_tick_of w t j ≤ u }
    ensures since { (w : Trace) (u t j m q : ℕ) → phase_of w t j ≡ Asking m q → issue_tick_of w t j ≤ u → u ≤ t
        → phase_of w u j ≡ Asking m q }
    ensures stays { (w : Trace) (t j : ℕ) → is_same_request (phase_of w t j) (phase_of w (t + 1) j) ≡ true
        → issue_tick_of w (t + 1) j ≡ issue_tick_of w t j }
    ensures new { (w : Trace) (t j : ℕ) → is_same_request (phase_of w t j) (phase_of w (t + 1) j) ≡ false
        → issue_tick_of w (t + 1) j ≡ t + 1 }
{}

/// If a request is open at a later tick and not at an earlier one, its job executes a Local tick in between. So if each running job is
/// active, a job in a request is active.
pub fn requests_follow_local_ticks()
    ensures between { (w : Trace) (u v j m q : ℕ) → is_script (job_of w.jobs j).script ≡ true → u ≤ v
        → phase_of w v j ≡ Asking m q → is_same_request (phase_of w u j) (Asking m q) ≡ false → LocalRun w u v j }
    ensures active { (w : Trace) (n t j m q : ℕ) → RunsActiveBefore w n → t ≤ n → is_script (job_of w.jobs j).script ≡ true
        → phase_of w t j ≡ Asking m q → is_active w t j ≡ true }
{}

/// In rows that keep a protocol's rules a holder stays the holder while its request is open.
pub fn holders_stay()
    ensures shared { (o : Ranks) → HoldersStay (shared_rule o) }
    ensures distributed { HoldersStay dpcp_rule }
{}

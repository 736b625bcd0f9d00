ghost use Rattle.std.specs.Prelude.{◌≡◌, ℕ, ◌+◌, ◌<◌, ◌≤◌, ◌↔◌, Bool, true, length};
ghost use Rattle.number_laws.specs.Tests.{count_below};
ghost use Rattle.sporadic_model.specs.SetDef.{is_higher_local};
ghost use Rattle.schedule_model.specs.JobDef.{job_of, total_ticks};
ghost use Rattle.schedule_model.specs.RowDef.{Trace};
ghost use Rattle.schedule_model.specs.Phase.{is_local, is_finished, phase_of};
ghost use Rattle.schedule_model.specs.Phase.Phase.{Finished};
ghost use Rattle.schedule_model.specs.Activity.{task_of};
ghost use Rattle.schedule_model.specs.Measures.{blocking_of};
ghost use Rattle.schedule_model.specs.SharedRules.{Ranks};
ghost use Rattle.schedule_model.specs.Ranks.{mpcp, fmlp_plus};
ghost use Rattle.schedule_model.specs.Protocols.{shared_rule, dpcp_rule};
ghost use Rattle.schedule_model.specs.Keeping.{KeepsRow, KeepsBefore};
ghost use Rattle.schedule_model.specs.Chosen.{IsSized, IsSharedChoice, IsDpcpChoice};
ghost use Rattle.schedule_model.specs.Fitting.{fits_row};
ghost use Rattle.schedule_model.specs.TakenRows.{FitsJobs, CanBeTaken, CanBeTakenBefore};
ghost use Rattle.schedule_model.specs.BlockedTicks.{is_shared_interference, is_dpcp_interference, is_interferer};
ghost use Rattle.schedule_laws.specs.Agreement.{RunsActiveBefore};
ghost use Rattle.schedule_laws.specs.ProtocolFacts.{HasItsLaws, ChoosesOneRow, HasHigherCause};

use schedule_model::BlockingProtocol;

/// The laws of `BlockingProtocol` if requests run on their own task's processor, whatever the order of grants and runs: so for MPCP and
/// FMLP+.
pub fn shared_memory_keeps_its_laws()
    ensures { (o : Ranks) → HasItsLaws (shared_rule o) (IsSharedChoice o) is_shared_interference }
{}

/// The laws of `BlockingProtocol` for DPCP.
pub fn dpcp_keeps_its_laws()
    ensures { HasItsLaws dpcp_rule IsDpcpChoice is_dpcp_interference }
{}

/// After the same rows each protocol has at most one chosen row.
pub fn chosen_rows_are_unique()
    ensures mpcp { ChoosesOneRow (IsSharedChoice mpcp) }
    ensures fmlp_plus { ChoosesOneRow (IsSharedChoice fmlp_plus) }
    ensures dpcp { ChoosesOneRow IsDpcpChoice }
{}

/// In rows that keep the rules of any protocol each running job is active.
pub fn running_jobs_are_active<P: BlockingProtocol>()
    ensures { (p : P) (w : Trace) (n : ℕ) → P.suits p w.set → KeepsBefore (P.keeps p) w n → RunsActiveBefore w n }
{}

/// In rows that keep the rules of any protocol: let the earlier jobs of a job's task be finished at its release `r`. Let its script, its
/// interference and its blocking together have no more than `b` ticks. Then the job ends within `b` ticks of `r`.
pub fn jobs_end_in_time<P: BlockingProtocol>()
    ensures { (p : P) (w : Trace) (r b j : ℕ) → P.suits p w.set → KeepsBefore (P.keeps p) w (r + b)
        → (job_of w.jobs j).release ≡ r → ((e : ℕ) → e < j → task_of w e ≡ task_of w j → phase_of w r e ≡ Finished)
        → total_ticks (job_of w.jobs j).script + count_below (r + b) (λ t. P.interferes p w t j)
        + blocking_of (P.interferes p) w (r + b) j ≤ b
        → is_finished (phase_of w (r + b) j) ≡ true }
{}

/// A tick is interference for a job exactly if some job makes it so. Only one does. It is of a higher task of the job's processor, and
/// under DPCP it is Local.
pub fn interference_has_one_cause()
    ensures shared { HasHigherCause is_shared_interference }
    ensures dpcp { HasHigherCause is_dpcp_interference }
    ensures one { (interferes : Trace → ℕ → ℕ → Bool) (w : Trace) (t j y z : ℕ) → is_interferer interferes w t j y ≡ true
        → is_interferer interferes w t j z ≡ true → y ≡ z }
    ensures dpcp_local { (w : Trace) (t j y : ℕ) → is_interferer is_dpcp_interference w t j y ≡ true
        → is_local (phase_of w t y) ≡ true }
{}

/// In a row that keeps the rules of any protocol, a tick is interference for a job exactly if a job of a higher task of its processor makes
/// it so.
pub fn interference_comes_from_higher_tasks<P: BlockingProtocol>()
    ensures { (p : P) (w : Trace) (t j : ℕ) → P.suits p w.set → KeepsRow (P.keeps p) w t
        → (P.interferes p w t j ≡ true)
        ↔ ((y : ℕ) × (is_interferer (P.interferes p) w t j y ≡ true) × (is_higher_local w.set (task_of w j) (task_of w y) ≡ true)) }
{}

/// A row that keeps the rules of any protocol, and has the set's sizes, can be taken after the rows before it.
pub fn lawful_rows_can_be_taken<P: BlockingProtocol>()
    ensures { (p : P) (w : Trace) (t : ℕ) → P.suits p w.set → IsSized w.set (w.row t) → KeepsRow (P.keeps p) w t → CanBeTaken w t }
{}

/// In rows that can be taken running jobs are active. The test of a row's sizes and names says exactly whether it fits.
pub fn taken_rows_run_active_jobs()
    ensures active { (w : Trace) (n : ℕ) → CanBeTakenBefore w n → RunsActiveBefore w n }
    ensures fits { (w : Trace) (t : ℕ)
        → (fits_row w.set.processors (length w.set.resources) (length w.jobs) (w.row t) ≡ true) ↔ FitsJobs w t }
{}

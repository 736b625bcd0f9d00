//! The rules of non-preemptive spin locks with queues in the order of issue, and what follows from them. A job that waits for a resource
//! spins: its processor runs nothing. A job in a request isn't preempted.
//!
//! Each function here does nothing: its contract is a law. The lemmas that prove it are in `proofs/`. Proofs of crates above use them too.
#![tactic(auto)]

ghost use Rattle.std.specs.Prelude.{◌≡◌, ℕ, ◌<◌, ◌≤◌, true, Some};
ghost use Rattle.schedule_model.specs.LawfulJobs.{AreLawfulJobs};
ghost use Rattle.schedule_model.specs.RowDef.{Trace, jobs_of, running_on, holder_in, runs_in};
ghost use Rattle.schedule_model.specs.Phase.{phase_of};
ghost use Rattle.schedule_model.specs.Phase.Phase.{Local};
ghost use Rattle.schedule_model.specs.Activity.{task_of, processor_of, is_active};
ghost use Rattle.schedule_model.specs.Keeping.{KeepsRow, KeepsBefore};
ghost use Rattle.schedule_model.specs.BlockedTicks.{is_shared_interference};
ghost use Rattle.schedule_model.specs.Protocols.{EachSetSuits};
ghost use Rattle.schedule_model.specs.ProtocolLaws.{IsOneOfThree, IsSoundRow};
ghost use Rattle.schedule_laws.specs.Agreement.{AgreeBefore, RulesReadUpTo, ChoiceReadsUpTo, TicksReadUpTo};
ghost use Rattle.schedule_laws.specs.Steady.{StaysLawful};
ghost use Rattle.spin_rules.specs.SpinRules.{is_in_request, spin_rule, IsSpinChoice};

/// The laws of `BlockingProtocol` for spin locks.
pub fn spin_locks_keep_their_laws()
    ensures one_of_three { (w : Trace) (t j : ℕ) → IsOneOfThree is_shared_interference w t j }
    ensures sound_row { (w : Trace) (t : ℕ) → KeepsRow spin_rule w t → IsSoundRow is_shared_interference w t }
    ensures chosen_keeps { (w : Trace) (t : ℕ) → IsSpinChoice w t → KeepsRow spin_rule w t }
{}

/// Three things depend only on the rows up to a row: whether it keeps the rules, whether it is the chosen one, and which ticks are
/// interference. A lawful row stays lawful through a steady stretch.
pub fn spin_rules_read_the_rows_so_far()
    ensures rules { RulesReadUpTo spin_rule }
    ensures choice { ChoiceReadsUpTo IsSpinChoice }
    ensures ticks { TicksReadUpTo is_shared_interference }
    ensures stretches { StaysLawful EachSetSuits spin_rule IsSpinChoice is_shared_interference }
{}

/// After the same rows there is at most one chosen row.
pub fn spin_choices_are_unique()
    ensures { (v w : Trace) (t : ℕ) → AgreeBefore v w t → IsSpinChoice v t → IsSpinChoice w t → v.row t ≡ w.row t }
{}

/// After rows that keep the rules each processor has at most one job in a request.
pub fn a_processor_has_one_job_in_a_request()
    ensures { (w : Trace) (n t i j : ℕ) → AreLawfulJobs (jobs_of w) → KeepsBefore spin_rule w n → t ≤ n
        → is_in_request w t i ≡ true → is_in_request w t j ≡ true → processor_of w i ≡ processor_of w j → i ≡ j }
{}

/// In rows that keep the rules each holder runs, on its task's processor.
pub fn holders_run()
    ensures { (w : Trace) (n t q j : ℕ) → AreLawfulJobs (jobs_of w) → KeepsBefore spin_rule w n → t < n
        → holder_in (w.row t) q ≡ Some j → running_on (w.row t) (processor_of w j) ≡ Some j }
{}

/// Take an active job in a row that keeps the rules. No job of a lower task of its processor runs a local tick.
pub fn lower_jobs_run_no_local_tick()
    ensures { (w : Trace) (t j y : ℕ) → KeepsRow spin_rule w t → is_active w t j ≡ true → task_of w j < task_of w y
        → processor_of w y ≡ processor_of w j → phase_of w t y ≡ Local → runs_in (w.row t) y ≡ true → ⊥ }
{}

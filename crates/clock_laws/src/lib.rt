//! Bounds on the machine's clock. A set is analysed in ticks, and the machine acts at cycles. A tick has any number of cycles.
//!
//! Each function here does nothing: its contract is a law. `specs/` says what a set in cycles is, and what bounds in ticks promise for
//! schedules whose rows are cycles. The lemmas are in `proofs/`.
#![tactic(auto)]

ghost use Rattle.std.specs.Prelude.{◌≡◌, ℕ, ◌+◌, ◌<◌, ◌≤◌, Bool, [], ◌∷◌, List, length, slice_index};
ghost use Rattle.program_form.specs.Certificate.{CertificateDef};
ghost use Rattle.program_form.specs.Duals.{dual_value};
ghost use Rattle.program_form.specs.Points.{Reaches};
ghost use Rattle.program_form.specs.SevenRows.{seven_rows, seven_rows_dual};
ghost use Rattle.sporadic_model.specs.SetDef.{SetDef, task_at};
ghost use Rattle.sporadic_model.specs.Accepted.{IsAccepted, IsFormed};
ghost use Rattle.sporadic_model.specs.declared.ids.Protocol.{Protocol};
ghost use Rattle.sporadic_model.specs.declared.ids.Protocol.TheVariants as protocol;
ghost use Rattle.sporadic_model.specs.Bounds.{AreWithinDeadlines};
ghost use Rattle.schedule_model.specs.JobDef.{JobDef, job_of, total_ticks};
ghost use Rattle.schedule_model.specs.LawfulJobs.{AreLawfulIn};
ghost use Rattle.schedule_model.specs.RowDef.{Trace};
ghost use Rattle.schedule_model.specs.Phase.{phase_of};
ghost use Rattle.schedule_model.specs.Phase.Phase.{Local, Finished};
ghost use Rattle.schedule_model.specs.Activity.{task_of};
ghost use Rattle.schedule_model.specs.Keeping.{KeepsBefore};
ghost use Rattle.schedule_model.specs.BlockedTicks.{is_shared_interference, is_dpcp_interference};
ghost use Rattle.schedule_model.specs.Ranks.{mpcp, fmlp_plus};
ghost use Rattle.schedule_model.specs.Protocols.{shared_rule, dpcp_rule};
ghost use Rattle.program_sources.specs.Valid.{IsValid};
ghost use Rattle.blocking_columns.specs.Columns.{columns_of};
ghost use Rattle.program_laws.specs.Programs.{source_of};
ghost use Rattle.soundness_laws.specs.Sound.{blocked_in_window};
ghost use Rattle.soundness_laws.specs.Analyses.{AreValues};
ghost use Rattle.soundness_laws.specs.Worked.{two_tasks, two_bounds};
ghost use Rattle.dflp_laws.specs.Rules.{dflp_rule};
ghost use Rattle.dflp_laws.specs.Programs.{dflp_source};
ghost use Rattle.window_laws.specs.WindowRows.{windowed_source};
ghost use Rattle.closer_laws.specs.CloserRows.{fmlp_closer_source};
ghost use Rattle.closer_distributed_laws.specs.CloserRows.{dpcp_closer_source, dflp_closer_source};
ghost use Rattle.closer_spin_laws.specs.CloserSpinRows.{spin_closer_source};
ghost use Rattle.mpcp_window_laws.specs.WaitRows.{mpcp_closer_source};
ghost use Rattle.spin_rules.specs.SpinRules.{spin_rule};
ghost use Rattle.spin_charging.specs.SpinPrograms.{spin_source};
ghost use Rattle.clock_laws.specs.Cycles.{in_cycles, times_each, own_cycles};
ghost use Rattle.clock_laws.specs.Clock.{IsLawfulInCycles, SoundOnClocks};
ghost use Rattle.clock_laws.specs.Whole.{is_whole};
ghost use Rattle.clock_laws.specs.Rounding.{IsRounding, rounded};
ghost use Rattle.clock_laws.specs.Worked.{seven_rows_in_cycles, trace_on_clock};

use schedule_model::BlockingProtocol;

/// The bounds of a valid certificate of an accepted set, and the values of its duals, are sound on clocks, under each of the analyses.
/// However many cycles a tick has, take a schedule whose rows are cycles, of lawful jobs of the set in cycles. It keeps the protocol's
/// rules, and no job executes more cycles than it may. Then each job whose window lies within the schedule ends within its bound in
/// cycles. And no job is blocked in its window at more cycles than its dual's value in cycles and a part of a tick.
pub fn valid_certificates_are_sound_on_clocks()
    ensures mpcp { (set : SetDef) (c : CertificateDef) (values : List ℕ) → IsAccepted set → IsValid (source_of protocol.Mpcp set) c
        → AreValues (source_of protocol.Mpcp set) c values
        → SoundOnClocks (shared_rule mpcp) is_shared_interference (is_whole (source_of protocol.Mpcp set) c) set c.bounds values }
    ensures fmlp_plus { (set : SetDef) (c : CertificateDef) (values : List ℕ) → IsAccepted set → IsValid (source_of protocol.FmlpPlus set) c
        → AreValues (source_of protocol.FmlpPlus set) c values
        → SoundOnClocks (shared_rule fmlp_plus) is_shared_interference (is_whole (source_of protocol.FmlpPlus set) c) set c.bounds values }
    ensures dpcp { (set : SetDef) (c : CertificateDef) (values : List ℕ) → IsAccepted set → IsValid (source_of protocol.Dpcp set) c
        → AreValues (source_of protocol.Dpcp set) c values
        → SoundOnClocks dpcp_rule is_dpcp_interference (is_whole (source_of protocol.Dpcp set) c) set c.bounds values }
    ensures dflp { (set : SetDef) (c : CertificateDef) (values : List ℕ) → IsAccepted set → IsValid (dflp_source set) c
        → AreValues (dflp_source set) c values
        → SoundOnClocks dflp_rule is_dpcp_interference (is_whole (dflp_source set) c) set c.bounds values }
    ensures dpcp_windows { (set : SetDef) (c : CertificateDef) (values : List ℕ) → IsAccepted set → IsValid (windowed_source set) c
        → AreValues (windowed_source set) c values
        → SoundOnClocks dpcp_rule is_dpcp_interference (is_whole (windowed_source set) c) set c.bounds values }
    ensures fmlp_plus_closer { (set : SetDef) (c : CertificateDef) (values : List ℕ) → IsAccepted set → IsValid (fmlp_closer_source set) c
        → AreValues (fmlp_closer_source set) c values
        → SoundOnClocks (shared_rule fmlp_plus) is_shared_interference (is_whole (fmlp_closer_source set) c) set c.bounds values }
    ensures mpcp_closer { (set : SetDef) (c : CertificateDef) (values : List ℕ) → IsAccepted set → IsValid (mpcp_closer_source set) c
        → AreValues (mpcp_closer_source set) c values
        → SoundOnClocks (shared_rule mpcp) is_shared_interference (is_whole (mpcp_closer_source set) c) set c.bounds values }
    ensures spin { (set : SetDef) (c : CertificateDef) (values : List ℕ) → IsAccepted set → IsValid (spin_source set) c
        → AreValues (spin_source set) c values
        → SoundOnClocks spin_rule is_shared_interference (is_whole (spin_source set) c) set c.bounds values }
    ensures dpcp_closer { (set : SetDef) (c : CertificateDef) (values : List ℕ) → IsAccepted set → IsValid (dpcp_closer_source set) c
        → AreValues (dpcp_closer_source set) c values
        → SoundOnClocks dpcp_rule is_dpcp_interference (is_whole (dpcp_closer_source set) c) set c.bounds values }
    ensures dflp_closer { (set : SetDef) (c : CertificateDef) (values : List ℕ) → IsAccepted set → IsValid (dflp_closer_source set) c
        → AreValues (dflp_closer_source set) c values
        → SoundOnClocks dflp_rule is_dpcp_interference (is_whole (dflp_closer_source set) c) set c.bounds values }
    ensures spin_closer { (set : SetDef) (c : CertificateDef) (values : List ℕ) → IsAccepted set → IsValid (spin_closer_source set) c
        → AreValues (spin_closer_source set) c values
        → SoundOnClocks spin_rule is_shared_interference (is_whole (spin_closer_source set) c) set c.bounds values }
{}

/// Let an accepted set in ticks be a rounding of a set that was measured in cycles. Then jobs that are lawful for the measured set are
/// lawful jobs of the accepted set in cycles, and leave all but one cycle of a tick of their costs.
pub fn rounded_jobs_are_lawful_in_cycles()
    ensures lawful { (k : ℕ) (measured set : SetDef) (jobs : List JobDef) → 1 ≤ k → IsAccepted set → IsRounding k measured set
        → AreLawfulIn measured jobs → AreLawfulIn (in_cycles k set) jobs }
    ensures spare { (k : ℕ) (measured set : SetDef) (jobs : List JobDef) (whole : ℕ → Bool) (j : ℕ) → 1 ≤ k → IsAccepted set
        → IsRounding k measured set → AreLawfulIn measured jobs → j < length jobs
        → total_ticks (job_of jobs j).script ≤ own_cycles whole k set (job_of jobs j).task }
{}

/// So they meet their deadlines, under every protocol. Let bounds within the deadlines be sound on clocks. In a schedule of the set in
/// cycles that keeps the rules, each such job has ended by its measured deadline, if that lies within the rows.
pub fn rounded_jobs_meet_their_deadlines<P: BlockingProtocol>()
    ensures { (p : P) (whole : ℕ → Bool) (k : ℕ) (measured set : SetDef) (w : Trace) (n : ℕ) (bounds values : List ℕ) (j : ℕ) → 1 ≤ k
        → IsAccepted set → IsRounding k measured set → AreWithinDeadlines set bounds
        → SoundOnClocks (P.keeps p) (P.interferes p) whole set bounds values
        → w.set ≡ in_cycles k set → AreLawfulIn measured w.jobs → KeepsBefore (P.keeps p) w n → j < length w.jobs
        → (job_of w.jobs j).arrival + (task_at measured (task_of w j)).deadline ≤ n
        → phase_of w ((job_of w.jobs j).arrival + (task_at measured (task_of w j)).deadline) j ≡ Finished }
{}

/// Round costs, local limits, jitters and lengths up to ticks, with a tick more in each cost. Round periods and deadlines down. The set
/// that this gives is such a rounding.
pub fn sets_are_rounded()
    ensures { (k : ℕ) (measured : SetDef) → 1 ≤ k → IsRounding k measured (rounded k measured) }
{}

/// A formed set stays formed when it is put in cycles, and no column of a blocking program changes.
pub fn sets_keep_their_form()
    ensures formed { (k : ℕ) (set : SetDef) → 1 ≤ k → IsFormed set → IsFormed (in_cycles k set) }
    ensures columns { (p : Protocol) (k : ℕ) (set : SetDef) (i : ℕ) → columns_of p (in_cycles k set) i ≡ columns_of p set i }
{}

/// A part of a tick counts. Where a tick has three cycles, a program whose value is 4 ticks, from a total of 14 over 3, reaches 14
/// cycles. These are more than three times 4.
pub fn a_part_of_a_tick_counts()
    ensures ticks { dual_value seven_rows seven_rows_dual.den (slice_index seven_rows_dual.num) ≡ 4 }
    ensures cycles { Reaches seven_rows_in_cycles 14 }
{}

/// A worked schedule of ten cycles, with two of them in a tick. It is lawful for the set of two tasks under FMLP+. Its jobs ask for the
/// resource after one cycle. Its first job is blocked for the four cycles of its value, and still executes in the last cycle of its
/// bound, which is 5 ticks.
pub fn a_bound_is_met_on_a_clock()
    ensures lawful { IsLawfulInCycles (shared_rule fmlp_plus) (is_whole (source_of protocol.FmlpPlus two_tasks) two_bounds) 2 two_tasks
        trace_on_clock 10 }
    ensures last { phase_of trace_on_clock 9 0 ≡ Local }
    ensures blocked { blocked_in_window is_shared_interference trace_on_clock 10 (times_each 2 two_bounds.bounds) 0 ≡ 4 }
{}

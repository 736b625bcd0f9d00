//! Soundness of the analysis: what a valid certificate says of a task set holds of every lawful schedule of it.
//!
//! Each function here does nothing: its contract is a law. `specs/Sound.antt` says what soundness is, of sets, jobs and rows alone. The
//! lemmas are in `proofs/`.
#![tactic(auto)]

ghost use Rattle.std.specs.Prelude.{◌≡◌, ℕ, ◌<◌, ◌≤◌, Bool, true, [], ◌∷◌, List, length, slice_index, IfSome};
ghost use Rattle.program_form.specs.Certificate.{CertificateDef};
ghost use Rattle.sporadic_model.specs.SetDef.{SetDef};
ghost use Rattle.sporadic_model.specs.Accepted.{IsAccepted};
ghost use Rattle.sporadic_model.specs.declared.ids.Protocol.TheVariants as protocol;
ghost use Rattle.schedule_model.specs.JobDef.{JobDef};
ghost use Rattle.schedule_model.specs.LawfulJobs.{AreLawfulJobs};
ghost use Rattle.schedule_model.specs.RowDef.{RowDef, RunDef, Trace, trace_of, trace_in, ticks_of};
ghost use Rattle.schedule_model.specs.Activity.{task_of};
ghost use Rattle.schedule_model.specs.Measures.{response_of, blocking_of, measures_of};
ghost use Rattle.schedule_model.specs.Ranks.{mpcp, fmlp_plus};
ghost use Rattle.schedule_model.specs.Protocols.{shared_rule, dpcp_rule};
ghost use Rattle.schedule_model.specs.Keeping.{KeepsBefore};
ghost use Rattle.schedule_model.specs.BlockedTicks.{is_shared_interference, is_dpcp_interference, is_blocked};
ghost use Rattle.program_sources.specs.Recurrence.{SourceDef};
ghost use Rattle.program_sources.specs.Valid.{IsValid};
ghost use Rattle.program_laws.specs.Programs.{source_of};
ghost use Rattle.soundness_laws.specs.Sound.{is_in_window, KeepsBounds, Sound};
ghost use Rattle.soundness_laws.specs.Analyses.{AreValues, Analyses};
ghost use Rattle.soundness_laws.specs.Worked.{two_tasks, two_bounds, two_bounds_of_fewer_rows, greater_bounds, too_small_bound};
ghost use Rattle.soundness_laws.specs.Worked.{late_tasks, bounds_alone};

use schedule_model::BlockingProtocol;

/// Under every protocol: let a source of programs analyse it, and let the set be accepted and suit the protocol. Then the bounds and values
/// of each certificate that is valid for the source are sound.
pub fn analysed_protocols_are_sound<P: BlockingProtocol>()
    ensures { (p : P) (f : SourceDef) (c : CertificateDef) (values : List ℕ) → IsAccepted f.set → P.suits p f.set
        → Analyses (P.keeps p) (P.interferes p) f → IsValid f c → AreValues f c values
        → Sound (P.keeps p) (P.interferes p) f.set c.bounds values }
{}

/// The written programs of MPCP, FMLP+ and DPCP analyse their protocols, on every accepted set.
pub fn programs_analyse_their_protocols()
    ensures mpcp { (set : SetDef) → IsAccepted set → Analyses (shared_rule mpcp) is_shared_interference (source_of protocol.Mpcp set) }
    ensures fmlp_plus { (set : SetDef) → IsAccepted set
        → Analyses (shared_rule fmlp_plus) is_shared_interference (source_of protocol.FmlpPlus set) }
    ensures dpcp { (set : SetDef) → IsAccepted set → Analyses dpcp_rule is_dpcp_interference (source_of protocol.Dpcp set) }
{}

/// Take an accepted set. The bounds of a valid certificate and the values of its duals are sound. So take any schedule of lawful jobs that
/// keeps the protocol's rules. Each job whose window lies within it ends within its bound, and no job is blocked in its window at more
/// ticks than its dual's value.
pub fn valid_certificates_are_sound()
    ensures mpcp { (set : SetDef) (c : CertificateDef) (values : List ℕ) → IsAccepted set → IsValid (source_of protocol.Mpcp set) c
        → AreValues (source_of protocol.Mpcp set) c values
        → Sound (shared_rule mpcp) is_shared_interference set c.bounds values }
    ensures fmlp_plus { (set : SetDef) (c : CertificateDef) (values : List ℕ) → IsAccepted set → IsValid (source_of protocol.FmlpPlus set) c
        → AreValues (source_of protocol.FmlpPlus set) c values
        → Sound (shared_rule fmlp_plus) is_shared_interference set c.bounds values }
    ensures dpcp { (set : SetDef) (c : CertificateDef) (values : List ℕ) → IsAccepted set → IsValid (source_of protocol.Dpcp set) c
        → AreValues (source_of protocol.Dpcp set) c values
        → Sound dpcp_rule is_dpcp_interference set c.bounds values }
{}

/// Sound bounds and values hold of every list of rows, and of every list of runs of rows, over lawful jobs of the set.
pub fn sound_bounds_hold_of_listed_rows<P: BlockingProtocol>()
    ensures rows { (p : P) (set : SetDef) (bounds values : List ℕ) (jobs : List JobDef) (rows : List RowDef)
        → Sound (P.keeps p) (P.interferes p) set bounds values → AreLawfulJobs (record { set = set; jobs = jobs })
        → KeepsBefore (P.keeps p) (trace_of (record { set = set; jobs = jobs }) rows) (length rows)
        → KeepsBounds (P.interferes p) (trace_of (record { set = set; jobs = jobs }) rows) (length rows) bounds values }
    ensures runs { (p : P) (set : SetDef) (bounds values : List ℕ) (jobs : List JobDef) (runs : List RunDef)
        → Sound (P.keeps p) (P.interferes p) set bounds values → AreLawfulJobs (record { set = set; jobs = jobs })
        → KeepsBefore (P.keeps p) (trace_in (record { set = set; jobs = jobs }) runs) (ticks_of runs)
        → KeepsBounds (P.interferes p) (trace_in (record { set = set; jobs = jobs }) runs) (ticks_of runs) bounds values }
{}

/// What is measured of a schedule that keeps its bounds and values is within them. Each blocked tick of a job is in its window. Its
/// response, or what it has taken so far, is at most the bound. All its blocked ticks are at most the value. So are each task's greatest
/// response and greatest blocking.
pub fn sound_schedules_measure_within()
    ensures inside { (interferes : Trace → ℕ → ℕ → Bool) (w : Trace) (n : ℕ) (bounds values : List ℕ) (t j : ℕ)
        → KeepsBounds interferes w n bounds values → j < length w.jobs → t < n → is_blocked interferes w t j ≡ true
        → is_in_window w bounds t j ≡ true }
    ensures response { (interferes : Trace → ℕ → ℕ → Bool) (w : Trace) (n : ℕ) (bounds values : List ℕ) (j : ℕ)
        → KeepsBounds interferes w n bounds values → j < length w.jobs → response_of w n j ≤ slice_index bounds (task_of w j) }
    ensures blocking { (interferes : Trace → ℕ → ℕ → Bool) (w : Trace) (n : ℕ) (bounds values : List ℕ) (j : ℕ)
        → KeepsBounds interferes w n bounds values → j < length w.jobs
        → blocking_of interferes w n j ≤ slice_index values (task_of w j) }
    ensures task_response { (interferes : Trace → ℕ → ℕ → Bool) (w : Trace) (n : ℕ) (bounds values : List ℕ) (x : ℕ)
        → KeepsBounds interferes w n bounds values
        → IfSome (measures_of interferes w n x).response (λ r. r ≤ slice_index bounds x) }
    ensures task_blocking { (interferes : Trace → ℕ → ℕ → Bool) (w : Trace) (n : ℕ) (bounds values : List ℕ) (x : ℕ)
        → KeepsBounds interferes w n bounds values → (measures_of interferes w n x).blocking ≤ slice_index values x }
{}

/// A worked set of two tasks is accepted, and the certificate with the bounds 5 and 5 is valid for it under FMLP+, with the values 2 and 1.
/// So these are sound. If the first task's bound or value is less by one, they aren't.
pub fn a_worked_certificate_is_sound()
    ensures accepted { IsAccepted two_tasks }
    ensures valid { IsValid (source_of protocol.FmlpPlus two_tasks) two_bounds }
    ensures values { AreValues (source_of protocol.FmlpPlus two_tasks) two_bounds (2 ∷ 1 ∷ []) }
    ensures sound { Sound (shared_rule fmlp_plus) is_shared_interference two_tasks (5 ∷ 5 ∷ []) (2 ∷ 1 ∷ []) }
    ensures less_bound { Sound (shared_rule fmlp_plus) is_shared_interference two_tasks (4 ∷ 5 ∷ []) (2 ∷ 1 ∷ []) → ⊥ }
    ensures less_value { Sound (shared_rule fmlp_plus) is_shared_interference two_tasks (5 ∷ 5 ∷ []) (1 ∷ 1 ∷ []) → ⊥ }
{}

/// Take that set. A certificate with the bounds 5 and 5 is valid under MPCP and under DPCP too. One whose bounds are not the least is valid
/// under FMLP+. One with a dual whose value, with the cost, is above the bound isn't.
pub fn worked_certificates_are_valid()
    ensures mpcp { IsValid (source_of protocol.Mpcp two_tasks) two_bounds_of_fewer_rows }
    ensures dpcp { IsValid (source_of protocol.Dpcp two_tasks) two_bounds_of_fewer_rows }
    ensures greater { IsValid (source_of protocol.FmlpPlus two_tasks) greater_bounds }
    ensures too_small { IsValid (source_of protocol.FmlpPlus two_tasks) too_small_bound → ⊥ }
{}

/// A worked set of two tasks, the first with a jitter of 4 ticks, is accepted. The certificate with the bounds 2 and 9 is valid for it
/// under FMLP+, so its bounds are sound. With a second bound that is less by one they aren't: two jobs of the first task run within these
/// ticks, since their releases are less than a period apart. A first bound of 7 is not valid, since with the jitter it is above the
/// deadline of 10.
pub fn a_worked_certificate_with_jitter_is_sound()
    ensures accepted { IsAccepted late_tasks }
    ensures valid { IsValid (source_of protocol.FmlpPlus late_tasks) (bounds_alone (2 ∷ 9 ∷ [])) }
    ensures sound { Sound (shared_rule fmlp_plus) is_shared_interference late_tasks (2 ∷ 9 ∷ []) (0 ∷ 0 ∷ []) }
    ensures less_bound { Sound (shared_rule fmlp_plus) is_shared_interference late_tasks (2 ∷ 8 ∷ []) (0 ∷ 0 ∷ []) → ⊥ }
    ensures too_late { IsValid (source_of protocol.FmlpPlus late_tasks) (bounds_alone (7 ∷ 9 ∷ [])) → ⊥ }
{}

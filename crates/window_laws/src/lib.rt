//! Windows of requests under DPCP, the rows that they give, and what is true of both.
//!
//! A window bounds how long a request can be open. It is the least number of ticks that is at least as long as all requests that may run at
//! the resource's home in that many ticks.
//!
//! Each function here does nothing: its contract is a law. The lemmas that prove it are in `proofs/`.
#![tactic(auto)]

ghost use Rattle.std.specs.Prelude.{◌≡◌, ℕ, ◌+◌, ◌<◌, ◌≤◌, List, [], ◌∷◌, length, slice_index, Some};
ghost use Rattle.program_form.specs.Certificate.{CertificateDef};
ghost use Rattle.program_form.specs.Limits.{HasLimitsAtMost};
ghost use Rattle.program_form.specs.Program.{IsProgram};
ghost use Rattle.program_form.specs.Points.{IsScaledPoint};
ghost use Rattle.sporadic_model.specs.SetDef.{SetDef};
ghost use Rattle.sporadic_model.specs.Accepted.{IsAccepted};
ghost use Rattle.sporadic_model.specs.declared.ids.Protocol.TheVariants as protocol;
ghost use Rattle.sporadic_model.specs.Bounds.{AtMost, AreWithinDeadlines};
ghost use Rattle.schedule_model.specs.LawfulJobs.{AreLawfulJobs};
ghost use Rattle.schedule_model.specs.RowDef.{Trace, jobs_of};
ghost use Rattle.schedule_model.specs.Phase.{phase_of};
ghost use Rattle.schedule_model.specs.Phase.Phase.{Asking};
ghost use Rattle.schedule_model.specs.Activity.{task_of, issue_tick_of};
ghost use Rattle.schedule_model.specs.BlockedTicks.{is_dpcp_interference};
ghost use Rattle.schedule_model.specs.Protocols.{dpcp_rule};
ghost use Rattle.schedule_model.specs.Keeping.{KeepsBefore};
ghost use Rattle.program_sources.specs.Valid.{IsValid};
ghost use Rattle.program_sources.specs.Fitting.{AreFitting, AreLeastFitting};
ghost use Rattle.blocking_columns.specs.Columns.{columns_of};
ghost use Rattle.program_laws.specs.Programs.{source_of};
ghost use Rattle.charge_laws.specs.Charges.{dpcp_charge};
ghost use Rattle.charge_laws.specs.Windows.{bound_end, EndedBy, EndedWithin};
ghost use Rattle.charge_laws.specs.Fractions.{product_of_lengths, fractions_of};
ghost use Rattle.soundness_laws.specs.Analyses.{AreValues};
ghost use Rattle.soundness_laws.specs.Sound.{Sound};
ghost use Rattle.window_laws.specs.Windows.{window_of};
ghost use Rattle.window_laws.specs.WindowRows.{window_row, windowed_program, windowed_source};
ghost use Rattle.window_laws.specs.Worked.{two_users};

/// Take a request in a lawful schedule of an accepted set, under DPCP. Let each job whose release plus bound has passed by the issue of the
/// request be finished by its own release plus its bound. Then the request isn't open at any tick that is its window or more after its
/// issue.
pub fn requests_end_within_their_windows()
    ensures { (w : Trace) (bound : ℕ → ℕ) (n t j m q b : ℕ) → IsAccepted w.set → AreLawfulJobs (jobs_of w) → KeepsBefore dpcp_rule w n
        → t < n → phase_of w t j ≡ Asking m q → EndedBy w bound (issue_tick_of w t j)
        → window_of w.set bound (task_of w j) q ≡ Some b → t < issue_tick_of w t j + b }
{}

/// No limit of a row of windows falls when bounds rise. Here `r` is at most `s`.
pub fn limits_of_windows_rise()
    ensures { (set : SetDef) (r s : ℕ → ℕ) (i x p : ℕ) → i < length set.tasks → x < i
        → ((y : ℕ) → y < length set.tasks → r y ≤ s y) → (window_row set i x p).limit r ≤ (window_row set i x p).limit s }
{}

/// For an accepted set, and at bounds within the deadlines, the lists of a task with its rows of windows are a program. No limit falls when
/// the bounds rise.
pub fn programs_with_windows_are_accepted()
    ensures accepted { (set : SetDef) (i : ℕ) (r : List ℕ) → IsAccepted set → i < length set.tasks → AreWithinDeadlines set r
        → IsProgram (windowed_program set i r) }
    ensures rises { (set : SetDef) (i : ℕ) (r s : List ℕ) → i < length set.tasks → AtMost (length set.tasks) r s
        → HasLimitsAtMost (windowed_program set i r) (windowed_program set i s) }
{}

/// Take a job in a lawful schedule of an accepted set, under DPCP. Let each job whose release plus bound is less than this job's, and lies
/// within the rows, be finished by its own release plus its bound. Then the fractions of this job's window meet every row of its task's
/// program, those of windows too.
pub fn fractions_meet_rows_of_windows()
    ensures { (w : Trace) (bounds : List ℕ) (n j : ℕ) → IsAccepted w.set → AreLawfulJobs (jobs_of w) → KeepsBefore dpcp_rule w n
        → j < length w.jobs → EndedWithin w (slice_index bounds) (bound_end w (slice_index bounds) j) n
        → IsScaledPoint (windowed_program w.set (task_of w j) bounds)
        (product_of_lengths w.set (columns_of protocol.Dpcp w.set (task_of w j)))
        (fractions_of dpcp_charge w (slice_index bounds) n j (columns_of protocol.Dpcp w.set (task_of w j))) }
{}

/// Bounds that fit under DPCP fit with windows too. So no least bound with windows is greater than a bound that fits under DPCP.
pub fn windows_raise_no_bound()
    ensures fitting { (set : SetDef) (s : List ℕ) → AreFitting (source_of protocol.Dpcp set) s → AreFitting (windowed_source set) s }
    ensures least { (set : SetDef) (r s : List ℕ) → AreLeastFitting (windowed_source set) r → AreFitting (source_of protocol.Dpcp set) s
        → AtMost (length set.tasks) r s }
{}

/// Take an accepted set, and a certificate that is valid for the programs with windows. Its bounds and the values of its duals are sound:
/// they hold in every schedule of lawful jobs that keeps the rules of DPCP.
pub fn valid_certificates_with_windows_are_sound()
    ensures { (set : SetDef) (c : CertificateDef) (values : List ℕ) → IsAccepted set → IsValid (windowed_source set) c
        → AreValues (windowed_source set) c values → Sound dpcp_rule is_dpcp_interference set c.bounds values }
{}

/// A worked set of two tasks that share a resource: the window of the lower task's request at the bounds 4 and 21. The higher task has no
/// jitter, or a jitter of 5 ticks.
pub fn a_worked_request_has_its_window()
    ensures exact { window_of (two_users 0) (slice_index (4 ∷ 21 ∷ [])) 1 0 ≡ Some 2 }
    ensures late { window_of (two_users 5) (slice_index (4 ∷ 21 ∷ [])) 1 0 ≡ Some 3 }
{}

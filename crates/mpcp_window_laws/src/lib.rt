//! Windows of waits under MPCP, what they say in rows, and the programs of the closer analysis, which have these rows. Here are the laws of
//! all three.
//!
//! A window bounds how long a request waits until it is granted. It is the least number of ticks that is at least as long as other tasks may
//! hold the resource in that many ticks.
//!
//! Each function here does nothing: its contract is a law. The lemmas that prove it are in `proofs/`.
#![tactic(auto)]

ghost use Rattle.std.specs.Prelude.{◌≡◌, ℕ, ◌+◌, ◌<◌, ◌≤◌, false, List, length, slice_index, Some};
ghost use Rattle.program_form.specs.Certificate.{CertificateDef};
ghost use Rattle.program_form.specs.Limits.{HasLimitsAtMost};
ghost use Rattle.program_form.specs.Program.{IsProgram, height};
ghost use Rattle.program_form.specs.Points.{IsScaledPoint};
ghost use Rattle.sporadic_model.specs.SetDef.{SetDef};
ghost use Rattle.sporadic_model.specs.Accepted.{IsAccepted};
ghost use Rattle.sporadic_model.specs.declared.ids.Protocol.TheVariants as protocol;
ghost use Rattle.sporadic_model.specs.Bounds.{AtMost, AreWithinDeadlines};
ghost use Rattle.schedule_model.specs.LawfulJobs.{AreLawfulJobs};
ghost use Rattle.schedule_model.specs.RowDef.{Trace, jobs_of};
ghost use Rattle.schedule_model.specs.Phase.{phase_of};
ghost use Rattle.schedule_model.specs.Phase.Phase.{Asking};
ghost use Rattle.schedule_model.specs.Activity.{task_of, is_ready, issue_tick_of};
ghost use Rattle.schedule_model.specs.BlockedTicks.{is_shared_interference};
ghost use Rattle.schedule_model.specs.Ranks.{mpcp};
ghost use Rattle.schedule_model.specs.Protocols.{shared_rule};
ghost use Rattle.schedule_model.specs.Keeping.{KeepsBefore};
ghost use Rattle.program_sources.specs.Valid.{IsValid};
ghost use Rattle.program_sources.specs.Fitting.{AreFitting, AreLeastFitting};
ghost use Rattle.blocking_columns.specs.Columns.{columns_of};
ghost use Rattle.program_laws.specs.Programs.{source_of};
ghost use Rattle.charge_laws.specs.Charges.{shared_charge};
ghost use Rattle.charge_laws.specs.Windows.{bound_end, EndedBy, EndedWithin};
ghost use Rattle.charge_laws.specs.Fractions.{product_of_lengths, fractions_of};
ghost use Rattle.row_laws.specs.Meeting.{TicksMeet};
ghost use Rattle.soundness_laws.specs.Analyses.{AreValues};
ghost use Rattle.soundness_laws.specs.Sound.{Sound};
ghost use Rattle.mpcp_window_laws.specs.MpcpWindows.{wait_window};
ghost use Rattle.mpcp_window_laws.specs.WaitRows.{direct_wait_row, held_in_waits, mpcp_closer_program, mpcp_closer_source};
ghost use Rattle.mpcp_window_laws.specs.Worked.{both_used, some_bounds};

/// Take a request in a lawful schedule of an accepted set, under MPCP. Let each job whose release plus bound has passed by the issue of the
/// request be finished by its own release plus its bound. Then the request doesn't wait at any tick that is its window or more after its
/// issue: its job holds the resource there, or has ended the request.
pub fn a_request_waits_less_than_its_window()
    ensures { (w : Trace) (bound : ℕ → ℕ) (n t j m q b : ℕ) → IsAccepted w.set → AreLawfulJobs (jobs_of w)
        → KeepsBefore (shared_rule mpcp) w n → t < n → phase_of w t j ≡ Asking m q → is_ready w t j ≡ false
        → EndedBy w bound (issue_tick_of w t j) → wait_window w.set bound (task_of w j) q ≡ Some b → t < issue_tick_of w t j + b }
{}

/// No window falls when bounds rise. Here `r` is at most `s`. A request that has a window at `s` has one at `r`, and it isn't longer.
pub fn windows_rise_with_bounds()
    ensures { (set : SetDef) (r s : ℕ → ℕ) (i q b : ℕ) → i < length set.tasks
        → ((x : ℕ) → x < length set.tasks → r x ≤ s x) → wait_window set s i q ≡ Some b → (a : ℕ) × (wait_window set r i q ≡ Some a) × (a ≤ b) }
{}

/// Take a job in a lawful schedule of an accepted set, under MPCP. Let each job whose release plus bound is less than this job's, and lies
/// within the rows, be finished by its own release plus its bound. Then the ticks of this job's window meet the row of direct waits of any
/// task and any resource.
pub fn direct_blocking_meets_rows_of_waits()
    ensures { (w : Trace) (bounds : List ℕ) (n j x q : ℕ) → IsAccepted w.set → AreLawfulJobs (jobs_of w)
        → KeepsBefore (shared_rule mpcp) w n → j < length w.jobs
        → EndedWithin w (slice_index bounds) (bound_end w (slice_index bounds) j) n → x < length w.set.tasks
        → TicksMeet shared_charge w (slice_index bounds) n j (direct_wait_row w.set (task_of w j) x q) }
{}

/// No limit of a row of direct waits falls when bounds rise, nor does the number of requests that higher tasks can hold beside a task while
/// i waits for them. Here `r` is at most `s`.
pub fn limits_of_waits_rise()
    ensures direct { (set : SetDef) (r s : ℕ → ℕ) (i x q : ℕ) → i < length set.tasks → x < length set.tasks
        → ((y : ℕ) → y < length set.tasks → r y ≤ s y) → (direct_wait_row set i x q).limit r ≤ (direct_wait_row set i x q).limit s }
    ensures holdings { (set : SetDef) (r s : ℕ → ℕ) (i x q : ℕ) → i < length set.tasks
        → ((y : ℕ) → y < length set.tasks → r y ≤ s y) → held_in_waits set i r x q ≤ held_in_waits set i s x q }
{}

/// For an accepted set, and at bounds within the deadlines, the lists of a task with the closer rows are a program. No limit falls when the
/// bounds rise.
pub fn closer_programs_are_accepted()
    ensures accepted { (set : SetDef) (i : ℕ) (r : List ℕ) → IsAccepted set → i < length set.tasks → AreWithinDeadlines set r
        → IsProgram (mpcp_closer_program set i r) }
    ensures rises { (set : SetDef) (i : ℕ) (r s : List ℕ) → i < length set.tasks → AtMost (length set.tasks) r s
        → HasLimitsAtMost (mpcp_closer_program set i r) (mpcp_closer_program set i s) }
{}

/// Such a program has at most 1054 rows. Of requests, of holdings by resource and of direct waits there is one for each of 256 request
/// entries. Of time, of shared holdings, of away holdings and of shared intervals there is one for each of 63 other tasks. Of lower holders
/// there is one for each of 32 resources. And there are two more.
pub fn closer_rows_are_few()
    ensures { (set : SetDef) (i : ℕ) (r : List ℕ) → IsAccepted set → i < length set.tasks → height (mpcp_closer_program set i r) ≤ 1054 }
{}

/// Take a job in a lawful schedule of an accepted set, under MPCP. Let each job whose release plus bound is less than this job's, and lies
/// within the rows, be finished by its own release plus its bound. Then the fractions of this job's window meet every row of its task's
/// program, the closer ones too.
pub fn fractions_meet_closer_rows()
    ensures { (w : Trace) (bounds : List ℕ) (n j : ℕ) → IsAccepted w.set → AreLawfulJobs (jobs_of w)
        → KeepsBefore (shared_rule mpcp) w n → j < length w.jobs
        → EndedWithin w (slice_index bounds) (bound_end w (slice_index bounds) j) n
        → IsScaledPoint (mpcp_closer_program w.set (task_of w j) bounds)
        (product_of_lengths w.set (columns_of protocol.Mpcp w.set (task_of w j)))
        (fractions_of shared_charge w (slice_index bounds) n j (columns_of protocol.Mpcp w.set (task_of w j))) }
{}

/// Bounds that fit under MPCP fit with the closer rows too. So no least bound with them is greater than one that fits under MPCP.
pub fn closer_rows_raise_no_bound()
    ensures fitting { (set : SetDef) (s : List ℕ) → AreFitting (source_of protocol.Mpcp set) s → AreFitting (mpcp_closer_source set) s }
    ensures least { (set : SetDef) (r s : List ℕ) → AreLeastFitting (mpcp_closer_source set) r
        → AreFitting (source_of protocol.Mpcp set) s → AtMost (length set.tasks) r s }
{}

/// Take an accepted set, and a certificate that is valid for the programs with the closer rows. Its bounds and the values of its duals are
/// sound: they hold in every schedule of lawful jobs that keeps the rules of MPCP.
pub fn valid_closer_certificates_are_sound()
    ensures { (set : SetDef) (c : CertificateDef) (values : List ℕ) → IsAccepted set → IsValid (mpcp_closer_source set) c
        → AreValues (mpcp_closer_source set) c values → Sound (shared_rule mpcp) is_shared_interference set c.bounds values }
{}

/// The windows of q in a worked set of four tasks, of the highest task and of the lowest.
pub fn worked_waits_have_their_windows()
    ensures highest { wait_window both_used some_bounds 0 0 ≡ Some 5 }
    ensures lowest { wait_window both_used some_bounds 3 0 ≡ Some 9 }
{}

//! How blocked ticks are charged under spin locks, the columns and rows of the blocking programs, and why charged ticks meet each row.
//!
//! Each function here does nothing: its contract is a law. The lemmas that prove it are in `proofs/`. Proofs of crates above use them too.
#![tactic(auto)]

ghost use Rattle.std.specs.Prelude.{◌≡◌, ℕ, ◌<◌, ◌≤◌, true, List, [], ◌∷◌, length, slice_index, Some};
ghost use Rattle.number_laws.specs.Tests.{count_below};
ghost use Rattle.program_form.specs.Program.{IsProgram, IsCovered, columns};
ghost use Rattle.program_form.specs.Limits.{HasLimitsAtMost};
ghost use Rattle.program_form.specs.Points.{IsScaledPoint};
ghost use Rattle.program_form.specs.Certificate.{CertificateDef};
ghost use Rattle.program_sources.specs.Fitting.{ComesUpAbove};
ghost use Rattle.program_sources.specs.Valid.{IsValid};
ghost use Rattle.soundness_laws.specs.Analyses.{AreValues};
ghost use Rattle.soundness_laws.specs.Sound.{Sound};
ghost use Rattle.sporadic_model.specs.SetDef.{SetDef, task_at};
ghost use Rattle.sporadic_model.specs.Accepted.{IsAccepted};
ghost use Rattle.sporadic_model.specs.Bounds.{AtMost, AreWithinDeadlines};
ghost use Rattle.schedule_model.specs.JobDef.{job_of};
ghost use Rattle.schedule_model.specs.LawfulJobs.{AreLawfulJobs, IsLawfulJob};
ghost use Rattle.schedule_model.specs.RowDef.{Trace, jobs_of, holder_in};
ghost use Rattle.schedule_model.specs.Activity.{task_of, is_requester, issue_tick_of};
ghost use Rattle.schedule_model.specs.Protocols.{EachSetSuits};
ghost use Rattle.schedule_model.specs.Keeping.{KeepsBefore};
ghost use Rattle.schedule_model.specs.BlockedTicks.{is_shared_interference, is_blocked};
ghost use Rattle.program_laws.specs.Worked.{three_tasks, sizes};
ghost use Rattle.program_laws.specs.Written.{KeepsJobs};
ghost use Rattle.charge_laws.specs.Charges.{Charge};
ghost use Rattle.charge_laws.specs.ChargedTicks.{IsCharged};
ghost use Rattle.charge_laws.specs.Interferers.{interferes_with_some};
ghost use Rattle.charge_laws.specs.Windows.{bound_end, EndedWithin};
ghost use Rattle.charge_laws.specs.Fractions.{product_of_lengths, fractions_of};
ghost use Rattle.charge_laws.specs.Stretches.{StaysCharged};
ghost use Rattle.spin_rules.specs.SpinRules.{spin_rule};
ghost use Rattle.spin_charging.specs.SpinCharges.{spin_charge};
ghost use Rattle.spin_charging.specs.SpinPrograms.{spin_columns, spin_program, spin_source};

/// In rows that keep the rules the request of a resource's holder was issued no later than any request of that resource.
pub fn holders_were_issued_first()
    ensures { (w : Trace) (n t q y j : ℕ) → AreLawfulJobs (jobs_of w) → KeepsBefore spin_rule w n → t < n
        → holder_in (w.row t) q ≡ Some y → is_requester w t q j ≡ true → issue_tick_of w t y ≤ issue_tick_of w t j }
{}

/// In a lawful schedule each blocked tick is charged to one request. The request executes at that tick, and its column is one of the
/// blocked job's task. No other tick is charged.
pub fn spin_locks_charge_blocked_ticks()
    ensures charged { (w : Trace) (n t j : ℕ) → AreLawfulJobs (jobs_of w) → KeepsBefore spin_rule w n → t < n
        → is_blocked is_shared_interference w t j ≡ true → IsCharged spin_charge (spin_columns w.set (task_of w j)) w t j }
    ensures only { (w : Trace) (t j : ℕ) (charge : Charge) → spin_charge w t j ≡ Some charge
        → is_blocked is_shared_interference w t j ≡ true }
{}

/// Each tick of a steady stretch is charged as its first tick is.
pub fn spin_charges_stay_through_stretches()
    ensures { StaysCharged EachSetSuits spin_rule spin_charge }
{}

/// Take a job in a lawful schedule of an accepted set. Let each job whose release plus bound is less than this job's, and lies within the
/// rows, be finished by its own release plus its bound. Then the fractions of this job's window meet every row of its task's program at
/// these bounds.
pub fn spin_fractions_meet_every_row()
    ensures { (w : Trace) (bounds : List ℕ) (n j : ℕ) → IsAccepted w.set → AreLawfulJobs (jobs_of w) → KeepsBefore spin_rule w n
        → j < length w.jobs → EndedWithin w (slice_index bounds) (bound_end w (slice_index bounds) j) n
        → IsScaledPoint (spin_program w.set (task_of w j) bounds) (product_of_lengths w.set (spin_columns w.set (task_of w j)))
        (fractions_of spin_charge w (slice_index bounds) n j (spin_columns w.set (task_of w j))) }
{}

/// In a lawful schedule a lawful job interferes with others at no more ticks than its task's cost. Ticks at which it spins are not among
/// these.
pub fn spin_jobs_interfere_within_the_cost()
    ensures { (w : Trace) (n y : ℕ) → KeepsBefore spin_rule w n → IsLawfulJob w.set (job_of w.jobs y)
        → count_below n (λ t. interferes_with_some is_shared_interference w t y) ≤ (task_at w.set (task_of w y)).cost }
{}

/// For an accepted set, and at bounds within the deadlines, the lists of a task are a program. Each of its columns is covered. Only its
/// limits depend on the bounds, and no limit falls when bounds rise.
pub fn spin_programs_are_accepted()
    ensures program { (set : SetDef) (i : ℕ) (r : List ℕ) → IsAccepted set → i < length set.tasks → AreWithinDeadlines set r
        → IsProgram (spin_program set i r) }
    ensures covered { (set : SetDef) (i : ℕ) (r : List ℕ) (c : ℕ) → c < columns (spin_program set i r)
        → IsCovered (spin_program set i r) c }
    ensures rises { (set : SetDef) (i : ℕ) (r s : List ℕ) → i < length set.tasks → AtMost (length set.tasks) r s
        → HasLimitsAtMost (spin_program set i r) (spin_program set i s) }
{}

/// The limits depend on the bounds only through the number of jobs of each task that can run within the bound of a job of the analysed
/// task.
pub fn spin_limits_follow_jobs()
    ensures { (set : SetDef) (i : ℕ) (r s : List ℕ) → i < length set.tasks → KeepsJobs set i r s
        → (spin_program set i r).limits ≡ (spin_program set i s).limits }
{}

/// A worked set of three tasks on three processors. The program of the first task has three columns and eleven rows: three of requests, two
/// of time, three of spinning, and three of its own spinning.
pub fn three_tasks_make_eleven_rows()
    ensures { sizes (spin_program three_tasks 0 (4 ∷ 4 ∷ 3 ∷ [])) ≡ (3, 11) }
{}

/// Take an accepted set. The bounds of a valid certificate, and the values of its duals, hold in every lawful schedule.
pub fn valid_spin_certificates_are_sound()
    ensures { (set : SetDef) (c : CertificateDef) (values : List ℕ) → IsAccepted set → IsValid (spin_source set) c
        → AreValues (spin_source set) c values → Sound spin_rule is_shared_interference set c.bounds values }
{}

/// For each response time that is possible at some bounds, one that is no less is possible at greater bounds.
pub fn spin_responses_rise()
    ensures { (set : SetDef) → ComesUpAbove (spin_source set) }
{}

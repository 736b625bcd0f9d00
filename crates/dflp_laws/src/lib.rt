//! The distributed FIFO protocol: its definitions in `specs/`, and its laws. Each blocked tick is charged to a request, and what is charged
//! meets the rows of the blocking programs. A lawful row stays lawful through a steady stretch.
//!
//! Each function here does nothing: its contract is a law. The lemmas that prove it are in `proofs/`, one file for each subject. The crate
//! of the protocol's type uses them too.
#![tactic(auto)]

ghost use Rattle.std.specs.Prelude.{◌≡◌, ℕ, ◌<◌, true, List, [], ◌∷◌, length, slice_index};
ghost use Rattle.program_form.specs.Program.{ProgramDef, IsProgram};
ghost use Rattle.program_form.specs.Certificate.{CertificateDef};
ghost use Rattle.program_form.specs.Limits.{HasLimitsAtMost};
ghost use Rattle.program_form.specs.Points.{IsScaledPoint};
ghost use Rattle.sporadic_model.specs.SetDef.{SetDef};
ghost use Rattle.sporadic_model.specs.Homes.{EachHasHome};
ghost use Rattle.sporadic_model.specs.Accepted.{IsAccepted};
ghost use Rattle.sporadic_model.specs.Bounds.{AtMost, AreWithinDeadlines};
ghost use Rattle.schedule_model.specs.LawfulJobs.{AreLawfulJobs};
ghost use Rattle.schedule_model.specs.RowDef.{Trace, jobs_of};
ghost use Rattle.schedule_model.specs.Activity.{task_of};
ghost use Rattle.schedule_model.specs.Keeping.{KeepsBefore};
ghost use Rattle.schedule_model.specs.BlockedTicks.{is_dpcp_interference, is_blocked};
ghost use Rattle.schedule_laws.specs.Steady.{StaysLawful};
ghost use Rattle.program_sources.specs.Valid.{IsValid};
ghost use Rattle.program_laws.specs.Written.{KeepsJobs};
ghost use Rattle.charge_laws.specs.Charges.{dpcp_charge};
ghost use Rattle.charge_laws.specs.ChargedTicks.{IsCharged};
ghost use Rattle.charge_laws.specs.Windows.{bound_end, EndedWithin};
ghost use Rattle.charge_laws.specs.Fractions.{product_of_lengths, fractions_of};
ghost use Rattle.schedule_model.proofs.WorkedFiles.{set_a};
ghost use Rattle.soundness_laws.specs.Sound.{Sound};
ghost use Rattle.soundness_laws.specs.Analyses.{AreValues};
ghost use Rattle.dflp_laws.specs.Rules.{dflp_rule, IsDflpChoice};
ghost use Rattle.dflp_laws.specs.Programs.{dflp_columns, dflp_program, dflp_source};

/// Take a steady stretch whose first row keeps the rules. Each of its rows keeps them, and the same jobs are blocked in each. If its first
/// row is the chosen one, each of its rows is.
pub fn lawful_rows_stay_lawful()
    ensures { StaysLawful EachHasHome dflp_rule IsDflpChoice is_dpcp_interference }
{}

/// In rows that keep the rules each blocked tick of a lawful job is charged to one request. The request executes at that tick, and is in a
/// column of the job's program.
pub fn blocked_ticks_are_charged()
    ensures { (w : Trace) (n t j : ℕ) → AreLawfulJobs (jobs_of w) → KeepsBefore dflp_rule w n → t < n
        → is_blocked is_dpcp_interference w t j ≡ true → IsCharged dpcp_charge (dflp_columns w.set (task_of w j)) w t j }
{}

/// Take a job in a lawful schedule of an accepted set. Let each job whose release plus bound is less than this job's, and lies within the
/// rows, be finished by its own release plus its bound. Then the fractions of this job's window meet every row of its task's program at
/// these bounds.
pub fn fractions_meet_every_row()
    ensures { (w : Trace) (bounds : List ℕ) (n j : ℕ) → IsAccepted w.set → AreLawfulJobs (jobs_of w)
        → KeepsBefore dflp_rule w n → j < length w.jobs
        → EndedWithin w (slice_index bounds) (bound_end w (slice_index bounds) j) n
        → IsScaledPoint (dflp_program w.set (task_of w j) bounds) (product_of_lengths w.set (dflp_columns w.set (task_of w j)))
        (fractions_of dpcp_charge w (slice_index bounds) n j (dflp_columns w.set (task_of w j))) }
{}

/// Take an accepted set. The bounds of a valid certificate, and the values of its duals, hold in every lawful schedule.
pub fn valid_certificates_are_sound()
    ensures { (set : SetDef) (c : CertificateDef) (values : List ℕ) → IsAccepted set → IsValid (dflp_source set) c
        → AreValues (dflp_source set) c values → Sound dflp_rule is_dpcp_interference set c.bounds values }
{}

/// For an accepted set, and at bounds within the deadlines, the lists of each task are a program: each column is covered, and no number is
/// large.
pub fn programs_are_accepted()
    ensures { (set : SetDef) (i : ℕ) (r : List ℕ) → IsAccepted set → i < length set.tasks → AreWithinDeadlines set r
        → IsProgram (dflp_program set i r) }
{}

/// Only the limits depend on the bounds, and no limit falls when bounds rise.
pub fn limits_rise_with_bounds()
    ensures { (set : SetDef) (i : ℕ) (r s : List ℕ) → i < length set.tasks → AtMost (length set.tasks) r s
        → HasLimitsAtMost (dflp_program set i r) (dflp_program set i s) }
{}

/// The limits depend on the bounds only through the number of jobs of each task that can run within the bound of a job of the analysed
/// task.
pub fn limits_follow_jobs()
    ensures { (set : SetDef) (i : ℕ) (r s : List ℕ) → KeepsJobs set i r s
        → (dflp_program set i r).limits ≡ (dflp_program set i s).limits }
{}

/// The programs of two tasks that share a resource, whose home is the second task's processor. Each has one row of requests, of time, of
/// turns and of queues at homes. The first task can wait for one request of the second. A request of the first is charged to the second
/// directly or by preemption, and the last two rows count only the direct charge.
pub fn two_tasks_make_four_rows_each()
    ensures higher { dflp_program set_a 0 (5 ∷ 5 ∷ [])
        ≡ record { costs = 2 ∷ []; rows = (1 ∷ []) ∷ (2 ∷ []) ∷ (1 ∷ []) ∷ (1 ∷ []) ∷ []; limits = 1 ∷ 4 ∷ 1 ∷ 1 ∷ [] } }
    ensures lower { dflp_program set_a 1 (5 ∷ 5 ∷ [])
        ≡ record {
          costs = 1 ∷ 1 ∷ [];
          rows = (1 ∷ 1 ∷ []) ∷ (1 ∷ 1 ∷ []) ∷ (1 ∷ 0 ∷ []) ∷ (1 ∷ 0 ∷ []) ∷ [];
          limits = 1 ∷ 3 ∷ 1 ∷ 1 ∷ [];
        } }
{}

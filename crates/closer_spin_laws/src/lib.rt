//! The closer analysis of spin locks: rows that hold in every lawful schedule and say more, and what is true of the programs that have
//! them.
//!
//! They rest on one fact. While a job is active one request of the lower tasks of its processor is open at most, and it is of one
//! resource. So it preempts, or it spins, and then for one request of each other processor.
//!
//! Each function here does nothing: its contract is a law, and the lemmas that prove it stand in `proofs/`.
#![tactic(auto)]

ghost use Rattle.std.specs.Prelude.{◌≡◌, ℕ, ◌<◌, ◌≤◌, List, length, slice_index};
ghost use Rattle.program_form.specs.Certificate.{CertificateDef};
ghost use Rattle.program_form.specs.Limits.{HasLimitsAtMost};
ghost use Rattle.program_form.specs.Program.{IsProgram, height};
ghost use Rattle.program_form.specs.Points.{IsScaledPoint};
ghost use Rattle.sporadic_model.specs.SetDef.{SetDef};
ghost use Rattle.sporadic_model.specs.Accepted.{IsAccepted};
ghost use Rattle.sporadic_model.specs.Bounds.{AtMost, AreWithinDeadlines};
ghost use Rattle.schedule_model.specs.LawfulJobs.{AreLawfulJobs};
ghost use Rattle.schedule_model.specs.RowDef.{Trace, jobs_of};
ghost use Rattle.schedule_model.specs.Activity.{task_of};
ghost use Rattle.schedule_model.specs.BlockedTicks.{is_shared_interference};
ghost use Rattle.schedule_model.specs.Keeping.{KeepsBefore};
ghost use Rattle.program_sources.specs.Valid.{IsValid};
ghost use Rattle.program_sources.specs.Fitting.{AreFitting, AreLeastFitting};
ghost use Rattle.program_laws.specs.Written.{KeepsJobs};
ghost use Rattle.charge_laws.specs.Windows.{bound_end, EndedWithin};
ghost use Rattle.charge_laws.specs.Fractions.{product_of_lengths, fractions_of};
ghost use Rattle.soundness_laws.specs.Analyses.{AreValues};
ghost use Rattle.soundness_laws.specs.Sound.{Sound};
ghost use Rattle.spin_rules.specs.SpinRules.{spin_rule};
ghost use Rattle.spin_charging.specs.SpinCharges.{spin_charge};
ghost use Rattle.spin_charging.specs.SpinPrograms.{spin_columns, spin_source};
ghost use Rattle.closer_spin_laws.specs.CloserSpinRows.{spin_closer_program, spin_closer_source};

/// The lists of a task of an accepted set with the closer rows, at bounds within the deadlines, are a program. Its limits rise with the
/// bounds, and follow them only by how many jobs can run.
pub fn closer_spin_programs_are_accepted()
    ensures accepted { (set : SetDef) (i : ℕ) (r : List ℕ) → IsAccepted set → i < length set.tasks → AreWithinDeadlines set r
        → IsProgram (spin_closer_program set i r) }
    ensures rises { (set : SetDef) (i : ℕ) (r s : List ℕ) → i < length set.tasks → AtMost (length set.tasks) r s
        → HasLimitsAtMost (spin_closer_program set i r) (spin_closer_program set i s) }
    ensures follows { (set : SetDef) (i : ℕ) (r s : List ℕ) → i < length set.tasks → KeepsJobs set i r s
        → (spin_closer_program set i r).limits ≡ (spin_closer_program set i s).limits }
{}

/// Such a program has at most 1472 rows: of requests, of spinning, of own spinning, of other lower spinning and of lone lower spinning with
/// one, one for each of 256 request entries, of time one for each of 63 other tasks, of lower spinning and of lone lower spinning one for
/// each of 64 processors, and the one of lower requests.
pub fn closer_spin_rows_are_few()
    ensures { (set : SetDef) (i : ℕ) (r : List ℕ) → IsAccepted set → i < length set.tasks → height (spin_closer_program set i r) ≤ 1472 }
{}

/// In a lawful schedule of an accepted set, under spin locks, take a job, and let each job whose release plus bound is less than that
/// job's, and lies within the rows, be finished by its own release plus its bound. Then the fractions of the job's window meet every row
/// of its task's program, the closer ones too.
pub fn fractions_meet_closer_spin_rows()
    ensures { (w : Trace) (bounds : List ℕ) (n j : ℕ) → IsAccepted w.set → AreLawfulJobs (jobs_of w) → KeepsBefore spin_rule w n
        → j < length w.jobs → EndedWithin w (slice_index bounds) (bound_end w (slice_index bounds) j) n
        → IsScaledPoint (spin_closer_program w.set (task_of w j) bounds) (product_of_lengths w.set (spin_columns w.set (task_of w j)))
        (fractions_of spin_charge w (slice_index bounds) n j (spin_columns w.set (task_of w j))) }
{}

/// Bounds that fit under spin locks fit with the closer rows too. So no least bound with them is greater than one that fits under spin
/// locks.
pub fn closer_spin_rows_raise_no_bound()
    ensures fitting { (set : SetDef) (s : List ℕ) → AreFitting (spin_source set) s → AreFitting (spin_closer_source set) s }
    ensures least { (set : SetDef) (r s : List ℕ) → AreLeastFitting (spin_closer_source set) r → AreFitting (spin_source set) s
        → AtMost (length set.tasks) r s }
{}

/// Of an accepted set, the bounds of a certificate that is valid for the programs with the closer rows, and the values of its duals, are
/// sound: they hold in every schedule that keeps the rules of spin locks, of whatever lawful jobs.
pub fn valid_closer_spin_certificates_are_sound()
    ensures { (set : SetDef) (c : CertificateDef) (values : List ℕ) → IsAccepted set → IsValid (spin_closer_source set) c
        → AreValues (spin_closer_source set) c values → Sound spin_rule is_shared_interference set c.bounds values }
{}

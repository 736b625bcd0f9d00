//! The closer analysis of FMLP+: further rows that hold in every lawful schedule, and what is true of the programs that have them beside
//! those of FMLP+.
//!
//! They rest on two facts. A resource that only one processor's tasks use is free whenever one of these tasks requests it. And what blocks
//! a job while it waits was issued no later than its own request.
//!
//! Each function here does nothing: its contract is a law, and the lemmas that prove it stand in `proofs/`.
#![tactic(auto)]

ghost use Rattle.std.specs.Prelude.{◌≡◌, ℕ, ◌<◌, ◌≤◌, List, length, slice_index};
ghost use Rattle.program_form.specs.Certificate.{CertificateDef};
ghost use Rattle.program_form.specs.Limits.{HasLimitsAtMost};
ghost use Rattle.program_form.specs.Program.{IsProgram, height};
ghost use Rattle.program_form.specs.Points.{IsScaledPoint};
ghost use Rattle.sporadic_model.specs.SetDef.{SetDef};
ghost use Rattle.sporadic_model.specs.Accepted.{IsAccepted};
ghost use Rattle.sporadic_model.specs.declared.ids.Protocol.TheVariants as protocol;
ghost use Rattle.sporadic_model.specs.Bounds.{AtMost, AreWithinDeadlines};
ghost use Rattle.schedule_model.specs.LawfulJobs.{AreLawfulJobs};
ghost use Rattle.schedule_model.specs.RowDef.{Trace, jobs_of};
ghost use Rattle.schedule_model.specs.Activity.{task_of};
ghost use Rattle.schedule_model.specs.BlockedTicks.{is_shared_interference};
ghost use Rattle.schedule_model.specs.Ranks.{fmlp_plus};
ghost use Rattle.schedule_model.specs.Protocols.{shared_rule};
ghost use Rattle.schedule_model.specs.Keeping.{KeepsBefore};
ghost use Rattle.program_sources.specs.Valid.{IsValid};
ghost use Rattle.program_sources.specs.Fitting.{AreFitting, AreLeastFitting};
ghost use Rattle.blocking_columns.specs.Columns.{columns_of};
ghost use Rattle.program_laws.specs.Programs.{source_of};
ghost use Rattle.program_laws.specs.Written.{KeepsJobs};
ghost use Rattle.charge_laws.specs.Charges.{shared_charge};
ghost use Rattle.charge_laws.specs.Windows.{bound_end, EndedWithin};
ghost use Rattle.charge_laws.specs.Fractions.{product_of_lengths, fractions_of};
ghost use Rattle.soundness_laws.specs.Analyses.{AreValues};
ghost use Rattle.soundness_laws.specs.Sound.{Sound};
ghost use Rattle.closer_laws.specs.CloserRows.{fmlp_closer_program, fmlp_closer_source};

/// The lists of a task of an accepted set with closer rows, at bounds within the deadlines, are a program. Its limits rise with the
/// bounds, and follow them only by how many jobs can run.
pub fn closer_programs_are_accepted()
    ensures accepted { (set : SetDef) (i : ℕ) (r : List ℕ) → IsAccepted set → i < length set.tasks → AreWithinDeadlines set r
        → IsProgram (fmlp_closer_program set i r) }
    ensures rises { (set : SetDef) (i : ℕ) (r s : List ℕ) → i < length set.tasks → AtMost (length set.tasks) r s
        → HasLimitsAtMost (fmlp_closer_program set i r) (fmlp_closer_program set i s) }
    ensures follows { (set : SetDef) (i : ℕ) (r s : List ℕ) → i < length set.tasks → KeepsJobs set i r s
        → (fmlp_closer_program set i r).limits ≡ (fmlp_closer_program set i s).limits }
{}

/// Such a program has at most 1086 rows: the 701 of FMLP+, of other holders one for each of 256 request entries, of holders and of lower
/// tasks one for each of 63 other tasks, and three more.
pub fn closer_rows_are_few()
    ensures { (set : SetDef) (i : ℕ) (r : List ℕ) → IsAccepted set → i < length set.tasks → height (fmlp_closer_program set i r) ≤ 1086 }
{}

/// In a lawful schedule of an accepted set, under FMLP+, take a job, and let each job whose release plus bound is less than that job's, and
/// lies within the rows, be finished by its own release plus its bound. Then the fractions of the job's window meet every row of its
/// task's program, the closer ones too.
pub fn fractions_meet_closer_rows()
    ensures { (w : Trace) (bounds : List ℕ) (n j : ℕ) → IsAccepted w.set → AreLawfulJobs (jobs_of w)
        → KeepsBefore (shared_rule fmlp_plus) w n → j < length w.jobs
        → EndedWithin w (slice_index bounds) (bound_end w (slice_index bounds) j) n
        → IsScaledPoint (fmlp_closer_program w.set (task_of w j) bounds)
        (product_of_lengths w.set (columns_of protocol.FmlpPlus w.set (task_of w j)))
        (fractions_of shared_charge w (slice_index bounds) n j (columns_of protocol.FmlpPlus w.set (task_of w j))) }
{}

/// Bounds that fit under FMLP+ fit with the closer rows too. So no least bound with them is greater than one that fits under FMLP+.
pub fn closer_rows_raise_no_bound()
    ensures fitting { (set : SetDef) (s : List ℕ) → AreFitting (source_of protocol.FmlpPlus set) s → AreFitting (fmlp_closer_source set) s }
    ensures least { (set : SetDef) (r s : List ℕ) → AreLeastFitting (fmlp_closer_source set) r
        → AreFitting (source_of protocol.FmlpPlus set) s → AtMost (length set.tasks) r s }
{}

/// Of an accepted set, the bounds of a certificate that is valid for the programs with closer rows, and the values of its duals, are
/// sound: they hold in every schedule that keeps the rules of FMLP+, of whatever lawful jobs.
pub fn valid_closer_certificates_are_sound()
    ensures { (set : SetDef) (c : CertificateDef) (values : List ℕ) → IsAccepted set → IsValid (fmlp_closer_source set) c
        → AreValues (fmlp_closer_source set) c values → Sound (shared_rule fmlp_plus) is_shared_interference set c.bounds values }
{}

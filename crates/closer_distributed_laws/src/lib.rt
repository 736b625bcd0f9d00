//! The closer analyses of DPCP and of the distributed FIFO protocol: further rows that hold in every lawful schedule, and what is true of
//! the programs that have them beside the plain ones.
//!
//! They rest on one fact. While a request is at a processor, that processor runs no Local tick. So none of its own tasks issues a request
//! meanwhile, and at most one of them is in a request that runs there.
//!
//! Each function here does nothing: its contract is a law, and the lemmas that prove it stand in `proofs/`.
#![tactic(auto)]

ghost use Rattle.std.specs.Prelude.{◌≡◌, ℕ, ◌<◌, List, length, slice_index};
ghost use Rattle.program_form.specs.Certificate.{CertificateDef};
ghost use Rattle.program_form.specs.Limits.{HasLimitsAtMost};
ghost use Rattle.program_form.specs.Program.{IsProgram};
ghost use Rattle.program_form.specs.Points.{IsScaledPoint};
ghost use Rattle.sporadic_model.specs.SetDef.{SetDef};
ghost use Rattle.sporadic_model.specs.Accepted.{IsAccepted};
ghost use Rattle.sporadic_model.specs.declared.ids.Protocol.TheVariants as protocol;
ghost use Rattle.sporadic_model.specs.Bounds.{AtMost, AreWithinDeadlines};
ghost use Rattle.schedule_model.specs.LawfulJobs.{AreLawfulJobs};
ghost use Rattle.schedule_model.specs.RowDef.{Trace, jobs_of};
ghost use Rattle.schedule_model.specs.Activity.{task_of};
ghost use Rattle.schedule_model.specs.BlockedTicks.{is_dpcp_interference};
ghost use Rattle.schedule_model.specs.Protocols.{dpcp_rule};
ghost use Rattle.schedule_model.specs.Keeping.{KeepsBefore};
ghost use Rattle.program_sources.specs.Valid.{IsValid};
ghost use Rattle.program_sources.specs.Fitting.{AreFitting, AreLeastFitting};
ghost use Rattle.blocking_columns.specs.Columns.{columns_of};
ghost use Rattle.program_laws.specs.Programs.{source_of};
ghost use Rattle.program_laws.specs.Written.{KeepsJobs};
ghost use Rattle.charge_laws.specs.Charges.{dpcp_charge};
ghost use Rattle.charge_laws.specs.Windows.{bound_end, EndedWithin};
ghost use Rattle.charge_laws.specs.Fractions.{product_of_lengths, fractions_of};
ghost use Rattle.soundness_laws.specs.Analyses.{AreValues};
ghost use Rattle.soundness_laws.specs.Sound.{Sound};
ghost use Rattle.window_laws.specs.WindowRows.{windowed_source};
ghost use Rattle.dflp_laws.specs.Rules.{dflp_rule};
ghost use Rattle.dflp_laws.specs.Programs.{dflp_columns, dflp_source};
ghost use Rattle.closer_distributed_laws.specs.CloserRows.{dpcp_closer_program, dpcp_closer_source, dflp_closer_program, dflp_closer_source};

/// The lists of a task of an accepted set with closer rows, at bounds within the deadlines, are a program. No limit falls where bounds
/// rise.
pub fn closer_programs_are_accepted()
    ensures dpcp { (set : SetDef) (i : ℕ) (r : List ℕ) → IsAccepted set → i < length set.tasks → AreWithinDeadlines set r
        → IsProgram (dpcp_closer_program set i r) }
    ensures dflp { (set : SetDef) (i : ℕ) (r : List ℕ) → IsAccepted set → i < length set.tasks → AreWithinDeadlines set r
        → IsProgram (dflp_closer_program set i r) }
{}

/// No limit of these programs falls where bounds rise. Under the distributed FIFO protocol they follow the bounds only by how many jobs
/// can run.
pub fn closer_limits_rise_with_bounds()
    ensures dpcp { (set : SetDef) (i : ℕ) (r s : List ℕ) → i < length set.tasks → AtMost (length set.tasks) r s
        → HasLimitsAtMost (dpcp_closer_program set i r) (dpcp_closer_program set i s) }
    ensures dflp { (set : SetDef) (i : ℕ) (r s : List ℕ) → i < length set.tasks → AtMost (length set.tasks) r s
        → HasLimitsAtMost (dflp_closer_program set i r) (dflp_closer_program set i s) }
    ensures follows { (set : SetDef) (i : ℕ) (r s : List ℕ) → KeepsJobs set i r s
        → (dflp_closer_program set i r).limits ≡ (dflp_closer_program set i s).limits }
{}

/// In a lawful schedule of an accepted set take a job, and let each job whose release plus bound is less than that job's, and lies within
/// the rows, be finished by its own release plus its bound. Then the fractions of the job's window meet every row of its task's program,
/// the closer ones too.
pub fn fractions_meet_closer_rows()
    ensures dpcp { (w : Trace) (bounds : List ℕ) (n j : ℕ) → IsAccepted w.set → AreLawfulJobs (jobs_of w) → KeepsBefore dpcp_rule w n
        → j < length w.jobs → EndedWithin w (slice_index bounds) (bound_end w (slice_index bounds) j) n
        → IsScaledPoint (dpcp_closer_program w.set (task_of w j) bounds)
        (product_of_lengths w.set (columns_of protocol.Dpcp w.set (task_of w j)))
        (fractions_of dpcp_charge w (slice_index bounds) n j (columns_of protocol.Dpcp w.set (task_of w j))) }
    ensures dflp { (w : Trace) (bounds : List ℕ) (n j : ℕ) → IsAccepted w.set → AreLawfulJobs (jobs_of w) → KeepsBefore dflp_rule w n
        → j < length w.jobs → EndedWithin w (slice_index bounds) (bound_end w (slice_index bounds) j) n
        → IsScaledPoint (dflp_closer_program w.set (task_of w j) bounds)
        (product_of_lengths w.set (dflp_columns w.set (task_of w j)))
        (fractions_of dpcp_charge w (slice_index bounds) n j (dflp_columns w.set (task_of w j))) }
{}

/// Bounds that fit under DPCP with windows fit with the closer rows too, and so do those that fit under the distributed FIFO protocol. So
/// no least bound with them is greater than one that fits under DPCP, or under the distributed FIFO protocol.
pub fn closer_rows_raise_no_bound()
    ensures dpcp { (set : SetDef) (s : List ℕ) → AreFitting (windowed_source set) s → AreFitting (dpcp_closer_source set) s }
    ensures dflp { (set : SetDef) (s : List ℕ) → AreFitting (dflp_source set) s → AreFitting (dflp_closer_source set) s }
    ensures least_dpcp { (set : SetDef) (r s : List ℕ) → AreLeastFitting (dpcp_closer_source set) r
        → AreFitting (source_of protocol.Dpcp set) s → AtMost (length set.tasks) r s }
    ensures least_dflp { (set : SetDef) (r s : List ℕ) → AreLeastFitting (dflp_closer_source set) r → AreFitting (dflp_source set) s
        → AtMost (length set.tasks) r s }
{}

/// Of an accepted set, the bounds of a certificate that is valid for the programs with closer rows, and the values of its duals, are
/// sound: they hold in every schedule that keeps the rules, of whatever lawful jobs.
pub fn valid_closer_certificates_are_sound()
    ensures dpcp { (set : SetDef) (c : CertificateDef) (values : List ℕ) → IsAccepted set → IsValid (dpcp_closer_source set) c
        → AreValues (dpcp_closer_source set) c values → Sound dpcp_rule is_dpcp_interference set c.bounds values }
    ensures dflp { (set : SetDef) (c : CertificateDef) (values : List ℕ) → IsAccepted set → IsValid (dflp_closer_source set) c
        → AreValues (dflp_closer_source set) c values → Sound dflp_rule is_dpcp_interference set c.bounds values }
{}

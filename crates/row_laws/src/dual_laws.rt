ghost use Rattle.std.specs.Prelude.{◌≡◌, ℕ, ◌<◌, ◌≤◌, Bool, true, List, length, slice_index, Some};
ghost use Rattle.std.specs.List.{All, Contains};
ghost use Rattle.number_laws.specs.Tests.{count_below};
ghost use Rattle.program_form.specs.Duals.{Covers, dual_value};
ghost use Rattle.sporadic_model.specs.Accepted.{IsAccepted};
ghost use Rattle.sporadic_model.specs.declared.ids.Protocol.{Protocol};
ghost use Rattle.schedule_model.specs.LawfulJobs.{AreLawfulJobs};
ghost use Rattle.schedule_model.specs.RowDef.{Trace, jobs_of};
ghost use Rattle.schedule_model.specs.Activity.{task_of};
ghost use Rattle.schedule_model.specs.ByProtocol.{rules_of, interference_of};
ghost use Rattle.schedule_model.specs.Keeping.{KeepsBefore};
ghost use Rattle.schedule_model.specs.BlockedTicks.{is_blocked};
ghost use Rattle.blocking_columns.specs.ColumnDef.{ColumnDef};
ghost use Rattle.blocking_columns.specs.Columns.{columns_where, AreRequests};
ghost use Rattle.fragments.specs.Constraints.{ConstraintDef};
ghost use Rattle.program_laws.specs.Programs.{program_with, program_of};
ghost use Rattle.charge_laws.specs.Fractions.{charged_column};
ghost use Rattle.row_laws.specs.Meeting.{Charges, TicksMeet};
ghost use Rattle.charge_laws.specs.Windows.{bound_end, window_end, EndedWithin};

/// Whatever the protocol: let the ticks of a job's window meet each row of a list. Let each tick at which the job is blocked be charged in
/// one of the columns that pass the test. Then its blocked ticks are at most the value of each dual that covers the columns of the program
/// over these columns and rows.
pub fn duals_bound_charged_ticks()
    ensures { (charges : Charges) (test : ColumnDef → Bool) (rows : List ConstraintDef) (interferes : Trace → ℕ → ℕ → Bool) (w : Trace)
        (bounds : List ℕ) (n j den : ℕ) (num : ℕ → ℕ) → IsAccepted w.set → AreRequests test w.set
        → All (TicksMeet charges w (slice_index bounds) n j) rows
        → ((t : ℕ) → t < n → is_blocked interferes w t j ≡ true
        → (c : ColumnDef) × (charged_column charges w t j ≡ Some c) × Contains (columns_where test w.set) c)
        → Covers (program_with w.set (columns_where test w.set) rows bounds) den num
        → count_below (window_end w (slice_index bounds) n j) (λ t. is_blocked interferes w t j)
        ≤ dual_value (program_with w.set (columns_where test w.set) rows bounds) den num }
{}

/// Under the premises of `fractions_meet_every_row` the blocked ticks of the job's window are at most the value of each dual that covers
/// the columns of its program.
pub fn duals_bound_blocked_ticks()
    ensures { (p : Protocol) (w : Trace) (bounds : List ℕ) (n j den : ℕ) (num : ℕ → ℕ) → IsAccepted w.set → AreLawfulJobs (jobs_of w)
        → KeepsBefore (rules_of p) w n → j < length w.jobs
        → EndedWithin w (slice_index bounds) (bound_end w (slice_index bounds) j) n
        → Covers (program_of p w.set (task_of w j) bounds) den num
        → count_below (window_end w (slice_index bounds) n j) (λ t. is_blocked (interference_of p) w t j)
        ≤ dual_value (program_of p w.set (task_of w j) bounds) den num }
{}

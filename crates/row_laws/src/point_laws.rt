ghost use Rattle.std.specs.Prelude.{◌≡◌, ℕ, ◌<◌, Bool, List, length, slice_index};
ghost use Rattle.std.specs.List.{All};
ghost use Rattle.program_form.specs.Points.{IsScaledPoint};
ghost use Rattle.sporadic_model.specs.Accepted.{IsAccepted};
ghost use Rattle.sporadic_model.specs.declared.ids.Protocol.{Protocol};
ghost use Rattle.schedule_model.specs.LawfulJobs.{AreLawfulJobs};
ghost use Rattle.schedule_model.specs.RowDef.{Trace, jobs_of};
ghost use Rattle.schedule_model.specs.Activity.{task_of};
ghost use Rattle.schedule_model.specs.ByProtocol.{rules_of};
ghost use Rattle.schedule_model.specs.Keeping.{KeepsBefore};
ghost use Rattle.blocking_columns.specs.ColumnDef.{ColumnDef};
ghost use Rattle.blocking_columns.specs.Columns.{columns_where, columns_of, AreRequests};
ghost use Rattle.fragments.specs.Constraints.{ConstraintDef};
ghost use Rattle.program_laws.specs.Programs.{program_with, program_of};
ghost use Rattle.row_laws.specs.Meeting.{Charges, TicksMeet};
ghost use Rattle.charge_laws.specs.ByProtocol.{charges_of};
ghost use Rattle.charge_laws.specs.Windows.{bound_end, EndedWithin};
ghost use Rattle.charge_laws.specs.Fractions.{product_of_lengths, fractions_of};

/// Whatever the protocol: take columns that pass a test and are requests by users, and rows that the charged ticks of a job's window meet.
/// Then the fractions of the window meet every row of the program over these columns and rows.
pub fn met_rows_make_a_point()
    ensures { (charges : Charges) (test : ColumnDef → Bool) (rows : List ConstraintDef) (w : Trace) (bounds : List ℕ) (n j : ℕ)
        → IsAccepted w.set → AreRequests test w.set → All (TicksMeet charges w (slice_index bounds) n j) rows
        → IsScaledPoint (program_with w.set (columns_where test w.set) rows bounds) (product_of_lengths w.set (columns_where test w.set))
        (fractions_of charges w (slice_index bounds) n j (columns_where test w.set)) }
{}

/// Take a job in a lawful schedule of an accepted set. Let each job whose release plus bound is less than this job's, and lies within the
/// rows, be finished by its own release plus its bound. Then the fractions of this job's window meet every row of its task's program at
/// these bounds.
pub fn fractions_meet_every_row()
    ensures { (p : Protocol) (w : Trace) (bounds : List ℕ) (n j : ℕ) → IsAccepted w.set → AreLawfulJobs (jobs_of w)
        → KeepsBefore (rules_of p) w n → j < length w.jobs
        → EndedWithin w (slice_index bounds) (bound_end w (slice_index bounds) j) n
        → IsScaledPoint (program_of p w.set (task_of w j) bounds) (product_of_lengths w.set (columns_of p w.set (task_of w j)))
        (fractions_of (charges_of p) w (slice_index bounds) n j (columns_of p w.set (task_of w j))) }
{}

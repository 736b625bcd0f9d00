ghost use Rattle.std.specs.Prelude.{◌≡◌, ℕ, ◌<◌, List, length, slice_index, IsTrue};
ghost use Rattle.program_form.specs.Program.{IsCovered, columns};
ghost use Rattle.program_form.specs.Limits.{HasLimitsAtMost};
ghost use Rattle.program_form.specs.Points.{IsScaledPoint};
ghost use Rattle.sporadic_model.specs.SetDef.{SetDef};
ghost use Rattle.sporadic_model.specs.Bounds.{AtMost, AreWithinDeadlines};
ghost use Rattle.schedule_model.specs.RowDef.{Trace};
ghost use Rattle.schedule_model.specs.Activity.{task_of};
ghost use Rattle.schedule_model.specs.Keeping.{KeepsBefore};
ghost use Rattle.program_sources.specs.Recurrence.{SourceDef};
ghost use Rattle.charge_laws.specs.Fractions.{product_of_lengths, fractions_of};
ghost use Rattle.further_rows.specs.Sources.{further_source};
ghost use Rattle.row_laws.proofs.EmptyWindows.{WithinRows};

use charged_protocols::ChargedProtocol;
use protocol_programs::ProgramParts;
use sporadic_model::{TaskId, TaskSet};

/// The columns and rows of programs that say more than those of the plain protocol `P`. Its charges meet these rows too.
pub trait FurtherRows<P: ChargedProtocol>: ProgramParts {
    /// The source of these programs for a set.
    ghost source: { Self → SetDef → SourceDef };

    /// Has task `i`'s program surely the same limits at these bounds as at the earlier ones? Rows that can't tell answer no.
    fn keeps_limits(&self, set: &TaskSet, i: TaskId, earlier: &[u64], bounds: &[u64]) -> bool
        requires serves { Self.serves self.now set.now }
        requires task { i.0 < length set.now.tasks }
        requires earlier { AreWithinDeadlines set.now earlier.now }
        requires within { AreWithinDeadlines set.now bounds.now }
        ensures { IsTrue result → ((source self.now set.now).program i.0 earlier.now).limits
            ≡ ((source self.now set.now).program i.0 bounds.now).limits }
    {
        // the caller then computes the limits and compares them
        false
    }

    /// Each set that suits the plain protocol is served.
    ghost served: { (r : Self) (p : P) (set : SetDef) → P.suits p set → Self.serves r set };

    /// The columns are those of the plain protocol.
    ghost plain_columns: { (r : Self) (p : P) (set : SetDef) (i : ℕ) → Self.columns r set i ≡ P.columns_of p set i };

    /// The source gives the programs of these columns and rows, and interference is counted as for the plain protocol.
    ghost further: { (r : Self) (p : P) (set : SetDef) → further_source (P.source p) (Self.columns r) (Self.rows r) set ≡ source r set };

    /// Each column has a coefficient above zero in some row.
    ghost covers: { (r : Self) (p : P) (set : SetDef) (i : ℕ) (bounds : List ℕ) (c : ℕ) → P.suits p set → i < length set.tasks
        → c < columns ((source r set).program i bounds) → IsCovered ((source r set).program i bounds) c };

    /// No limit falls when bounds rise.
    ghost rises: { (r : Self) (p : P) (set : SetDef) (i : ℕ) (low high : List ℕ) → P.suits p set → i < length set.tasks
        → AtMost (length set.tasks) low high → HasLimitsAtMost ((source r set).program i low) ((source r set).program i high) };

    /// Charges meet the rows. Take a job in a lawful schedule of an accepted set, and let each job that is due earlier have kept its bound.
    /// Then the fractions of this job's window meet every row of its program.
    ghost meets_rows: { (r : Self) (p : P) (w : Trace) (bounds : List ℕ) (n j : ℕ) → P.suits p w.set → WithinRows w bounds n j
        → KeepsBefore (P.keeps p) w n
        → IsScaledPoint ((source r w.set).program (task_of w j) bounds)
        (product_of_lengths w.set (P.columns_of p w.set (task_of w j)))
        (fractions_of (P.charges p) w (slice_index bounds) n j (P.columns_of p w.set (task_of w j))) };
}

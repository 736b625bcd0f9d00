//! Blocking programs over any columns and rows, those of MPCP, FMLP+ and DPCP among them. The definitions are in `specs/`. The functions
//! are laws: they do nothing, and what they ensure holds for every set.
#![tactic(auto)]

ghost use Rattle.std.specs.Prelude.{◌≡◌, ℕ, ◌<◌, ◌≤◌, Bool, List, [], ◌∷◌, length};
ghost use Rattle.std.specs.List.{All};
ghost use Rattle.program_form.specs.Limits.{HasLimitsAtMost};
ghost use Rattle.program_form.specs.Program.{IsProgram, height};
ghost use Rattle.program_form.specs.SevenRows.{seven_rows};
ghost use Rattle.sporadic_model.specs.SetDef.{SetDef};
ghost use Rattle.sporadic_model.specs.Accepted.{IsAccepted};
ghost use Rattle.sporadic_model.specs.declared.ids.Protocol.{Protocol};
ghost use Rattle.sporadic_model.specs.Bounds.{AtMost, AreWithinDeadlines};
ghost use Rattle.blocking_columns.specs.ColumnDef.{ColumnDef};
ghost use Rattle.blocking_columns.specs.Columns.{columns_where, columns_of, AreRequests};
ghost use Rattle.fragments.specs.Constraints.{ConstraintDef};
ghost use Rattle.program_laws.specs.Programs.{program_with, program_of};
ghost use Rattle.program_laws.specs.Written.{AreWritten, Rises, KeepsJobs};
ghost use Rattle.program_laws.specs.Worked.{three_tasks, sizes};

/// For an accepted set, columns and rows that keep `AreWritten` make a program, whatever the protocol: each column is covered, and no
/// number is large.
pub fn written_rows_are_accepted()
    ensures { (set : SetDef) (i : ℕ) (columns : List ColumnDef) (rows : List ConstraintDef) (r : List ℕ) → IsAccepted set
        → AreWritten set i columns rows r → IsProgram (program_with set columns rows r) }
{}

/// Only the limits depend on the bounds. If no row's limit falls from some bounds to others, no limit of the program does.
pub fn limits_rise_with_rows()
    ensures { (set : SetDef) (columns : List ColumnDef) (rows : List ConstraintDef) (r s : List ℕ) → All (Rises r s) rows
        → HasLimitsAtMost (program_with set columns rows r) (program_with set columns rows s) }
{}

/// If no row's limit falls either way, the limits are the same.
pub fn limits_stay_with_rows()
    ensures { (set : SetDef) (columns : List ColumnDef) (rows : List ConstraintDef) (r s : List ℕ) → All (Rises r s) rows
        → All (Rises s r) rows → (program_with set columns rows r).limits ≡ (program_with set columns rows s).limits }
{}

/// For an accepted set, and at bounds within the deadlines, the lists of each task are a program: each column is covered, and no number is
/// large.
pub fn written_programs_are_accepted()
    ensures { (p : Protocol) (set : SetDef) (i : ℕ) (r : List ℕ) → IsAccepted set → i < length set.tasks → AreWithinDeadlines set r
        → IsProgram (program_of p set i r) }
{}

/// Only the limits depend on the bounds, and no limit falls when bounds rise.
pub fn limits_rise_with_bounds()
    ensures { (p : Protocol) (set : SetDef) (i : ℕ) (r s : List ℕ) → i < length set.tasks → AtMost (length set.tasks) r s
        → HasLimitsAtMost (program_of p set i r) (program_of p set i s) }
{}

/// The limits depend on the bounds only through the number of jobs of each task that can run within the bound of a job of the analysed
/// task.
pub fn limits_follow_jobs()
    ensures { (p : Protocol) (set : SetDef) (i : ℕ) (r s : List ℕ) → i < length set.tasks → KeepsJobs set i r s
        → (program_of p set i r).limits ≡ (program_of p set i s).limits }
{}

/// Of columns that are requests by users of their resources, at most three are of one request entry of the set. So there are at most 768.
pub fn requests_are_few()
    ensures { (test : ColumnDef → Bool) (set : SetDef) → IsAccepted set → AreRequests test set → length (columns_where test set) ≤ 768 }
{}

/// A program has at most three columns for each request entry of the set. So it has at most 768.
pub fn columns_are_few()
    ensures { (p : Protocol) (set : SetDef) (i : ℕ) → IsAccepted set → length (columns_of p set i) ≤ 768 }
{}

/// A program has at most 701 rows. Of requests and of turns there is one for each of 256 request entries. Of time, of intervals and of
/// queues there is one for each of 63 other tasks.
pub fn rows_are_few()
    ensures { (p : Protocol) (set : SetDef) (i : ℕ) (r : List ℕ) → IsAccepted set → i < length set.tasks
        → height (program_of p set i r) ≤ 701 }
{}

/// A worked set of three tasks: how many columns and rows the programs of the first task have under MPCP and FMLP+.
pub fn three_tasks_have_few()
    ensures mpcp { sizes (program_of Protocol.Mpcp three_tasks 0 (4 ∷ 4 ∷ 3 ∷ [])) ≡ (3, 7) }
    ensures fmlp_plus { sizes (program_of Protocol.FmlpPlus three_tasks 0 (4 ∷ 4 ∷ 3 ∷ [])) ≡ (3, 10) }
{}

/// A worked set of three tasks: the program of the first task under MPCP, at bounds equal to the costs.
pub fn three_tasks_make_seven_rows()
    ensures { program_of Protocol.Mpcp three_tasks 0 (4 ∷ 4 ∷ 3 ∷ []) ≡ seven_rows }
{}

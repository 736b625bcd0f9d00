//! What holds of the runs of every program over small fractions.

ghost use Rattle.std.specs.Prelude.{ℕ};
ghost use Rattle.program_form.specs.Program.{ProgramDef, IsProgram};
ghost use Rattle.exchange_runs.specs.Table.{Table};
ghost use Rattle.exchange_runs.specs.Exchange.{IsEntering, IsLast};
ghost use Rattle.exchange_runs.specs.Run.{Reached};
ghost use Rattle.exchange_runs.specs.SmallRuns.{SmallReached, IsLowestTable};

/// A table of a run over small fractions is, in lowest terms, the table of the program's run after as many exchanges. The same variable
/// enters both, or both are the last.
pub fn small_runs_are_runs()
    ensures run { (p : ProgramDef) (k : ℕ) (w : Table)
        → IsProgram p → SmallReached p k w → (t : Table) × (IsLowestTable p w t) × Reached p k t }
    ensures entering { (p : ProgramDef) (w t : Table) (e : ℕ) → IsLowestTable p w t → IsEntering p w e → IsEntering p t e }
    ensures last { (p : ProgramDef) (w t : Table) → IsLowestTable p w t → IsLast p w → IsLast p t }
{}

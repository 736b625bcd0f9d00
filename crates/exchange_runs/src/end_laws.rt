//! What holds of the runs of every program over unbounded fractions. Each function is a law: it does nothing, and what it ensures holds for
//! all programs.

ghost use Rattle.std.specs.Prelude.{◌≡◌, ◌⊎◌, ℕ, suc, ◌<◌, ◌≤◌, List};
ghost use Rattle.fraction128.specs.Fraction.{Fraction};
ghost use Rattle.program_form.specs.Program.{ProgramDef, AreCovered, IsProgram};
ghost use Rattle.program_form.specs.Certificate.{DualDef};
ghost use Rattle.program_form.specs.SevenRows.{seven_rows};
ghost use Rattle.program_form.specs.Optimum.{IsOptimum};
ghost use Rattle.program_form.specs.Duals.{IsOptimalDual};
ghost use Rattle.exchange_runs.specs.Table.{Table};
ghost use Rattle.exchange_runs.specs.Exchange.{IsLast};
ghost use Rattle.exchange_runs.specs.Run.{Reached};
ghost use Rattle.exchange_runs.specs.Readings.{value_of};
ghost use Rattle.exchange_runs.specs.Feasible.{IsOptimumValue};
ghost use Rattle.exchange_runs.specs.Outcomes.{EndsWithin, IsWideWithin};
ghost use Rattle.exchange_runs.specs.Unbounded.{FreelyReached, sets_of_variables};

/// Over unbounded fractions each table of a covered program's run is the last, or has a next one. A run makes fewer exchanges than there
/// are sets of variables. So it comes to a last table. There its value is the optimum, and no run goes on past it.
pub fn free_runs_end()
    ensures next { (p : ProgramDef) (k : ℕ) (t : Table)
        → AreCovered p → FreelyReached p k t → IsLast p t ⊎ ((u : Table) × FreelyReached p (suc k) u) }
    ensures few { (p : ProgramDef) (k : ℕ) (t : Table) → FreelyReached p k t → k < sets_of_variables p }
    ensures end { (p : ProgramDef) → AreCovered p → (k : ℕ) × (t : Table) × (FreelyReached p k t) × IsLast p t }
    ensures no_later { (p : ProgramDef) (k j : ℕ) (t u : Table)
        → FreelyReached p k t → IsLast p t → FreelyReached p j u → j ≤ k }
    ensures best { (p : ProgramDef) (k : ℕ) (t : Table)
        → FreelyReached p k t → IsLast p t → IsOptimumValue p (value_of p t) }
{}

/// A run whose values all have forms is a run over unbounded fractions. It makes fewer exchanges than there are sets of variables.
pub fn every_run_is_free()
    ensures free { (p : ProgramDef) (k : ℕ) (t : Table) → Reached p k t → FreelyReached p k t }
    ensures few { (p : ProgramDef) (k : ℕ) (t : Table) → Reached p k t → k < sets_of_variables p }
{}

/// A covered program has an optimum that a scaled point attains, and a feasible dual of the same value.
pub fn an_optimum_exists()
    ensures optimum { (p : ProgramDef) → AreCovered p → (num : ℕ) × (den : ℕ) × IsOptimum p num den }
    ensures dual { (p : ProgramDef) → AreCovered p → (d : DualDef) × IsOptimalDual p d }
{}

/// With more units than there are sets of variables a run ends, or is wide. It does not need more.
pub fn enough_units_give_an_end()
    ensures { (p : ProgramDef) (units : ℕ) → IsProgram p → sets_of_variables p < units
        → ((k : ℕ) × (value : Fraction) × (primal : List Fraction) × (d : DualDef) × EndsWithin p units k value primal d)
        ⊎ IsWideWithin p units }
{}

/// The run of a worked program of three columns and seven rows over unbounded fractions. It ends after four exchanges, so no run of the
/// program makes a fifth. By the number of variables alone it could make 1,023.
pub fn seven_rows_end_in_time()
    ensures end { (t : Table) × (FreelyReached seven_rows 4 t) × IsLast seven_rows t }
    ensures no_fifth { (k : ℕ) (t : Table) → FreelyReached seven_rows k t → k ≤ 4 }
    ensures bound { sets_of_variables seven_rows ≡ 1024 }
{}

//! What holds of every exchange run. Each function is a law: it does nothing, and what it ensures holds for all programs.

ghost use Rattle.std.specs.Prelude.{◌≡◌, ℕ, ◌<◌, ◌≤◌, ◌⊎◌, List, slice_index, pos};
ghost use Rattle.fraction128.specs.Fraction.{Fraction, IsForm, over, whole};
ghost use Rattle.fraction128.specs.Scaling.{IsScaled};
ghost use Rattle.program_form.specs.Program.{ProgramDef, IsProgram, height};
ghost use Rattle.program_form.specs.SevenRows.{seven_rows, seven_rows_dual};
ghost use Rattle.program_form.specs.Certificate.{DualDef};
ghost use Rattle.program_form.specs.Points.{IsGreatestReached};
ghost use Rattle.program_form.specs.Duals.{IsOptimalDual, dual_total, dual_value};
ghost use Rattle.exchange_runs.specs.Table.{Table, variables};
ghost use Rattle.exchange_runs.specs.Exchange.{IsLast, HasRatio};
ghost use Rattle.exchange_runs.specs.Run.{Reached, IsExchangeRun, IsSameTable};
ghost use Rattle.exchange_runs.specs.WideExchange.{IsWideExchange};
ghost use Rattle.exchange_runs.specs.Feasible.{IsOptimumValue, IsPointWorth};
ghost use Rattle.exchange_runs.specs.Outcomes.{EndsWithin, IsWideWithin, NeedsMoreThan, HasOutcome};
ghost use Rattle.exchange_runs.specs.Account.{RunReadsSo};
ghost use Rattle.exchange_runs.specs.SevenRowsRun.{seven_rows_account, seven_rows_primal};

/// A program has one run. After as many exchanges it has one table, whose cells all have forms and are zero past the limit, and it has one
/// end. If the table is the last, or the exchange that begins there is wide, no more exchanges are made.
pub fn a_run_has_one_course()
    ensures table { (p : ProgramDef) (k : ℕ) (t u : Table)
        → IsProgram p → Reached p k t → Reached p k u → IsSameTable p t u }
    ensures cells { (p : ProgramDef) (k : ℕ) (t : Table)
        → IsProgram p → Reached p k t → (i v : ℕ) → i ≤ height p → IsForm (t.cell i v) }
    ensures past { (p : ProgramDef) (k : ℕ) (t : Table)
        → IsProgram p → Reached p k t → (i v : ℕ) → i ≤ height p → variables p < v → t.cell i v ≡ whole (pos 0) }
    ensures end { (p : ProgramDef) (k j : ℕ) (t u : Table)
        → IsProgram p → IsExchangeRun p k t → IsExchangeRun p j u → k ≡ j }
    ensures no_later { (p : ProgramDef) (k j : ℕ) (t u : Table)
        → IsProgram p → Reached p k t → IsLast p t ⊎ IsWideExchange p t → Reached p j u → j ≤ k }
{}

/// A run has exactly one outcome. It ends, with one number of exchanges, value, primal and dual. Or it is wide. Or it needs more units.
pub fn a_run_gives_one_answer()
    ensures some { (p : ProgramDef) (units : ℕ) → IsProgram p → HasOutcome p units }
    ensures answer { (p : ProgramDef) (m n k j : ℕ) (value other : Fraction) (primal point : List Fraction) (d e : DualDef)
        → IsProgram p → EndsWithin p m k value primal d → EndsWithin p n j other point e
        → (k ≡ j) × (value ≡ other) × (primal ≡ point) × (d ≡ e) }
    ensures end_not_wide { (p : ProgramDef) (m n k : ℕ) (value : Fraction) (primal : List Fraction) (d : DualDef)
        → IsProgram p → EndsWithin p m k value primal d → ¬ (IsWideWithin p n) }
    ensures end_not_more { (p : ProgramDef) (units k : ℕ) (value : Fraction) (primal : List Fraction) (d : DualDef)
        → IsProgram p → EndsWithin p units k value primal d → ¬ (NeedsMoreThan p units) }
    ensures wide_not_more { (p : ProgramDef) (units : ℕ)
        → IsProgram p → IsWideWithin p units → ¬ (NeedsMoreThan p units) }
{}

/// If a run ends, its value is the optimum, and its primal is a point of that worth. Its dual is optimal, with the value as its total over
/// its denominator. The whole part of that is the greatest whole value that is reached.
pub fn the_end_is_the_optimum()
    ensures value { (p : ProgramDef) (units k : ℕ) (value : Fraction) (primal : List Fraction) (d : DualDef)
        → EndsWithin p units k value primal d → IsOptimumValue p value }
    ensures point { (p : ProgramDef) (units k : ℕ) (value : Fraction) (primal : List Fraction) (d : DualDef)
        → EndsWithin p units k value primal d → IsPointWorth p primal value }
    ensures dual { (p : ProgramDef) (units k : ℕ) (value : Fraction) (primal : List Fraction) (d : DualDef)
        → EndsWithin p units k value primal d → IsOptimalDual p d }
    ensures equal { (p : ProgramDef) (units k : ℕ) (value : Fraction) (primal : List Fraction) (d : DualDef)
        → EndsWithin p units k value primal d → IsScaled d.den value (dual_total p (λ r. slice_index d.num r)) }
    ensures greatest { (p : ProgramDef) (units k : ℕ) (value : Fraction) (primal : List Fraction) (d : DualDef)
        → EndsWithin p units k value primal d → IsGreatestReached p (dual_value p d.den (λ r. slice_index d.num r)) }
{}

/// Whichever variable enters a table of a run, some row has a ratio. So what a program's points reach is bounded.
pub fn no_program_is_unbounded()
    ensures { (p : ProgramDef) (k : ℕ) (t : Table) (e : ℕ)
        → IsProgram p → Reached p k t → e < variables p → (i : ℕ) × (i < height p) × HasRatio t e i }
{}

/// The run of a worked program of three columns and seven rows. It has four exchanges, each with the variable that enters, the one that
/// leaves, the ratio and the value. Then come its value, primal and dual. It takes five units.
pub fn seven_rows_take_four_exchanges()
    ensures account { (t : Table) × (RunReadsSo seven_rows seven_rows_account t) × IsLast seven_rows t }
    ensures end { EndsWithin seven_rows 5 4 (over (pos 14) (pos 3)) seven_rows_primal seven_rows_dual }
    ensures units { NeedsMoreThan seven_rows 4 }
{}

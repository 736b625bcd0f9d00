//! What follows from what a search reads off the end of the run. Each function is a law: it does nothing, and what it ensures holds for all
//! programs.

ghost use Rattle.std.specs.Prelude.{◌≡◌, ℕ, ◌*◌, ◌≤◌, ◌^◌, List, slice_index, pos};
ghost use Rattle.fraction128.specs.Fraction.{IsFloor};
ghost use Rattle.program_form.specs.Program.{ProgramDef};
ghost use Rattle.program_form.specs.Certificate.{DualDef};
ghost use Rattle.program_form.specs.Points.{IsScaledPoint, IsGreatestReached, worth};
ghost use Rattle.program_form.specs.Duals.{IsFeasibleDual, dual_value};
ghost use Rattle.exchange_runs.specs.Table.{Table};
ghost use Rattle.exchange_runs.specs.Readings.{value_of};
ghost use Rattle.free_search.specs.Ends.{IsEndAfter, IsPointOf, IsRoundedDual, IsExactDual, IsFoundDual, HasGreatDual};

/// At the end of a program's run over unbounded fractions the value has a whole part, and each end has the same one. It is the greatest
/// whole number that a point reaches. The point that is read off meets every row, and reaches it. The dual covers every column. Its
/// multipliers are rounded up, so what it bounds may be above the optimum.
pub fn what_is_found_is_best()
    ensures some { (p : ProgramDef) (k : ℕ) (t : Table) → IsEndAfter p k t → (n : ℕ) × IsFloor (value_of p t) (pos n) }
    ensures greatest { (p : ProgramDef) (k : ℕ) (t : Table) (n : ℕ)
        → IsEndAfter p k t → IsFloor (value_of p t) (pos n) → IsGreatestReached p n }
    ensures one { (p : ProgramDef) (k j : ℕ) (t u : Table) (m n : ℕ) → IsEndAfter p k t → IsEndAfter p j u
        → IsFloor (value_of p t) (pos m) → IsFloor (value_of p u) (pos n) → m ≡ n }
    ensures point { (p : ProgramDef) (k : ℕ) (t : Table) (den : ℕ) (num : List ℕ) (n : ℕ) → IsEndAfter p k t → IsPointOf p t den num
        → IsFloor (value_of p t) (pos n) → IsScaledPoint p den (slice_index num) × (n * den ≤ worth p (slice_index num)) }
    ensures covers { (p : ProgramDef) (k : ℕ) (t : Table) (d : DualDef) → IsEndAfter p k t → IsRoundedDual p t d → IsFeasibleDual p d }
{}

/// A program's run ends in one way, whatever fractions stand in its tables. So one dual is written. If one is written, then no end has a
/// multiplier above 2^63 - 1. If some exact dual has 63 bits, then the whole part of the written dual's total over its denominator is the
/// greatest whole number that a point reaches.
pub fn the_end_is_read_in_one_way()
    ensures dual { (p : ProgramDef) (k j : ℕ) (t u : Table) (d e : DualDef) → IsEndAfter p k t → IsEndAfter p j u
        → IsFoundDual p t d → IsFoundDual p u e → d ≡ e }
    ensures fits { (p : ProgramDef) (k j : ℕ) (t u : Table) (d : DualDef) → IsEndAfter p k t → IsEndAfter p j u
        → IsFoundDual p t d → HasGreatDual p u 1 → ⊥ }
    ensures keeps { (p : ProgramDef) (k j : ℕ) (t u : Table) (w d : DualDef) → IsEndAfter p k t → IsEndAfter p j u
        → IsExactDual p t w → IsFoundDual p u d → IsGreatestReached p (dual_value p d.den (λ r. slice_index d.num r)) }
{}

/// Let the multipliers at the end of a run be rounded up over some power of two, with 63 bits each. Then the dual that a search writes is
/// worth no more: its total over its denominator has no greater whole part.
pub fn no_rounded_dual_is_worth_less()
    ensures { (p : ProgramDef) (k j : ℕ) (t u : Table) (w d : DualDef) (m : ℕ) → IsEndAfter p k t → IsEndAfter p j u
        → IsRoundedDual p t w → w.den ≡ 2 ^ m → IsFoundDual p u d
        → dual_value p d.den (λ r. slice_index d.num r) ≤ dual_value p w.den (λ r. slice_index w.num r) }
{}

//! How points, duals and the optimum of a program are related. Each function is a law: it does nothing, and what it ensures holds for all
//! programs.

ghost use Rattle.std.specs.Prelude.{◌≡◌, ℕ, ◌+◌, ◌*◌, ◌/◌, ◌^◌, ◌<◌, ◌≤◌, ◌↔◌, Some, None, slice_index};
ghost use Rattle.number_laws.specs.Sums.{sum_below};
ghost use Rattle.program_form.specs.Program.{ProgramDef, HasLengths, IsFirstUncovered, AreCovered, AreSmall, IsProgram};
ghost use Rattle.program_form.specs.Program.{columns, height, cost};
ghost use Rattle.program_form.specs.Refusals.{first_refusal};
ghost use Rattle.program_form.specs.Points.{IsScaledPoint, worth, Reaches, IsGreatestReached};
ghost use Rattle.program_form.specs.Optimum.{IsOptimum};
ghost use Rattle.program_form.specs.Duals.{Covers, Meet, dual_total, dual_value, IsOptimalDual};
ghost use Rattle.program_form.specs.Limits.{HasLimitsAtMost};
ghost use Rattle.program_form.specs.SevenRows.{seven_rows, seven_rows_dual};

use crate::program::ProgramRefusal;

/// When lists are refused as a program, and with which refusal. It is `Length` exactly if their lengths don't match. Else it is `Uncovered`
/// exactly with the first column that no row covers, if there is one. Else it is `Large` exactly if a number is too large.
pub fn refusals_are_exact()
    ensures length { (p : ProgramDef) → (first_refusal p ≡ Some ProgramRefusal.Length) ↔ (HasLengths p → ⊥) }
    ensures uncovered { (p : ProgramDef) (c : ℕ)
        → (first_refusal p ≡ Some (ProgramRefusal.Uncovered c)) ↔ (HasLengths p × IsFirstUncovered p c) }
    ensures large { (p : ProgramDef) → (first_refusal p ≡ Some ProgramRefusal.Large) ↔ (HasLengths p × AreCovered p × (AreSmall p → ⊥)) }
    ensures none { (p : ProgramDef) → columns p < 2 ^ 32 → height p < 2 ^ 32 → (first_refusal p ≡ None) ↔ IsProgram p }
{}

/// Weak duality: no scaled point is worth more than a feasible dual's total over its denominator.
pub fn weak_duality()
    ensures { (p : ProgramDef) (s : ℕ) (ys : ℕ → ℕ) (den : ℕ) (num : ℕ → ℕ)
        → IsScaledPoint p s ys → Covers p den num → worth p ys * den ≤ s * dual_total p num }
{}

/// A feasible dual's value is at least every whole value that is reached.
pub fn a_dual_bounds_what_is_reached()
    ensures { (p : ProgramDef) (den : ℕ) (num : ℕ → ℕ) (b : ℕ) → Covers p den num → Reaches p b → b ≤ dual_value p den num }
{}

/// If a scaled point and a feasible dual have equal values, that value is the optimum. Its whole part is the greatest whole value that is
/// reached.
pub fn equal_values_are_best()
    ensures optimum { (p : ProgramDef) (s den : ℕ) (ys num : ℕ → ℕ) → Meet p s ys den num → IsOptimum p (dual_total p num) den }
    ensures greatest { (p : ProgramDef) (s den : ℕ) (ys num : ℕ → ℕ) → Meet p s ys den num → IsGreatestReached p (dual_value p den num) }
{}

/// The whole part of the optimum is the greatest whole value that is reached.
pub fn whole_part_is_greatest()
    ensures { (p : ProgramDef) (num den : ℕ) → IsOptimum p num den → IsGreatestReached p (num / den) }
{}

/// A program has at most one optimum, and at most one greatest whole value that is reached.
pub fn the_optimum_is_one()
    ensures optimum { (p : ProgramDef) (num den num' den' : ℕ) → IsOptimum p num den → IsOptimum p num' den' → num * den' ≡ num' * den }
    ensures greatest { (p : ProgramDef) (b c : ℕ) → IsGreatestReached p b → IsGreatestReached p c → b ≡ c }
{}

/// Zero is reached. With a value each smaller one is reached too.
pub fn less_is_reached_too()
    ensures zero { (p : ProgramDef) → Reaches p 0 }
    ensures less { (p : ProgramDef) (b c : ℕ) → c ≤ b → Reaches p b → Reaches p c }
{}

/// Greater limits reach no less.
pub fn greater_limits_reach_no_less()
    ensures reached { (p q : ProgramDef) (b : ℕ) → HasLimitsAtMost p q → Reaches p b → Reaches q b }
    ensures greatest { (p q : ProgramDef) (b c : ℕ) → HasLimitsAtMost p q → IsGreatestReached p b → IsGreatestReached q c → b ≤ c }
{}

/// Each program has a feasible dual: the sum of its costs for every row. So what its points reach is bounded.
pub fn a_program_has_a_dual()
    ensures { (p : ProgramDef) → IsProgram p → Covers p 1 (λ r. sum_below (columns p) (λ c. cost p c)) }
{}

/// A worked program of three columns and seven rows: its optimum is 14/3, and 4 is the greatest whole value that is reached.
pub fn seven_rows_reach_fourteen_thirds()
    ensures program { IsProgram seven_rows }
    ensures dual { IsOptimalDual seven_rows seven_rows_dual }
    ensures optimum { IsOptimum seven_rows 14 3 }
    ensures greatest { IsGreatestReached seven_rows 4 }
{}

//! What a program reaches. Whether it reaches a number is decided, and a covered program has a greatest number that it reaches.
//!
//! Both are proved without tables, by elimination. If rows with a scale and columns have a solution, there are two cases. Either they have
//! one with zero in the last column. Or they have one that meets some row exactly, and that row is solved for the last column.
//!
//! There is no code here. The functions state what holds of every program.

ghost use Rattle.std.specs.Prelude.{ℕ, ◌⊎◌};
ghost use Rattle.program_form.specs.Program.{ProgramDef, AreCovered};
ghost use Rattle.program_form.specs.Points.{Reaches, IsGreatestReached};

/// A program reaches a number, or it doesn't, whatever its lists are.
pub fn reaching_is_decided()
    ensures { (p : ProgramDef) (b : ℕ) → Reaches p b ⊎ ¬ (Reaches p b) }
{}

/// If each column of a program is covered, there is a greatest number that it reaches.
pub fn a_greatest_reached_value_exists()
    ensures { (p : ProgramDef) → AreCovered p → (b : ℕ) × IsGreatestReached p b }
{}

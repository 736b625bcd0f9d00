//! What follows from a refusal that holds. Each function is a law: it does nothing.

ghost use Rattle.std.specs.Prelude.{ℕ, ◌+◌, ◌<◌, ◌↔◌, List};
ghost use Rattle.sporadic_model.specs.SetDef.{SetDef, task_at, latest_bound};
ghost use Rattle.sporadic_model.specs.Accepted.{TaskNumbers};
ghost use Rattle.program_sources.specs.Recurrence.{source_at};
ghost use Rattle.program_sources.specs.Fitting.{AreFitting};
ghost use Rattle.refusal_laws.specs.Steps.{StepDef, Holds};

use program_sources::{ProgramSource, recurrence_is_monotone};

/// If a refusal holds, nothing fits. This is so for every source, with the one premise that it serves the set.
pub fn refusals_are_right<P: ProgramSource>()
    ensures { (p : P) (set : SetDef) (steps : List StepDef) (s : List ℕ) → P.serves p set
        → Holds (source_at (P.source p) set) steps
        → AreFitting (source_at (P.source p) set) s → ⊥ }
{
    recurrence_is_monotone::<P>();
}

/// A value is above its task's latest bound exactly if it and the task's jitter together are above the deadline.
pub fn what_passes_the_latest_bound_passes_the_deadline()
    ensures { (set : SetDef) (x v : ℕ) → TaskNumbers set x
        → (latest_bound (task_at set x) < v) ↔ ((task_at set x).deadline < v + (task_at set x).jitter) }
{}

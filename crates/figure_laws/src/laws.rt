ghost use Rattle.std.specs.Prelude.{◌≡◌, ℕ, ◌+◌, Bool, List, Option, slice_index};
ghost use Rattle.schedule_model.specs.RowDef.{Trace};
ghost use Rattle.blocking_columns.specs.declared.columns.Class.TheVariants.{Direct, Indirect, Preemption};
ghost use Rattle.charge_laws.specs.Charges.{Charge};
ghost use Rattle.soundness_laws.specs.Sound.{KeepsBounds};
ghost use Rattle.figure_laws.specs.Figures.{class_sum, blocked_sum, blocked_ticks, ChargesBlocked, BlockedCharged};

/// If the charged ticks are the blocked ones and no others, a task's three classes add up to the blocked ticks of its jobs' windows.
pub fn classes_add_up()
    ensures { (charges : Trace → ℕ → ℕ → Option Charge) (interferes : Trace → ℕ → ℕ → Bool) (w : Trace) (bound : ℕ → ℕ) (n x : ℕ)
        → ChargesBlocked charges interferes w → BlockedCharged charges interferes w n
        → class_sum charges w bound n Direct x + (class_sum charges w bound n Indirect x + class_sum charges w bound n Preemption x)
        ≡ blocked_sum interferes w bound n x }
{}

/// In a schedule that keeps its bounds no job is blocked outside its window.
pub fn blocked_ticks_lie_inside()
    ensures { (interferes : Trace → ℕ → ℕ → Bool) (w : Trace) (n : ℕ) (bounds values : List ℕ) (x : ℕ)
        → KeepsBounds interferes w n bounds values → blocked_sum interferes w (slice_index bounds) n x ≡ blocked_ticks interferes w n x }
{}

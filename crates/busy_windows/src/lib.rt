//! A closer recurrence under spin locks, by busy windows: what it counts, and what would have to be shown of schedules. No law says that its
//! bounds are sound, and no command uses it.
//!
//! Each function here does nothing: its contract is a law. The laws say that this recurrence never counts more than that of spin locks.
#![tactic(auto)]

ghost use Rattle.std.specs.Prelude.{ℕ, ◌<◌, ◌≤◌, List, slice_index};
ghost use Rattle.sporadic_model.specs.SetDef.{SetDef, task_at};
ghost use Rattle.program_sources.specs.Recurrence.{interference_of};
ghost use Rattle.spin_charging.specs.SpinPrograms.{spinning_row};
ghost use Rattle.busy_windows.specs.BusyWindows.{busy_interference, busy_spinning_row};

/// In a busy window higher tasks interfere at no more ticks than the recurrence of spin locks counts, if each bound is at least its task's
/// cost.
pub fn busy_windows_have_no_more_interference()
    ensures { (set : SetDef) (r : List ℕ) (i : ℕ) → ((h : ℕ) → h < i → (task_at set h).cost ≤ slice_index r h)
        → busy_interference set r i ≤ interference_of (λ h. (task_at set h).cost) set r i }
{}

/// The limit of a row of spinning in a busy window is at most that of the row of spinning.
pub fn busy_windows_have_no_greater_limits()
    ensures { (set : SetDef) (bounds : ℕ → ℕ) (i k q : ℕ) → (busy_spinning_row set i k q).limit bounds ≤ (spinning_row set i k q).limit bounds }
{}

//! Laws of task sets. Each function here does nothing: what it ensures holds for all sets.

ghost use Rattle.std.specs.Prelude.{◌≡◌, ◌↔◌, ℕ, ◌+◌, ◌<◌, ◌≤◌, length, None};
ghost use Rattle.sporadic_model.specs.SetDef.{SetDef, task_at, latest_bound};
ghost use Rattle.sporadic_model.specs.Refusals.{first_refusal};
ghost use Rattle.sporadic_model.specs.Accepted.{IsAccepted, IsFormed, IsWithinLimits};

use crate::limits::{
    MOST_COUNT, MOST_NAME, MOST_PROCESSORS, MOST_REQUESTS, MOST_RESOURCES, MOST_TASKS, MOST_TICKS,
};

/// No refusal of a task set is due if and only if all its sizes, names, numbers, entries and homes are in their ranges.
pub fn refusals_are_exact()
    ensures { (set : SetDef) → (first_refusal set ≡ None) ↔ IsAccepted set }
{}

/// A set is accepted exactly if it is well formed and within the upper limits.
pub fn accepted_sets_are_formed_and_within_limits()
    ensures { (set : SetDef) → IsAccepted set ↔ (IsFormed set × IsWithinLimits set) }
{}

/// Take a task of an accepted set. A response-time bound of it is at most the latest bound exactly if bound and jitter together are at most
/// the deadline.
pub fn latest_bounds_meet_deadlines()
    ensures { (set : SetDef) (x bound : ℕ) → IsAccepted set → x < length set.tasks
        → (bound ≤ latest_bound (task_at set x)) ↔ (bound + (task_at set x).jitter ≤ (task_at set x).deadline) }
{}

/// The limits that accepted sets keep, as numbers.
pub fn limits_are_fixed()
    ensures processors { MOST_PROCESSORS ≡ 64 }
    ensures tasks { MOST_TASKS ≡ 64 }
    ensures resources { MOST_RESOURCES ≡ 32 }
    ensures requests { MOST_REQUESTS ≡ 256 }
    ensures ticks { MOST_TICKS ≡ 1000000000 }
    ensures count { MOST_COUNT ≡ 1000 }
    ensures name { MOST_NAME ≡ 32 }
{}

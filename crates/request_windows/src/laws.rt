//! A law. It does nothing, and what it ensures holds for every set.

ghost use Rattle.std.specs.Prelude.{ℕ, ◌<◌, ◌≤◌, List, length};
ghost use Rattle.program_form.specs.Program.{height, columns};
ghost use Rattle.sporadic_model.specs.SetDef.{SetDef};
ghost use Rattle.sporadic_model.specs.Accepted.{IsAccepted};
ghost use Rattle.window_laws.specs.WindowRows.{windowed_program};

/// A program of an accepted set has at most three columns for each of 256 request entries, so at most 768. It has at most 702 rows. Of
/// requests and of windows there is one for each of these entries. Of time and of intervals there is one for each of 63 other tasks. Of
/// homes there is one for each of 64 processors.
pub fn programs_are_small()
    ensures columns { (set : SetDef) (i : ℕ) (r : List ℕ) → IsAccepted set → columns (windowed_program set i r) ≤ 768 }
    ensures rows { (set : SetDef) (i : ℕ) (r : List ℕ) → IsAccepted set → i < length set.tasks
        → height (windowed_program set i r) ≤ 702 }
{}

//! A law: it does nothing, and what it ensures holds for every set.

ghost use Rattle.std.specs.Prelude.{ℕ, ◌<◌, ◌≤◌, List, length};
ghost use Rattle.program_form.specs.Program.{height, columns};
ghost use Rattle.sporadic_model.specs.SetDef.{SetDef};
ghost use Rattle.sporadic_model.specs.Accepted.{IsAccepted};
ghost use Rattle.mpcp_window_laws.specs.WaitRows.{mpcp_closer_program};

/// A program of an accepted set has at most three columns for each of 256 request entries, so at most 768. And it has at most 1054 rows. Of
/// requests, of holdings by resource and of direct waits there is one for each of these entries. Of time, of shared holdings, of away
/// holdings and of shared intervals there is one for each of 63 other tasks. Of lower holders there is one for each of 32 resources. And
/// there are two more.
pub fn programs_are_small()
    ensures columns { (set : SetDef) (i : ℕ) (r : List ℕ) → IsAccepted set → columns (mpcp_closer_program set i r) ≤ 768 }
    ensures rows { (set : SetDef) (i : ℕ) (r : List ℕ) → IsAccepted set → i < length set.tasks
        → height (mpcp_closer_program set i r) ≤ 1054 }
{}

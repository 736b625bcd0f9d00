//! Laws. Each does nothing, and what it ensures holds for every schedule, or for every set.

ghost use Rattle.std.specs.Prelude.{ℕ, ◌<◌, ◌≤◌, List, length};
ghost use Rattle.program_form.specs.Program.{height, columns};
ghost use Rattle.sporadic_model.specs.SetDef.{SetDef};
ghost use Rattle.sporadic_model.specs.Accepted.{IsAccepted};
ghost use Rattle.schedule_model.specs.LawfulJobs.{AreLawfulJobs};
ghost use Rattle.schedule_model.specs.RowDef.{Trace, jobs_of};
ghost use Rattle.schedule_model.specs.Chosen.{IsSized};
ghost use Rattle.schedule_model.specs.Keeping.{KeepsBefore};
ghost use Rattle.spin_rules.specs.SpinRules.{spin_rule};
ghost use Rattle.spin_charging.specs.SpinPrograms.{spin_program};
ghost use Rattle.spin_protocol.specs.NextRow.{HasChoice};

/// After rows that keep the rules there is a row that can be chosen. So a lawful schedule never gets stuck.
pub fn each_lawful_schedule_has_a_next_row()
    ensures { (w : Trace) (t : ℕ) → IsAccepted w.set → AreLawfulJobs (jobs_of w)
        → ((u : ℕ) → u < t → IsSized w.set (w.row u)) → KeepsBefore spin_rule w t → HasChoice w t }
{}

/// A program of an accepted set has at most three columns for each of 256 request entries, so at most 768. It has at most 832 rows. Of
/// requests, of spinning and of own spinning there is one for each of these entries. Of time there is one for each of 63 other tasks. Of
/// lower requests there is one.
pub fn programs_are_small()
    ensures columns { (set : SetDef) (i : ℕ) (r : List ℕ) → IsAccepted set → columns (spin_program set i r) ≤ 768 }
    ensures rows { (set : SetDef) (i : ℕ) (r : List ℕ) → IsAccepted set → i < length set.tasks → height (spin_program set i r) ≤ 832 }
{}

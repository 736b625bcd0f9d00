//! Laws. Each does nothing, and what it ensures holds for every schedule, or for every set.

ghost use Rattle.std.specs.Prelude.{ℕ, ◌<◌, ◌≤◌, List, length};
ghost use Rattle.program_form.specs.Program.{height, columns};
ghost use Rattle.sporadic_model.specs.SetDef.{SetDef};
ghost use Rattle.sporadic_model.specs.Accepted.{IsAccepted};
ghost use Rattle.sporadic_model.specs.Homes.{EachHasHome};
ghost use Rattle.schedule_model.specs.LawfulJobs.{AreLawfulJobs};
ghost use Rattle.schedule_model.specs.RowDef.{Trace, jobs_of};
ghost use Rattle.schedule_model.specs.TakenRows.{CanBeTakenBefore};
ghost use Rattle.schedule_model.specs.Keeping.{KeepsBefore};
ghost use Rattle.schedule_model.specs.Chosen.{IsSized};
ghost use Rattle.dflp_laws.specs.Rules.{dflp_rule};
ghost use Rattle.dflp_laws.specs.Programs.{dflp_program};
ghost use Rattle.dflp_protocol.specs.NextRow.{HasChoice};

/// Take a schedule of lawful jobs of an accepted set in which each resource has a home. After rows that can be taken it has a row that the
/// protocol chooses. So each lawful schedule has a lawful next row. This is a law, and does nothing.
pub fn each_schedule_has_a_next_row()
    ensures taken { (w : Trace) (t : ℕ) → IsAccepted w.set → EachHasHome w.set → AreLawfulJobs (jobs_of w)
        → CanBeTakenBefore w t → HasChoice w t }
    ensures lawful { (w : Trace) (t : ℕ) → IsAccepted w.set → EachHasHome w.set → AreLawfulJobs (jobs_of w)
        → ((u : ℕ) → u < t → IsSized w.set (w.row u)) → KeepsBefore dflp_rule w t → HasChoice w t }
{}

/// A program of an accepted set has at most three columns for each of 256 request entries, so at most 768. It has at most 894 rows. Of
/// requests, of turns and of queues at homes there is one for each of these entries. Of time and of intervals there is one for each of 63
/// other tasks.
pub fn programs_are_small()
    ensures columns { (set : SetDef) (i : ℕ) (r : List ℕ) → IsAccepted set → columns (dflp_program set i r) ≤ 768 }
    ensures rows { (set : SetDef) (i : ℕ) (r : List ℕ) → IsAccepted set → i < length set.tasks → height (dflp_program set i r) ≤ 894 }
{}

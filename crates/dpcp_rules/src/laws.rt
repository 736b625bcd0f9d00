ghost use Rattle.std.specs.Prelude.{ℕ, ◌<◌};
ghost use Rattle.sporadic_model.specs.Accepted.{IsAccepted};
ghost use Rattle.sporadic_model.specs.Homes.{EachHasHome};
ghost use Rattle.schedule_model.specs.LawfulJobs.{AreLawfulJobs};
ghost use Rattle.schedule_model.specs.RowDef.{Trace, jobs_of};
ghost use Rattle.schedule_model.specs.TakenRows.{CanBeTakenBefore};
ghost use Rattle.schedule_model.specs.Protocols.{dpcp_rule};
ghost use Rattle.schedule_model.specs.Keeping.{KeepsBefore};
ghost use Rattle.schedule_model.specs.Chosen.{IsSized};
ghost use Rattle.dpcp_rules.specs.NextRow.{HasChoice};

/// Take a schedule of lawful jobs of an accepted set in which each resource has a home. After rows that can be taken it has a row that DPCP
/// chooses. So each lawful schedule has a lawful next row. This is a law, and does nothing.
pub fn each_schedule_has_a_next_row()
    ensures taken { (w : Trace) (t : ℕ) → IsAccepted w.set → EachHasHome w.set → AreLawfulJobs (jobs_of w)
        → CanBeTakenBefore w t → HasChoice w t }
    ensures lawful { (w : Trace) (t : ℕ) → IsAccepted w.set → EachHasHome w.set → AreLawfulJobs (jobs_of w)
        → ((u : ℕ) → u < t → IsSized w.set (w.row u)) → KeepsBefore dpcp_rule w t → HasChoice w t }
{}

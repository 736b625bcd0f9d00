ghost use Rattle.std.specs.Prelude.{ℕ};
ghost use Rattle.sporadic_model.specs.Accepted.{IsAccepted};
ghost use Rattle.schedule_model.specs.LawfulJobs.{AreLawfulJobs};
ghost use Rattle.schedule_model.specs.RowDef.{Trace, jobs_of};
ghost use Rattle.schedule_model.specs.Ranks.{mpcp, fmlp_plus};
ghost use Rattle.shared_choosing.specs.NextRow.{HasChoice};

/// Take a schedule of lawful jobs of an accepted set. After the rows before any tick it has a row that MPCP chooses, and one that FMLP+
/// chooses. So each lawful schedule has a lawful next row. This is a law, and does nothing.
pub fn each_schedule_has_a_next_row()
    ensures mpcp { (w : Trace) (t : ℕ) → IsAccepted w.set → AreLawfulJobs (jobs_of w) → HasChoice mpcp w t }
    ensures fmlp_plus { (w : Trace) (t : ℕ) → IsAccepted w.set → AreLawfulJobs (jobs_of w) → HasChoice fmlp_plus w t }
{}

ghost use Rattle.std.specs.Prelude.{◌≡◌, ℕ, ◌<◌, ◌↔◌};
ghost use Rattle.sporadic_model.specs.Accepted.{IsAccepted};
ghost use Rattle.schedule_model.specs.LawfulJobs.{AreLawfulJobs};
ghost use Rattle.schedule_model.specs.RowDef.{RowDef, Trace, jobs_of};
ghost use Rattle.schedule_model.specs.TakenRows.{CanBeTaken, CanBeTakenBefore};
ghost use Rattle.phase_machine.specs.MachineDef.{MachineDef, under};
ghost use Rattle.phase_machine.specs.Taking.{CanTake};
ghost use Rattle.phase_machine.specs.Shows.{Shows, Shown, AnswersAsDefined};

/// A machine's answers are those of the definitions, for each schedule that it shows, at its tick. Which jobs are ready and which wait
/// depends on the holders of the row before. This is a law, and does nothing.
pub fn machines_show_the_definitions()
    ensures { (m : MachineDef) (rows : ℕ → RowDef) → Shows m rows → AnswersAsDefined m (under m rows) }
{}

/// A machine can take a row exactly if the row is possible at that tick, in each schedule that the machine shows and that has the row. This
/// is a law, and does nothing.
pub fn machines_take_what_can_be_taken()
    ensures { (m : MachineDef) (rows : ℕ → RowDef) → Shows m rows
        → CanTake m (rows m.tick) ↔ CanBeTaken (under m rows) m.tick }
{}

/// Which schedules a machine shows depends only on their rows before its tick. This is a law, and does nothing.
pub fn machines_read_earlier_rows()
    ensures { (m : MachineDef) (rows more : ℕ → RowDef) → ((t : ℕ) → t < m.tick → rows t ≡ more t) → Shows m rows → Shows m more }
{}

/// For each schedule of lawful jobs of an accepted set there is a machine that shows it, as far as its rows can be taken. This is a law,
/// and does nothing.
pub fn each_schedule_is_shown()
    ensures { (w : Trace) (n : ℕ) → IsAccepted w.set → AreLawfulJobs (jobs_of w) → CanBeTakenBefore w n → Shown w n }
{}

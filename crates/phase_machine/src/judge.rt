ghost use Rattle.std.specs.Prelude.{◌≡◌, ℕ, ◌<◌, length};
ghost use Rattle.schedule_model.specs.RowDef.{RowDef};
ghost use Rattle.schedule_model.specs.Chosen.{IsSized};
ghost use Rattle.schedule_model.specs.Keeping.{KeepsRow, KeepsBefore};
ghost use Rattle.schedule_model.specs.BlockedTicks.{is_blocked};
ghost use Rattle.schedule_model.specs.Seen.{row_seen};
ghost use Rattle.schedule_laws.specs.Agreement.{RulesReadUpTo, ChoiceReadsUpTo, TicksReadUpTo};
ghost use Rattle.schedule_laws.specs.Steady.{StaysLawful};
ghost use Rattle.phase_machine.specs.MachineDef.{under};
ghost use Rattle.phase_machine.specs.Shows.{Shows};
ghost use Rattle.phase_machine.specs.Taking.{IsRowFor};
ghost use Rattle.phase_machine.specs.Judged.{Judged};

use crate::machine::Machine;
use schedule_model::{BlockingProtocol, JobId, Row, Rule};

/// A locking protocol that judges schedules row by row, with a machine that is at the row's tick. Each clause holds for every schedule that
/// the machine shows and that has the row there.
pub trait Judge: BlockingProtocol {
    /// Ok if the row keeps all five rules. Else the first rule that it breaks, in the order of [`Rule`].
    fn judge(&self, machine: &Machine, row: &Row) -> Result<(), Rule>
        requires suits { Self.suits self.now machine.now.list.set }
        requires fits { IsRowFor machine.now.list (row_seen row.now) }
        ensures { (rows : ℕ → RowDef) → Shows machine.now rows → rows machine.now.tick ≡ row_seen row.now
            → Judged (Self.keeps self.now) (under machine.now rows) machine.now.tick result };

    /// Makes the lent row the chosen one, after rows that keep the rules. Its sizes stay.
    fn choose(&self, machine: &Machine, row: &mut Row)
        requires suits { Self.suits self.now machine.now.list.set }
        requires sized { IsSized machine.now.list.set (row_seen row.old) }
        ensures sized { IsSized machine.now.list.set (row_seen row.new) }
        ensures chosen { (rows : ℕ → RowDef) → Shows machine.now rows → rows machine.now.tick ≡ row_seen row.new
            → KeepsBefore (Self.keeps self.now) (under machine.now rows) machine.now.tick
            → Self.chooses self.now (under machine.now rows) machine.now.tick };

    /// In a row that keeps the rules: is this tick blocked for the job?
    fn blocked(&self, machine: &Machine, row: &Row, j: JobId) -> bool
        requires suits { Self.suits self.now machine.now.list.set }
        requires fits { IsRowFor machine.now.list (row_seen row.now) }
        requires listed { j.0 < length machine.now.list.jobs }
        ensures { (rows : ℕ → RowDef) → Shows machine.now rows → rows machine.now.tick ≡ row_seen row.now
            → KeepsRow (Self.keeps self.now) (under machine.now rows) machine.now.tick
            → result ≡ is_blocked (Self.interferes self.now) (under machine.now rows) machine.now.tick j.0 };

    /// Whether a row keeps a rule depends only on the rows up to it.
    ghost rules_read: { (p : Self) → RulesReadUpTo (Self.keeps p) };

    /// Whether a row is the chosen one depends only on the rows up to it.
    ghost choice_reads: { (p : Self) → ChoiceReadsUpTo (Self.chooses p) };

    /// What a tick is for a job depends only on the rows up to it.
    ghost ticks_read: { (p : Self) → TicksReadUpTo (Self.interferes p) };

    /// Take a steady stretch, in which no phase of a running job ends and no job is released. If its first row keeps the rules, each of its
    /// rows does, and the same jobs are blocked in each. If its first row is the chosen one, each of its rows is.
    ghost stays_lawful: { (p : Self) → StaysLawful (Self.suits p) (Self.keeps p) (Self.chooses p) (Self.interferes p) };
}

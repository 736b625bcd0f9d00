ghost use Rattle.std.specs.Prelude.{ℕ, ◌+◌, ◌≤◌, OnOk};
ghost use Rattle.sporadic_model.specs.SetDef.{SetDef};
ghost use Rattle.schedule_model.specs.RowDef.{Trace, row_in};
ghost use Rattle.phase_machine.specs.MachineDef.{MachineDef, under};
ghost use Rattle.trace_walk.specs.NextStretch.{IsNextStretch};

use phase_machine::{Judge, Machine};
use schedule_model::RowReader;
use std::alloc::AllocError;

/// Something that keeps notes of a schedule while it is walked, for a protocol that judges the schedule.
pub trait Keeper<P: Judge> {
    /// What it keeps of the ticks so far.
    type Notes;

    /// Can it keep notes of schedules for this set?
    ghost fits: { Self → SetDef → Type 0 };

    /// Are these the notes of this many first ticks of a schedule?
    ghost kept: { Self → P → Trace → ℕ → Self.Notes → Type 0 };

    /// Can it take this many ticks at once, from the machine's tick on, if they are a steady stretch?
    ghost spans: { Self → MachineDef → ℕ → Type 0 };

    /// How many of the next ticks it takes at once, if this many are a steady stretch. It is at least one, and it can take any fewer too.
    fn span(&self, machine: &Machine, ticks: u64) -> u64
        requires fits { fits self.now machine.now.list.set }
        ensures some { 1 ≤ ticks → 1 ≤ result }
        ensures most { result ≤ ticks }
        ensures spans { (n : ℕ) → n ≤ result → spans self.now machine.now n };

    /// Takes this many more ticks into the notes. They are a steady stretch of the run at which the reader is, they come next for the
    /// machine, and their rows keep the rules. It fails only for want of memory.
    fn take<R: RowReader>(
        &self,
        protocol: &P,
        rows: &R,
        machine: &Machine,
        ticks: u64,
        notes: &mut Self::Notes,
    ) -> Result<(), AllocError>
        requires suits { P.suits protocol.now machine.now.list.set }
        requires fits { fits self.now machine.now.list.set }
        requires stretch { IsNextStretch (P.keeps protocol.now) (R.rows rows.now) (R.at rows.now) machine.now ticks }
        requires spans { spans self.now machine.now ticks }
        requires kept { kept self.now protocol.now (under machine.now (row_in (R.rows rows.now).runs)) machine.now.tick notes.old }
        ensures { OnOk result (kept self.now protocol.now (under machine.now (row_in (R.rows rows.now).runs)) (machine.now.tick + ticks) notes.new) };
}

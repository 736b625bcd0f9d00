ghost use Rattle.std.specs.Prelude.{ℕ, OnOk};
ghost use Rattle.schedule_model.specs.RowDef.{RowDef};
ghost use Rattle.schedule_model.specs.Seen.{row_seen, run_seen};
ghost use Rattle.sim_engine.specs.Choosing.{AreChosenSoFar, CanChoose, TakesChosen, IsLater};
ghost use Rattle.sim_engine.specs.Writing.{IsUnderWay};

use crate::writing::add_rows;
use phase_machine::{Judge, Machine};
use schedule_model::{Row, RowList, RowRun};
use std::alloc::{AllocError, Global};

/// Makes the lent row the next one that the protocol chooses. The machine takes it through the steady stretch that it begins, as far as the
/// stretch is before tick `end`. Answers how many ticks these were.
pub(crate) fn next_rows<P: Judge>(
    protocol: &P,
    machine: &mut Machine,
    row: &mut Row,
    end: u64,
) -> u64
    requires can { CanChoose (P.suits protocol.now) machine.old (row_seen row.old) end }
    requires reached { (rows : ℕ → RowDef) × AreChosenSoFar (P.chooses protocol.now) rows machine.old }
    ensures { TakesChosen (P.chooses protocol.now) machine.old machine.new (row_seen row.new) end result }
{
    protocol.choose(machine, row);
    let ticks = machine.steady(row).min(end - machine.tick());
    machine.advance_by(row, ticks);
    ticks
}

/// Chooses the row of the next tick, and writes it for as many ticks before `end` as it surely stays the chosen one.
pub(crate) fn take_stretch<P: Judge>(
    alloc: Global,
    protocol: &P,
    machine: &mut Machine,
    row: &mut Row,
    rows: &mut RowList,
    last: &mut RowRun,
    end: u64,
) -> Result<(), AllocError>
    requires can { CanChoose (P.suits protocol.now) machine.old (row_seen row.old) end }
    requires under_way { IsUnderWay (P.chooses protocol.now) machine.old rows.old (run_seen last.old) }
    ensures later { IsLater machine.old machine.new (row_seen row.new) end }
    ensures under_way { OnOk result (IsUnderWay (P.chooses protocol.now) machine.new rows.new (run_seen last.new)) }
{
    let ticks = next_rows(protocol, machine, row, end);
    add_rows(alloc, rows, last, row, ticks)
}

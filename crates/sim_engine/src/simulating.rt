ghost use Rattle.std.specs.Prelude.{◌≡◌, ℕ, ◌≤◌, true, IfOk};
ghost use Rattle.sporadic_model.specs.declared.limits.TheConstants.{MOST_TICKS};
ghost use Rattle.schedule_model.specs.RowDef.{trace_in, ticks_of};
ghost use Rattle.schedule_model.specs.Fitting.{is_fitting};
ghost use Rattle.schedule_model.specs.Keeping.{KeepsBefore, IsFirstUnlawful};
ghost use Rattle.schedule_model.specs.declared.rule.Rule.{Rule};
ghost use Rattle.sim_engine.specs.Simulated.{IsSimulated};

use crate::choosing::{next_rows, take_stretch};
use crate::places::{copy_of, idle_row};
use crate::writing::push_run;
use phase_machine::{Judge, Machine};
use schedule_model::{JobList, RowList, RowRun};
use std::alloc::{AllocError, Global};

/// The schedule of this many ticks, from 1 to 10^9, in which each row is the one that the protocol chooses after the rows before it. Equal
/// rows one after the other are one run. The list keeps the rules, so none of its rows breaks one, and it fits the jobs. It fails only for
/// want of memory.
pub fn simulate_with<P: Judge>(
    alloc: Global,
    protocol: &P,
    jobs: &JobList,
    ticks: u64,
) -> Result<RowList, AllocError>
    requires suits { P.suits protocol.now jobs.now.set }
    requires some { 1 ≤ ticks }
    requires most { ticks ≤ MOST_TICKS }
    ensures simulated { IfOk result (λ rows. IsSimulated (P.chooses protocol.now) jobs.now ticks rows.runs) }
    ensures keeps { IfOk result (λ rows. KeepsBefore (P.keeps protocol.now) (trace_in jobs.now rows.runs) ticks) }
    ensures unbroken { IfOk result (λ rows. (t : ℕ) (r : Rule)
        → IsFirstUnlawful (P.keeps protocol.now) (trace_in jobs.now rows.runs) (ticks_of rows.runs) t r → ⊥) }
    ensures fits { IfOk result (λ rows. is_fitting rows jobs.now ≡ true) }
{
    let mut machine = Machine::new(alloc, jobs)?;
    let mut row = idle_row(alloc, jobs)?;
    let first = next_rows(protocol, &mut machine, &mut row, ticks);
    let mut rows = RowList::new(alloc, jobs);
    let mut last = RowRun {
        ticks: first,
        row: copy_of(alloc, &row)?,
    };
    while machine.tick() < ticks {
        take_stretch(
            alloc,
            protocol,
            &mut machine,
            &mut row,
            &mut rows,
            &mut last,
            ticks,
        )?;
    }
    push_run(&mut rows, last)?;
    Ok(rows)
}

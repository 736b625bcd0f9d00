ghost use Rattle.std.specs.Prelude.{◌≡◌, ◌+◌, true};
ghost use Rattle.schedule_model.specs.RowDef.{trace_in, ticks_of};
ghost use Rattle.schedule_model.specs.Fitting.{is_fitting};
ghost use Rattle.trace_walk.specs.Runs.{ticks_before};
ghost use Rattle.trace_walk.specs.Reached.{WalksSome, WalksTo};
ghost use Rattle.trace_walk.specs.Given.{CanWalkStretch, CanWalkRun, CanWalkAll};
ghost use Rattle.trace_walk.specs.Walked.{Walks};

use crate::keeper::Keeper;
use phase_machine::{Judge, Machine};
use schedule_answers::{Breach, Unlawful};
use schedule_model::{JobList, RowReader};
use std::alloc::Global;

/// Judges the row of the reader's run, of which this many ticks are left. Takes the ticks of the steady stretch that it begins, as far as
/// they are of this run and the keeper takes them at once. Answers how many these were.
fn walk_stretch<P: Judge, K: Keeper<P>, R: RowReader>(
    protocol: &P,
    rows: &R,
    left: u64,
    machine: &mut Machine,
    keeper: &K,
    notes: &mut K::Notes,
) -> Result<u64, Unlawful>
    requires { CanWalkStretch (P.suits protocol.now) (K.fits keeper.now) (P.keeps protocol.now) (K.kept keeper.now protocol.now)
        (R.rows rows.now) (R.at rows.now) left machine.old notes.old }
    ensures { WalksSome (P.keeps protocol.now) (K.kept keeper.now protocol.now) (R.rows rows.now) left machine.old machine.new notes.new result }
{
    let row = &rows.run().row;
    let tick = machine.tick();
    match protocol.judge(machine, row) {
        Ok(()) => {}
        Err(rule) => return Err(Unlawful::Broken(Breach { tick, rule })),
    }
    let ticks = keeper.span(machine, machine.steady(row).min(left));
    keeper.take(protocol, rows, machine, ticks, notes)?;
    machine.advance_by(row, ticks);
    Ok(ticks)
}

/// Judges each row of the reader's run, and takes it, one steady stretch after the other.
fn walk_run<P: Judge, K: Keeper<P>, R: RowReader>(
    protocol: &P,
    rows: &R,
    machine: &mut Machine,
    keeper: &K,
    notes: &mut K::Notes,
) -> Result<(), Unlawful>
    requires { CanWalkRun (P.suits protocol.now) (K.fits keeper.now) (P.keeps protocol.now) (K.kept keeper.now protocol.now)
        (R.rows rows.now) (R.at rows.now) machine.old notes.old }
    ensures { WalksTo (P.keeps protocol.now) (K.kept keeper.now protocol.now) (R.rows rows.now) (ticks_before (R.rows rows.now).runs (R.at rows.now + 1))
        machine.old machine.new notes.new result }
{
    let mut left = rows.run().ticks;
    while left > 0 {
        left -= walk_stretch(protocol, rows, left, machine, keeper, notes)?;
    }
    Ok(())
}

/// Judges all rows and takes them, up to the first that breaks a rule.
fn walk_all<P: Judge, K: Keeper<P>, R: RowReader>(
    protocol: &P,
    rows: &mut R,
    machine: &mut Machine,
    keeper: &K,
    notes: &mut K::Notes,
) -> Result<(), Unlawful>
    requires { CanWalkAll (P.suits protocol.now) (K.fits keeper.now) (P.keeps protocol.now) (K.kept keeper.now protocol.now)
        (R.rows rows.old) (R.at rows.old) machine.old notes.old }
    ensures { WalksTo (P.keeps protocol.now) (K.kept keeper.now protocol.now) (R.rows rows.old) (ticks_of (R.rows rows.old).runs)
        machine.old machine.new notes.new result }
{
    'runs: while rows.is_at_run() {
        walk_run(protocol, rows, machine, keeper, notes)?;
        rows.step()?;
    }
    Ok(())
}

/// Judges each row by the protocol's rules, and keeps what the keeper keeps. It is Ok, with the machine that has taken all rows, exactly if
/// every row keeps all five rules and there was enough memory. Else it names the first row that breaks a rule. You give a reader at the
/// first run, and the notes of no ticks.
pub fn walk<'a, P: Judge, K: Keeper<P>, R: RowReader>(
    alloc: Global,
    protocol: &P,
    jobs: &'a JobList<'a>,
    rows: &mut R,
    keeper: &K,
    notes: &mut K::Notes,
) -> Result<Machine<'a>, Unlawful>
    requires suits { P.suits protocol.now jobs.now.set }
    requires keeper { K.fits keeper.now jobs.now.set }
    requires fits { is_fitting (R.rows rows.old) jobs.now ≡ true }
    requires start { R.at rows.old ≡ 0 }
    requires first { K.kept keeper.now protocol.now (trace_in jobs.now (R.rows rows.old).runs) 0 notes.old }
    ensures { Walks (P.keeps protocol.now) (K.kept keeper.now protocol.now) jobs.now (R.rows rows.old).runs notes.new result }
{
    rows.keeps_its_rules();
    let mut machine = Machine::new(alloc, jobs)?;
    walk_all(protocol, rows, &mut machine, keeper, notes)?;
    Ok(machine)
}

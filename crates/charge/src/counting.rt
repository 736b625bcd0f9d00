ghost use Rattle.std.specs.Prelude.{◌≡◌, ◌+◌, ◌<◌, length, option_map, OnOk};
ghost use Rattle.phase_machine.specs.Now.{phase_now};
ghost use Rattle.blocking_columns.specs.declared.columns.Class.{Class as ClassDef};
ghost use Rattle.charge_laws.specs.Charges.{Charge};
ghost use Rattle.charge.specs.Requests.{request_in};
ghost use Rattle.charge.specs.Tally.{place_of};
ghost use Rattle.charge.specs.Given.{CanCharge};
ghost use Rattle.charge.specs.Counting.{place_now, place_of_task, CountsUntil, AreCountedAtOnce};

use crate::due::end_of;
use crate::tally::{ChargePlace, add_named};
use blocking_columns::Class;
use charged_protocols::ChargedProtocol;
use phase_machine::lookup::tasks_of;
use phase_machine::{Machine, Phase};
use schedule_model::{JobId, RowReader};
use sporadic_model::TaskId;
use std::alloc::AllocError;
use std::collections::BTreeMap;

/// The place of the blocker's request in the table.
fn place_of(machine: &Machine, j: JobId, y: JobId, class: Class) -> Option<ChargePlace>
    requires { y.0 < length machine.now.list.jobs }
    ensures { result ≡ option_map (place_of j.0) (request_in (record { job = y.0; class = class }) (phase_now machine.now y.0)) }
{
    match machine.phase(y) {
        Phase::Asking(n, q) => Some(ChargePlace {
            blocked: j.0,
            blocker: y.0,
            request: n,
            resource: q.0,
            class,
        }),
        Phase::Local => None,
        Phase::Finished => None,
    }
}

/// The place to which the tick at the machine's position is counted for the job, in a row that keeps the rules. None if the job isn't
/// blocked, or its window has ended.
fn place_at<P: ChargedProtocol, R: RowReader>(
    protocol: &P,
    rows: &R,
    machine: &Machine,
    bounds: &[u64],
    j: JobId,
) -> Option<ChargePlace>
    requires at { CanCharge (P.suits protocol.now) (P.keeps protocol.now) (R.rows rows.now) (R.at rows.now) machine.now bounds.now }
    requires listed { j.0 < length machine.now.list.jobs }
    ensures { result ≡ place_now (P.charges protocol.now) (R.rows rows.now) machine.now bounds.now j.0 }
{
    if machine.tick() >= end_of(machine, bounds, j) {
        return None;
    }
    match protocol.charged(machine, &rows.run().row, j) {
        Some((y, class)) => place_of(machine, j, y, class),
        None => None,
    }
}

/// The same for the task's active job, if it has one.
fn place_in<P: ChargedProtocol, R: RowReader>(
    protocol: &P,
    rows: &R,
    machine: &Machine,
    bounds: &[u64],
    x: TaskId,
) -> Option<ChargePlace>
    requires at { CanCharge (P.suits protocol.now) (P.keeps protocol.now) (R.rows rows.now) (R.at rows.now) machine.now bounds.now }
    requires task { x.0 < length machine.now.list.set.tasks }
    ensures { result ≡ place_of_task (P.charges protocol.now) (R.rows rows.now) machine.now bounds.now x.0 }
{
    match machine.current(x) {
        Some(j) => place_at(protocol, rows, machine, bounds, j),
        None => None,
    }
}

/// Counts this many ticks like the one at the machine's position, in a row that keeps the rules. At most one job of each task is active,
/// and no other job is blocked.
pub(crate) fn charge_ticks<P: ChargedProtocol, R: RowReader>(
    protocol: &P,
    rows: &R,
    machine: &Machine,
    bounds: &[u64],
    more: u64,
    ticks: &mut BTreeMap<ChargePlace, u64>,
) -> Result<(), AllocError>
    requires at { CanCharge (P.suits protocol.now) (P.keeps protocol.now) (R.rows rows.now) (R.at rows.now) machine.now bounds.now }
    requires next { AreCountedAtOnce (P.charges protocol.now) (R.rows rows.now) machine.now bounds.now more }
    requires counted { CountsUntil (P.charges protocol.now) (R.rows rows.now) machine.now bounds.now ticks.old machine.now.tick }
    ensures { OnOk result (CountsUntil (P.charges protocol.now) (R.rows rows.now) machine.now bounds.now ticks.new (machine.now.tick + more)) }
{
    for x in 0..tasks_of(machine) {
        add_named(
            ticks,
            place_in(protocol, rows, machine, bounds, TaskId(x)),
            more,
        )?;
    }
    Ok(())
}

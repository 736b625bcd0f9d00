ghost use Rattle.std.specs.Prelude.{◌≡◌, ℕ, ◌<◌, length, IfSome};
ghost use Rattle.schedule_model.specs.RowDef.{RowDef};
ghost use Rattle.schedule_model.specs.SharedRules.{KeepsRun};
ghost use Rattle.schedule_model.specs.Seen.{row_seen, place_seen};
ghost use Rattle.phase_machine.specs.MachineDef.{under};
ghost use Rattle.phase_machine.specs.Shows.{Shows};
ghost use Rattle.phase_machine.specs.Taking.{IsRowFor};
ghost use Rattle.blocking_columns.specs.declared.columns.Class.{Class as ClassDef};
ghost use Rattle.charge_laws.specs.Charges.{charge_to, shared_charge};
ghost use Rattle.charged_protocols.specs.Seen.{charge_seen};
ghost use Rattle.charged_protocols.specs.Given.{AreRowAndJob, IsChargeNow};
ghost use Rattle.charged_protocols.specs.ChargeNow.{holder_charge_now, waiting_charge_now, shared_charge_now};

use blocking_columns::Class;
use phase_machine::lookup::{holder_at, may_run, running_beside};
use phase_machine::{Machine, Phase};
use schedule_model::{JobId, Row};
use shared_rules::blocked_shared;

/// The charge to this job, if there is one, with this class.
pub fn charge_to(class: Class, named: Option<JobId>) -> Option<(JobId, Class)>
    ensures { charge_seen result ≡ charge_to class (place_seen named) }
{
    match named {
        Some(y) => Some((y, class)),
        None => None,
    }
}

/// The charge of a job that waits for a resource that `y` holds: `y` if it runs, and else the job that runs on its processor.
fn charge_by_holder(machine: &Machine, row: &Row, y: JobId) -> Option<(JobId, Class)>
    requires { AreRowAndJob machine.now.list (row_seen row.now) y.0 }
    ensures { IsChargeNow machine.now (holder_charge_now machine.now (row_seen row.now) y.0) result }
{
    let running = running_beside(machine, row, y);
    if running == Some(y) {
        return Some((y, Class::Direct));
    }
    charge_to(Class::Indirect, running)
}

/// The charge of a job that isn't ready: by the holder of the resource that it requests.
fn charge_of_waiting(machine: &Machine, row: &Row, j: JobId) -> Option<(JobId, Class)>
    requires { AreRowAndJob machine.now.list (row_seen row.now) j.0 }
    ensures { IsChargeNow machine.now (waiting_charge_now machine.now (row_seen row.now) j.0) result }
{
    match machine.phase(j) {
        Phase::Asking(_, q) => match holder_at(machine, row, q) {
            Some(y) => charge_by_holder(machine, row, y),
            None => None,
        },
        Phase::Local => None,
        Phase::Finished => None,
    }
}

/// The charge of a blocked job.
fn charge_of_blocked(machine: &Machine, row: &Row, j: JobId) -> Option<(JobId, Class)>
    requires { AreRowAndJob machine.now.list (row_seen row.now) j.0 }
    ensures { IsChargeNow machine.now (shared_charge_now machine.now (row_seen row.now) j.0) result }
{
    if may_run(machine, &row.holders, j) {
        return charge_to(Class::Preemption, running_beside(machine, row, j));
    }
    charge_of_waiting(machine, row, j)
}

/// The charge of the tick for the job, if requests run on their own task's processor.
pub fn charged_shared(machine: &Machine, row: &Row, j: JobId) -> Option<(JobId, Class)>
    requires fits { IsRowFor machine.now.list (row_seen row.now) }
    requires listed { j.0 < length machine.now.list.jobs }
    ensures value { (rows : ℕ → RowDef) → Shows machine.now rows → rows machine.now.tick ≡ row_seen row.now
        → KeepsRun (under machine.now rows) machine.now.tick
        → charge_seen result ≡ shared_charge (under machine.now rows) machine.now.tick j.0 }
    ensures listed { IfSome result (λ c. c.0.0 < length machine.now.list.jobs) }
{
    if blocked_shared(machine, row, j) {
        return charge_of_blocked(machine, row, j);
    }
    None
}

ghost use Rattle.std.specs.Prelude.{◌≡◌, ℕ, ◌<◌, length, IfSome};
ghost use Rattle.sporadic_model.specs.Homes.{EachHasHome};
ghost use Rattle.schedule_model.specs.RowDef.{RowDef};
ghost use Rattle.schedule_model.specs.DpcpRules.{KeepsRun};
ghost use Rattle.schedule_model.specs.Seen.{row_seen};
ghost use Rattle.phase_machine.specs.MachineDef.{under};
ghost use Rattle.phase_machine.specs.Now.{phase_now};
ghost use Rattle.phase_machine.specs.Shows.{Shows};
ghost use Rattle.phase_machine.specs.Taking.{IsRowFor};
ghost use Rattle.charge_laws.specs.Charges.{class_at_home, dpcp_charge};
ghost use Rattle.charged_protocols.specs.Seen.{charge_seen};
ghost use Rattle.charged_protocols.specs.Given.{AreRowAndHomes, IsChargeNow};
ghost use Rattle.charged_protocols.specs.ChargeNow.{home_charge_now, dpcp_charge_now};

use crate::shared::charge_to;
use blocking_columns::Class;
use dpcp_rules::blocking::blocked;
use dpcp_rules::lookup::home_of;
use phase_machine::lookup::{column_at, running_beside};
use phase_machine::{Machine, Phase};
use schedule_model::{JobId, Row};
use sporadic_model::ResourceId;

/// Direct if the job is in a request of the resource, and else indirect.
fn class_at_home(machine: &Machine, q: ResourceId, y: JobId) -> Class
    requires { y.0 < length machine.now.list.jobs }
    ensures { result ≡ class_at_home q.0 (phase_now machine.now y.0) }
{
    match machine.phase(y) {
        Phase::Asking(_, r) if r == q => Class::Direct,
        _ => Class::Indirect,
    }
}

/// The charge of a job in a request of the resource: to the job that runs on the resource's home.
fn charge_at_home(machine: &Machine, row: &Row, q: ResourceId) -> Option<(JobId, Class)>
    requires { AreRowAndHomes machine.now.list (row_seen row.now) q.0 }
    ensures { IsChargeNow machine.now (home_charge_now machine.now (row_seen row.now) q.0) result }
{
    match column_at(machine, row, home_of(machine, q) as usize - 1) {
        Some(y) => Some((y, class_at_home(machine, q, y))),
        None => None,
    }
}

/// The charge of a blocked job, if requests run on their resource's home.
pub fn charge_of_blocked(machine: &Machine, row: &Row, j: JobId) -> Option<(JobId, Class)>
    requires suits { EachHasHome machine.now.list.set }
    requires fits { IsRowFor machine.now.list (row_seen row.now) }
    requires listed { j.0 < length machine.now.list.jobs }
    ensures value { charge_seen result ≡ dpcp_charge_now machine.now (row_seen row.now) j.0 }
    ensures listed { IfSome result (λ c. c.0.0 < length machine.now.list.jobs) }
{
    match machine.phase(j) {
        Phase::Local => charge_to(Class::Preemption, running_beside(machine, row, j)),
        Phase::Asking(_, q) => charge_at_home(machine, row, q),
        Phase::Finished => None,
    }
}

/// The charge of the tick for the job, in a row that keeps Run, if requests run on their resource's home.
pub fn charged_distributed(machine: &Machine, row: &Row, j: JobId) -> Option<(JobId, Class)>
    requires suits { EachHasHome machine.now.list.set }
    requires fits { IsRowFor machine.now.list (row_seen row.now) }
    requires listed { j.0 < length machine.now.list.jobs }
    ensures value { (rows : ℕ → RowDef) → Shows machine.now rows → rows machine.now.tick ≡ row_seen row.now
        → KeepsRun (under machine.now rows) machine.now.tick
        → charge_seen result ≡ dpcp_charge (under machine.now rows) machine.now.tick j.0 }
    ensures listed { IfSome result (λ c. c.0.0 < length machine.now.list.jobs) }
{
    if blocked(machine, row, j) {
        return charge_of_blocked(machine, row, j);
    }
    None
}

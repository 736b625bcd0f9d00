//! The charge of a tick.

ghost use Rattle.std.specs.Prelude.{◌≡◌, ◌<◌, length};
ghost use Rattle.std.proofs.Props.{props};
ghost use Rattle.schedule_model.specs.Seen.{row_seen};
ghost use Rattle.phase_machine.specs.Taking.{IsRowFor};
ghost use Rattle.phase_machine.specs.Given.{NamesJob};
ghost use Rattle.spin_protocol.specs.Charged.{IsSpinCharge};
ghost use Rattle.spin_protocol.specs.SpinChargeNow.{Names, is_spinning_task_now, spinner_now};
ghost use Rattle.spin_protocol.specs.SpinChargeNow.{class_of_spinner, spinner_charge_now, beside_charge_now};

use crate::judging::spins;
use charged_protocols::shared::charge_to;
use fragments::Class;
use phase_machine::lookup::{holder_at, processor_of, running_beside, tasks_of};
use phase_machine::{Machine, Phase};
use schedule_model::{JobId, Row};
use shared_rules::blocked_shared;
use sporadic_model::TaskId;

/// A tick: the machine before it, and a row for it.
#[derive(Drop)]
pub(crate) struct Tick<'a> {
    pub(crate) machine: &'a Machine<'a>,
    pub(crate) row: &'a Row,
    ghost fits: { IsRowFor machine.now.list (row_seen row.now) } by { Prim.hlevel props },
}

/// Is it a task of the processor whose active job spins?
fn is_spinning_task(tick: &Tick, processor: u32, x: TaskId) -> bool
    requires { x.0 < length tick.now.machine.now.list.set.tasks }
    ensures { result ≡ is_spinning_task_now tick.now.machine.now (row_seen tick.now.row.now) processor x.0 }
{
    if tick.machine.jobs().set().processor(x) != processor {
        return false;
    }
    match tick.machine.current(x) {
        Some(s) => spins(tick.machine, &tick.row.holders, s),
        None => false,
    }
}

/// The job of the processor's tasks that spins. The search begins with the highest task.
#[tactic(auto, unfolding(crate::specs::SpinChargeNow::spinner_now))]
fn spinner(tick: &Tick, processor: u32) -> Option<JobId>
    ensures { NamesJob tick.now.machine.now.list (spinner_now tick.now.machine.now (row_seen tick.now.row.now) processor) result }
{
    for x in 0..tasks_of(tick.machine) {
        if is_spinning_task(tick, processor, TaskId(x)) {
            return tick.machine.current(TaskId(x));
        }
    }
    None
}

/// Direct if the job spins itself, and else indirect.
fn class_of_spinner(j: JobId, s: JobId) -> Class
    ensures { result ≡ class_of_spinner j.0 s.0 }
{
    if s == j {
        Class::Direct
    } else {
        Class::Indirect
    }
}

/// The charge for a job while `s` spins on its processor: the holder of the resource for which `s` spins.
fn charge_by_spinner(tick: &Tick, j: JobId, s: JobId) -> Option<(JobId, Class)>
    requires { s.0 < length tick.now.machine.now.list.jobs }
    ensures { Names tick.now.machine.now.list (spinner_charge_now tick.now.machine.now (row_seen tick.now.row.now) j.0 s.0) result }
{
    match tick.machine.phase(s) {
        Phase::Asking(_, q) => charge_to(
            class_of_spinner(j, s),
            holder_at(tick.machine, tick.row, q),
        ),
        Phase::Local => None,
        Phase::Finished => None,
    }
}

/// The charge of a blocked job: what runs on its processor, or the request for which a job there spins.
fn charge_beside(tick: &Tick, j: JobId) -> Option<(JobId, Class)>
    requires { j.0 < length tick.now.machine.now.list.jobs }
    ensures { Names tick.now.machine.now.list (beside_charge_now tick.now.machine.now (row_seen tick.now.row.now) j.0) result }
{
    match running_beside(tick.machine, tick.row, j) {
        Some(r) => Some((r, Class::Preemption)),
        None => match spinner(tick, processor_of(tick.machine, j)) {
            Some(s) => charge_by_spinner(tick, j, s),
            None => None,
        },
    }
}

/// The charge of the tick for the job.
pub(crate) fn charged_spin(tick: &Tick, j: JobId) -> Option<(JobId, Class)>
    requires { j.0 < length tick.now.machine.now.list.jobs }
    ensures { IsSpinCharge tick.now.machine.now (row_seen tick.now.row.now) j.0 result }
{
    if blocked_shared(tick.machine, tick.row, j) {
        return charge_beside(tick, j);
    }
    None
}

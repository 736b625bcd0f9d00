ghost use Rattle.std.specs.Prelude.{◌≡◌, ℕ, ◌<◌, length};
ghost use Rattle.schedule_model.specs.RowDef.{RowDef};
ghost use Rattle.schedule_model.specs.SharedRules.{KeepsRun};
ghost use Rattle.schedule_model.specs.BlockedTicks.{is_shared_interference, is_blocked};
ghost use Rattle.schedule_model.specs.Seen.{row_seen, place_seen};
ghost use Rattle.phase_machine.specs.MachineDef.{under};
ghost use Rattle.phase_machine.specs.Shows.{Shows};
ghost use Rattle.phase_machine.specs.Taking.{IsRowFor};
ghost use Rattle.shared_rules.specs.Given.{CanTestJob, AreTwoJobs};
ghost use Rattle.shared_rules.specs.Blocked.{waits_beside, blocked_now};

use phase_machine::Machine;
use phase_machine::lookup::{running_beside, task_of};
use schedule_model::{JobId, Row};

/// Is the job that runs on the job's processor, if there is one, another job, and not of a higher task there?
fn waits_beside(machine: &Machine, j: JobId, running: Option<JobId>) -> bool
    requires { AreTwoJobs machine.now.list j.0 running }
    ensures { result ≡ waits_beside machine.now j.0 (place_seen running) }
{
    match running {
        Some(r) => {
            r != j
                && !machine
                    .jobs()
                    .set()
                    .higher_local(task_of(machine, j), task_of(machine, r))
        }
        None => true,
    }
}

/// Is the job active and not running, and does no job of a higher task of its processor run there?
#[tactic(auto, unfolding(crate::specs::Blocked::blocked_now))]
fn is_blocked(machine: &Machine, row: &Row, j: JobId) -> bool
    requires { CanTestJob machine.now.list (row_seen row.now) j.0 }
    ensures { result ≡ blocked_now machine.now (row_seen row.now) j.0 }
{
    machine.active(j) && waits_beside(machine, j, running_beside(machine, row, j))
}

/// In a row that keeps Run: is this tick blocked for the job, if requests run on their own task's processor?
pub fn blocked_shared(machine: &Machine, row: &Row, j: JobId) -> bool
    requires fits { IsRowFor machine.now.list (row_seen row.now) }
    requires listed { j.0 < length machine.now.list.jobs }
    ensures { (rows : ℕ → RowDef) → Shows machine.now rows → rows machine.now.tick ≡ row_seen row.now
        → KeepsRun (under machine.now rows) machine.now.tick
        → result ≡ is_blocked is_shared_interference (under machine.now rows) machine.now.tick j.0 }
{
    is_blocked(machine, row, j)
}

ghost use Rattle.std.specs.Prelude.{◌≡◌, ℕ, ◌<◌, length};
ghost use Rattle.sporadic_model.specs.Homes.{EachHasHome};
ghost use Rattle.schedule_model.specs.RowDef.{RowDef};
ghost use Rattle.schedule_model.specs.DpcpRules.{KeepsRun};
ghost use Rattle.schedule_model.specs.BlockedTicks.{is_dpcp_interference, is_blocked};
ghost use Rattle.schedule_model.specs.Seen.{row_seen, place_seen};
ghost use Rattle.phase_machine.specs.MachineDef.{under};
ghost use Rattle.phase_machine.specs.Shows.{Shows};
ghost use Rattle.phase_machine.specs.Taking.{IsRowFor};
ghost use Rattle.dpcp_rules.specs.Blocked.{is_interfered, blocked_now};
ghost use Rattle.dpcp_rules.specs.Given.{AreRowAndJobServed};
ghost use Rattle.shared_rules.specs.Given.{AreTwoJobs};

use crate::lookup::AtHomes;
use phase_machine::Machine;
use phase_machine::columns::running_instead;
use phase_machine::lookup::{is_local, running_beside, task_of};
use schedule_model::{JobId, Row};

/// Is the job that runs on the job's processor a Local job of a higher task of it?
fn is_interfered(machine: &Machine, j: JobId, running: Option<JobId>) -> bool
    requires { AreTwoJobs machine.now.list j.0 running }
    ensures { result ≡ is_interfered machine.now j.0 (place_seen running) }
{
    match running {
        Some(r) => {
            machine
                .jobs()
                .set()
                .higher_local(task_of(machine, j), task_of(machine, r))
                && is_local(machine, r)
        }
        None => false,
    }
}

/// Is the job active, and neither running nor interfered with?
#[tactic(auto, unfolding(crate::specs::Blocked::blocked_now))]
fn is_blocked(machine: &Machine, row: &Row, j: JobId) -> bool
    requires { AreRowAndJobServed machine.now (row_seen row.now) j.0 }
    ensures { result ≡ blocked_now machine.now (row_seen row.now) j.0 }
{
    machine.active(j)
        && running_instead(&AtHomes, machine, row, j) != Some(j)
        && !is_interfered(machine, j, running_beside(machine, row, j))
}

/// In a row that keeps Run: is this tick blocked for the job?
pub fn blocked(machine: &Machine, row: &Row, j: JobId) -> bool
    requires suits { EachHasHome machine.now.list.set }
    requires fits { IsRowFor machine.now.list (row_seen row.now) }
    requires listed { j.0 < length machine.now.list.jobs }
    ensures { (rows : ℕ → RowDef) → Shows machine.now rows → rows machine.now.tick ≡ row_seen row.now
        → KeepsRun (under machine.now rows) machine.now.tick
        → result ≡ is_blocked is_dpcp_interference (under machine.now rows) machine.now.tick j.0 }
{
    is_blocked(machine, row, j)
}

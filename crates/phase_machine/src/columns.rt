ghost use Rattle.std.specs.Prelude.{◌≡◌, ℕ, ◌<◌, ◌≤◌, length, IfSome};
ghost use Rattle.sporadic_model.specs.SetDef.{SetDef};
ghost use Rattle.schedule_model.specs.RowDef.{running_on};
ghost use Rattle.schedule_model.specs.Seen.{place_seen, row_seen};
ghost use Rattle.schedule_model.specs.Protocols.{EachSetSuits};
ghost use Rattle.phase_machine.specs.MachineDef.{MachineDef};
ghost use Rattle.phase_machine.specs.Taking.{IsRowFor};
ghost use Rattle.phase_machine.specs.Now.{processor_now};

use crate::lookup::{column_at, processor_of};
use crate::machine::Machine;
use schedule_model::{JobId, Row};

/// On which processors a protocol runs jobs.
pub trait Columns {
    /// For which sets each job has a processor.
    ghost suits: { Self → SetDef → Type 0 };

    /// The processor that a job runs on, counted from 1.
    ghost column: { Self → MachineDef → ℕ → ℕ };

    /// That processor.
    fn column_of(&self, machine: &Machine, j: JobId) -> u32
        requires suits { suits self.now machine.now.list.set }
        requires listed { j.0 < length machine.now.list.jobs }
        ensures value { result ≡ column self.now machine.now j.0 }
        ensures least { 1 ≤ result }
        ensures most { result ≤ machine.now.list.set.processors };
}

/// Each job runs on its task's processor.
pub struct OwnProcessors;

impl Columns for OwnProcessors {
    ghost suits = { λ p. EachSetSuits };

    ghost column = { λ p. processor_now };

    fn column_of(&self, machine: &Machine, j: JobId) -> u32 {
        processor_of(machine, j)
    }
}

/// The job that runs on the processor where the job would run.
pub fn running_instead<C: Columns>(
    columns: &C,
    machine: &Machine,
    row: &Row,
    j: JobId,
) -> Option<JobId>
    requires suits { C.suits columns.now machine.now.list.set }
    requires fits { IsRowFor machine.now.list (row_seen row.now) }
    requires listed { j.0 < length machine.now.list.jobs }
    ensures value { place_seen result ≡ running_on (row_seen row.now) (C.column columns.now machine.now j.0) }
    ensures within { IfSome result (λ r. r.0 < length machine.now.list.jobs) }
{
    column_at(machine, row, columns.column_of(machine, j) as usize - 1)
}

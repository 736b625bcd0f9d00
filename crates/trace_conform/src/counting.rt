ghost use Rattle.std.specs.Prelude.{ℕ};

use crate::counts::{JobCount, count_ticks};
use phase_machine::{Judge, Machine};
use schedule_model::RowReader;
use std::alloc::AllocError;
use trace_walk::Keeper;

/// A keeper of how long each job of a schedule was blocked, and when it was last active.
#[derive(Clone, Copy, Debug)]
pub struct JobCounter;

impl<P: Judge> Keeper<P> for JobCounter {
    type Notes = Vec<JobCount>;

    ghost use Rattle.trace_conform.specs.Counts.{AreCounts};

    ghost fits = { λ k set. Unit {0} };

    ghost kept = { λ k p w n counts. AreCounts (P.interferes p) w n counts.items };

    ghost spans = { λ k m n. Unit {0} };

    fn span(&self, _machine: &Machine, ticks: u64) -> u64 {
        ticks
    }

    fn take<R: RowReader>(
        &self,
        protocol: &P,
        rows: &R,
        machine: &Machine,
        ticks: u64,
        notes: &mut Vec<JobCount>,
    ) -> Result<(), AllocError> {
        count_ticks(protocol, rows, machine, ticks, notes);
        Ok(())
    }
}

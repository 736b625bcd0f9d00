//! The work of `study`. It reads no input.

ghost use Rattle.std.specs.Prelude.{◌≤◌};
ghost use Rattle.run_plans.specs.Commands.{IsStudyAnswer};
ghost use Rattle.command_inputs.specs.Halts.{Answered};

use command_inputs::{Halt, Reply, Status};
use reply_texts::study_lines;
use std::alloc::Global;
use std::thread::Threads;
use study_gen::study;

/// The work of `study`.
pub fn study_counts<R: Threads + Sync>(
    rt: &R,
    alloc: Global,
    seed: u64,
    sets: u32,
) -> Result<Reply, Halt>
    requires from { 1 ≤ sets }
    requires to { sets ≤ 1000 }
    ensures { Answered result (IsStudyAnswer seed sets) }
{
    let counts = study(rt, alloc, seed, sets)?;
    Ok(Reply {
        status: Status::Done,
        text: study_lines(alloc, &counts.counts, counts.stopped)?,
    })
}

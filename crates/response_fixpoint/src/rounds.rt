ghost use Rattle.std.specs.Prelude.{◌≡◌, ◌<◌, ◌^◌, ◌+◌};
ghost use Rattle.program_sources.specs.Recurrence.{source_at};
ghost use Rattle.response_fixpoint.specs.Given.{BeginsRound};
ghost use Rattle.response_fixpoint.specs.Answers.{GivesRound, TakesRun, stop_at};

use crate::ahead::solve_ahead;
use crate::plan::{Kept, Planned};
use crate::task_run::{TaskRun, run_task};
use program_sources::ProgramSource;
use simplex::{SolveStop, SparseProgram};
use sporadic_model::{TaskId, TaskSet};
use std::alloc::{AllocError, AllocFailed, Global};
use std::thread::Threads;

/// What a round has found: its units; and for each task that passed, the next bound in ticks and the program with its solution.
#[derive(Debug, Drop)]
pub struct Round {
    pub used: u64,
    pub values: Vec<u64>,
    pub kept: Vec<Kept>,
}

/// Why a round gives no next vector.
#[derive(Debug, Drop)]
pub enum RoundStop {
    /// The value of this task passes its latest bound.
    NotShown { task: TaskId, bound: u64 },
    /// The run of this task's program is wide.
    Wide(TaskId),
    /// The runs need more units than are left.
    Allowance,
    Memory,
}

impl From<AllocError> for RoundStop {
    ghost use Rattle.response_fixpoint.specs.declared.rounds.RoundStop.TheVariants.{Memory};

    ghost from_gives = { λ _ stop. stop ≡ Memory };

    fn from(_error: AllocError) -> RoundStop {
        RoundStop::Memory
    }
}

impl<T: Drop> From<AllocFailed<T>> for RoundStop {
    ghost use Rattle.response_fixpoint.specs.declared.rounds.RoundStop.TheVariants.{Memory};

    ghost from_gives = { λ _ stop. stop ≡ Memory };

    fn from(_failed: AllocFailed<T>) -> RoundStop {
        RoundStop::Memory
    }
}

/// The end of a round for this end of a task's run.
pub fn round_stop(stop: SolveStop, task: TaskId) -> RoundStop
    ensures { result ≡ stop_at stop task.0 }
{
    match stop {
        SolveStop::Wide => RoundStop::Wide(task),
        SolveStop::Units => RoundStop::Allowance,
        SolveStop::Memory => RoundStop::Memory,
    }
}

/// Takes the run of a task's program into the round, if its value is at most the latest bound.
pub fn take_run(
    round: &mut Round,
    program: SparseProgram,
    run: TaskRun,
    task: TaskId,
    latest: u64,
) -> Result<(), RoundStop>
    requires { round.old.used + run.solution.used < 2 ^ 64 }
    ensures { TakesRun result round.old round.new program run task.0 latest }
{
    let TaskRun { solution, value } = run;
    if value > latest {
        return Err(RoundStop::NotShown { task, bound: value });
    }
    let used = solution.used;
    round.values.push(value)?;
    round.kept.push(Kept { program, solution })?;
    round.used += used;
    Ok(())
}

/// One round: the recurrence at `bounds`, task by task. Each program may take the units that the tasks before it have left.
///
/// The programs of the plan that have no solution yet are solved ahead of their place, if that is worth threads. Each may take all
/// units that are left at the start of the round.
pub fn take_round<R: Threads + Sync, P: ProgramSource + Sync>(
    rt: &R,
    alloc: Global,
    set: &TaskSet,
    protocol: &P,
    bounds: &[u64],
    left: u64,
    plan: Vec<Planned>,
) -> Result<Round, RoundStop>
    requires { BeginsRound (P.serves protocol.now) (source_at (P.source protocol.now) set.now) bounds.now left plan.items }
    ensures { GivesRound result (source_at (P.source protocol.now) set.now) bounds.now left }
{
    let mut round = Round {
        used: 0,
        values: Vec::new(alloc),
        kept: Vec::new(alloc),
    };
    let ahead = solve_ahead(rt, alloc, set, protocol, bounds, left, &plan)?;
    let mut outcomes = ahead.into_iter();
    // a set has at most 64 tasks, so their numbers fit
    let _tasks = set.tasks();
    for planned in plan {
        let Planned { program, ahead, .. } = planned;
        let task = TaskId(round.kept.len() as u32);
        let outcome = ahead.or(outcomes.next().flatten());
        let here = left - round.used;
        let run = match run_task(alloc, set, protocol, task, bounds, &program, here, outcome) {
            Ok(run) => run,
            Err(stop) => return Err(round_stop(stop, task)),
        };
        match take_run(&mut round, program, run, task, set.latest_bound(task)) {
            Ok(()) => {}
            Err(stop) => return Err(stop),
        }
    }
    Ok(round)
}

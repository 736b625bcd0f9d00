ghost use Rattle.program_sources.specs.Recurrence.{source_at};
ghost use Rattle.response_fixpoint.specs.Given.{IsServedAt};
ghost use Rattle.response_fixpoint.specs.Places.{AreEach};
ghost use Rattle.response_fixpoint.specs.Solutions.{IsPlanned};
ghost use Rattle.refusal_cert.specs.Answers.{GivesRound, seen};

use crate::task_run::run_task;
use program_sources::ProgramSource;
use refusal_laws::RefusalStep;
use response_fixpoint::{Planned, Round, RoundStop, planned_program, round_stop, take_run};
use sporadic_model::{TaskId, TaskSet};
use std::alloc::Global;

/// One round: the recurrence at `bounds`, task by task. Each program may take the units that the tasks before it have left. `plan` has
/// the tasks' programs at these bounds. A program that it lacks is formed when its task comes. `steps` has the steps of the rounds
/// before, and gets those of this one. If the round ends at a task whose value passes its latest bound, the last step is that task's.
pub fn take_round<P: ProgramSource>(
    alloc: Global,
    set: &TaskSet,
    protocol: &P,
    bounds: &[u64],
    left: u64,
    plan: Vec<Planned>,
    steps: &mut Vec<RefusalStep>,
) -> Result<Round, RoundStop>
    requires served { IsServedAt (P.serves protocol.now) set.now bounds.now }
    requires plan { AreEach (IsPlanned (source_at (P.source protocol.now) set.now) bounds.now left) 0 plan.items }
    ensures { GivesRound result (source_at (P.source protocol.now) set.now) bounds.now left (seen steps.old.items) (seen steps.new.items) }
{
    let mut round = Round {
        used: 0,
        values: Vec::new(alloc),
        kept: Vec::new(alloc),
    };
    let mut plan = plan.into_iter();
    for i in 0..set.tasks() {
        let task = TaskId(i);
        let begun = plan.next();
        let planned = planned_program(alloc, set, protocol, task, bounds, left, begun)?;
        let Planned { program, ahead, .. } = planned;
        let here = left - round.used;
        let ran = run_task(
            alloc, set, protocol, task, bounds, &program, here, ahead, steps,
        );
        let run = match ran {
            Ok(run) => run,
            Err(stop) => return Err(round_stop(stop, task)),
        };
        match take_run(&mut round, program, run, task, set.latest_bound(task)) {
            Ok(()) => {}
            Err(stop) => return Err(stop),
        }
    }
    Ok(round)
}

use crate::protocol_tests::are_within;
use crate::watched::{Flags, Watch, Watched};
use program_form::{Certificate, Dual};
use program_sources::ProgramSource;
use protocol_programs::Written;
use response_fixpoint::{Share, Stop, Verdict, analyse_with, costs, first_threads, is_in};
use simplex::solve;
use sporadic_model::{Protocol, TaskId, TaskSet};
use std::alloc::Global;
use std::sync::atomic::{AtomicBool, Ordering};
use std::test::Fail;
use std::thread::Threads;
use worked_sets::{FOUR, PAIR, SetRow, set_of, suits, task_row};

const MOST: u64 = 1_000_000;

fn has_bounds(verdict: &Result<Verdict, Stop>, bounds: &[u64]) -> bool {
    match verdict {
        Ok(Verdict::Schedulable(found)) => found.bounds.as_slice() == bounds,
        _ => false,
    }
}

// So small a set gets two threads. The second one has each odd number.
#[test]
fn threads_share_a_round(rt: HostRuntime) -> Result<(), Fail> {
    let set = set_of(rt.alloc(), PAIR)?;
    assert_eq!(rt; first_threads(&rt, &set), 2);
    let second = Share {
        thread: 1,
        threads: 2,
    };
    assert!(rt; is_in(second, 3) && !is_in(second, 2));
    Ok(())
}

// The first round of any set in which two tasks have columns is solved by two threads.
#[test]
fn two_tasks_are_at_work_at_the_same_time(rt: HostRuntime) -> Result<(), Fail> {
    let set = set_of(rt.alloc(), PAIR)?;
    let flags = Flags::new();
    let source = Watched {
        written: Written(Protocol::FmlpPlus),
        watch: Watch::Programs(flags.meeting()),
    };
    let verdict = analyse_with(&rt, rt.alloc(), &set, &source, MOST);
    assert!(rt; has_bounds(&verdict, &[5, 5]));
    assert!(rt; flags.have_met());
    Ok(())
}

/// Three tasks that share a resource, each on a processor of its own. The first one's cost is given.
fn three(alloc: Global, cost: u64) -> Result<TaskSet, Fail> {
    let set = SetRow {
        processors: 3,
        homes: &[None],
        tasks: &[
            task_row!(1, 10, cost, [(0, 1)]),
            task_row!(2, 10, 4, [(0, 2)]),
            task_row!(3, 10, 4, [(0, 2)]),
        ],
    };
    Ok(set_of(alloc, set)?)
}

/// With this cost of the first task: is it late with 11 ticks, and is the recurrence of the third one computed?
fn first_and_third<R: Threads + Sync>(
    rt: &R,
    alloc: Global,
    cost: u64,
) -> Result<(bool, bool), Fail> {
    let set = three(alloc, cost)?;
    let taken = AtomicBool::new(false);
    let source = Watched {
        written: Written(Protocol::FmlpPlus),
        watch: Watch::Taken(TaskId(2), &taken),
    };
    let is_late = match analyse_with(rt, alloc, &set, &source, MOST) {
        Ok(Verdict::NotShown { task, bound }) => task.0 == 0 && bound == 11,
        Ok(Verdict::Schedulable(_)) => false,
        Err(_) => return Err("no verdict".into()),
    };
    Ok((is_late, taken.load(Ordering::SeqCst)))
}

// So small a set gets two threads, and the third task is one of the first one's thread. The first task waits for two requests of 2 ticks,
// so with a cost of 7 it is late: 7 + 4.
#[test]
fn a_thread_solves_no_program_behind_a_task_that_is_late(rt: HostRuntime) -> Result<(), Fail> {
    assert_eq!(rt; first_and_third(&rt, rt.alloc(), 3)?, (false, true));
    assert_eq!(rt; first_and_third(&rt, rt.alloc(), 7)?, (true, false));
    Ok(())
}

/// Twelve tasks, each on a processor of its own, that request each of four resources.
fn twelve(alloc: Global) -> Result<TaskSet, Fail> {
    let mut tasks = Vec::new(alloc);
    for processor in 1..13 {
        tasks.push(task_row!(processor, 100, 20, FOUR))?;
    }
    let set = SetRow {
        processors: 12,
        homes: &[None; 4],
        tasks: &tasks,
    };
    Ok(set_of(alloc, set)?)
}

/// Is this the dual of the task's program at these bounds, solved alone?
fn is_dual_alone(
    alloc: Global,
    set: &TaskSet,
    i: TaskId,
    bounds: &[u64],
    dual: &Dual,
) -> Result<bool, Fail> {
    if i.0 >= set.tasks() || !suits(set, Protocol::FmlpPlus) || !are_within(set, bounds) {
        return Ok(false);
    }
    let program = Written(Protocol::FmlpPlus).program(alloc, set, i, bounds)?;
    match solve(alloc, &program, MOST) {
        Ok(alone) => {
            Ok(alone.dual.den == dual.den && alone.dual.num.as_slice() == dual.num.as_slice())
        }
        Err(_) => Ok(false),
    }
}

/// Is each dual of the certificate that of its task's program, solved alone?
fn are_duals_alone(alloc: Global, set: &TaskSet, found: &Certificate) -> Result<bool, Fail> {
    for i in 0..set.tasks() {
        let Some(dual) = found.duals.get(i as usize) else {
            return Ok(false);
        };
        if !is_dual_alone(alloc, set, TaskId(i), &found.bounds, dual)? {
            return Ok(false);
        }
    }
    Ok(found.duals.len() == set.tasks() as usize)
}

// Each of a task's four requests waits for one of each other task: 20 + 4 * 11. At the costs a window meets one job of each other task,
// and at these bounds two, since 64 + 64 is more than a period. So the second round has each program to solve again.
#[test]
fn two_programs_of_a_later_round_are_solved_at_the_same_time(rt: HostRuntime) -> Result<(), Fail> {
    let alloc = rt.alloc();
    let set = twelve(alloc)?;
    let costs = costs(alloc, &set)?;
    let flags = Flags::new();
    let source = Watched {
        written: Written(Protocol::FmlpPlus),
        watch: Watch::Later(flags.meeting(), &costs),
    };
    match analyse_with(&rt, alloc, &set, &source, MOST) {
        Ok(Verdict::Schedulable(found)) => {
            assert_eq!(rt; found.bounds.as_slice(), [64; 12].as_slice());
            assert!(rt; are_duals_alone(alloc, &set, &found)?);
        }
        _ => return Err("not shown".into()),
    }
    assert!(rt; flags.have_met());
    Ok(())
}

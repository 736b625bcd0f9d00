use crate::protocol_tests::are_within;
use closer_fmlp::{CLOSER_FMLP_PLUS, program};
use closer_mpcp::CLOSER_MPCP;
use program_form::{Certificate, Program};
use response_fixpoint::{Verdict, analyse, analyse_with};
use sporadic_model::{Protocol, TaskId};
use std::alloc::Global;
use std::test::Fail;
use std::thread::Threads;
use worked_sets::{EntryRow, SetRow, set_of, task_row};

const MOST: u64 = 1_000_000;

/// Two tasks of one processor that request a resource, which nothing else does: the lower one twice.
const ALONE: SetRow = SetRow {
    processors: 1,
    homes: &[None],
    tasks: &[
        task_row!(1, 20, 3, [(0, 1)]),
        task_row!(
            1,
            100,
            10,
            &[EntryRow {
                resource: 0,
                count: 2,
                length: 3
            }]
        ),
    ],
};

/// Are these its limits?
fn limits_are(program: &Program, limits: &[u64]) -> bool {
    program.limits() == limits
}

// Of the higher task: the rows of requests, time, intervals, turns and queues. Behind them are those of holders, of the lower task, of
// local preemption and of local waits. No column is of indirect blocking.
#[test]
fn limits_what_one_processor_uses(rt: HostRuntime) -> Result<(), Fail> {
    let alloc = rt.alloc();
    let set = set_of(alloc, ALONE)?;
    let bounds = &[6, 13];
    if set.tasks() != 2 || !are_within(&set, bounds) {
        return Err("out of range".into());
    }
    let program = program(alloc, &set, TaskId(0), bounds)?;
    assert_eq!(rt; program.columns(), 2);
    assert!(rt; limits_are(&program, &[2, 10, 2, 1, 1, 0, 1, 1, 0]));
    Ok(())
}

/// Are these its bounds?
fn bounds_are(certificate: &Certificate, bounds: &[u64]) -> bool {
    certificate.bounds.as_slice() == bounds
}

// Under FMLP+ the higher task may wait for a request of 3 ticks and be preempted by another one. By the closer analysis it never waits.
#[test]
fn bounds_fall_with_the_closer_analysis(rt: HostRuntime) -> Result<(), Fail> {
    let alloc = rt.alloc();
    let set = set_of(alloc, ALONE)?;
    let Ok(Verdict::Schedulable(plain)) = analyse(&rt, alloc, &set, Protocol::FmlpPlus, MOST) else {
        return Err("not shown under FMLP+".into());
    };
    assert!(rt; bounds_are(&plain, &[9, 13]));
    let Ok(Verdict::Schedulable(found)) = analyse_with(&rt, alloc, &set, &CLOSER_FMLP_PLUS, MOST)
    else {
        return Err("not shown by the closer analysis".into());
    };
    assert!(rt; bounds_are(&found, &[6, 13]));
    Ok(())
}

/// Two tasks on two processors that share a resource. The higher one requests it twice, the lower one once.
const TWICE: SetRow = SetRow {
    processors: 2,
    homes: &[None],
    tasks: &[
        task_row!(
            2,
            100,
            15,
            &[EntryRow {
                resource: 0,
                count: 2,
                length: 5
            }]
        ),
        task_row!(1, 200, 6, [(0, 4)]),
    ],
};

// Of the lower task: the rows of requests and time, and behind them those of away holdings and of direct waits. No other task can hold the
// resource. A wait of the lower task takes up to 10 ticks, in which one job of the higher one can run both its requests.
#[test]
fn limits_what_runs_in_one_wait(rt: HostRuntime) -> Result<(), Fail> {
    let alloc = rt.alloc();
    let set = set_of(alloc, TWICE)?;
    let bounds = &[19, 11];
    if set.tasks() != 2 || !are_within(&set, bounds) {
        return Err("out of range".into());
    }
    let program = closer_mpcp::program(alloc, &set, TaskId(1), bounds)?;
    assert_eq!(rt; program.columns(), 1);
    assert!(rt; limits_are(&program, &[2, 15, 1, 2]));
    Ok(())
}

/// Are these the bounds of the set under MPCP, and those of its closer analysis?
fn are_both_bounds(
    rt: &(impl Threads + Sync),
    alloc: Global,
    set: SetRow<'_>,
    plain: &[u64],
    closer: &[u64],
) -> Result<bool, Fail> {
    let set = set_of(alloc, set)?;
    let Ok(Verdict::Schedulable(first)) = analyse(rt, alloc, &set, Protocol::Mpcp, MOST) else {
        return Err("not shown under MPCP".into());
    };
    let Ok(Verdict::Schedulable(second)) = analyse_with(rt, alloc, &set, &CLOSER_MPCP, MOST) else {
        return Err("not shown by the closer analysis".into());
    };
    Ok(bounds_are(&first, plain) && bounds_are(&second, closer))
}

// Under MPCP both requests of the higher task may block the lower one: 6 + 5 + 5. By the closer analysis one does.
#[test]
fn bounds_fall_with_the_closer_analysis_of_mpcp(rt: HostRuntime) -> Result<(), Fail> {
    assert!(rt; are_both_bounds(&rt, rt.alloc(), TWICE, &[19, 16], &[19, 11])?);
    Ok(())
}

/// Two tasks that come often and a lower one whose job takes long, each on a processor of its own. All request one resource.
const OFTEN: SetRow = SetRow {
    processors: 3,
    homes: &[None],
    tasks: &[
        task_row!(1, 10, 3, [(0, 1)]),
        task_row!(2, 10, 3, [(0, 1)]),
        task_row!(3, 100, 20, [(0, 1)]),
    ],
};

// Of the lowest task: rows of requests, of time, of away holdings and of direct waits, one for each higher task. Three jobs of each run
// while its job does, with 22 + 4 and 22 + 5 ticks. The first holds the resource away from the second three times, and the other way round.
// A wait takes up to 2 ticks, and one job of each runs in it.
#[test]
fn limits_what_runs_in_waits(rt: HostRuntime) -> Result<(), Fail> {
    let alloc = rt.alloc();
    let set = set_of(alloc, OFTEN)?;
    let bounds = &[4, 5, 22];
    if set.tasks() != 3 || !are_within(&set, bounds) {
        return Err("out of range".into());
    }
    let program = closer_mpcp::program(alloc, &set, TaskId(2), bounds)?;
    assert_eq!(rt; program.columns(), 2);
    assert!(rt; limits_are(&program, &[3, 3, 9, 9, 4, 4, 1, 1]));
    Ok(())
}

/// The third task waits for the second resource, which the second task may hold. On that task's processor the fourth may run its requests
/// of the first resource meanwhile, since the first task is the ceiling of both.
const INSTEAD: SetRow = SetRow {
    processors: 3,
    homes: &[None, None],
    tasks: &[
        task_row!(1, 20, 3, [(0, 1), (1, 1)]),
        task_row!(2, 20, 3, [(1, 1)]),
        task_row!(3, 200, 40, [(1, 1)]),
        task_row!(
            2,
            400,
            13,
            &[EntryRow {
                resource: 0,
                count: 4,
                length: 2
            }]
        ),
    ],
};

// Of the third task: the rows of requests and of time of the other three. Three jobs of the second task run while its job does, with 44 + 9
// ticks. A wait takes up to 4 ticks: one for the first task's request, one for the second's, and two for one of the fourth in place of
// that. One job of the second task runs in it. So the rows of shared holdings and of holdings by resource let one request of the fourth
// task block. Behind them are the rows of away holdings and of direct waits.
#[test]
fn limits_what_is_held_in_waits(rt: HostRuntime) -> Result<(), Fail> {
    let alloc = rt.alloc();
    let set = set_of(alloc, INSTEAD)?;
    let bounds = &[9, 9, 44, 21];
    if set.tasks() != 4 || !are_within(&set, bounds) {
        return Err("out of range".into());
    }
    let program = closer_mpcp::program(alloc, &set, TaskId(2), bounds)?;
    assert_eq!(rt; program.columns(), 3);
    assert!(rt; limits_are(&program, &[3, 3, 4, 9, 9, 13, 1, 1, 4, 4, 4, 1, 1]));
    Ok(())
}

// Under MPCP four requests of each higher task count in the bound of 28, and one of each with windows of waits. In the second set the third
// task's bound is 40 + 4 + 4 + 4 * 2 under MPCP, where the second task holds the resource four times, and 40 + 1 + 1 + 2 with windows.
#[test]
fn bounds_fall_with_windows_of_waits(rt: HostRuntime) -> Result<(), Fail> {
    let alloc = rt.alloc();
    assert!(rt; are_both_bounds(&rt, alloc, OFTEN, &[4, 5, 28], &[4, 5, 22])?);
    assert!(rt; are_both_bounds(&rt, alloc, INSTEAD, &[9, 9, 56, 21], &[9, 9, 44, 21])?);
    Ok(())
}

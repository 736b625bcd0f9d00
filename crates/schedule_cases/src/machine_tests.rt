ghost use Rattle.std.specs.Prelude.{◌<◌, length};

use crate::lists::{Work, built_set, job_named, list_of, row_of};
use crate::scripts::Q;
use crate::told::{Answers, answers, is_taken, machine_at_start};
use phase_machine::{Machine, Phase, can_take};
use schedule_model::{JobList, Row};
use sporadic_model::TaskId;
use std::alloc::{AllocError, Global};
use std::test::Fail;
use worked_sets::{PAIR, SetRow, task_row};

const RUNS: Answers = (Phase::Local, true, true, false, None);

const COMES: Answers = (Phase::Local, false, false, false, None);

const WAITS: Answers = (Phase::Asking(0, Q), true, false, true, Some(1));

const HOLDS: Answers = (Phase::Asking(0, Q), true, true, false, Some(1));

const ENDED: Answers = (Phase::Finished, false, false, false, None);

/// What is answered at a tick of each job, of the current job of each task and of the resource's holder. And the row that is then taken:
/// what runs in each column, and which job holds the resource.
type Tick = (
    &'static [Answers],
    &'static [Option<u32>],
    Option<u32>,
    &'static [Option<u32>],
    Option<u32>,
);

/// Does the machine answer this of the jobs?
fn shows_jobs(machine: &Machine, wanted: &[Answers]) -> bool {
    if machine.jobs().len() as usize != wanted.len() {
        return false;
    }
    for (j, one) in wanted.iter().enumerate() {
        if answers(machine, j as u32) != Some(*one) {
            return false;
        }
    }
    true
}

fn is_current(machine: &Machine, x: u32, job: Option<u32>) -> bool {
    x < machine.jobs().set().tasks() && machine.current(TaskId(x)) == job_named(job)
}

fn are_current(machine: &Machine, wanted: &[Option<u32>]) -> bool {
    if machine.jobs().set().tasks() as usize != wanted.len() {
        return false;
    }
    for (x, job) in wanted.iter().enumerate() {
        if !is_current(machine, x as u32, *job) {
            return false;
        }
    }
    true
}

/// Does this job alone hold a resource, if there is only one?
fn is_holder(machine: &Machine, job: Option<u32>) -> bool {
    machine.jobs().set().resources() == 1 && machine.holder(Q) == job_named(job)
}

/// Does the machine answer this of the jobs, of the tasks and of the resource?
fn shows(machine: &Machine, tick: &Tick) -> bool {
    let (jobs, current, holder, _, _) = *tick;
    shows_jobs(machine, jobs) && are_current(machine, current) && is_holder(machine, holder)
}

/// The row that is taken at the tick.
fn row_at(alloc: Global, tick: &Tick) -> Result<Row, AllocError> {
    let (_, _, _, running, holder) = *tick;
    row_of(alloc, running, holder)
}

/// Does the machine answer this at tick t, and take the row?
fn is_next(
    alloc: Global,
    machine: &mut Machine,
    t: usize,
    tick: &Tick,
) -> Result<bool, AllocError> {
    let row = row_at(alloc, tick)?;
    Ok(machine.tick() == t as u64 && shows(machine, tick) && is_taken(machine, &row))
}

/// The first tick at which an answer differs from the table, or at which the row can't be taken.
fn first_other(alloc: Global, jobs: &JobList, ticks: &[Tick]) -> Result<Option<usize>, AllocError> {
    let mut machine = machine_at_start(alloc, jobs)?;
    for (t, tick) in ticks.iter().enumerate() {
        if !is_next(alloc, &mut machine, t, tick)? {
            return Ok(Some(t));
        }
    }
    Ok(None)
}

/// What is answered at the first tick of a stretch with the row that is then taken, how long the stretch is, and how many of its ticks are
/// taken.
type Stretch = (Tick, u64, u64);

/// Is the stretch of the row this long, and does the machine take so many of its ticks?
fn is_stretch(machine: &mut Machine, row: &Row, length: u64, taken: u64) -> bool {
    if !can_take(machine, row) {
        return false;
    }
    let steady = machine.steady(row);
    let left = 1_000_000_000 - machine.tick();
    if steady != length || taken == 0 || taken > steady || taken > left {
        return false;
    }
    machine.advance_by(row, taken);
    true
}

fn is_next_stretch(
    alloc: Global,
    machine: &mut Machine,
    stretch: &Stretch,
) -> Result<bool, AllocError> {
    let (tick, length, taken) = *stretch;
    let row = row_at(alloc, &tick)?;
    Ok(shows(machine, &tick) && is_stretch(machine, &row, length, taken))
}

/// The first stretch for which an answer differs, or whose row can't be taken this often.
fn first_other_stretch(
    alloc: Global,
    jobs: &JobList,
    stretches: &[Stretch],
) -> Result<Option<usize>, AllocError> {
    let mut machine = machine_at_start(alloc, jobs)?;
    for (i, stretch) in stretches.iter().enumerate() {
        if !is_next_stretch(alloc, &mut machine, stretch)? {
            return Ok(Some(i));
        }
    }
    Ok(None)
}

const PAIR_JOBS: &[Work] = &[
    (0, 0, &[(1, Some(1)), (1, None)]),
    (1, 0, &[(1, Some(2)), (1, None)]),
];

/// Both requests are issued at tick 1, and the lower task's is served first.
const LOWER_FIRST: &[Tick] = &[
    (
        &[RUNS, RUNS],
        &[Some(0), Some(1)],
        None,
        &[Some(0), Some(1)],
        None,
    ),
    (
        &[WAITS, WAITS],
        &[Some(0), Some(1)],
        None,
        &[None, Some(1)],
        Some(1),
    ),
    (
        &[WAITS, HOLDS],
        &[Some(0), Some(1)],
        Some(1),
        &[None, Some(1)],
        Some(1),
    ),
    (
        &[WAITS, RUNS],
        &[Some(0), Some(1)],
        Some(1),
        &[Some(0), Some(1)],
        Some(0),
    ),
    (
        &[RUNS, ENDED],
        &[Some(0), None],
        Some(0),
        &[Some(0), None],
        None,
    ),
    (&[ENDED, ENDED], &[None, None], None, &[None, None], None),
];

/// The same, but the higher task's request is served first.
const HIGHER_FIRST: &[Tick] = &[
    (
        &[RUNS, RUNS],
        &[Some(0), Some(1)],
        None,
        &[Some(0), Some(1)],
        None,
    ),
    (
        &[WAITS, WAITS],
        &[Some(0), Some(1)],
        None,
        &[Some(0), None],
        Some(0),
    ),
    (
        &[RUNS, WAITS],
        &[Some(0), Some(1)],
        Some(0),
        &[Some(0), Some(1)],
        Some(1),
    ),
    (
        &[ENDED, HOLDS],
        &[None, Some(1)],
        Some(1),
        &[None, Some(1)],
        Some(1),
    ),
    (
        &[ENDED, RUNS],
        &[None, Some(1)],
        Some(1),
        &[None, Some(1)],
        None,
    ),
    (&[ENDED, ENDED], &[None, None], None, &[None, None], None),
];

const ONE_PROCESSOR: SetRow = SetRow {
    processors: 1,
    homes: &[None],
    tasks: &[task_row!(1, 10, 3, [(0, 1)]), task_row!(1, 2, 2, [])],
};

const IN_TURN: &[Work] = &[
    (0, 0, &[(1, Some(1))]),
    (1, 0, &[(2, None)]),
    (1, 2, &[(1, None)]),
];

/// The first job's script ends with its request. The last job is released at tick 2. It is active once the one before it of its task is
/// finished.
const ONE_AT_A_TIME: &[Tick] = &[
    (
        &[RUNS, RUNS, COMES],
        &[Some(0), Some(1)],
        None,
        &[Some(0)],
        None,
    ),
    (
        &[WAITS, RUNS, COMES],
        &[Some(0), Some(1)],
        None,
        &[Some(0)],
        Some(0),
    ),
    (
        &[ENDED, RUNS, COMES],
        &[None, Some(1)],
        Some(0),
        &[Some(1)],
        None,
    ),
    (
        &[ENDED, RUNS, COMES],
        &[None, Some(1)],
        None,
        &[Some(1)],
        None,
    ),
    (
        &[ENDED, ENDED, RUNS],
        &[None, Some(2)],
        None,
        &[Some(2)],
        None,
    ),
    (&[ENDED, ENDED, ENDED], &[None, None], None, &[None], None),
];

const LONG: SetRow = SetRow {
    processors: 1,
    homes: &[None],
    tasks: &[task_row!(1, 100, 30, [(0, 10)]), task_row!(1, 100, 20, [])],
};

const LONG_JOBS: &[Work] = &[(0, 0, &[(12, Some(8)), (5, None)]), (1, 5, &[(10, None)])];

const ASKS: Answers = (Phase::Asking(0, Q), true, false, true, Some(12));

const KEEPS: Answers = (Phase::Asking(0, Q), true, true, false, Some(12));

/// Stretches end at a release, and where local ticks, a request and a job end. One of them is taken in two parts, and the last never ends.
const BY_STRETCHES: &[Stretch] = &[
    (
        (&[RUNS, COMES], &[Some(0), None], None, &[Some(0)], None),
        5,
        5,
    ),
    (
        (&[RUNS, RUNS], &[Some(0), Some(1)], None, &[Some(0)], None),
        7,
        7,
    ),
    (
        (
            &[ASKS, RUNS],
            &[Some(0), Some(1)],
            None,
            &[Some(0)],
            Some(0),
        ),
        8,
        3,
    ),
    (
        (
            &[KEEPS, RUNS],
            &[Some(0), Some(1)],
            Some(0),
            &[Some(0)],
            Some(0),
        ),
        5,
        5,
    ),
    (
        (
            &[RUNS, RUNS],
            &[Some(0), Some(1)],
            Some(0),
            &[Some(0)],
            None,
        ),
        5,
        5,
    ),
    (
        (&[ENDED, RUNS], &[None, Some(1)], None, &[Some(1)], None),
        10,
        10,
    ),
    (
        (&[ENDED, ENDED], &[None, None], None, &[None], None),
        1_000_000_000,
        999_999_965,
    ),
];

#[test]
fn takes_rows_by_stretches(rt: HostRuntime) -> Result<(), Fail> {
    let set = built_set(rt.alloc(), LONG)?;
    let jobs = list_of(rt.alloc(), &set, LONG_JOBS)?;
    assert_eq!(rt; first_other_stretch(rt.alloc(), &jobs, BY_STRETCHES)?, None);
    Ok(())
}

#[test]
fn answers_of_the_rows_that_it_took(rt: HostRuntime) -> Result<(), Fail> {
    let set = built_set(rt.alloc(), PAIR)?;
    let jobs = list_of(rt.alloc(), &set, PAIR_JOBS)?;
    assert_eq!(rt; first_other(rt.alloc(), &jobs, LOWER_FIRST)?, None);
    assert_eq!(rt; first_other(rt.alloc(), &jobs, HIGHER_FIRST)?, None);
    Ok(())
}

#[test]
fn carries_one_job_of_a_task_after_the_other(rt: HostRuntime) -> Result<(), Fail> {
    let set = built_set(rt.alloc(), ONE_PROCESSOR)?;
    let jobs = list_of(rt.alloc(), &set, IN_TURN)?;
    assert_eq!(rt; first_other(rt.alloc(), &jobs, ONE_AT_A_TIME)?, None);
    Ok(())
}

ghost use Rattle.std.specs.Prelude.{◌<◌, length};
ghost use Rattle.schedule_model.specs.Fitting.{IsMadeFor};

use crate::lists::{Work, built_set, list_of, no_jobs, refusal_of, refusal_to, row_of};
use crate::scripts::{Part, has_segments};
use schedule_model::{Job, JobId, JobList, JobRefusal, RowList, RowRefusal, RowRun, Segment};
use sporadic_model::{ResourceId, TaskId};
use std::alloc::{AllocError, Global};
use std::process::Abort;
use std::test::Fail;
use worked_sets::{EntryRow, SetRow, TaskRow, task_row};

/// The task, the release and the script of a job, and the refusal that is expected.
type Case = (u32, u64, &'static [Part], Option<JobRefusal>);

const PAIR: SetRow = SetRow {
    processors: 2,
    homes: &[None],
    tasks: &[
        TaskRow {
            local: 3,
            ..task_row!(1, 10, 4, [(0, 1)])
        },
        TaskRow {
            local: 2,
            ..task_row!(2, 10, 4, [(0, 2)])
        },
    ],
};

/// A task whose jobs may be as many and have as many segments as a list takes.
const BUSY: SetRow = SetRow {
    processors: 1,
    homes: &[None],
    tasks: &[task_row!(
        1,
        1000,
        1000,
        &[EntryRow {
            resource: 0,
            count: 1000,
            length: 1,
        }]
    )],
};

const CASES: &[Case] = &[
    (0, 0, &[], Some(JobRefusal::Script)),
    (0, 0, &[(0, None)], Some(JobRefusal::Script)),
    (0, 0, &[(1_000_000_001, None)], Some(JobRefusal::Script)),
    (0, 0, &[(1, Some(0))], Some(JobRefusal::Script)),
    (0, 0, &[(1, Some(1_000_000_001))], Some(JobRefusal::Script)),
    (0, 0, &[(1, None), (1, None)], Some(JobRefusal::Script)),
    (0, 0, &[(1_000_000_000, None)], Some(JobRefusal::OverBudget)),
    (
        0,
        0,
        &[(2, Some(1)), (2, None)],
        Some(JobRefusal::OverBudget),
    ),
    (0, 0, &[(4, None)], Some(JobRefusal::OverBudget)),
    (0, 0, &[(1, Some(2))], Some(JobRefusal::OverBudget)),
    (
        0,
        0,
        &[(1, Some(1)), (1, Some(1))],
        Some(JobRefusal::OverBudget),
    ),
    (0, 1_000_000_001, &[(1, None)], Some(JobRefusal::TooClose)),
    (0, 5, &[(2, Some(1)), (1, None)], None),
    (1, 0, &[(2, Some(2))], None),
    (0, 0, &[(1, None)], Some(JobRefusal::TooClose)),
    (0, 14, &[(3, None)], Some(JobRefusal::TooClose)),
    (0, 14, &[(4, None)], Some(JobRefusal::OverBudget)),
    (0, 15, &[(3, None)], None),
    (0, 24, &[(3, None)], Some(JobRefusal::TooClose)),
    (1, 9, &[(1, None)], Some(JobRefusal::TooClose)),
    (1, 1_000_000_000, &[(1, None)], None),
    (1, 1_000_000_000, &[(1, None)], Some(JobRefusal::TooClose)),
];

/// Is the case's job answered as the case says, and is the list longer by one exactly if the job is taken?
fn is_answered(alloc: Global, jobs: &mut JobList, case: &Case) -> Result<bool, Fail> {
    let (task, release, script, refusal) = *case;
    let before = jobs.len();
    let answer = refusal_to(alloc, jobs, task, (release, release), script)?;
    let grown = before.saturating_add(u32::from(refusal.is_none()));
    Ok(answer == refusal && jobs.len() == grown)
}

fn task_and_release(jobs: &JobList, j: u32) -> Option<(TaskId, u64)> {
    if j >= jobs.len() {
        return None;
    }
    let job = jobs.job(JobId(j));
    Some((job.task, job.release))
}

/// Has the job these segments?
fn has_script(jobs: &JobList, j: u32, wanted: &[Segment]) -> bool {
    j < jobs.len() && has_segments(&jobs.job(JobId(j)).script, wanted)
}

/// A segment by its local ticks, and by the number of its resource and how long it is requested, if one is.
macro_rules! segment_row {
    ($local:expr) => {
        Segment {
            local: $local,
            request: None,
        }
    };
    ($local:expr, $resource:expr, $ticks:expr) => {
        Segment {
            local: $local,
            request: Some((ResourceId($resource), $ticks)),
        }
    };
}

#[test]
fn takes_jobs_or_names_the_first_refusal(rt: HostRuntime) -> Result<(), Fail> {
    let set = built_set(rt.alloc(), PAIR)?;
    let mut jobs = no_jobs(rt.alloc(), &set);
    for case in CASES {
        let is_right = is_answered(rt.alloc(), &mut jobs, case)?;
        assert!(rt; is_right, "at {}, {}", case.0, case.1);
    }
    assert_eq!(rt; (jobs.len(), jobs.set().tasks()), (4, 2));
    assert!(rt; task_and_release(&jobs, 2) == Some((TaskId(0), 15)));
    assert!(rt; has_script(&jobs, 2, &[segment_row!(3)]));
    assert!(rt; has_script(&jobs, 0, &[segment_row!(2, 0, 1), segment_row!(1)]));
    Ok(())
}

/// A task that may request the first and the last of 32 resources, and one whose jobs may take 10^9 ticks.
const LONG: SetRow = SetRow {
    processors: 2,
    homes: &[None; 32],
    tasks: &[
        TaskRow {
            jitter: 7,
            ..task_row!(1, 1000, 20, [(0, 3), (31, 4)])
        },
        task_row!(2, 1_000_000_000, 1_000_000_000, [(31, 999_999_999)]),
    ],
};

/// The task, the arrival, the release and the segments of a job.
type Read = (u32, u64, u64, &'static [Segment]);

const READ: &[Read] = &[
    (
        0,
        0,
        7,
        &[
            segment_row!(2, 31, 4),
            segment_row!(1, 0, 3),
            segment_row!(5),
        ],
    ),
    (1, 0, 0, &[segment_row!(1, 31, 999_999_999)]),
    (0, 1000, 1000, &[segment_row!(5)]),
    (
        1,
        1_000_000_000,
        1_000_000_000,
        &[segment_row!(1_000_000_000)],
    ),
];

/// Are these the listed jobs, down to every segment?
fn lists(jobs: &JobList, wanted: &[Read]) -> bool {
    if jobs.len() as usize != wanted.len() {
        return false;
    }
    for j in 0..jobs.len() {
        let (task, arrival, release, script) = wanted[j as usize];
        let job = jobs.job(JobId(j));
        if (job.task, job.arrival, job.release) != (TaskId(task), arrival, release) {
            return false;
        }
        if !has_segments(&job.script, script) {
            return false;
        }
    }
    true
}

fn job_of(alloc: Global, row: &Read) -> Result<Job, AllocError> {
    let (task, arrival, release, script) = *row;
    Ok(Job {
        task: TaskId(task),
        arrival,
        release,
        script: script.to_vec(alloc)?,
    })
}

/// Is each row's job answered with this refusal, or taken if there is none?
fn are_answered(
    alloc: Global,
    jobs: &mut JobList,
    rows: &[Read],
    refusal: Option<JobRefusal>,
) -> Result<bool, Fail> {
    for row in rows {
        let job = job_of(alloc, row)?;
        if refusal_of(jobs, job)? != refusal {
            return Ok(false);
        }
    }
    Ok(true)
}

#[test]
fn reads_back_each_job_and_segment(rt: HostRuntime) -> Result<(), Fail> {
    let set = built_set(rt.alloc(), LONG)?;
    let mut jobs = no_jobs(rt.alloc(), &set);
    assert!(rt; lists(&jobs, &[]));
    assert!(rt; are_answered(rt.alloc(), &mut jobs, READ, None)?);
    assert!(rt; lists(&jobs, READ));
    assert!(rt; are_answered(rt.alloc(), &mut jobs, READ, Some(JobRefusal::TooClose))?);
    assert!(rt; lists(&jobs, READ));
    Ok(())
}

/// A task whose jobs are released up to 4 ticks after they arrive.
const JITTERY: SetRow = SetRow {
    processors: 1,
    homes: &[],
    tasks: &[TaskRow {
        jitter: 4,
        ..task_row!(1, 10, 2, &[])
    }],
};

/// The arrival, the release and the local ticks of a job, and the refusal that is expected.
type Held = (u64, u64, u64, Option<JobRefusal>);

const HELD: &[Held] = &[
    (0, 5, 2, Some(JobRefusal::Late)),
    (1, 0, 2, Some(JobRefusal::Late)),
    (18_446_744_073_709_551_615, 0, 2, Some(JobRefusal::Late)),
    (0, 5, 3, Some(JobRefusal::OverBudget)),
    (0, 1_000_000_001, 2, Some(JobRefusal::TooClose)),
    (0, 4, 2, None),
    (9, 9, 2, Some(JobRefusal::TooClose)),
    (9, 8, 2, Some(JobRefusal::TooClose)),
    (9, 20, 2, Some(JobRefusal::TooClose)),
    (10, 9, 2, Some(JobRefusal::Late)),
    (10, 15, 2, Some(JobRefusal::Late)),
    (10, 10, 2, None),
    (19, 23, 2, Some(JobRefusal::TooClose)),
    (20, 24, 2, None),
    (31, 31, 1, None),
    (999_999_997, 1_000_000_001, 2, Some(JobRefusal::TooClose)),
    (999_999_990, 1_000_000_001, 2, Some(JobRefusal::TooClose)),
    (999_999_995, 1_000_000_000, 2, Some(JobRefusal::Late)),
    (999_999_996, 1_000_000_000, 2, None),
];

fn refusal_to_held(
    alloc: Global,
    jobs: &mut JobList,
    held: &Held,
) -> Result<Option<JobRefusal>, Fail> {
    let (arrival, release, local, _) = *held;
    refusal_to(alloc, jobs, 0, (arrival, release), &[(local, None)])
}

fn arrival_and_release(jobs: &JobList, j: u32) -> Option<(u64, u64)> {
    if j >= jobs.len() {
        return None;
    }
    let job = jobs.job(JobId(j));
    Some((job.arrival, job.release))
}

#[test]
fn spaces_jobs_by_arrivals_and_holds_them_by_the_jitter(rt: HostRuntime) -> Result<(), Fail> {
    let set = built_set(rt.alloc(), JITTERY)?;
    let mut jobs = no_jobs(rt.alloc(), &set);
    for held in HELD {
        let refusal = refusal_to_held(rt.alloc(), &mut jobs, held)?;
        assert!(rt; refusal == held.3, "at {}, {}", held.0, held.1);
    }
    assert!(rt; jobs.len() == 5);
    assert!(rt; arrival_and_release(&jobs, 0) == Some((0, 4)));
    assert!(rt; arrival_and_release(&jobs, 1) == Some((10, 10)));
    Ok(())
}

/// Are so many jobs taken that have this script, and that arrive every 1000 ticks?
fn are_taken(alloc: Global, jobs: &mut JobList, count: u32, script: &[Part]) -> Result<bool, Fail> {
    for j in 0..count {
        let tick = 1000 * u64::from(j);
        if refusal_to(alloc, jobs, 0, (tick, tick), script)?.is_some() {
            return Ok(false);
        }
    }
    Ok(true)
}

/// A script of so many requests of one tick, each of them after one local tick.
fn requests(alloc: Global, count: u32) -> Result<Vec<Part>, AllocError> {
    let mut script = Vec::new(alloc);
    for _ in 0..count {
        script.push((1, Some(1)))?;
    }
    Ok(script)
}

/// Is a job of one tick too many at these ticks?
fn is_too_many(alloc: Global, jobs: &mut JobList, times: (u64, u64)) -> Result<bool, Fail> {
    let refusal = refusal_to(alloc, jobs, 0, times, &[(1, None)])?;
    Ok(refusal == Some(JobRefusal::TooMany))
}

#[test]
fn keeps_the_limits_on_jobs_and_segments(rt: HostRuntime) -> Result<(), Fail> {
    let set = built_set(rt.alloc(), BUSY)?;
    let mut jobs = no_jobs(rt.alloc(), &set);
    assert!(rt; are_taken(rt.alloc(), &mut jobs, 100_000, &[(1, None)])?);
    assert!(rt; is_too_many(rt.alloc(), &mut jobs, (100_000_000, 100_000_001))?);

    let mut jobs = no_jobs(rt.alloc(), &set);
    let script = requests(rt.alloc(), 500)?;
    assert!(rt; are_taken(rt.alloc(), &mut jobs, 2000, &script)?);
    assert!(rt; is_too_many(rt.alloc(), &mut jobs, (2_000_000, 2_000_000))?);
    Ok(())
}

/// A number of ticks, the jobs that run on both processors and the one that holds the resource, whether the rows so far fit a list of only
/// the first job, and the refusal that is expected.
type Run = (
    u64,
    &'static [Option<u32>],
    Option<u32>,
    bool,
    Option<RowRefusal>,
);

const RUNS: &[Run] = &[
    (0, &[None, None], None, true, Some(RowRefusal::Number)),
    (
        1_000_000_001,
        &[Some(2), None],
        None,
        true,
        Some(RowRefusal::Number),
    ),
    (
        1_000_000_000,
        &[None, Some(2)],
        None,
        true,
        Some(RowRefusal::UnknownJob),
    ),
    (
        1,
        &[None, None],
        Some(2),
        true,
        Some(RowRefusal::UnknownJob),
    ),
    (3, &[Some(0), None], None, true, None),
    (
        999_999_998,
        &[None, None],
        None,
        true,
        Some(RowRefusal::TooLong),
    ),
    (999_999_997, &[Some(0), Some(1)], Some(1), false, None),
    (1, &[None, None], None, false, Some(RowRefusal::TooLong)),
];

/// Why the rows don't take the run, or none if they take it.
fn refusal_of_run(
    rows: &mut RowList,
    jobs: &JobList,
    run: RowRun,
) -> Result<Option<RowRefusal>, Fail>
    requires { IsMadeFor rows.old jobs.now }
    ensures { IsMadeFor rows.new jobs.now }
{
    let set = jobs.set();
    if run.row.running.len() != set.processors() as usize {
        return Err("not a place for each processor".into());
    }
    if run.row.holders.len() != set.resources() as usize {
        return Err("not a place for each resource".into());
    }
    Ok(rows.push(run).err())
}

/// Is the run answered as its row says, and do the rows then fit the jobs, and fewer jobs if the row says so?
fn is_put(
    alloc: Global,
    rows: &mut RowList,
    jobs: &JobList,
    fewer: &JobList,
    run: &Run,
) -> Result<bool, Fail>
    requires { IsMadeFor rows.old jobs.now }
    ensures { IsMadeFor rows.new jobs.now }
{
    let (ticks, running, holder, fits, refusal) = *run;
    let row = row_of(alloc, running, holder)?;
    let answer = refusal_of_run(rows, jobs, RowRun { ticks, row })?;
    Ok(answer == refusal && rows.fits(jobs) && rows.fits(fewer) == fits)
}

/// The number of the first run that isn't answered as its row says, or after which the rows fit otherwise.
fn first_other_run(
    alloc: Global,
    rows: &mut RowList,
    jobs: &JobList,
    fewer: &JobList,
) -> Result<Option<usize>, Fail>
    requires { IsMadeFor rows.old jobs.now }
{
    for (n, run) in RUNS.iter().enumerate() {
        if !is_put(alloc, rows, jobs, fewer, run)? {
            return Ok(Some(n));
        }
    }
    Ok(None)
}

/// Are there two runs, which last so long?
fn are_two_runs(rows: &RowList, first: u64, second: u64) -> bool {
    let runs = rows.runs();
    runs.len() == 2 && runs[0].ticks == first && runs[1].ticks == second
}

/// Has the second run's row these places?
fn is_second_row(rows: &RowList, running: &[Option<JobId>], holders: &[Option<JobId>]) -> bool {
    match rows.runs().get(1) {
        Some(run) => {
            run.row.running.as_slice() == running && run.row.holders.as_slice() == holders
        }
        None => false,
    }
}

/// The first jobs of the two tasks.
const FIRST_JOBS: &[Work] = &[(0, 0, &[(1, None)]), (1, 0, &[(1, None)])];

const FIRST_JOB: &[Work] = &[(0, 0, &[(1, None)])];

const WIDE: SetRow = SetRow {
    processors: 3,
    ..PAIR
};

// Rows that took the runs, or refused them, as the table says.
fn rows_of_runs(
    rt: &impl Abort,
    alloc: Global,
    jobs: &JobList,
    fewer: &JobList,
) -> Result<RowList, Fail> {
    let mut rows = RowList::new(alloc, jobs);
    assert_eq!(rt; first_other_run(alloc, &mut rows, jobs, fewer)?, None);
    Ok(rows)
}

fn rows_of_pair(rt: &impl Abort, alloc: Global) -> Result<RowList, Fail> {
    let set = built_set(alloc, PAIR)?;
    let jobs = list_of(alloc, &set, FIRST_JOBS)?;
    let fewer = list_of(alloc, &set, FIRST_JOB)?;
    rows_of_runs(rt, alloc, &jobs, &fewer)
}

/// Do the rows fit the first jobs of the wider set?
fn fit_wider(alloc: Global, rows: &RowList) -> Result<bool, Fail> {
    let set = built_set(alloc, WIDE)?;
    let jobs = list_of(alloc, &set, FIRST_JOBS)?;
    Ok(rows.fits(&jobs))
}

#[test]
fn takes_rows_or_names_the_first_refusal(rt: HostRuntime) -> Result<(), Fail> {
    let rows = rows_of_pair(&rt, rt.alloc())?;
    assert!(rt; rows.ticks() == 1_000_000_000);
    assert!(rt; !fit_wider(rt.alloc(), &rows)?);
    assert!(rt; are_two_runs(&rows, 3, 999_999_997));
    let (one, two) = (Some(JobId(0)), Some(JobId(1)));
    assert!(rt; is_second_row(&rows, &[one, two], &[two]));
    Ok(())
}

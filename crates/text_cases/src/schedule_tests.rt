use crate::texts::{jobs_in, rows_in, set_in};
use schedule_model::{JobId, JobList, RowList, Segment};
use sporadic_model::{ResourceId, TaskId};
use std::alloc::{AllocError, Global};
use std::fmt::Write;
use std::test::Fail;
use trace_csv::{RowsRefusal, read_rows, write_rows};
use worked_sets::files::{PAIR, PAIR_JOBS, PAIR_LOWER_FIRST};

/// The text of the rows, if they fit the jobs.
fn text_of_rows(alloc: Global, jobs: &JobList, rows: &RowList) -> Result<Vec<u8>, Fail> {
    if !rows.fits(jobs) {
        return Err("does not fit".into());
    }
    Ok(write_rows(alloc, jobs.set(), rows)?)
}

/// Is this the text of the rows?
fn are_written(alloc: Global, jobs: &JobList, rows: &RowList, text: &str) -> Result<bool, Fail> {
    Ok(text_of_rows(alloc, jobs, rows)?.as_slice() == text.as_bytes())
}

/// Has the job this task, and this arrival and release?
fn is_job(jobs: &JobList, j: u32, task: TaskId, times: (u64, u64)) -> bool {
    if j >= jobs.len() {
        return false;
    }
    let job = jobs.job(JobId(j));
    job.task == task && (job.arrival, job.release) == times
}

/// Has the job these two segments?
fn has_segments(jobs: &JobList, j: u32, first: Segment, last: Segment) -> bool {
    if j >= jobs.len() {
        return false;
    }
    let script = jobs.job(JobId(j)).script;
    script.len() == 2 && script.at(0) == first && script.at(1) == last
}

/// Does the run last so many ticks?
fn lasts(rows: &RowList, n: usize, ticks: u64) -> bool {
    match rows.runs().get(n) {
        Some(run) => run.ticks == ticks,
        None => false,
    }
}

/// Do these jobs run in the run?
fn does_run(rows: &RowList, n: usize, running: &[Option<JobId>]) -> bool {
    match rows.runs().get(n) {
        Some(run) => run.row.running.as_slice() == running,
        None => false,
    }
}

/// Do these jobs hold the resources in the run?
fn does_hold(rows: &RowList, n: usize, holders: &[Option<JobId>]) -> bool {
    match rows.runs().get(n) {
        Some(run) => run.row.holders.as_slice() == holders,
        None => false,
    }
}

#[test]
fn reads_jobs_and_rows_and_writes_the_same_rows(rt: HostRuntime) -> Result<(), Fail> {
    let set = set_in(rt.alloc(), PAIR)?;
    let jobs = jobs_in(rt.alloc(), &set, PAIR_JOBS)?;
    assert!(rt; jobs.len() == 2);
    assert!(rt; is_job(&jobs, 1, TaskId(1), (0, 0)));
    let first = Segment {
        local: 1,
        request: Some((ResourceId(0), 2)),
    };
    let last = Segment {
        local: 1,
        request: None,
    };
    assert!(rt; has_segments(&jobs, 1, first, last));
    let rows = rows_in(rt.alloc(), &jobs, PAIR_LOWER_FIRST)?;
    assert!(rt; rows.ticks() == 5 && rows.runs().len() == 4);
    let (one, two) = (Some(JobId(0)), Some(JobId(1)));
    assert!(rt; lasts(&rows, 1, 2));
    assert!(rt; does_run(&rows, 1, &[None, two]));
    assert!(rt; does_hold(&rows, 1, &[two]));
    assert!(rt; does_run(&rows, 2, &[one, two]));
    assert!(rt; are_written(rt.alloc(), &jobs, &rows, PAIR_LOWER_FIRST)?);
    Ok(())
}

/// The text after the header of a file of rows, and the number of ticks or the refusal that is expected.
type RowsCase = (&'static str, Result<u64, RowsRefusal>);

const ROWS_CASES: &[RowsCase] = &[
    ("", Ok(0)),
    ("3,\"1\",2,\r\n2,,,2", Ok(5)),
    ("1000000000,1,2,\n", Ok(1_000_000_000)),
    ("1,1,2\n", Err(RowsRefusal::Fields(1))),
    ("1,1,2,,\n", Err(RowsRefusal::Fields(1))),
    ("1,x,2,\n", Err(RowsRefusal::Number(1))),
    ("1,01,2,\n", Err(RowsRefusal::Number(1))),
    ("1,3,x,\n", Err(RowsRefusal::Number(1))),
    ("1, ,2,\n", Err(RowsRefusal::Number(1))),
    ("0,1,2,\n", Err(RowsRefusal::Number(1))),
    (",1,2,\n", Err(RowsRefusal::Number(1))),
    ("1000000001,1,2,\n", Err(RowsRefusal::Number(1))),
    ("1,0,2,\n", Err(RowsRefusal::UnknownJob(1))),
    ("1,3,2,\n", Err(RowsRefusal::UnknownJob(1))),
    ("1,,,3\n", Err(RowsRefusal::UnknownJob(1))),
    (
        "1,,,\n1,,111111111111111111111111111111,\n",
        Err(RowsRefusal::UnknownJob(2)),
    ),
    ("1,1,2,\n\n\n1,3,,\n", Err(RowsRefusal::UnknownJob(2))),
    ("1000000000,1,2,\n1,1,2,\n", Err(RowsRefusal::TooLong(2))),
    ("1000000000,1,2,\n1,1,3,\n", Err(RowsRefusal::UnknownJob(2))),
];

/// Is the text answered so?
fn is_answered(
    alloc: Global,
    jobs: &JobList,
    text: &str,
    wanted: Result<u64, RowsRefusal>,
) -> bool {
    match read_rows(alloc, jobs, text.as_bytes()) {
        Ok(rows) => wanted == Ok(rows.ticks()),
        Err(refusal) => wanted == Err(refusal),
    }
}

/// Are the lines after the header answered so?
fn are_answered(alloc: Global, jobs: &JobList, case: &RowsCase) -> Result<bool, AllocError> {
    let (lines, wanted) = *case;
    let text = format!(in alloc; "ticks,P1,P2,q\n{lines}")?;
    Ok(is_answered(alloc, jobs, text.as_str(), wanted))
}

#[test]
fn reads_rows_or_names_the_first_refused_line(rt: HostRuntime) -> Result<(), Fail> {
    let set = set_in(rt.alloc(), PAIR)?;
    let jobs = jobs_in(rt.alloc(), &set, PAIR_JOBS)?;
    for case in ROWS_CASES {
        assert!(rt; are_answered(rt.alloc(), &jobs, case)?, "at {}", case.0);
    }
    let refused = Err(RowsRefusal::Fields(0));
    assert!(rt; is_answered(rt.alloc(), &jobs, "", refused));
    assert!(rt; is_answered(rt.alloc(), &jobs, "ticks,P1,P2\n", refused));
    assert!(rt; is_answered(rt.alloc(), &jobs, "\"ticks\",P1,\"P2\",q", Ok(0)));
    Ok(())
}

/// A thousand jobs of the first task.
fn many_jobs(alloc: Global) -> Result<String, AllocError> {
    let mut text = String::from_str(alloc, "task,release,script\n")?;
    for j in 0..1000u64 {
        writeln!(text, "t1,{},1 q:1 1", 1_000_000 * j)?;
    }
    Ok(text)
}

/// A thousand runs, which name each job, and last 10^9 ticks in all.
fn many_rows(alloc: Global) -> Result<String, AllocError> {
    let mut text = String::from_str(alloc, "ticks,P1,P2,q\n")?;
    for j in 0..1000u64 {
        writeln!(text, "1000000,{},,{}", j + 1, 1000 - j)?;
    }
    Ok(text)
}

fn release(jobs: &JobList, j: u32) -> Option<u64> {
    if j >= jobs.len() {
        return None;
    }
    Some(jobs.job(JobId(j)).release)
}

#[test]
fn reads_a_thousand_jobs_and_rows_and_writes_the_same_rows(rt: HostRuntime) -> Result<(), Fail> {
    let set = set_in(rt.alloc(), PAIR)?;
    let text = many_jobs(rt.alloc())?;
    let jobs = jobs_in(rt.alloc(), &set, text.as_str())?;
    assert!(rt; jobs.len() == 1000);
    assert!(rt; release(&jobs, 999) == Some(999_000_000));
    let text = many_rows(rt.alloc())?;
    let rows = rows_in(rt.alloc(), &jobs, text.as_str())?;
    assert!(rt; rows.ticks() == 1_000_000_000 && rows.runs().len() == 1000);
    assert!(rt; are_written(rt.alloc(), &jobs, &rows, text.as_str())?);
    Ok(())
}

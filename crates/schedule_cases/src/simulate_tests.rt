ghost use Rattle.std.specs.Prelude.{◌≡◌, true};
ghost use Rattle.sporadic_model.specs.Homes.{HasHomesFor};
ghost use Rattle.schedule_model.specs.Fitting.{is_fitting};

use crate::texts::{jobs_in, set_in};
use schedule_model::{JobList, RowList};
use sim_engine::simulate;
use sporadic_model::Protocol;
use std::alloc::Global;
use std::process::Abort;
use std::test::Fail;
use trace_conform::{Measured, TaskMeasure, Unlawful, conform};
use trace_csv::write_rows;
use worked_sets::suits;

/// The rows that the protocol chooses for the jobs in ten ticks.
fn rows_of(alloc: Global, protocol: Protocol, jobs: &JobList) -> Result<RowList, Fail> {
    if !suits(jobs.set(), protocol) {
        return Err("a home is missing".into());
    }
    Ok(simulate(alloc, protocol, jobs, 10)?)
}

fn text_of_rows(alloc: Global, jobs: &JobList, rows: &RowList) -> Result<Vec<u8>, Fail> {
    if !rows.fits(jobs) {
        return Err("the rows don't fit".into());
    }
    Ok(write_rows(alloc, jobs.set(), rows)?)
}

/// Their text.
fn text_of(alloc: Global, protocol: Protocol, set: &str, jobs: &str) -> Result<Vec<u8>, Fail> {
    let set = set_in(alloc, set)?;
    let jobs = jobs_in(alloc, &set, jobs)?;
    let rows = rows_of(alloc, protocol, &jobs)?;
    text_of_rows(alloc, &jobs, &rows)
}

/// A task on each of three processors. They share `q`, whose home is a fourth processor without tasks.
const SHARED: &str = r#"{"processors":4,"resources":[{"name":"q","home":4}],"tasks":[
{"name":"t1","processor":1,"period":20,"cost":3,"requests":[{"resource":"q","count":1,"length":1}]},
{"name":"t2","processor":2,"period":20,"cost":3,"requests":[{"resource":"q","count":1,"length":1}]},
{"name":"t3","processor":3,"period":20,"cost":5,"requests":[{"resource":"q","count":1,"length":3}]}]}"#;

/// The requests are issued at the ticks 3, 2 and 1.
const SHARED_JOBS: &str = "task,release,script\nt1,2,1 q:1 1\nt2,1,1 q:1 1\nt3,0,1 q:3 1\n";

/// `t3` holds `q` from tick 1 on. At tick 4, when its request ends, `q` goes to the higher of the two tasks that wait.
const BY_TASK: &str =
    "ticks,P1,P2,P3,P4,q\n1,,,3,,\n1,,2,3,,3\n1,1,,3,,3\n1,,,3,,3\n1,1,,3,,1\n1,1,2,,,2\n1,,2,,,\n3,,,,,\n";

/// At tick 4 it goes to the request that was issued first.
const BY_ISSUE: &str =
    "ticks,P1,P2,P3,P4,q\n1,,,3,,\n1,,2,3,,3\n1,1,,3,,3\n1,,,3,,3\n1,,2,3,,2\n1,1,2,,,1\n1,1,,,,\n3,,,,,\n";

/// The requests run on the fourth processor, where two wait at tick 3. `t1` is no higher than the ceiling of `q`, which is `t1`. It gets
/// `q` at tick 4, when the request of `t3` ends.
const AT_HOME: &str =
    "ticks,P1,P2,P3,P4,q\n1,,,3,,\n1,,2,,3,3\n1,1,,,3,3\n1,,,,3,3\n1,,,3,1,1\n1,1,,,2,2\n1,,2,,,\n3,,,,,\n";

// The protocol makes these rows.
fn makes(rt: &impl Abort, alloc: Global, protocol: Protocol, rows: &str) -> Result<(), Fail> {
    let text = text_of(alloc, protocol, SHARED, SHARED_JOBS)?;
    assert_eq!(rt; text.as_slice(), rows.as_bytes());
    Ok(())
}

#[test]
fn each_protocol_makes_its_own_schedule(rt: HostRuntime) -> Result<(), Fail> {
    makes(&rt, rt.alloc(), Protocol::Mpcp, BY_TASK)?;
    makes(&rt, rt.alloc(), Protocol::FmlpPlus, BY_ISSUE)?;
    makes(&rt, rt.alloc(), Protocol::Dpcp, AT_HOME)
}

fn conforming(
    alloc: Global,
    protocol: Protocol,
    jobs: &JobList,
    rows: &RowList,
) -> Result<Measured, Unlawful>
    requires suits { HasHomesFor protocol jobs.now.set }
    requires fits { is_fitting rows.now jobs.now ≡ true }
{
    conform(alloc, protocol, jobs, rows)
}

fn measured(
    alloc: Global,
    protocol: Protocol,
    jobs: &JobList,
    rows: &RowList,
) -> Result<Vec<TaskMeasure>, Fail> {
    if !suits(jobs.set(), protocol) || !rows.fits(jobs) {
        return Err("not rows for the jobs and the protocol".into());
    }
    match conforming(alloc, protocol, jobs, rows) {
        Ok(measured) => Ok(measured.tasks),
        Err(_) => Err("unlawful, or out of memory".into()),
    }
}

/// What is measured of each task over the rows that the protocol chooses in ten ticks.
fn measures_of(
    alloc: Global,
    protocol: Protocol,
    set: &str,
    jobs: &str,
) -> Result<Vec<TaskMeasure>, Fail> {
    let set = set_in(alloc, set)?;
    let jobs = jobs_in(alloc, &set, jobs)?;
    let rows = rows_of(alloc, protocol, &jobs)?;
    measured(alloc, protocol, &jobs, &rows)
}

/// Has each task one finished job, with this response and this blocking?
fn are(tasks: &[TaskMeasure], wanted: &[(u64, u64)]) -> bool {
    if tasks.len() != wanted.len() {
        return false;
    }
    for (task, (response, blocking)) in tasks.iter().zip(wanted) {
        let one = TaskMeasure {
            finished: 1,
            response: Some(*response),
            blocking: *blocking,
        };
        if *task != one {
            return false;
        }
    }
    true
}

/// `t1` waits at tick 3, and `t2` from tick 2 to tick 4. They are finished at the ticks 6, 7 and 5.
#[test]
fn a_simulated_schedule_is_lawful_and_measured(rt: HostRuntime) -> Result<(), Fail> {
    let tasks = measures_of(rt.alloc(), Protocol::Dpcp, SHARED, SHARED_JOBS)?;
    assert!(rt; are(&tasks, &[(4, 1), (6, 3), (5, 0)]));
    Ok(())
}

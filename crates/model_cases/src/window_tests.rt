use crate::protocol_tests::are_within;
use blocking_columns::uses;
use program_form::Certificate;
use request_windows::{DPCP_WINDOWS, program, window};
use response_fixpoint::{Verdict, analyse, analyse_with};
use sporadic_model::{Protocol, ResourceId, TaskId, TaskSet};
use std::alloc::Global;
use std::test::Fail;
use worked_sets::{SetRow, set_of, suits, task_row};

const MOST: u64 = 1_000_000;

/// A task of a short period and one of a long one, each on a processor of its own, with requests on a third.
const PAIR: SetRow = SetRow {
    processors: 3,
    homes: &[Some(3)],
    tasks: &[
        task_row!(1, 10, 3, [(0, 1)]),
        task_row!(2, 100, 20, [(0, 1)]),
    ],
};

/// The window of the second task's request at these bounds.
fn second_window(set: &TaskSet, bounds: &[u64]) -> Result<Option<u64>, Fail> {
    let (task, resource) = (TaskId(1), ResourceId(0));
    if set.tasks() == 2
        && set.resources() == 1
        && suits(set, Protocol::Dpcp)
        && are_within(set, bounds)
        && uses(set, task, resource)
    {
        return Ok(window(set, task, resource, bounds));
    }
    Err("out of range".into())
}

// In two ticks one request of the first task can run besides the second task's own. With the bound 9 of the first, two can: 2 + 9 is more
// than a period.
#[test]
fn finds_the_windows(rt: HostRuntime) -> Result<(), Fail> {
    let set = set_of(rt.alloc(), PAIR)?;
    assert_eq!(rt; second_window(&set, &[4, 21])?, Some(2));
    assert_eq!(rt; second_window(&set, &[9, 21])?, Some(3));
    Ok(())
}

// The rows of requests and of time as under DPCP, with three jobs of the first task, and after them the row of windows, with one.
#[test]
fn limits_the_requests_by_windows(rt: HostRuntime) -> Result<(), Fail> {
    let alloc = rt.alloc();
    let set = set_of(alloc, PAIR)?;
    let bounds = &[4, 21];
    if set.tasks() != 2 || !suits(&set, Protocol::Dpcp) || !are_within(&set, bounds) {
        return Err("out of range".into());
    }
    let program = program(alloc, &set, TaskId(1), bounds)?;
    assert_eq!(rt; program.columns(), 1);
    assert_eq!(rt; program.rows(), 3);
    for (r, limit) in [3, 9, 1].iter().enumerate() {
        if r < program.rows() as usize {
            assert_eq!(rt; program.limit(r as u32), *limit);
        }
    }
    Ok(())
}

/// Has the certificate these bounds and duals of whole numbers, given by their numerators?
fn holds(certificate: &Certificate, bounds: &[u64], numerators: &[&[u64]]) -> bool {
    certificate.bounds.as_slice() == bounds
        && certificate.duals.len() == numerators.len()
        && certificate
            .duals
            .iter()
            .zip(numerators.iter())
            .all(|(dual, num)| dual.den == 1 && dual.num.as_slice() == *num)
}

// Under DPCP three requests of the first task count for the second one, and one with windows.
#[test]
fn bounds_fall_with_windows(rt: HostRuntime) -> Result<(), Fail> {
    let alloc = rt.alloc();
    let set = set_of(alloc, PAIR)?;
    if !suits(&set, Protocol::Dpcp) {
        return Err("out of range".into());
    }
    let Ok(Verdict::Schedulable(plain)) = analyse(&rt, alloc, &set, Protocol::Dpcp, MOST) else {
        return Err("not shown under DPCP".into());
    };
    assert!(rt; holds(&plain, &[4, 23], &[&[1, 0, 0], &[1, 0]]));
    let Ok(Verdict::Schedulable(found)) = analyse_with(&rt, alloc, &set, &DPCP_WINDOWS, MOST) else {
        return Err("not shown with windows".into());
    };
    assert!(rt; holds(&found, &[4, 21], &[&[1, 0, 0], &[0, 0, 1]]));
    Ok(())
}

ghost use Rattle.std.specs.Prelude.{◌<◌, length, map, IsTrue};
ghost use Rattle.sporadic_model.specs.Bounds.{AreWithinDeadlines};

use crate::protocol_rows::{CASES, Case, LOCAL, PATHS};
use crate::threads::may_cross_threads;
use blocking_columns::{Class, Fragment, TaskPlace, cnt, columns_stand_in_order, task_places};
use closer_fmlp::CLOSER_FMLP_PLUS;
use closer_mpcp::CLOSER_MPCP;
use closer_spin::CLOSER_SPIN;
use program_form::{Coefficient, Program, RowBlock, SparseProgram};
use protocol_programs::{ProgramSource, Written};
use request_windows::DPCP_WINDOWS;
use sporadic_model::{Protocol, ResourceId, TaskId, TaskSet};
use std::alloc::{AllocError, Global};
use std::process::Abort;
use std::test::Fail;
use worked_sets::{BESIDE, SetRow, set_of, suits};

pub(crate) fn are_within(set: &TaskSet, bounds: &[u64]) -> bool
    ensures { IsTrue result → AreWithinDeadlines set.now bounds.now }
{
    if bounds.len() != set.tasks() as usize {
        return false;
    }
    for i in 0..set.tasks() {
        if bounds[i as usize] > set.latest_bound(TaskId(i)) {
            return false;
        }
    }
    true
}

/// The set of the rows. The function has no contract, so what its callers know doesn't have the rows.
fn built_set(alloc: Global, rows: SetRow<'_>) -> Result<TaskSet, Fail> {
    Ok(set_of(alloc, rows)?)
}

/// The program of the case, made by the source of the protocol's programs.
fn program_from_source(alloc: Global, set: &TaskSet, case: &Case) -> Result<Program, Fail> {
    let task = TaskId(case.task);
    if case.task < set.tasks() && suits(set, case.protocol) && are_within(set, case.bounds) {
        return Ok(Written(case.protocol).program(alloc, set, task, case.bounds)?);
    }
    Err("out of range".into())
}

/// The program of the case, with its set built for it.
fn program_of(alloc: Global, case: &Case) -> Result<Program, Fail> {
    let set = built_set(alloc, case.set)?;
    program_from_source(alloc, &set, case)
}

/// Are these the columns?
fn are_columns(columns: &[Fragment], wanted: &[(u32, u32, Class, u64)]) -> bool {
    columns.len() == wanted.len()
        && columns.iter().zip(wanted.iter()).all(|(column, (task, resource, class, _))| {
            column.task.0 == *task && column.resource.0 == *resource && column.class == *class
        })
}

/// The coefficients of a row.
fn row_of(alloc: Global, program: &Program, r: u32) -> Result<Vec<u64>, AllocError>
    requires { r < length program.now.rows }
{
    let mut row = Vec::new(alloc);
    for c in 0..program.columns() {
        row.push(program.entry(r, c))?;
    }
    Ok(row)
}

/// The columns of the case's program.
fn columns_of(alloc: Global, case: &Case) -> Result<Vec<Fragment>, Fail> {
    let set = built_set(alloc, case.set)?;
    if case.task >= set.tasks() || !suits(&set, case.protocol) {
        return Err("out of range".into());
    }
    Ok(blocking_columns::fragments(alloc, &set, case.protocol, TaskId(case.task))?)
}

fn has_columns(alloc: Global, case: &Case) -> Result<bool, Fail> {
    Ok(are_columns(&columns_of(alloc, case)?, case.columns))
}

#[test]
fn gives_the_columns(rt: HostRuntime) -> Result<(), Fail> {
    let alloc = rt.alloc();
    for case in CASES {
        assert!(rt; has_columns(alloc, case)?);
    }
    Ok(())
}

// The program has the costs and the limits of the case.
fn has_costs_and_limits(rt: &impl Abort, program: &Program, case: &Case) {
    assert_eq!(rt; program.columns() as usize, case.columns.len());
    assert_eq!(rt; program.rows() as usize, case.limits.len());
    for c in 0..program.columns() {
        let wanted = case.columns.get(c as usize).copied();
        assert_eq!(rt; Some(program.cost(c)), wanted.map(|column| column.3));
    }
    for r in 0..program.rows() {
        assert_eq!(rt;
            Some(program.limit(r)),
            case.limits.get(r as usize).copied()
        );
    }
}

#[test]
fn gives_the_costs_and_the_limits(rt: HostRuntime) -> Result<(), Fail> {
    for case in CASES {
        let program = program_of(rt.alloc(), case)?;
        has_costs_and_limits(&rt, &program, case);
    }
    Ok(())
}

// The program has the rows of the case.
fn has_rows(
    rt: &impl Abort,
    alloc: Global,
    program: &Program,
    rows: &[&[u64]],
) -> Result<(), AllocError> {
    assert_eq!(rt; program.rows() as usize, rows.len());
    for r in 0..program.rows() {
        let row = row_of(alloc, program, r)?;
        assert_eq!(rt; Some(row.as_slice()), rows.get(r as usize).copied());
    }
    Ok(())
}

#[test]
fn gives_the_rows(rt: HostRuntime) -> Result<(), Fail> {
    let alloc = rt.alloc();
    for case in CASES {
        let program = program_of(alloc, case)?;
        has_rows(&rt, alloc, &program, case.rows)?;
    }
    Ok(())
}

/// The same program by its nonzero coefficients.
fn formed_sparse(alloc: Global, set: &TaskSet, case: &Case) -> Result<SparseProgram, Fail> {
    let task = TaskId(case.task);
    if case.task < set.tasks() && suits(set, case.protocol) && are_within(set, case.bounds) {
        return Ok(Written(case.protocol).sparse_program(alloc, set, task, case.bounds)?);
    }
    Err("out of range".into())
}

fn sparse_program_of(alloc: Global, case: &Case) -> Result<SparseProgram, Fail> {
    let set = built_set(alloc, case.set)?;
    formed_sparse(alloc, &set, case)
}

/// The coefficients of a row that aren't zero.
fn nonzero_of(alloc: Global, program: &Program, r: u32) -> Result<Vec<Coefficient>, AllocError>
    requires { r < length program.now.rows }
{
    let mut row = Vec::new(alloc);
    for column in 0..program.columns() {
        let number = program.entry(r, column);
        if number != 0 {
            row.push(Coefficient { column, number })?;
        }
    }
    Ok(row)
}

// Both are the same program.
fn are_the_same(
    rt: &impl Abort,
    alloc: Global,
    sparse: &SparseProgram,
    program: &Program,
) -> Result<(), AllocError> {
    assert!(rt; sparse.columns() == program.columns() && sparse.rows() == program.rows());
    for c in 0..program.columns() {
        assert_eq!(rt; sparse.cost(c), program.cost(c));
    }
    assert_eq!(rt; sparse.limits(), program.limits());
    for r in 0..program.rows() {
        let row = nonzero_of(alloc, program, r)?;
        assert_eq!(rt; sparse.coefficients(r as usize), row.as_slice());
    }
    Ok(())
}

#[test]
fn gives_the_same_programs_by_their_nonzero_coefficients(rt: HostRuntime) -> Result<(), Fail> {
    let alloc = rt.alloc();
    for case in CASES {
        let program = program_of(alloc, case)?;
        let sparse = sparse_program_of(alloc, case)?;
        are_the_same(&rt, alloc, &sparse, &program)?;
    }
    Ok(())
}

/// The interference of the case's task at bounds that are no less than the costs.
fn interference_of(
    alloc: Global,
    set: SetRow<'_>,
    protocol: Protocol,
    bounds: &[u64],
) -> Result<u64, Fail> {
    let set = built_set(alloc, set)?;
    let at_costs = set.tasks() > 1 && are_within(&set, bounds) && bounds[0] >= set.cost(TaskId(0));
    if at_costs && suits(&set, protocol) {
        return Ok(Written(protocol).interference(&set, TaskId(1), bounds));
    }
    Err("out of range".into())
}

// At the bounds 4 and 9 two jobs of cost 2 count: 9 + (4 - 2) over 10, rounded up, is 2. Of the task with a local limit two jobs count at
// the bounds 6 and 9: with its cost 4 under MPCP, where 9 + (6 - 4) is 11, and with its local limit 2 under DPCP, where 9 + (6 - 2) is 13.
#[test]
fn counts_the_interference(rt: HostRuntime) -> Result<(), Fail> {
    let alloc = rt.alloc();
    assert_eq!(rt;
        interference_of(alloc, BESIDE, Protocol::FmlpPlus, &[4, 9, 7])?,
        4
    );
    assert_eq!(rt; interference_of(alloc, LOCAL, Protocol::Mpcp, &[6, 9])?, 8);
    assert_eq!(rt; interference_of(alloc, LOCAL, Protocol::Dpcp, &[6, 9])?, 4);
    Ok(())
}

/// Has the block these rows and these limits?
fn is_block(block: &RowBlock, rows: &[&'static [u64]], limits: &[u64]) -> bool {
    block.limits.as_slice() == limits
        && block.rows.len() == rows.len()
        && block
            .rows
            .iter()
            .zip(rows.iter())
            .all(|(row, wanted)| row.as_slice() == *wanted)
}

/// Bounds equal to the costs of the set of the paths.
const PATH_BOUNDS: [u64; 6] = [10; 6];

/// The common rows of the fourth task, and those of preemption.
fn common_and_preemption(alloc: Global, set: &TaskSet) -> Result<(RowBlock, RowBlock), Fail> {
    if set.tasks() != 6 || !are_within(set, &PATH_BOUNDS) {
        return Err("out of range".into());
    }
    let (i, mpcp) = (TaskId(3), Protocol::Mpcp);
    let columns = blocking_columns::fragments(alloc, set, mpcp, i)?;
    let common = direct_constraints::common(alloc, set, mpcp, i, &PATH_BOUNDS, &columns)?;
    let preemption = preempt_constraints::rows(alloc, set, mpcp, i, &PATH_BOUNDS, &columns)?;
    Ok((common, preemption))
}

// Eight common rows of the program of the paths, and none of preemption.
#[test]
fn gives_common_rows_and_those_of_preemption(rt: HostRuntime) -> Result<(), Fail> {
    let alloc = rt.alloc();
    let (common, preemption) = common_and_preemption(alloc, &built_set(alloc, PATHS)?)?;
    let limits = [1, 1, 1, 1, 10, 10, 10, 10];
    assert_eq!(rt; common.limits.as_slice(), limits.as_slice());
    assert!(rt; is_block(&preemption, &[], &[]));
    Ok(())
}

/// The places of the tasks among the columns of the fourth task.
fn places_of(alloc: Global, set: &TaskSet) -> Result<Vec<TaskPlace>, Fail> {
    if set.tasks() != 6 || !are_within(set, &PATH_BOUNDS) {
        return Err("out of range".into());
    }
    let (i, mpcp) = (TaskId(3), Protocol::Mpcp);
    let columns = blocking_columns::fragments(alloc, set, mpcp, i)?;
    let columns = columns.as_slice();
    columns_stand_in_order(set, mpcp, i, columns);
    Ok(task_places(alloc, set, i, &PATH_BOUNDS, columns)?)
}

fn place(from: usize, jobs: u64) -> TaskPlace {
    TaskPlace { from, jobs }
}

// The first two tasks and the last two have a column each.
#[test]
fn gives_the_places_of_tasks(rt: HostRuntime) -> Result<(), Fail> {
    let alloc = rt.alloc();
    let places = places_of(alloc, &built_set(alloc, PATHS)?)?;
    let wanted = [
        place(0, 1),
        place(1, 1),
        place(2, 1),
        place(2, 1),
        place(2, 1),
        place(3, 1),
        place(4, 0),
    ];
    assert_eq!(rt; places.as_slice(), wanted.as_slice());
    Ok(())
}

/// The rows of direct blocking of the fourth task, and those of indirect blocking.
fn direct_and_indirect(alloc: Global, set: &TaskSet) -> Result<(RowBlock, RowBlock), Fail> {
    if set.tasks() != 6 || !are_within(set, &PATH_BOUNDS) {
        return Err("out of range".into());
    }
    let (i, mpcp) = (TaskId(3), Protocol::Mpcp);
    let columns = blocking_columns::fragments(alloc, set, mpcp, i)?;
    let own = direct_constraints::own(alloc, set, mpcp, i, &PATH_BOUNDS, &columns)?;
    let indirect = indirect_constraints::rows(alloc, set, mpcp, i, &PATH_BOUNDS, &columns)?;
    Ok((own, indirect))
}

// One row of lower holders, and one of holdings.
#[test]
fn gives_direct_and_indirect_rows(rt: HostRuntime) -> Result<(), Fail> {
    let alloc = rt.alloc();
    let (own, indirect) = direct_and_indirect(alloc, &built_set(alloc, PATHS)?)?;
    assert!(rt; is_block(&own, &[&[0, 0, 0, 1]], &[1]));
    assert!(rt; is_block(&indirect, &[&[0, 0, 1, 0]], &[3]));
    Ok(())
}

// The bounds 60 and 60 together are more than a period of 100, so two jobs count.
#[test]
fn counts_the_requests_in_a_window(rt: HostRuntime) -> Result<(), Fail> {
    let set = built_set(rt.alloc(), PATHS)?;
    let bounds = [60; 6];
    if set.tasks() != 6 || set.resources() != 2 || !are_within(&set, &bounds) {
        return Err("out of range".into());
    }
    assert_eq!(rt; cnt(&set, TaskId(3), TaskId(4), ResourceId(1), &bounds), 2);
    Ok(())
}

#[test]
fn sources_may_cross_threads() {
    may_cross_threads(&Written(Protocol::Mpcp));
    may_cross_threads(&DPCP_WINDOWS);
    may_cross_threads(&CLOSER_FMLP_PLUS);
    may_cross_threads(&CLOSER_SPIN);
    may_cross_threads(&CLOSER_MPCP);
    may_cross_threads(&(Class::Direct, TaskId(0)));
}

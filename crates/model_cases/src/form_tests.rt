ghost use Rattle.std.specs.Prelude.{◌<◌, length};

use crate::simplex_tests::{program_of, program_or_refusal};
use crate::threads::may_cross_threads;
use program_form::{Certificate, Dual, MOST_NUMBER, Program, ProgramRefusal, RowBlock};
use std::alloc::{AllocError, Global};
use std::process::Abort;

const COSTS: [u64; 3] = [3, 2, 2];

const ROWS: &[&[u64]] = &[
    &[1, 0, 0],
    &[0, 1, 0],
    &[0, 0, 1],
    &[3, 2, 0],
    &[0, 0, 2],
    &[1, 0, 1],
    &[0, 1, 0],
];

const LIMITS: [u64; 7] = [1, 1, 1, 4, 3, 1, 1];

// The program has these costs and these limits.
fn has_costs_and_limits(rt: &impl Abort, program: &Program, costs: &[u64], limits: &[u64]) {
    for c in 0..program.columns() {
        assert_eq!(rt; Some(program.cost(c)), costs.get(c as usize).copied());
    }
    for r in 0..program.rows() {
        assert_eq!(rt; Some(program.limit(r)), limits.get(r as usize).copied());
    }
}

// The program has this row.
fn has_row(rt: &impl Abort, program: &Program, r: u32, row: &[u64])
    requires { r < length program.now.rows }
{
    for c in 0..program.columns() {
        assert_eq!(rt;
            Some(program.entry(r, c)),
            row.get(c as usize).copied(),
            "row {r}, column {c}"
        );
    }
}

#[test]
fn keeps_the_lists_that_it_is_given(rt: HostRuntime) -> Result<(), AllocError> {
    let program = program_of(&rt, rt.alloc(), &COSTS, ROWS, &LIMITS)?;
    may_cross_threads(&program);
    assert_eq!(rt; program.columns(), 3);
    assert_eq!(rt; program.rows(), 7);
    has_costs_and_limits(&rt, &program, &COSTS, &LIMITS);
    for r in 0..program.rows() {
        let row = ROWS.get(r as usize).copied().unwrap_or(&[]);
        has_row(&rt, &program, r, row);
    }
    Ok(())
}

// The lists are refused with this answer.
fn is_refused(
    rt: &impl Abort,
    alloc: Global,
    costs: &[u64],
    rows: &[&[u64]],
    limits: &[u64],
    wanted: ProgramRefusal,
) -> Result<(), AllocError> {
    let refusal = program_or_refusal(rt, alloc, costs, rows, limits)?.err();
    assert_eq!(rt; refusal, Some(wanted));
    Ok(())
}

#[test]
fn refuses_in_order(rt: HostRuntime) -> Result<(), AllocError> {
    let alloc = rt.alloc();
    let large = MOST_NUMBER + 1;
    is_refused(&rt, alloc, &[1], &[], &[], ProgramRefusal::Uncovered(0))?;
    is_refused(&rt, alloc, &[1], &[&[1, 1]], &[1], ProgramRefusal::Length)?;
    is_refused(&rt, alloc, &[large], &[&[1]], &[1], ProgramRefusal::Large)?;
    is_refused(&rt, alloc, &[large], &[&[1]], &[], ProgramRefusal::Length)
}

// The refusal is said in these words.
fn is_said(
    rt: &impl Abort,
    alloc: Global,
    refusal: ProgramRefusal,
    words: &str,
) -> Result<(), AllocError> {
    let text = format!(in alloc; "{refusal}")?;
    assert_eq!(rt; text.as_str(), words);
    Ok(())
}

#[test]
fn says_why_lists_are_refused(rt: HostRuntime) -> Result<(), AllocError> {
    let alloc = rt.alloc();
    is_said(
        &rt,
        alloc,
        ProgramRefusal::Length,
        "rows and limits differ in number, or a row and the costs in length",
    )?;
    is_said(
        &rt,
        alloc,
        ProgramRefusal::Uncovered(7),
        "column 7 has no coefficient above zero",
    )?;
    is_said(
        &rt,
        alloc,
        ProgramRefusal::Large,
        "a number is above 2^63 - 1",
    )
}

#[test]
fn plain_data_may_cross_threads(rt: HostRuntime) {
    let alloc = rt.alloc();
    may_cross_threads(&RowBlock {
        rows: Vec::new(alloc),
        limits: Vec::new(alloc),
    });
    may_cross_threads(&Dual {
        den: 1,
        num: Vec::new(alloc),
    });
    may_cross_threads(&Certificate {
        bounds: Vec::new(alloc),
        duals: Vec::new(alloc),
    });
    may_cross_threads(&ProgramRefusal::Large);
}

ghost use Rattle.std.specs.Prelude.{◌≡◌, length, vec_len, IfOk};

use crate::threads::may_cross_threads;
use fraction128::Frac;
use program_form::{Dual, Program, ProgramRefusal};
use simplex::{SolveStop, Solved, solve};
use std::alloc::{AllocError, Global};
use std::process::Abort;

const MOST: u64 = u64::MAX;

fn rows_of(alloc: Global, rows: &[&[u64]]) -> Result<Vec<Vec<u64>>, AllocError>
    ensures { IfOk result (λ v. vec_len v ≡ length rows.now) }
{
    let mut list = Vec::new(alloc);
    for row in rows {
        list.push(Vec::from_slice(alloc, row)?)?;
    }
    Ok(list)
}

/// What `Program::new` answers to these lists.
pub(crate) fn program_or_refusal(
    rt: &impl Abort,
    alloc: Global,
    costs: &[u64],
    rows: &[&[u64]],
    limits: &[u64],
) -> Result<Result<Program, ProgramRefusal>, AllocError> {
    assert!(rt; costs.len() < 1000 && rows.len() < 1000);
    let costs = Vec::from_slice(alloc, costs)?;
    let rows = rows_of(alloc, rows)?;
    let limits = Vec::from_slice(alloc, limits)?;
    Ok(Program::new(costs, rows, limits))
}

pub(crate) fn program_of(
    rt: &impl Abort,
    alloc: Global,
    costs: &[u64],
    rows: &[&[u64]],
    limits: &[u64],
) -> Result<Program, AllocError> {
    Ok(program_or_refusal(rt, alloc, costs, rows, limits)?.expect(rt, "a program"))
}

fn are_parts(values: &[Frac], parts: &[(i64, i64)]) -> bool {
    values.len() == parts.len()
        && values.iter().zip(parts.iter()).all(|(value, part)| value.num() == part.0
            && value.den() == part.1)
}

// A program, and the whole answer to it.
#[derive(Clone, Copy)]
pub(crate) struct Case<'a> {
    costs: &'a [u64],
    rows: &'a [&'a [u64]],
    limits: &'a [u64],
    value: (i64, i64),
    primal: &'a [(i64, i64)],
    den: u64,
    num: &'a [u64],
    pub(crate) exchanges: u64,
}

impl Case<'_> {
    pub(crate) fn program(&self, rt: &impl Abort, alloc: Global) -> Result<Program, AllocError> {
        program_of(rt, alloc, self.costs, self.rows, self.limits)
    }

    // The answer is the whole one.
    pub(crate) fn is_met(
        &self,
        rt: &impl Abort,
        value: Frac,
        primal: &[Frac],
        dual: &Dual,
        exchanges: u64,
    ) {
        assert_eq!(rt; (value.num(), value.den()), self.value);
        assert!(rt; are_parts(primal, self.primal), "the primal");
        assert_eq!(rt; dual.den, self.den);
        assert_eq!(rt; dual.num.as_slice(), self.num);
        assert_eq!(rt; exchanges, self.exchanges);
    }

    // It is answered within one unit more than its exchanges, and within no fewer.
    fn holds(&self, rt: &impl Abort, alloc: Global) -> Result<(), AllocError> {
        let program = self.program(rt, alloc)?;
        assert!(rt; self.exchanges < 1000);
        let short = solve(alloc, &program, self.exchanges);
        assert_eq!(rt; short.err(), Some(SolveStop::Units), "a unit short");
        for units in [self.exchanges + 1, MOST] {
            let solved = solve(alloc, &program, units).expect(rt, "a solution");
            let Solved {
                value,
                primal,
                dual,
                exchanges,
            } = solved;
            self.is_met(rt, value, &primal, &dual, exchanges);
        }
        Ok(())
    }
}

pub(crate) const CHAINED: Case<'static> = Case {
    costs: &[1, 1, 1],
    rows: &[&[1024, 0, 0], &[1, 1024, 0], &[0, 1, 1024]],
    limits: &[1, 1, 1],
    value: (3143681, 1073741824),
    primal: &[(1, 1024), (1023, 1048576), (1047553, 1073741824)],
    den: 1073741824,
    num: &[1047553, 1047552, 1048576],
    exchanges: 3,
};

pub(crate) const SEVEN_ROWS: Case<'static> = Case {
    costs: &[3, 2, 2],
    rows: &[
        &[1, 0, 0],
        &[0, 1, 0],
        &[0, 0, 1],
        &[3, 2, 0],
        &[0, 0, 2],
        &[1, 0, 1],
        &[0, 1, 0],
    ],
    limits: &[1, 1, 1, 4, 3, 1, 1],
    value: (14, 3),
    primal: &[(2, 3), (1, 1), (1, 3)],
    den: 3,
    num: &[0, 4, 0, 1, 0, 6, 0],
    exchanges: 4,
};

// Four primes below 2^20. Each cell fits in lowest terms, but the last row's common denominator becomes their product.
pub(crate) const FOUR_PRIMES: Case<'static> = Case {
    costs: &[1048573, 1048571, 1048559, 1048549],
    rows: &[
        &[1048573, 0, 0, 0],
        &[0, 1048571, 0, 0],
        &[0, 0, 1048559, 0],
        &[0, 0, 0, 1048549],
        &[1, 1, 1, 1],
    ],
    limits: &[0, 0, 0, 0, 1],
    value: (0, 1),
    primal: &[(0, 1), (0, 1), (0, 1), (0, 1)],
    den: 1,
    num: &[1, 1, 1, 1, 0],
    exchanges: 4,
};

#[test]
fn programs_are_answered_whole(rt: HostRuntime) -> Result<(), AllocError> {
    for case in [CHAINED, SEVEN_ROWS, FOUR_PRIMES] {
        case.holds(&rt, rt.alloc())?;
    }
    Ok(())
}

#[test]
fn ties_go_to_the_least_variable(rt: HostRuntime) -> Result<(), AllocError> {
    // Two rows with the same ratio: the first one's slack is the lesser variable.
    let tie = Case {
        costs: &[1],
        rows: &[&[1], &[1]],
        limits: &[1, 1],
        value: (1, 1),
        primal: &[(1, 1)],
        den: 1,
        num: &[1, 0],
        exchanges: 1,
    };
    tie.holds(&rt, rt.alloc())?;
    // The first exchange has the ratio 0, and the value stays.
    let level = Case {
        costs: &[1, 1],
        rows: &[&[1, 0], &[0, 1]],
        limits: &[0, 1],
        value: (1, 1),
        primal: &[(0, 1), (1, 1)],
        den: 1,
        num: &[1, 1],
        exchanges: 2,
    };
    level.holds(&rt, rt.alloc())
}

#[test]
fn runs_of_no_exchange_and_of_a_large_denominator(rt: HostRuntime) -> Result<(), AllocError> {
    let empty = Case {
        costs: &[],
        rows: &[&[]],
        limits: &[5],
        value: (0, 1),
        primal: &[],
        den: 1,
        num: &[0],
        exchanges: 0,
    };
    empty.holds(&rt, rt.alloc())?;
    let fine = Case {
        costs: &[1],
        rows: &[&[1 << 62]],
        limits: &[1],
        value: (1, 1 << 62),
        primal: &[(1, 1 << 62)],
        den: 1 << 62,
        num: &[1],
        exchanges: 1,
    };
    fine.holds(&rt, rt.alloc())
}

#[test]
fn a_cell_that_becomes_zero_comes_back(rt: HostRuntime) -> Result<(), AllocError> {
    // The first exchange takes 1 from the first cell of row 0 and leaves nothing there; the second leaves 1/2.
    let case = Case {
        costs: &[1, 3],
        rows: &[&[1, 1], &[1, 2]],
        limits: &[2, 1],
        value: (3, 2),
        primal: &[(0, 1), (1, 2)],
        den: 2,
        num: &[0, 3],
        exchanges: 2,
    };
    case.holds(&rt, rt.alloc())
}

// So many columns of cost 1, each below 1 by a row of its own.
fn columns_apart(rt: &impl Abort, alloc: Global, count: usize) -> Result<Program, AllocError> {
    let mut rows = Vec::new(alloc);
    for r in 0..count {
        let mut row = Vec::from_elem(alloc, 0, count)?;
        row[r] = 1;
        rows.push(row)?;
    }
    assert!(rt; count < 1000 && rows.len() < 1000);
    let costs = Vec::from_elem(alloc, 1, count)?;
    let limits = Vec::from_elem(alloc, 1, count)?;
    Ok(Program::new(costs, rows, limits).expect(rt, "a program"))
}

#[test]
fn four_hundred_columns_apart(rt: HostRuntime) -> Result<(), AllocError> {
    let alloc = rt.alloc();
    let program = columns_apart(&rt, alloc, 400)?;
    assert_eq!(rt; solve(alloc, &program, 400).err(), Some(SolveStop::Units));
    let solved = solve(alloc, &program, 401).expect(&rt, "a solution");
    assert_eq!(rt; (solved.value, solved.exchanges), (Frac::whole(400), 400));
    assert_eq!(rt; (solved.primal.len(), solved.dual.num.len()), (400, 400));
    assert!(rt; solved.primal.iter().all(|value| *value == Frac::whole(1)));
    assert!(rt; solved.dual.den == 1 && solved.dual.num.iter().all(|number| *number == 1));
    Ok(())
}

// The run of so many units stops with this.
fn stops(rt: &impl Abort, alloc: Global, program: &Program, units: u64, stop: SolveStop) {
    assert_eq!(rt; solve(alloc, program, units).err(), Some(stop));
}

#[test]
fn wide_runs(rt: HostRuntime) -> Result<(), AllocError> {
    let alloc = rt.alloc();
    let large = 1 << 30;
    let chained = program_of(
        &rt,
        alloc,
        &[1, 1, 1],
        &[&[large, 0, 0], &[1, large, 0], &[0, 1, large]],
        &[1, 1, 1],
    )?;
    // The third exchange has a ratio of denominator 2^90.
    stops(&rt, alloc, &chained, 4, SolveStop::Wide);
    stops(&rt, alloc, &chained, 3, SolveStop::Units);
    // The optimum is 2^64.
    let steep = program_of(&rt, alloc, &[1 << 62], &[&[1]], &[4])?;
    stops(&rt, alloc, &steep, 2, SolveStop::Wide);
    stops(&rt, alloc, &steep, 1, SolveStop::Units);
    // 2^62 less the product 2^63 would fit, but the product doesn't.
    let crossed = program_of(
        &rt,
        alloc,
        &[1, 1],
        &[&[1, 2], &[1 << 62, 1 << 62]],
        &[0, 5],
    )?;
    stops(&rt, alloc, &crossed, 2, SolveStop::Wide);
    Ok(())
}

#[test]
fn wide_duals(rt: HostRuntime) -> Result<(), AllocError> {
    let alloc = rt.alloc();
    // The duals 1/2^62 and 1/3 have no common denominator of 63 bits.
    let apart = program_of(&rt, alloc, &[1, 1], &[&[1 << 62, 0], &[0, 3]], &[0, 0])?;
    stops(&rt, alloc, &apart, 3, SolveStop::Wide);
    stops(&rt, alloc, &apart, 2, SolveStop::Units);
    // The duals 1/4 and 2^62 are 1 and 2^64 over 4.
    let uneven = program_of(&rt, alloc, &[1, 1 << 62], &[&[4, 0], &[0, 1]], &[0, 0])?;
    stops(&rt, alloc, &uneven, 3, SolveStop::Wide);
    Ok(())
}

#[test]
fn says_why_it_stops(rt: HostRuntime) -> Result<(), AllocError> {
    for (stop, text) in [
        (SolveStop::Memory, "there is no memory for the table"),
        (
            SolveStop::Wide,
            "a value of the exchange run passes 2^63 - 1",
        ),
        (
            SolveStop::Units,
            "the exchange run takes more units than it was given",
        ),
    ] {
        assert_eq!(rt; format!(in rt.alloc(); "{stop}")?.as_str(), text);
    }
    Ok(())
}

#[test]
fn answers_may_cross_threads(rt: HostRuntime) -> Result<(), AllocError> {
    let alloc = rt.alloc();
    let program = program_of(&rt, alloc, &[1], &[&[1]], &[1])?;
    let solved = solve(alloc, &program, 2).expect(&rt, "a solution");
    may_cross_threads(&solved);
    may_cross_threads(&SolveStop::Wide);
    Ok(())
}

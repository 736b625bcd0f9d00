ghost use Rattle.std.specs.Prelude.{◌≡◌, ℕ, ◌<◌, ◌≤◌, length, slice_index_or, pos, unsigned_abs, IfOk};
ghost use Rattle.whole_rows.specs.Marks.{HaveRoom};

use crate::simplex_tests::{CHAINED, Case, FOUR_PRIMES, SEVEN_ROWS, program_of};
use program_form::{Coefficient, Program, SparseProgram};
use std::alloc::{AllocError, Global};
use std::process::Abort;
use whole_rows::{Entry, Pivot, RowMarks, RowStop, WholeRow, push_num};
use whole_runs::{Ended, Halt, run_whole};

const MOST: u64 = i64::MAX as u64;

// The run ends within one unit more than its exchanges, and within no fewer.
fn ends(rt: &impl Abort, alloc: Global, case: &Case<'_>) -> Result<(), AllocError> {
    let program = SparseProgram::new(alloc, &case.program(rt, alloc)?)?;
    assert!(rt; case.exchanges < 1000);
    let short = run_whole(alloc, &program, case.exchanges);
    assert_eq!(rt; short.err(), Some(Halt::Units), "a unit short");
    for units in [case.exchanges + 1, u64::MAX] {
        let ended = run_whole(alloc, &program, units).expect(rt, "an end");
        let Ended {
            value,
            primal,
            dual,
            exchanges,
        } = ended;
        case.is_met(rt, value, &primal, &dual, exchanges);
    }
    Ok(())
}

#[test]
fn runs_end_as_the_solver_answers(rt: HostRuntime) -> Result<(), AllocError> {
    for case in [CHAINED, SEVEN_ROWS] {
        ends(&rt, rt.alloc(), &case)?;
    }
    Ok(())
}

// The run of so many units halts, since a number is too large.
fn is_large(
    rt: &impl Abort,
    alloc: Global,
    program: &Program,
    units: u64,
) -> Result<(), AllocError> {
    let program = SparseProgram::new(alloc, program)?;
    assert_eq!(rt; run_whole(alloc, &program, units).err(), Some(Halt::Large));
    Ok(())
}

#[test]
fn numbers_over_one_denominator_are_large(rt: HostRuntime) -> Result<(), AllocError> {
    let alloc = rt.alloc();
    // The last row would be over the product of four primes, which is more than 2^79.
    is_large(&rt, alloc, &FOUR_PRIMES.program(&rt, alloc)?, 5)?;
    // This run is wide for the solver too.
    let large = 1 << 30;
    let chained = program_of(
        &rt,
        alloc,
        &[1, 1, 1],
        &[&[large, 0, 0], &[1, large, 0], &[0, 1, large]],
        &[1, 1, 1],
    )?;
    is_large(&rt, alloc, &chained, 4)
}

// Each number is at most this great in size.
fn are_within(rt: &impl Abort, most: u64, nums: &[i64])
    ensures { (k : ℕ) → unsigned_abs (slice_index_or nums.now k (pos 0)) ≤ most }
{
    for num in nums {
        assert!(rt; num.unsigned_abs() <= most);
    }
}

// A row over 1, none of whose numbers is greater in size than `most`.
fn row_of(
    rt: &impl Abort,
    alloc: Global,
    nums: &[i64],
    limit: i64,
    most: u64,
) -> Result<WholeRow, AllocError> {
    are_within(rt, most, nums);
    assert!(rt; limit.unsigned_abs() <= most && 1 <= most && most <= MOST);
    Ok(WholeRow::over_one(Vec::from_slice(alloc, nums)?, limit, most))
}

// It has these numbers, this limit and this denominator.
fn reads(rt: &impl Abort, row: &WholeRow, nums: &[i64], limit: i64, den: i64) {
    assert_eq!(rt;
        (row.places(), row.limit(), row.den()),
        (nums.len(), limit, den)
    );
    for k in 0..row.places() {
        assert_eq!(rt; Some(row.num(k)), nums.get(k).copied(), "place {k}");
    }
}

fn enter(rt: &impl Abort, alloc: Global, row: &mut WholeRow, k: usize) -> Result<(), AllocError> {
    assert!(rt; k < row.places());
    assert!(rt; row.num(k) > 0);
    row.enter(alloc, k)
}

// Subtracts a divided row times its own cell at place k.
fn take(
    rt: &impl Abort,
    alloc: Global,
    row: &mut WholeRow,
    k: usize,
    divided: &WholeRow,
) -> Result<Result<(), RowStop>, AllocError> {
    let mut pivot = Pivot::none(alloc);
    pivot.read(divided)?;
    assert!(rt; row.places() == divided.places() && k < row.places());
    Ok(row.take(alloc, k, &pivot))
}

// What is left fits.
fn take_off(
    rt: &impl Abort,
    alloc: Global,
    row: &mut WholeRow,
    k: usize,
    divided: &WholeRow,
) -> Result<(), AllocError> {
    assert!(rt; take(rt, alloc, row, k, divided)?.is_ok());
    Ok(())
}

// The divided row is taken from another one, of numbers that aren't greater in size than `most`.
fn is_taken_away(
    rt: &impl Abort,
    alloc: Global,
    divided: &WholeRow,
    most: u64,
) -> Result<(), AllocError> {
    let mut row = row_of(rt, alloc, &[1, 4, 2], 7, most)?;
    take_off(rt, alloc, &mut row, 2, divided)?;
    reads(rt, &row, &[-1, 12, -2], 11, 3);
    Ok(())
}

#[test]
fn a_row_is_divided_and_taken_away(rt: HostRuntime) -> Result<(), AllocError> {
    let alloc = rt.alloc();
    let mut divided = row_of(&rt, alloc, &[2, 0, 3], 5, 5)?;
    enter(&rt, alloc, &mut divided, 2)?;
    reads(&rt, &divided, &[2, 0, 1], 5, 3);
    let mut pivot = Pivot::none(alloc);
    assert_eq!(rt; pivot.entries(), [].as_slice());
    pivot.read(&divided)?;
    let entries = [Entry { place: 0, num: 2 }, Entry { place: 2, num: 1 }];
    assert_eq!(rt; pivot.entries(), entries.as_slice());
    // A bound that leaves no room is measured anew.
    is_taken_away(&rt, alloc, &divided, 7)?;
    is_taken_away(&rt, alloc, &divided, MOST)
}

#[test]
fn a_common_divisor_is_taken_off(rt: HostRuntime) -> Result<(), AllocError> {
    let alloc = rt.alloc();
    let mut first = row_of(&rt, alloc, &[2, 1], 1, 2)?;
    let mut second = row_of(&rt, alloc, &[1, 2], 3, 3)?;
    let mut third = row_of(&rt, alloc, &[1, 3], 2, 3)?;
    enter(&rt, alloc, &mut first, 0)?;
    reads(&rt, &first, &[1, 1], 1, 2);
    take_off(&rt, alloc, &mut second, 0, &first)?;
    take_off(&rt, alloc, &mut third, 0, &first)?;
    reads(&rt, &second, &[-1, 3], 5, 2);
    reads(&rt, &third, &[-1, 5], 3, 2);
    enter(&rt, alloc, &mut second, 1)?;
    reads(&rt, &second, &[-1, 2], 5, 3);
    take_off(&rt, alloc, &mut third, 1, &second)?;
    reads(&rt, &third, &[2, -10], -16, 6);
    // 6, -10 and -16 over 2.
    enter(&rt, alloc, &mut third, 0)?;
    reads(&rt, &third, &[3, -5], -8, 1);
    Ok(())
}

#[test]
fn what_is_left_fits_up_to_the_last_number(rt: HostRuntime) -> Result<(), AllocError> {
    let alloc = rt.alloc();
    let half = 1 << 62;
    for (num, want) in [(1 - half, Ok(())), (-half, Err(RowStop::Large))] {
        let mut divided = row_of(&rt, alloc, &[1, num], 0, 1 << 62)?;
        enter(&rt, alloc, &mut divided, 0)?;
        let mut row = row_of(&rt, alloc, &[1, half], 0, 1 << 62)?;
        assert_eq!(rt; take(&rt, alloc, &mut row, 0, &divided)?, want, "{num}");
        if want.is_ok() {
            reads(&rt, &row, &[-1, i64::MAX], 0, 1);
        }
    }
    Ok(())
}

// The row of three places with one coefficient.
fn row_of_one(
    rt: &impl Abort,
    alloc: Global,
    coefficient: Coefficient,
    limit: u64,
) -> Result<WholeRow, AllocError> {
    let Coefficient { column, number } = coefficient;
    assert!(rt; column < 3 && 0 < number && number <= MOST && limit <= MOST);
    WholeRow::of_coefficients(alloc, 3, &[coefficient], limit)
}

// The row of one coefficient at place 1 is divided by it, and taken from the row of 3 at that place and the limit 30. What is wanted is the
// number there, the limit and the denominator, first of the divided row and then of what is left.
fn is_entered(
    rt: &impl Abort,
    alloc: Global,
    coefficient: Coefficient,
    divided: (i64, i64, i64),
    left: (i64, i64, i64),
) -> Result<(), AllocError> {
    let mut row = row_of_one(rt, alloc, coefficient, 7)?;
    enter(rt, alloc, &mut row, 1)?;
    reads(rt, &row, &[0, divided.0, 0], divided.1, divided.2);
    let mut other = row_of_one(
        rt,
        alloc,
        Coefficient {
            column: 1,
            number: 3,
        },
        30,
    )?;
    take_off(rt, alloc, &mut other, 1, &row)?;
    reads(rt, &other, &[0, left.0, 0], left.1, left.2);
    Ok(())
}

#[test]
fn rows_of_one_coefficient(rt: HostRuntime) -> Result<(), AllocError> {
    let alloc = rt.alloc();
    let first = row_of_one(
        &rt,
        alloc,
        Coefficient {
            column: 2,
            number: 5,
        },
        9,
    )?;
    reads(&rt, &first, &[0, 0, 5], 9, 1);
    is_entered(
        &rt,
        alloc,
        Coefficient {
            column: 1,
            number: 1,
        },
        (1, 7, 1),
        (-3, 9, 1),
    )?;
    is_entered(
        &rt,
        alloc,
        Coefficient {
            column: 1,
            number: 2,
        },
        (1, 7, 2),
        (-3, 39, 2),
    )
}

#[test]
fn zero_gets_no_entry(rt: HostRuntime) -> Result<(), AllocError> {
    let mut list = Vec::new(rt.alloc());
    for (place, num) in [(2, 7), (3, 0), (5, -4)] {
        push_num(&mut list, place, num)?;
    }
    let want = [Entry { place: 2, num: 7 }, Entry { place: 5, num: -4 }];
    assert_eq!(rt; list.as_slice(), want.as_slice());
    Ok(())
}

// From a row on, which of 130 rows is the next one marked at a variable? 130 where there is none.
fn next_rows(rt: &impl Abort, marks: &RowMarks, wanted: &[(usize, usize, usize)])
    requires { HaveRoom 3 130 marks.now }
{
    for (v, from, want) in wanted {
        assert!(rt; *v < 3 && *from <= 130);
        assert_eq!(rt;
            marks.next(*v, *from, 130),
            *want,
            "variable {v} from {from} on"
        );
    }
}

#[test]
fn marks_of_130_rows(rt: HostRuntime) -> Result<(), AllocError> {
    let mut marks = RowMarks::none(rt.alloc(), 3, 130)?;
    next_rows(&rt, &marks, &[(0, 0, 130), (1, 0, 130), (2, 0, 130)]);
    marks.mark(1, 0);
    marks.mark(1, 63);
    marks.mark(1, 64);
    marks.mark(1, 129);
    marks.mark(2, 70);
    next_rows(
        &rt,
        &marks,
        &[
            (0, 0, 130),
            (1, 0, 0),
            (1, 1, 63),
            (1, 64, 64),
            (1, 65, 129),
            (1, 130, 130),
            (2, 0, 70),
            (2, 71, 130),
        ],
    );
    marks.unmark(1, 64);
    next_rows(
        &rt,
        &marks,
        &[(1, 0, 0), (1, 1, 63), (1, 64, 129), (2, 0, 70)],
    );
    Ok(())
}

use crate::simplex_tests::{CHAINED, program_of};
use free_search::{Found, round_down, search};
use point_tests::{is_worth, worth_sum};
use program_form::{Dual, SparseProgram};
use std::alloc::{AllocError, Global};
use std::cmp::Ordering;
use std::test::Fail;
use whole_numbers::{Signed, Whole, common_divisor};

// 2^64.
const LIMB: u128 = 18_446_744_073_709_551_616;

fn is(alloc: Global, number: &Whole, wanted: u128) -> Result<bool, AllocError> {
    Ok(number.compare(&Whole::of_u128(alloc, wanted)?) == Ordering::Equal)
}

// 2^64 - 1 and 1 are 2^64, and so many times that and 2^64 - 1 are 2^128 - 1.
#[test]
fn sums_carry_and_differences_borrow(rt: HostRuntime) -> Result<(), AllocError> {
    let alloc = rt.alloc();
    let most = Whole::of(alloc, u64::MAX);
    assert_eq!(rt; most.as_u64(), Some(u64::MAX));
    let limb = most.plus(alloc, &Whole::of(alloc, 1))?;
    assert!(rt; is(alloc, &limb, LIMB)?);
    assert_eq!(rt; limb.as_u64(), None);
    let mut sum = Whole::zero(alloc);
    assert!(rt; sum.is_zero());
    sum.add_times(&limb, u64::MAX)?;
    sum = sum.plus_times(alloc, &most, 1)?;
    assert!(rt; is(alloc, &sum, u128::MAX)?);
    assert!(rt; limb.is_at_most(&sum) && !sum.is_at_most(&limb));
    let rest = limb.minus(alloc, &Whole::of(alloc, 2))?;
    assert_eq!(rt; rest.as_u64(), Some(u64::MAX - 1));
    let mut same = sum.copy(alloc)?;
    same.take_away(&sum);
    assert!(rt; same.is_zero());
    Ok(())
}

// (2^128 - 1)(2^64 + 1) has 193 bits. 2^128 - 1 is 34028236692093846346337460743176821145 tens and 5.
#[test]
fn quotients_are_multiplied_back(rt: HostRuntime) -> Result<(), AllocError> {
    let alloc = rt.alloc();
    let number = Whole::of_u128(alloc, u128::MAX)?;
    let divisor = Whole::of_u128(alloc, LIMB + 1)?;
    let product = number.times(alloc, &divisor)?;
    assert_eq!(rt; product.bits(), 193);
    let division = product
        .plus(alloc, &Whole::of(alloc, 7))?
        .divided_by(alloc, &divisor)?;
    assert!(rt; is(alloc, &division.quotient, u128::MAX)?);
    assert_eq!(rt; division.rest.as_u64(), Some(7));
    let mut tens = number.copy(alloc)?;
    assert_eq!(rt; tens.divide_by(10), 5);
    assert!(rt;
        is(
            alloc,
            &tens,
            34_028_236_692_093_846_346_337_460_743_176_821_145
        )?
    );
    let shifted = Whole::of(alloc, 3).shifted_left(alloc, 70)?;
    assert!(rt; is(alloc, &shifted, 192 * LIMB)?);
    assert_eq!(rt; shifted.shifted_right(alloc, 71)?.as_u64(), Some(1));
    let divisor = common_divisor(alloc, &shifted, &Whole::of_u128(alloc, 15 * LIMB)?)?;
    assert!(rt; is(alloc, &divisor, 3 * LIMB)?);
    Ok(())
}

// 5 less 2 times 4 is -3, and 1 less 2 times that is 7.
#[test]
fn signed_numbers_keep_their_sign(rt: HostRuntime) -> Result<(), AllocError> {
    let alloc = rt.alloc();
    let two = Signed::of(Whole::of(alloc, 2));
    let mut below = Signed::of(Whole::of(alloc, 5));
    assert!(rt; below.is_above_zero() && !below.is_zero());
    below.take_product(alloc, &two, &Signed::of(Whole::of(alloc, 4)))?;
    assert_eq!(rt; below.size().as_u64(), Some(3));
    assert!(rt; !below.is_above_zero() && !below.is_zero());
    let mut above = Signed::of(Whole::of(alloc, 1));
    above.take_product(alloc, &two, &below.copy(alloc)?)?;
    assert!(rt; above.is_above_zero());
    above.multiply(alloc, &Whole::of_u128(alloc, LIMB)?)?;
    above.divide(alloc, &Whole::of(alloc, 7))?;
    assert!(rt; is(alloc, &above.into_size(), LIMB)?);
    Ok(())
}

// A column of 5 ticks and a row that asks for 3 times it to be at most 2. Two thirds, over 3 times 2^64, are worth 3 ticks and a third.
#[test]
fn points_of_any_size_are_tested(rt: HostRuntime) -> Result<(), AllocError> {
    let alloc = rt.alloc();
    let program = program_of(&rt, alloc, &[5], &[&[3]], &[2])?;
    let program = SparseProgram::new(alloc, &program)?;
    assert_eq!(rt; program.columns(), 1);
    let den = Whole::of_u128(alloc, 3 * LIMB)?;
    let best = [Whole::of_u128(alloc, 2 * LIMB)?];
    assert!(rt; is_worth(alloc, &program, &den, &best, 3)?);
    assert!(rt; !is_worth(alloc, &program, &den, &best, 4)?);
    assert!(rt; is(alloc, &worth_sum(alloc, &program, &best)?, 10 * LIMB)?);
    let beyond = [Whole::of_u128(alloc, 2 * LIMB + 1)?];
    assert!(rt; !is_worth(alloc, &program, &den, &beyond, 3)?);
    let none = Whole::zero(alloc);
    assert!(rt; !is_worth(alloc, &program, &none, &best, 3)?);
    Ok(())
}

fn are(numbers: &[Whole], wanted: &[u64]) -> bool {
    numbers.len() == wanted.len()
        && numbers
            .iter()
            .zip(wanted.iter())
            .all(|(number, w)| number.as_u64() == Some(*w))
}

// The solver's point and dual, each over one denominator. The point is worth less than a tick. Each exchange takes a unit, and so does the
// search.
#[test]
fn searches_end_as_the_solver_answers(rt: HostRuntime) -> Result<(), Fail> {
    let alloc = rt.alloc();
    let program = SparseProgram::new(alloc, &CHAINED.program(&rt, alloc)?)?;
    let found = search(alloc, &program, 4)?;
    assert_eq!(rt; found.den.as_u64(), Some(1073741824));
    assert!(rt; are(&found.num, &[1048576, 1047552, 1047553]));
    assert!(rt; found.ticks == 0 && found.used == 4);
    assert_eq!(rt; found.dual.den, 1073741824);
    assert_eq!(rt;
        found.dual.num.as_slice(),
        [1047553, 1047552, 1048576].as_slice()
    );
    let Some(point) = round_down(alloc, &found)? else {
        return Err("the point fits".into());
    };
    assert_eq!(rt; point.den, 1073741824);
    assert_eq!(rt;
        point.num.as_slice(),
        [1048576, 1047552, 1047553].as_slice()
    );
    Ok(())
}

// 2^63 over 2^64 + 1 has more than 63 bits in lowest terms. It is a little less than a half, so over 2^62 it is 2^61 - 1.
#[test]
fn wide_points_are_rounded_down(rt: HostRuntime) -> Result<(), Fail> {
    let alloc = rt.alloc();
    let found = Found {
        den: Whole::of_u128(alloc, LIMB + 1)?,
        num: vec![in alloc; Whole::of(alloc, 1 << 63)]?,
        ticks: 0,
        dual: Dual {
            den: 1,
            num: Vec::new(alloc),
        },
        used: 1,
    };
    let Some(point) = round_down(alloc, &found)? else {
        return Err("the point fits".into());
    };
    assert_eq!(rt; point.den, 4611686018427387904);
    assert_eq!(rt; point.num.as_slice(), [2305843009213693951].as_slice());
    Ok(())
}

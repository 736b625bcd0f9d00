ghost use Rattle.std.specs.Prelude.{pos, ◌≤ℤ◌};

use crate::threads::may_cross_threads;
use fraction128::{
    Frac, Scaled, ScalingError, Wide, common_denominator, greatest_common_divisor, scale,
};
use std::cmp::Ordering;
use std::process::Abort;
use std::test::Fail;

const MOST: i128 = 9223372036854775807;

fn make(rt: &impl Abort, num: i128, den: i128) -> Frac {
    assert!(rt; den > 0);
    Frac::ratio(num, den).expect(rt, "a form")
}

// What an operation gave, as parts.
fn parts(outcome: Result<Frac, Wide>) -> Option<(i64, i64)> {
    match outcome {
        Ok(value) => Some((value.num(), value.den())),
        Err(Wide) => None,
    }
}

/// A numerator and a denominator, and the fraction in lowest terms.
type Ratio = (i128, i128, Option<(i64, i64)>);

const RATIOS: &[Ratio] = &[
    (2, 4, Some((1, 2))),
    (0, 7, Some((0, 1))),
    (-6, 4, Some((-3, 2))),
    (-MOST, 1, Some((-9223372036854775807, 1))),
    (-MOST - 1, 1, None),
    (MOST + 1, 1, None),
    (1, MOST + 1, None),
    (MOST + 1, 2, Some((4611686018427387904, 1))),
    (i128::MIN, i128::MAX, None),
    (i128::MIN, 1 << 126, Some((-2, 1))),
];

#[test]
fn ratio_takes_lowest_terms(rt: HostRuntime) {
    for (num, den, want) in RATIOS {
        assert!(rt; *den > 0);
        assert_eq!(rt; parts(Frac::ratio(*num, *den)), *want, "{num}/{den}");
    }
}

// The sum, difference, product and quotient of two fractions.
fn results(rt: &impl Abort, a: Frac, b: Frac) -> [Option<(i64, i64)>; 4] {
    assert!(rt; !b.is_zero());
    [
        parts(a.add(b)),
        parts(a.sub(b)),
        parts(a.mul(b)),
        parts(a.div(b)),
    ]
}

/// Two fractions, and what their sum, difference, product and quotient are.
type Operation = ((i128, i128), (i128, i128), &'static [Option<(i64, i64)>]);

const OPERATIONS: &[Operation] = &[
    (
        (1, 3),
        (1, 6),
        &[Some((1, 2)), Some((1, 6)), Some((1, 18)), Some((2, 1))],
    ),
    (
        (1 << 62, 1),
        (2, 1),
        &[
            Some((4611686018427387906, 1)),
            Some((4611686018427387902, 1)),
            None,
            Some((2305843009213693952, 1)),
        ],
    ),
    (
        (1 << 62, 1),
        (2, 4),
        &[
            None,
            Some((9223372036854775807, 2)),
            Some((2305843009213693952, 1)),
            None,
        ],
    ),
    (
        (1, 2),
        (-3, 4),
        &[Some((-1, 4)), Some((5, 4)), Some((-3, 8)), Some((-2, 3))],
    ),
    (
        (0, 7),
        (-5, 9),
        &[Some((-5, 9)), Some((5, 9)), Some((0, 1)), Some((0, 1))],
    ),
    (
        (MOST, 1),
        (-MOST, 1),
        &[Some((0, 1)), None, None, Some((-1, 1))],
    ),
    (
        (-MOST, 1),
        (-MOST, 1),
        &[None, Some((0, 1)), None, Some((1, 1))],
    ),
    (
        (MOST, 1),
        (2, 1),
        &[
            None,
            Some((9223372036854775805, 1)),
            None,
            Some((9223372036854775807, 2)),
        ],
    ),
    (
        (MOST - 1, MOST),
        (1, MOST),
        &[
            Some((1, 1)),
            Some((9223372036854775805, 9223372036854775807)),
            None,
            Some((9223372036854775806, 1)),
        ],
    ),
    (
        (1, MOST),
        (1, MOST),
        &[
            Some((2, 9223372036854775807)),
            Some((0, 1)),
            None,
            Some((1, 1)),
        ],
    ),
    ((1, MOST), (-MOST, 1), &[None, None, Some((-1, 1)), None]),
    ((-MOST, 1), (1, MOST), &[None, None, Some((-1, 1)), None]),
    (
        (1, MOST),
        (1, MOST - 1),
        &[
            None,
            None,
            None,
            Some((9223372036854775806, 9223372036854775807)),
        ],
    ),
    (
        (MOST, MOST - 1),
        (MOST - 1, MOST),
        &[None, None, Some((1, 1)), None],
    ),
];

#[test]
fn operations_are_exact_or_wide(rt: HostRuntime) {
    for ((an, ad), (bn, bd), want) in OPERATIONS {
        let got = results(&rt, make(&rt, *an, *ad), make(&rt, *bn, *bd));
        assert_eq!(rt; got.as_slice(), *want, "{an}/{ad} and {bn}/{bd}");
    }
}

#[test]
fn single_fractions(rt: HostRuntime) {
    assert_eq!(rt;
        parts(Ok(make(&rt, -MOST, 1).neg())),
        Some((9223372036854775807, 1))
    );
    assert_eq!(rt; parts(Ok(Frac::whole(7))), Some((7, 1)));
    assert!(rt; make(&rt, 1, 2).is_above_zero());
}

/// Two fractions, and their order.
type Pair = ((i128, i128), (i128, i128), Ordering);

const ORDERS: &[Pair] = &[
    ((1, 2), (1, 3), Ordering::Greater),
    ((-1, 3), (1, 2), Ordering::Less),
    ((1, 2), (3, 6), Ordering::Equal),
    ((MOST - 1, 1), (MOST, 1), Ordering::Less),
    ((MOST - 1, MOST), (MOST - 2, MOST - 1), Ordering::Greater),
    ((-1, MOST), (0, 1), Ordering::Less),
];

#[test]
fn order_is_by_value(rt: HostRuntime) {
    for ((an, ad), (bn, bd), want) in ORDERS {
        let a = make(&rt, *an, *ad);
        let b = make(&rt, *bn, *bd);
        assert_eq!(rt; a.cmp(b), *want, "{an}/{ad} and {bn}/{bd}");
        assert_eq!(rt; Ord::cmp(&a, &b), *want);
        assert_eq!(rt; (a == b), (*want == Ordering::Equal));
        assert_eq!(rt; a.at_most(b), (*want != Ordering::Greater));
    }
}

const FLOORS: &[(i128, i128, i64)] = &[
    (-7, 2, -4),
    (7, 2, 3),
    (-4, 2, -2),
    (0, 1, 0),
    (-1, MOST, -1),
    (-MOST, 1, -9223372036854775807),
    (MOST, 2, 4611686018427387903),
];

#[test]
fn floor_rounds_down(rt: HostRuntime) {
    for (num, den, want) in FLOORS {
        assert_eq!(rt; make(&rt, *num, *den).floor(), *want, "{num}/{den}");
    }
}

#[test]
fn texts(rt: HostRuntime) -> Result<(), Fail> {
    let alloc = rt.alloc();
    let lowest = make(&rt, -MOST, 1);
    let text = format!(in alloc; "{lowest}")?;
    assert_eq!(rt; text.as_str(), "-9223372036854775807/1");
    let part = make(&rt, 6, 8);
    let text = format!(in alloc; "{part}")?;
    assert_eq!(rt; text.as_str(), "3/4");
    let text = format!(in alloc; "{}", Wide)?;
    assert_eq!(rt;
        text.as_str(),
        "the exact value passes 2^63 - 1 in lowest terms"
    );
    Ok(())
}

fn part(rt: &impl Abort, num: i128, den: i128) -> Frac
    ensures { pos 0 ≤ℤ result.num }
{
    let value = make(rt, num, den);
    assert!(rt; value.num() >= 0);
    value
}

#[test]
fn lists_are_scaled(rt: HostRuntime) {
    let values = [part(&rt, 1, 4), part(&rt, 5, 6), part(&rt, 0, 1)];
    assert_eq!(rt; common_denominator(&values), Ok(12));
    match scale(rt.alloc(), &values) {
        Ok(Scaled { den, num }) => {
            assert_eq!(rt; den, 12);
            assert_eq!(rt; num.as_slice(), [3, 10, 0].as_slice());
        }
        Err(_) => assert!(rt; false, "no scaling"),
    }
}

#[test]
fn scaling_is_wide_past_the_limit(rt: HostRuntime) {
    let fine = part(&rt, 1, 1 << 62);
    let third = part(&rt, 1, 3);
    assert_eq!(rt; common_denominator(&[fine, third]), Err(Wide));
    assert_eq!(rt; common_denominator(&[fine, fine]), Ok(1 << 62));
    let large = part(&rt, 1 << 62, 1);
    let quarter = part(&rt, 1, 4);
    match scale(rt.alloc(), &[large, quarter]) {
        Ok(_) => assert!(rt; false, "a scaling"),
        Err(error) => assert_eq!(rt; error, ScalingError::Wide),
    }
}

/// Two numbers, and their greatest common divisor.
type Divisor = (u64, u64, u64);

const DIVISORS: &[Divisor] = &[
    (12, 18, 6),
    (0, 5, 5),
    (1 << 63, (1 << 62) + (1 << 61), 1 << 61),
];

#[test]
fn greatest_common_divisors(rt: HostRuntime) {
    for (a, b, want) in DIVISORS {
        assert_eq!(rt; greatest_common_divisor(*a, *b), *want, "{a} and {b}");
    }
}

#[test]
fn values_cross_threads(rt: HostRuntime) {
    may_cross_threads(&make(&rt, 1, 2));
    may_cross_threads(&Wide);
}

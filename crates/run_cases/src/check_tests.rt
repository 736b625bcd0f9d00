use dual_check::{Invalid, check, has_denominators};
use program_form::{Certificate, Dual};
use sporadic_model::{Protocol, TaskId};
use std::alloc::{AllocError, Global};
use std::test::Fail;
use worked_sets::{BESIDE, PAIR, SetRow, THREE, set_of, suits};

// A dual: its denominator and its numerators.
type Numbers = (u64, &'static [u64]);

fn certificate_of(
    alloc: Global,
    bounds: &[u64],
    duals: &[Numbers],
) -> Result<Certificate, AllocError> {
    let mut list = Vec::new(alloc);
    for (den, num) in duals {
        list.push(Dual {
            den: *den,
            num: Vec::from_slice(alloc, num)?,
        })?;
    }
    Ok(Certificate {
        bounds: Vec::from_slice(alloc, bounds)?,
        duals: list,
    })
}

// A certificate: its bounds and its duals. And what is answered: the values of its duals, or why it is not valid.
type Case = (
    &'static [u64],
    &'static [Numbers],
    Result<&'static [u64], Invalid>,
);

const BEST: &[Numbers] = &[(1, &[2, 0, 0, 0]), (1, &[1, 0, 0, 0])];

// For the pair under FMLP+. The sums of the second pass 128 bits.
const OF_PAIR: &[Case] = &[
    (&[5, 5], BEST, Ok(&[2, 1])),
    (
        &[5, 5],
        &[
            (1, &[u64::MAX, u64::MAX, u64::MAX, u64::MAX]),
            (1, &[1, 0, 0, 0]),
        ],
        Err(Invalid::Small(TaskId(0))),
    ),
];

// For other sets. The first dual of the last one is worth 14/3.
const OF_OTHERS: &[(SetRow, Protocol, Case)] = &[
    (
        PAIR,
        Protocol::Dpcp,
        (&[5, 5], &[(1, &[2, 0, 0]), (1, &[1, 0])], Ok(&[2, 1])),
    ),
    (
        BESIDE,
        Protocol::FmlpPlus,
        (
            &[4, 11, 7],
            &[(1, &[2, 0, 0]), (1, &[3, 0, 0, 0]), (1, &[2, 0, 0, 0])],
            Ok(&[2, 3, 2]),
        ),
    ),
    (
        THREE,
        Protocol::Mpcp,
        (
            &[8, 8, 7],
            &[
                (3, &[0, 4, 0, 1, 0, 6, 0]),
                (1, &[1, 1, 2, 0, 0, 0]),
                (1, &[1, 3, 0, 0]),
            ],
            Ok(&[4, 4, 4]),
        ),
    ),
];

fn answers(alloc: Global, set: SetRow<'_>, protocol: Protocol, case: Case) -> Result<bool, Fail> {
    let (bounds, duals, wanted) = case;
    let set = set_of(alloc, set)?;
    let certificate = certificate_of(alloc, bounds, duals)?;
    if !suits(&set, protocol) || !has_denominators(&certificate) {
        return Ok(false);
    }
    Ok(match (check(alloc, protocol, &set, &certificate), wanted) {
        (Ok(valid), Ok(values)) => valid.values.as_slice() == values,
        (Err(found), Err(failure)) => found == failure,
        _ => false,
    })
}

#[test]
fn judges_worked_certificates(rt: HostRuntime) -> Result<(), Fail> {
    for (number, case) in OF_PAIR.iter().enumerate() {
        let right = answers(rt.alloc(), PAIR, Protocol::FmlpPlus, *case)?;
        assert!(rt; right, "at {number}");
    }
    for (set, protocol, case) in OF_OTHERS {
        assert!(rt; answers(rt.alloc(), *set, *protocol, *case)?);
    }
    Ok(())
}

#[test]
fn asks_for_denominators(rt: HostRuntime) -> Result<(), Fail> {
    let none = certificate_of(rt.alloc(), &[5, 5], &[(1, &[2]), (0, &[1])])?;
    assert!(rt; !has_denominators(&none));
    Ok(())
}

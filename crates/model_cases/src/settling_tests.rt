use crate::refusal_tests::SHORT_THREE;
use crate::watched::{Flags, Watch, Watched};
use mpcp_rules::Mpcp;
use program_form::Dual;
use protocol_programs::Written;
use response_fixpoint::costs;
use settling::{SettleStop, Settled, settle_by, settle_with};
use sporadic_model::Protocol;
use std::alloc::Global;
use std::test::Fail;
use std::thread::Threads;
use worked_sets::files::{PAIR, set_from};

const MOST: u64 = 1_000_000;

/// Three tasks on processors of their own, two resources, and lengths that no number divides: the analysis is wide at the first task.
const WIDE: &str = r#"{"processors":3,"resources":[{"name":"map"},{"name":"log"}],"tasks":[
{"name":"steer","processor":1,"period":50000000,"cost":2000000,"requests":[{"resource":"map","count":1,"length":200000},{"resource":"log","count":2,"length":100000}]},
{"name":"look","processor":2,"period":100000000,"cost":10521142,"requests":[{"resource":"map","count":1,"length":3643921},{"resource":"log","count":1,"length":7091939}]},
{"name":"plan","processor":3,"period":200000000,"cost":15368452,"requests":[{"resource":"map","count":1,"length":7356521},{"resource":"log","count":2,"length":8328343}]}]}
"#;

/// The same, but the first task's deadline is a tick before its least bound.
const WIDE_AND_SHORT: &str =
    r#"{"processors":3,"resources":[{"name":"map"},{"name":"log"}],"tasks":[
{"name":"steer","processor":1,"period":50000000,"deadline":24617119,"cost":2000000,"requests":[{"resource":"map","count":1,"length":200000},{"resource":"log","count":2,"length":100000}]},
{"name":"look","processor":2,"period":100000000,"cost":10521142,"requests":[{"resource":"map","count":1,"length":3643921},{"resource":"log","count":1,"length":7091939}]},
{"name":"plan","processor":3,"period":200000000,"cost":15368452,"requests":[{"resource":"map","count":1,"length":7356521},{"resource":"log","count":2,"length":8328343}]}]}
"#;

/// A dual's denominator and numbers.
type Weights<'a> = (u64, &'a [u64]);

/// A step's task and value, and its point.
type Step<'a> = (u64, u64, Weights<'a>);

fn settlement_of<R: Threads + Sync>(
    rt: &R,
    alloc: Global,
    text: &str,
) -> Result<Result<Settled, SettleStop>, Fail> {
    let set = set_from(alloc, text)?;
    Ok(settle_with(rt, alloc, &set, &Mpcp, MOST))
}

fn is_dual(dual: &Dual, wanted: &Weights<'_>) -> bool {
    dual.den == wanted.0 && dual.num.as_slice() == wanted.1
}

/// Is this the certificate that is answered?
fn has_certificate(
    answer: &Result<Settled, SettleStop>,
    bounds: &[u64],
    duals: &[Weights<'_>],
) -> bool {
    let Ok(Settled::Schedulable(certificate)) = answer else {
        return false;
    };
    certificate.bounds.as_slice() == bounds
        && certificate.duals.len() == duals.len()
        && certificate
            .duals
            .iter()
            .zip(duals.iter())
            .all(|(dual, wanted)| is_dual(dual, wanted))
}

/// Are these the steps of the refusal that is answered?
fn has_steps(answer: &Result<Settled, SettleStop>, wanted: &[Step<'_>]) -> bool {
    let Ok(Settled::Refused(refusal)) = answer else {
        return false;
    };
    refusal.steps.len() == wanted.len()
        && refusal.steps.iter().zip(wanted.iter()).all(|(step, (task, value, point))| {
            step.task == *task && step.value == *value && is_dual(&step.point, point)
        })
}

// By the programs as they are worded, solved in fractions: the first task's optimum is 166383318391163/7356521.
#[test]
fn settles_a_wide_set(rt: HostRuntime) -> Result<(), Fail> {
    let answer = settlement_of(&rt, rt.alloc(), WIDE)?;
    assert!(rt;
        has_certificate(
            &answer,
            &[24617120, 26689594, 26689594],
            &[
                (
                    7356521,
                    &[
                        0,
                        21824174231316,
                        0,
                        0,
                        0,
                        3712600,
                        26806581358841,
                        30347823952903
                    ]
                ),
                (1, &[200000, 100000, 0, 0, 0, 1, 0, 0]),
                (1, &[200000, 100000, 0, 0, 0, 1]),
            ]
        )
    );
    Ok(())
}

#[test]
fn refuses_a_wide_set(rt: HostRuntime) -> Result<(), Fail> {
    let answer = settlement_of(&rt, rt.alloc(), WIDE_AND_SHORT)?;
    assert!(rt;
        has_steps(
            &answer,
            &[(1, 24617120, (7356521, &[316412, 7356521, 7040109, 7356521]))]
        )
    );
    Ok(())
}

// Where the analysis and the rounds of refusals aren't wide, these are their answers.
#[test]
fn answers_as_the_rounds_do(rt: HostRuntime) -> Result<(), Fail> {
    let alloc = rt.alloc();
    let fitting = settlement_of(&rt, alloc, PAIR)?;
    assert!(rt; has_certificate(&fitting, &[5, 5], &[(1, &[2, 0, 0]), (1, &[1, 0])]));
    let late = settlement_of(&rt, alloc, SHORT_THREE)?;
    assert!(rt; has_steps(&late, &[(1, 8, (3, &[2, 3, 1]))]));
    Ok(())
}

// The analysis is wide in its first round. In the walk each bound rises, so its second round is at other bounds.
#[test]
fn two_programs_of_a_walk_are_searched_at_the_same_time(rt: HostRuntime) -> Result<(), Fail> {
    let alloc = rt.alloc();
    let set = set_from(alloc, WIDE)?;
    let costs = costs(alloc, &set)?;
    let flags = Flags::new();
    let source = Watched {
        written: Written(Protocol::Mpcp),
        watch: Watch::Later(flags.meeting(), &costs),
    };
    match settle_by(&rt, alloc, &set, &source, MOST) {
        Ok(Settled::Schedulable(found)) => {
            assert_eq!(rt;
                found.bounds.as_slice(),
                [24617120, 26689594, 26689594].as_slice()
            );
        }
        _ => return Err("not settled".into()),
    }
    assert!(rt; flags.have_met());
    Ok(())
}

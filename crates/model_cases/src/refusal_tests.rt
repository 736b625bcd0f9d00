use protocol_programs::Written;
use refusal_cert::{Answer, RefuteStop, refute};
use sporadic_model::Protocol;
use std::alloc::Global;
use std::test::Fail;
use worked_sets::files::{PAIR, set_from};
use worked_sets::suits;

const MOST: u64 = 1_000_000;

/// Three tasks, each on a processor of its own. The first has a deadline of 7 ticks. The first two request both resources, and the third
/// the first one.
pub(crate) const SHORT_THREE: &str =
    r#"{"processors":3,"resources":[{"name":"q"},{"name":"r"}],"tasks":[
{"name":"t1","processor":1,"period":100,"deadline":7,"cost":4,"requests":[{"resource":"q","count":1,"length":1},{"resource":"r","count":1,"length":1}]},
{"name":"t2","processor":2,"period":100,"cost":4,"requests":[{"resource":"q","count":1,"length":3},{"resource":"r","count":1,"length":2}]},
{"name":"t3","processor":3,"period":100,"cost":3,"requests":[{"resource":"q","count":1,"length":2}]}]}
"#;

/// A step's task and value, and the denominator and numbers of its point.
type Step<'a> = (u64, u64, u64, &'a [u64]);

/// The answer for the set of a text.
fn answer_for(
    alloc: Global,
    text: &str,
    protocol: Protocol,
    allowance: u64,
) -> Result<Result<Answer, RefuteStop>, Fail> {
    let set = set_from(alloc, text)?;
    if !suits(&set, protocol) {
        return Err("out of range".into());
    }
    Ok(refute(alloc, &set, &Written(protocol), allowance))
}

/// Are these the steps of a refusal?
fn has_steps(answer: &Result<Answer, RefuteStop>, wanted: &[Step<'_>]) -> bool {
    let Ok(Answer::Refused(refusal)) = answer else {
        return false;
    };
    refusal.steps.len() == wanted.len()
        && refusal.steps.iter().zip(wanted.iter()).all(|(step, (task, value, den, num))| {
            step.task == *task
                && step.value == *value
                && step.point.den == *den
                && step.point.num.as_slice() == *num
        })
}

// The best point is 2/3, 1 and 1/3: two rows ask that 3 times the first column and 2 times the second are at most 4, and the first and
// the third together at most 1. It is worth 14/3, and 4 + 4 is more than 7.
#[test]
fn writes_thirds(rt: HostRuntime) -> Result<(), Fail> {
    let answer = answer_for(rt.alloc(), SHORT_THREE, Protocol::Mpcp, MOST)?;
    assert!(rt; has_steps(&answer, &[(1, 8, 3, &[2, 3, 1])]));
    Ok(())
}

// Two rounds of two programs, each with one exchange, keep 3 + 2 and 4 + 1 ticks.
#[test]
fn finds_a_set_schedulable(rt: HostRuntime) -> Result<(), Fail> {
    let alloc = rt.alloc();
    let answer = answer_for(alloc, PAIR, Protocol::FmlpPlus, 8)?;
    assert!(rt; matches!(answer, Ok(Answer::Schedulable)));
    let short = answer_for(alloc, PAIR, Protocol::FmlpPlus, 7)?;
    assert!(rt; matches!(short, Err(RefuteStop::Allowance)));
    Ok(())
}

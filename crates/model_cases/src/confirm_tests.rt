use crate::watched::{Flags, Watch, Watched};
use program_form::Dual;
use protocol_programs::Written;
use refusal_confirm::{Fault, Part, confirm, fault_of_point, has_denominators};
use refusal_laws::{Refusal, RefusalStep};
use response_fixpoint::costs;
use sporadic_model::{Protocol, TaskId, TaskSet};
use std::alloc::{AllocError, Global};
use std::test::Fail;
use std::thread::Threads;
use worked_sets::files::set_from;
use worked_sets::suits;

/// A step's task, its value, and the number of its point of one column.
type Step = (u64, u64, u64);

/// Two tasks that share a resource, each on a processor of its own. The second has a deadline of 4. The first waits for the second one's
/// request, and the second for the first one's: 3 + 2 and 4 + 1.
const SECOND_SHORT: &str = r#"{"processors":2,"resources":[{"name":"q"}],"tasks":[
{"name":"t1","processor":1,"period":10,"cost":3,"requests":[{"resource":"q","count":1,"length":1}]},
{"name":"t2","processor":2,"period":10,"deadline":4,"cost":4,"requests":[{"resource":"q","count":1,"length":2}]}]}
"#;

const STEPS: &[Step] = &[(1, 5, 1), (2, 5, 1)];

fn refusal_of(alloc: Global, steps: &[Step]) -> Result<Refusal, AllocError> {
    let mut refusal = Refusal {
        steps: Vec::new(alloc),
    };
    for (task, value, number) in steps {
        refusal.steps.push(RefusalStep {
            task: *task,
            value: *value,
            point: Dual {
                den: 1,
                num: [*number].to_vec(alloc)?,
            },
        })?;
    }
    Ok(refusal)
}

fn confirm_steps<R: Threads + Sync>(
    rt: &R,
    alloc: Global,
    set: &TaskSet,
    source: &Watched<'_>,
    steps: &[Step],
) -> Result<Result<(), Fault>, Fail> {
    let refusal = refusal_of(alloc, steps)?;
    if !suits(set, source.written.0) || !has_denominators(&refusal) {
        return Err("out of range".into());
    }
    Ok(confirm(rt, alloc, set, source, &refusal))
}

#[test]
fn two_points_are_tested_at_the_same_time(rt: HostRuntime) -> Result<(), Fail> {
    let alloc = rt.alloc();
    let set = set_from(alloc, SECOND_SHORT)?;
    let flags = Flags::new();
    let source = Watched {
        written: Written(Protocol::FmlpPlus),
        watch: Watch::Programs(flags.meeting()),
    };
    assert!(rt; confirm_steps(&rt, alloc, &set, &source, STEPS)? == Ok(()));
    assert!(rt; flags.have_met());
    let beyond = confirm_steps(&rt, alloc, &set, &source, &[(1, 5, 1), (2, 5, 2)])?;
    assert!(rt; beyond == Err(Fault::Row { step: 2, row: 1 }));
    Ok(())
}

// The first task waits for the second one's request: 3 + 2.
#[test]
fn a_point_is_tested_at_bounds(rt: HostRuntime) -> Result<(), Fail> {
    let alloc = rt.alloc();
    let set = set_from(alloc, SECOND_SHORT)?;
    let costs = costs(alloc, &set)?;
    let mut step = RefusalStep {
        task: 1,
        value: 5,
        point: Dual {
            den: 1,
            num: [1].to_vec(alloc)?,
        },
    };
    let source = Written(Protocol::FmlpPlus);
    if set.tasks() == 0 {
        return Err("out of range".into());
    }
    assert!(rt; fault_of_point(alloc, &set, &source, TaskId(0), &costs, &step)?.is_none());
    step.value = 6;
    let found = fault_of_point(alloc, &set, &source, TaskId(0), &costs, &step)?;
    assert!(rt; matches!(found, Some(Part::Low)));
    Ok(())
}

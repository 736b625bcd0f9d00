ghost use Rattle.std.specs.Prelude.{◌<◌, length};

use sporadic_model::{ModelRefusal, Protocol, ResourceId, TaskId, TaskSet};
use std::test::Fail;
use worked_sets::{EntryRow, SetRow, TaskRow, set_of, suits, task_row};

const TWO: SetRow = SetRow {
    processors: 3,
    homes: &[Some(2), None],
    tasks: &[
        task_row!(1, 10, 4, [(0, 1), (1, 2)]),
        TaskRow {
            processor: 3,
            period: 20,
            cost: 6,
            local: 5,
            jitter: 3,
            entries: &[EntryRow {
                resource: 1,
                count: 7,
                length: 4,
            }],
        },
    ],
};

/// What a set says of a task: its name, its processor, its period, deadline, cost, local limit, jitter and latest bound, and for
/// each resource the count and the length of its requests.
type Answers<'a> = (&'a str, u32, [u64; 6], [(u64, u64); 2]);

fn answers(set: &TaskSet, x: u32) -> Option<Answers<'_>> {
    if x >= set.tasks() || set.resources() != 2 {
        return None;
    }
    let (x, q, r) = (TaskId(x), ResourceId(0), ResourceId(1));
    let times = [
        set.period(x),
        set.deadline(x),
        set.cost(x),
        set.local(x),
        set.jitter(x),
        set.latest_bound(x),
    ];
    let requests = [
        (set.count(x, q), set.length(x, q)),
        (set.count(x, r), set.length(x, r)),
    ];
    Some((set.task_name(x), set.processor(x), times, requests))
}

fn has_resource(set: &TaskSet, q: u32, name: &str, home: Option<u32>) -> bool {
    q < set.resources()
        && set.resource_name(ResourceId(q)) == name
        && set.home(ResourceId(q)) == home
}

#[test]
fn a_set_has_the_numbers_of_its_rows(rt: HostRuntime) -> Result<(), Fail> {
    let set = set_of(rt.alloc(), TWO)?;
    assert_eq!(rt; (set.processors(), set.tasks(), set.resources()), (3, 2, 2));
    assert!(rt; has_resource(&set, 0, "r0", Some(2)) && has_resource(&set, 1, "r1", None));
    let first = ("t0", 1, [10, 10, 4, 4, 0, 10], [(1, 1), (1, 2)]);
    let second = ("t1", 3, [20, 20, 6, 5, 3, 17], [(0, 0), (7, 4)]);
    assert!(rt; answers(&set, 0) == Some(first));
    assert!(rt; answers(&set, 1) == Some(second));
    assert!(rt; suits(&set, Protocol::Mpcp) && !suits(&set, Protocol::Dpcp));
    Ok(())
}

#[test]
fn rows_are_refused_as_their_parts_are(rt: HostRuntime) {
    let none = SetRow { tasks: &[], ..TWO };
    assert!(rt; matches!(set_of(rt.alloc(), none), Err(ModelRefusal::NoTask)));
}

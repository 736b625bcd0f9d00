ghost use Rattle.std.specs.Prelude.{◌<◌};

use crate::threads::may_cross_threads;
use sporadic_model::{ModelRefusal, Protocol, ResourceId, TaskId, TaskSet, jobs_in};
use std::alloc::Global;
use std::test::Fail;
use worked_sets::files::set_from;

const SHARED: &str =
    r#"{"processors":2,"resources":[{"name":"r"},{"name":"s","home":2},{"name":"u"}],"tasks":[
{"name":"t1","processor":1,"period":10,"deadline":9,"cost":4,"local":2,"requests":[{"resource":"r","count":1,"length":2}]},
{"name":"t2","processor":1,"period":20,"deadline":19,"cost":5,"local":3,"requests":[{"resource":"s","count":3,"length":1},{"resource":"r","count":2,"length":1}]},
{"name":"t3","processor":2,"period":30,"cost":6,"local":4,"requests":[{"resource":"s","count":1,"length":5}]}]}"#;

// It has no contract, so what its callers know doesn't have the text.
fn shared_set(alloc: Global) -> Result<TaskSet, Fail> {
    set_from(alloc, SHARED)
}

/// What a set says of a task: its name, its processor, and its period, deadline, cost and local limit.
type Answers<'a> = (&'a str, u32, [u64; 4]);

fn answers(set: &TaskSet, x: TaskId) -> Option<Answers<'_>> {
    if x.0 >= set.tasks() {
        return None;
    }
    let times = [set.period(x), set.deadline(x), set.cost(x), set.local(x)];
    Some((set.task_name(x), set.processor(x), times))
}

fn has_resource(set: &TaskSet, q: ResourceId, name: &str, home: Option<u32>) -> bool {
    q.0 < set.resources() && set.resource_name(q) == name && set.home(q) == home
}

fn is_higher_local(set: &TaskSet, x: TaskId, y: TaskId) -> Option<bool> {
    if x.0 < set.tasks() && y.0 < set.tasks() {
        return Some(set.higher_local(x, y));
    }
    None
}

#[test]
fn answers_the_numbers(rt: HostRuntime) -> Result<(), Fail> {
    let set = shared_set(rt.alloc())?;
    let (t1, t2, t3, s) = (TaskId(0), TaskId(1), TaskId(2), ResourceId(1));
    assert!(rt; set.processors() == 2 && set.tasks() == 3 && set.resources() == 3);
    assert!(rt; answers(&set, t2) == Some(("t2", 1, [20, 19, 5, 3])));
    assert!(rt; has_resource(&set, s, "s", Some(2)));
    assert_eq!(rt; set.task_named(b"t3"), Some(t3));
    assert_eq!(rt; set.resource_named(b"t3"), None);
    assert_eq!(rt; is_higher_local(&set, t2, t1), Some(true));
    assert_eq!(rt; is_higher_local(&set, t3, t2), Some(false));
    assert_eq!(rt; [jobs_in(6, 5, 10), jobs_in(5, 5, 10)], [2, 1]);
    set.keeps_the_model();
    may_cross_threads(&set);
    may_cross_threads(&(Protocol::Mpcp, t2, s, ModelRefusal::NoTask));
    Ok(())
}

/// How many requests of the resource a job of the task has, and their length.
fn requests(set: &TaskSet, x: TaskId, q: ResourceId) -> Option<(u64, u64)> {
    if x.0 < set.tasks() && q.0 < set.resources() {
        return Some((set.count(x, q), set.length(x, q)));
    }
    None
}

#[test]
fn answers_the_ceilings(rt: HostRuntime) -> Result<(), Fail> {
    let set = shared_set(rt.alloc())?;
    let (r, s, u) = (ResourceId(0), ResourceId(1), ResourceId(2));
    assert!(rt; set.tasks() == 3 && set.resources() == 3);
    assert_eq!(rt; requests(&set, TaskId(1), r), Some((2, 1)));
    assert_eq!(rt; requests(&set, TaskId(0), s), Some((0, 0)));
    assert_eq!(rt;
        [set.ceiling(r), set.ceiling(s), set.ceiling(u)],
        [Some(TaskId(0)), Some(TaskId(1)), None]
    );
    Ok(())
}

#[test]
fn answers_the_boosts(rt: HostRuntime) -> Result<(), Fail> {
    let set = shared_set(rt.alloc())?;
    let (r, s, u) = (ResourceId(0), ResourceId(1), ResourceId(2));
    assert!(rt; set.resources() == 3);
    assert_eq!(rt;
        [set.boost(r, 1), set.boost(r, 2)],
        [Some(TaskId(0)), Some(TaskId(0))]
    );
    assert_eq!(rt;
        [set.boost(s, 1), set.boost(s, 2)],
        [Some(TaskId(2)), Some(TaskId(1))]
    );
    assert_eq!(rt; set.boost(u, 1), None);
    // no task is on a processor that the set hasn't
    assert_eq!(rt;
        [set.boost(r, 3), set.boost(s, 3), set.boost(u, 3)],
        [set.ceiling(r), set.ceiling(s), set.ceiling(u)]
    );
    Ok(())
}

fn does_use(set: &TaskSet, x: TaskId, resources: &[ResourceId]) -> bool {
    x.0 < set.tasks() && set.used_by(x) == resources
}

fn has_users(set: &TaskSet, q: ResourceId, tasks: &[TaskId]) -> bool {
    q.0 < set.resources() && set.users(q) == tasks
}

#[test]
fn answers_who_uses_what(rt: HostRuntime) -> Result<(), Fail> {
    let set = shared_set(rt.alloc())?;
    let (t1, t2, t3) = (TaskId(0), TaskId(1), TaskId(2));
    let (r, s, u) = (ResourceId(0), ResourceId(1), ResourceId(2));
    assert!(rt; set.tasks() == 3 && set.resources() == 3);
    assert!(rt; does_use(&set, t1, &[r]));
    assert!(rt; does_use(&set, t2, &[r, s]));
    assert!(rt; does_use(&set, t3, &[s]));
    assert!(rt; has_users(&set, r, &[t1, t2]));
    assert!(rt; has_users(&set, s, &[t2, t3]));
    assert!(rt; has_users(&set, u, &[]));
    Ok(())
}

ghost use Rattle.std.specs.Prelude.{◌<◌, length};

use crate::texts::set_in;
use sporadic_model::{Protocol, ResourceId, TaskId, TaskSet};
use std::alloc::{AllocError, Global};
use std::fmt::Write;
use std::process::Abort;
use std::test::Fail;
use taskset_json::{SetRefusal, home_check};

/// Adds a line of the resource: its name, and its home if it has one.
fn push_resource(text: &mut String, name: &str, home: Option<u32>) -> Result<(), AllocError> {
    match home {
        Some(processor) => writeln!(text, "{name} at {processor}"),
        None => writeln!(text, "{name}"),
    }
}

/// The processor, the period, the deadline, the cost, the local limit and the jitter of a task.
type Numbers = (u32, u64, u64, u64, u64, u64);

fn numbers(set: &TaskSet, x: TaskId) -> Numbers
    requires { x.0 < length set.now.tasks }
{
    (
        set.processor(x),
        set.period(x),
        set.deadline(x),
        set.cost(x),
        set.local(x),
        set.jitter(x),
    )
}

fn push_numbers(text: &mut String, name: &str, numbers: Numbers) -> Result<(), AllocError> {
    let (processor, period, deadline, cost, local, jitter) = numbers;
    writeln!(
        text,
        "{name} on {processor}: {period} {deadline} {cost} {local} {jitter}"
    )
}

/// Adds a line of the resource that a task uses, if it does.
fn push_use(text: &mut String, name: &str, count: u64, length: u64) -> Result<(), AllocError> {
    if count == 0 {
        return Ok(());
    }
    writeln!(text, "  {name} {count} {length}")
}

fn push_task(text: &mut String, set: &TaskSet, x: TaskId) -> Result<(), AllocError>
    requires { x.0 < length set.now.tasks }
{
    push_numbers(text, set.task_name(x), numbers(set, x))?;
    for q in 0..set.resources() {
        let q = ResourceId(q);
        push_use(
            text,
            set.resource_name(q),
            set.count(x, q),
            set.length(x, q),
        )?;
    }
    Ok(())
}

fn push_resources(text: &mut String, set: &TaskSet) -> Result<(), AllocError> {
    for q in 0..set.resources() {
        let q = ResourceId(q);
        push_resource(text, set.resource_name(q), set.home(q))?;
    }
    Ok(())
}

/// A line for each resource and each task, and after a task one for each resource that it uses.
fn lines_of_set(alloc: Global, set: &TaskSet) -> Result<String, AllocError> {
    let mut text = String::new(alloc);
    writeln!(text, "{} processors", set.processors())?;
    push_resources(&mut text, set)?;
    for x in 0..set.tasks() {
        push_task(&mut text, set, TaskId(x))?;
    }
    Ok(text)
}

/// Each member, in any order. The task `t2` has only those that it must have.
const MEMBERS: &str = r#"
    {"resources": [{"name": "q", "home": 2}, {"name": "r"}], "processors": 2, "tasks": [
        {"name": "t1", "processor": 1, "period": 10, "deadline": 9, "cost": 5, "local": 3, "jitter": 2,
         "requests": [{"resource": "r", "count": 2, "length": 1}, {"resource": "q", "count": 1, "length": 4}]},
        {"cost": 4, "period": 20, "processor": 2, "name": "t2"}]}
"#;

const MEMBERS_READ: &str =
    "2 processors\nq at 2\nr\nt1 on 1: 10 9 5 3 2\n  q 1 4\n  r 2 1\nt2 on 2: 20 20 4 4 0\n";

const LEAST: &str = r#"{"processors":1,"tasks":[{"name":"t","processor":1,"period":8,"cost":3}]}"#;

const LEAST_READ: &str = "1 processors\nt on 1: 8 8 3 3 0\n";

// The set of the text is described by these lines.
fn is_described(rt: &impl Abort, alloc: Global, text: &str, lines: &str) -> Result<(), Fail> {
    let set = set_in(alloc, text)?;
    assert_eq!(rt; lines_of_set(alloc, &set)?.as_str(), lines);
    Ok(())
}

#[test]
fn reads_each_member_and_the_least_set(rt: HostRuntime) -> Result<(), Fail> {
    is_described(&rt, rt.alloc(), MEMBERS, MEMBERS_READ)?;
    is_described(&rt, rt.alloc(), LEAST, LEAST_READ)
}

fn home_refusal(set: &TaskSet, protocol: Protocol) -> Option<SetRefusal> {
    home_check(set, protocol).err()
}

#[test]
fn asks_for_homes_under_dpcp_alone(rt: HostRuntime) -> Result<(), Fail> {
    let set = set_in(rt.alloc(), MEMBERS)?;
    let homeless = Some(SetRefusal::NoHome(ResourceId(1)));
    assert!(rt; home_refusal(&set, Protocol::Dpcp) == homeless);
    assert!(rt; home_refusal(&set, Protocol::Mpcp).is_none());
    Ok(())
}

/// Adds a task of four requests, each of the greatest numbers.
fn push_largest_task(text: &mut String, x: u64) -> Result<(), AllocError>
    requires { x < 64 }
{
    write!(
        text,
        r#"{{"name":"a_task_whose_name_has_32_bytes{}","processor":64,"period":1000000000,"cost":1000000000,"requests":["#,
        10 + x
    )?;
    for j in 0..4 {
        let q = 10 + (4 * x + j) % 32;
        if j > 0 {
            text.push_str(",")?;
        }
        write!(
            text,
            r#"{{"resource":"one_resource_of_a_32_byte_name{q}","count":1000,"length":999999999}}"#
        )?;
    }
    text.push_str("]}")
}

/// A set at all its limits: 64 processors and tasks, 32 resources, 256 requests, and the greatest numbers and names.
fn largest_set(alloc: Global) -> Result<String, AllocError> {
    let mut text = String::from_str(alloc, r#"{"processors":64,"resources":["#)?;
    for q in 10..42 {
        if q > 10 {
            text.push_str(",")?;
        }
        write!(
            text,
            r#"{{"name":"one_resource_of_a_32_byte_name{q}","home":64}}"#
        )?;
    }
    text.push_str(r#"],"tasks":["#)?;
    for x in 0..64 {
        if x > 0 {
            text.push_str(",")?;
        }
        push_largest_task(&mut text, x)?;
    }
    text.push_str("]}")?;
    Ok(text)
}

fn has_task(set: &TaskSet, x: TaskId, name: &str, period: u64, cost: u64) -> bool {
    x.0 < set.tasks() && set.task_name(x) == name && set.period(x) == period && set.cost(x) == cost
}

/// Has a job of the task so many requests of the resource, of this length?
fn has_requests(set: &TaskSet, x: TaskId, q: ResourceId, count: u64, length: u64) -> bool {
    x.0 < set.tasks()
        && q.0 < set.resources()
        && set.count(x, q) == count
        && set.length(x, q) == length
}

#[test]
fn reads_a_set_at_all_its_limits(rt: HostRuntime) -> Result<(), Fail> {
    let text = largest_set(rt.alloc())?;
    let set = set_in(rt.alloc(), text.as_str())?;
    assert!(rt; set.tasks() == 64);
    assert!(rt; set.resources() == 32);
    let (x, q) = (TaskId(63), ResourceId(31));
    let name = "a_task_whose_name_has_32_bytes73";
    assert!(rt; has_task(&set, x, name, 1_000_000_000, 1_000_000_000));
    assert!(rt; has_requests(&set, x, q, 1000, 999_999_999));
    assert!(rt; home_refusal(&set, Protocol::Dpcp).is_none());
    Ok(())
}

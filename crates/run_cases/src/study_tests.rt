use sporadic_model::{RequestPart, ResourcePart, TaskPart, TaskSet};
use std::alloc::Global;
use std::test::Fail;
use study_gen::{make_set, study};

// The name of an entry's resource, its count and its length.
type Entry = (&'static str, u64, u64);

// A task's name, its processor, its period, which is its deadline, its cost, which is its local limit, and its entries.
type Task = (&'static str, u64, u64, u64, &'static [Entry]);

// The first set of step 1 from the state 0, and the state after it.
const FROM_ZERO: &[Task] = &[
    ("g7", 4, 20_000, 1120, &[("r1", 2, 68), ("r2", 1, 97)]),
    ("g6", 3, 25_000, 1200, &[("r1", 1, 17)]),
    ("g1", 2, 40_000, 2600, &[]),
    ("g3", 4, 40_000, 2720, &[]),
    ("g2", 3, 50_000, 2150, &[]),
    ("g4", 1, 100_000, 3700, &[]),
    ("g5", 2, 200_000, 6000, &[("r1", 1, 85)]),
    ("g0", 1, 1_000_000, 67_000, &[("r2", 2, 92), ("r3", 2, 65)]),
];

const BEHIND_ZERO: u64 = 18_282_144_983_226_925_988;

// From the state 1. In two pairs the tasks have the same period, and keep the order of their numbers.
const FROM_ONE: &[Task] = &[
    ("g7", 4, 10_000, 720, &[("r3", 1, 56)]),
    ("g4", 1, 20_000, 580, &[("r3", 2, 95)]),
    ("g5", 2, 25_000, 1750, &[("r2", 2, 56), ("r3", 1, 81)]),
    ("g2", 3, 50_000, 3050, &[("r2", 1, 96), ("r3", 2, 28)]),
    ("g3", 4, 100_000, 2700, &[("r3", 1, 73)]),
    ("g6", 3, 100_000, 3500, &[("r1", 2, 64)]),
    ("g0", 1, 200_000, 8600, &[("r1", 1, 35)]),
    ("g1", 2, 200_000, 5600, &[]),
];

const BEHIND_ONE: u64 = 17_291_572_312_784_684_883;

const HOMES: [(&str, Option<u64>); 3] = [("r1", Some(1)), ("r2", Some(2)), ("r3", Some(3))];

fn is_entry(part: &RequestPart, entry: Entry) -> bool {
    let (resource, count, length) = entry;
    part.resource.as_str() == resource && part.count == count && part.length == length
}

fn is_task(part: &TaskPart, task: Task) -> bool {
    let (name, processor, period, cost, entries) = task;
    part.name.as_str() == name
        && part.processor == processor
        && part.period == period
        && part.deadline == period
        && part.cost == cost
        && part.local == cost
        && part.requests.len() == entries.len()
        && part
            .requests
            .iter()
            .zip(entries.iter())
            .all(|(request, entry)| is_entry(request, *entry))
}

fn are_tasks(parts: &[TaskPart], tasks: &[Task]) -> bool {
    for (i, task) in tasks.iter().enumerate() {
        match parts.get(i) {
            Some(part) if is_task(part, *task) => {}
            _ => return false,
        }
    }
    parts.len() == tasks.len()
}

fn have_homes(parts: &[ResourcePart]) -> bool {
    parts.len() == HOMES.len()
        && parts.iter().zip(HOMES.iter()).all(|(part, (name, home))| part.name.as_str() == *name
            && part.home == *home)
}

// Has the first set of step 1 from this state these tasks, is this the state after it, and is the set accepted?
fn makes(alloc: Global, state: u64, tasks: &[Task], behind: u64) -> Result<bool, Fail> {
    let (parts, next) = make_set(alloc, state, 1)?;
    let right = next == behind
        && parts.processors == 4
        && have_homes(&parts.resources)
        && are_tasks(&parts.tasks, tasks);
    let set = TaskSet::new(alloc, parts)?;
    Ok(right && set.tasks() == 8)
}

#[test]
fn a_number_makes_its_set(rt: HostRuntime) -> Result<(), Fail> {
    assert!(rt; makes(rt.alloc(), 0, FROM_ZERO, BEHIND_ZERO)?);
    assert!(rt; makes(rt.alloc(), 1, FROM_ONE, BEHIND_ONE)?);
    Ok(())
}

// The first set has loads of at most 75 thousandths. In the last one a processor's two tasks together have a load of 1025 thousandths.
#[test]
fn a_study_counts_light_and_overloaded_sets(rt: HostRuntime) -> Result<(), Fail> {
    let first = study(&rt, rt.alloc(), 5, 1)?;
    assert!(rt; first.counts.len() == 8);
    assert!(rt; first.counts[0] == [1, 1, 1] && first.counts[7] == [0, 0, 0]);
    let again = study(&rt, rt.alloc(), 5, 1)?;
    assert!(rt; first.counts == again.counts && first.stopped == again.stopped);
    Ok(())
}

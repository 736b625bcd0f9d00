ghost use Rattle.std.specs.Prelude.{◌≡◌, ◌<◌, ◌≤◌, nat_lt, length, map, IfOk, IfSome, OnOk};
ghost use Rattle.std.specs.List.{position};
ghost use Rattle.sporadic_model.specs.Accepted.{IsAccepted};
ghost use Rattle.sporadic_model.specs.Homes.{EachHasHome};
ghost use Rattle.sporadic_model.specs.Seen.{parts_seen, resource_seen, task_seen};
ghost use Rattle.study_gen.specs.Sets.{resources, with_task_in_place, set_made, behind_set};
ghost use Rattle.study_gen.specs.Drawn.{DrawsEntry, AreDrawn, IsPeriodDrawn, IsTaskOfStep, IsTaskDrawn, IsPlaceFor};

use crate::generator::Generator;
use sporadic_model::{Parts, RequestPart, ResourcePart, TaskPart};
use std::alloc::{AllocError, Global};

const TASKS: u64 = 8;

const PROCESSORS: u64 = 4;

/// The periods that tasks may have, in ticks.
const PERIODS: [u64; 8] = [
    10_000, 20_000, 25_000, 40_000, 50_000, 100_000, 200_000, 1_000_000,
];

/// The three resources, with their homes on the first three processors.
fn make_resources(alloc: Global) -> Result<Vec<ResourcePart>, AllocError>
    ensures { IfOk result (λ v. map resource_seen v.items ≡ resources) }
{
    let mut list = Vec::new(alloc);
    list.push(ResourcePart {
        name: String::from_str(alloc, "r1")?,
        home: Some(1),
    })?;
    list.push(ResourcePart {
        name: String::from_str(alloc, "r2")?,
        home: Some(2),
    })?;
    list.push(ResourcePart {
        name: String::from_str(alloc, "r3")?,
        home: Some(3),
    })?;
    Ok(list)
}

/// Draws whether a task has an entry for the resource of this name, and the entry.
fn draw_entry(
    alloc: Global,
    generator: &mut Generator,
    name: &str,
    entries: &mut Vec<RequestPart>,
) -> Result<(), AllocError>
    ensures { OnOk result (DrawsEntry name.now entries.old.items entries.new.items generator.old.state generator.new.state) }
{
    if generator.pick(0, 3) == 0 {
        let count = generator.pick(1, 2);
        let length = generator.pick(1, 100);
        entries.push(RequestPart {
            resource: String::from_str(alloc, name)?,
            count,
            length,
        })?;
    }
    Ok(())
}

/// Draws the entries of a task.
fn draw_entries(alloc: Global, generator: &mut Generator) -> Result<Vec<RequestPart>, AllocError>
    ensures { IfOk result (λ v. AreDrawn v.items generator.old.state generator.new.state) }
{
    let mut entries = Vec::new(alloc);
    draw_entry(alloc, generator, "r1", &mut entries)?;
    draw_entry(alloc, generator, "r2", &mut entries)?;
    draw_entry(alloc, generator, "r3", &mut entries)?;
    Ok(entries)
}

/// Draws a period.
fn draw_period(generator: &mut Generator) -> u64
    ensures { IsPeriodDrawn result generator.old.state generator.new.state }
{
    PERIODS[generator.pick(0, 7) as usize]
}

/// Draws task number `j`.
fn draw_task(
    alloc: Global,
    generator: &mut Generator,
    step: u32,
    j: u64,
) -> Result<TaskPart, AllocError>
    requires { IsTaskOfStep step j }
    ensures { IfOk result (λ task. IsTaskDrawn step j task generator.old.state generator.new.state) }
{
    let period = draw_period(generator);
    let step = u64::from(step);
    let load = generator.pick(25 * step, 75 * step);
    let cost = period * load / 1000;
    Ok(TaskPart {
        name: format!(in alloc; "g{j}")?,
        processor: j % PROCESSORS + 1,
        period,
        deadline: period,
        cost,
        local: cost,
        jitter: 0,
        requests: draw_entries(alloc, generator)?,
    })
}

/// The first task of a longer period.
fn first_longer(tasks: &[TaskPart], period: u64) -> Option<usize>
    ensures value { result ≡ position (λ t. nat_lt period t.period) tasks.now }
    ensures within { IfSome result (λ i. i < length tasks.now) }
{
    tasks.iter().position(|t| t.period > period)
}

/// The position of the first task of a longer period, or the end.
fn place_of(tasks: &[TaskPart], period: u64) -> usize
    ensures { IsPlaceFor tasks.now period result }
{
    first_longer(tasks, period).unwrap_or(tasks.len())
}

/// Puts the task before the first one of a longer period.
fn put_in_place(tasks: &mut Vec<TaskPart>, task: TaskPart) -> Result<(), AllocError>
    ensures { OnOk result (map task_seen tasks.new.items ≡ with_task_in_place (map task_seen tasks.old.items) (task_seen task)) }
{
    let place = place_of(tasks, task.period);
    tasks.insert(place, task)?;
    Ok(())
}

/// Makes the parts of a set of this step, from 1 to 8. The numbers are drawn from the generator's state on. Answers the state after them
/// too.
///
/// The set has eight tasks on four processors, in the order of their periods, and three resources with homes. A task's load is from 25 to
/// 75 thousandths, times the step. One task in four requests a resource, once or twice, for 1 to 100 ticks.
/// [`sporadic_model::TaskSet::new`] accepts every such set.
pub fn make_set(alloc: Global, state: u64, step: u32) -> Result<(Parts, u64), AllocError>
    requires from { 1 ≤ step }
    requires to { step ≤ 8 }
    ensures parts { IfOk result (λ made. parts_seen made.0 ≡ set_made step state) }
    ensures state { IfOk result (λ made. made.1 ≡ behind_set state) }
    ensures accepted { IfOk result (λ made. IsAccepted (parts_seen made.0)) }
    ensures homes { IfOk result (λ made. EachHasHome (parts_seen made.0)) }
{
    let mut generator = Generator { state };
    let mut tasks = Vec::new(alloc);
    for j in 0..TASKS {
        let task = draw_task(alloc, &mut generator, step, j)?;
        put_in_place(&mut tasks, task)?;
    }
    let parts = Parts {
        processors: PROCESSORS,
        resources: make_resources(alloc)?,
        tasks,
    };
    Ok((parts, generator.state))
}

ghost use Rattle.std.specs.Prelude.{◌≡◌, ◌<◌, length, slice_set, IfOk};
ghost use Rattle.std.specs.List.{All};
ghost use Rattle.audit_figures.specs.Sums.{sums_at, sums_with, AreNoSums, AreItemSums};

use blocking_columns::Class;
use charge::{ChargeItem, ChargeTable};
use schedule_model::JobList;
use std::alloc::{AllocError, Global};

/// The ticks at which the jobs of a task were blocked within their bounds, by the way in which they were blocked.
#[derive(Clone, Copy, Debug, PartialEq, Eq)]
pub struct ClassSums {
    pub direct: u64,
    pub indirect: u64,
    pub preemption: u64,
}

/// The sums with one more item. A sum that would pass the greatest number stops there.
fn sums_with(sums: ClassSums, item: &ChargeItem) -> ClassSums
    ensures { result ≡ sums_with sums item.now }
{
    match item.class {
        Class::Direct => ClassSums {
            direct: sums.direct.saturating_add(item.ticks),
            ..sums
        },
        Class::Indirect => ClassSums {
            indirect: sums.indirect.saturating_add(item.ticks),
            ..sums
        },
        Class::Preemption => ClassSums {
            preemption: sums.preemption.saturating_add(item.ticks),
            ..sums
        },
    }
}

/// Adds one item to the sums of task number `x`.
fn add_item(sums: &mut [ClassSums], x: usize, item: &ChargeItem)
    requires { x < length sums.old }
    ensures { sums.new ≡ slice_set sums.old x (sums_with (sums_at sums.old x) item.now) }
{
    sums[x] = sums_with(sums[x], item);
}

/// No ticks yet, for each of so many tasks.
fn no_sums(alloc: Global, tasks: u32) -> Result<Vec<ClassSums>, AllocError>
    ensures { IfOk result (λ v. AreNoSums tasks v.items) }
{
    let mut sums = Vec::with_capacity(alloc, tasks as usize)?;
    for _ in 0..tasks {
        sums.push(ClassSums {
            direct: 0,
            indirect: 0,
            preemption: 0,
        })?;
    }
    Ok(sums)
}

/// Adds each item to the sums of its blocked job's task. The sums start empty.
fn add_items(sums: &mut [ClassSums], jobs: &JobList, items: &[ChargeItem])
    requires none { AreNoSums (length jobs.now.set.tasks) sums.old }
    requires listed { All (λ item. item.blocked.0 < length jobs.now.jobs) items.now }
    ensures { AreItemSums jobs.now items.now sums.new }
{
    for item in items {
        add_item(sums, jobs.job(item.blocked).task.0 as usize, item);
    }
}

/// The sums of each task, over the items whose blocked job is of the task.
pub(crate) fn sums_of_tasks(
    alloc: Global,
    jobs: &JobList,
    table: &ChargeTable,
) -> Result<Vec<ClassSums>, AllocError>
    requires { All (λ item. item.blocked.0 < length jobs.now.jobs) table.now.charges.items }
    ensures { IfOk result (λ v. AreItemSums jobs.now table.now.charges.items v.items) }
{
    let mut sums = no_sums(alloc, jobs.set().tasks())?;
    add_items(&mut sums, jobs, &table.charges);
    Ok(sums)
}

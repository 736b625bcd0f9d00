//! The test of columns where requests run on their resource's home.

ghost use Rattle.std.specs.Prelude.{◌≡◌, ◌<◌, length, IfOk};
ghost use Rattle.sporadic_model.specs.declared.ids.Protocol.TheVariants as protocol;
ghost use Rattle.sporadic_model.specs.SetDef.{task_at};
ghost use Rattle.blocking_columns.specs.Columns.{requests_beside, blocks_at_home, is_column};
ghost use Rattle.blocking_columns.specs.Asked.{AreAskedBeside, AreNoCounts, AreHomeCounts, AreHomeCountsFor};
ghost use Rattle.blocking_columns.specs.HomeMarks.{mark_of, AreHomeMarks, blocks_marked};

use crate::columns::{Class, Fragment};
use crate::passing::ColumnTest;
use crate::places::{ceiling_place, home, uses};
use sporadic_model::{MOST_PROCESSORS, ResourceId, TaskId, TaskSet};
use std::alloc::{AllocError, Global};

// Counts by home the resources that `i` uses. Those without a home count at 0.
fn count_homes(set: &TaskSet, i: TaskId, counts: &mut [u8])
    requires task { i.0 < length set.now.tasks }
    requires none { AreNoCounts counts.old }
    ensures { AreHomeCounts set.now i.0 counts.new }
{
    // the call says how many processors and resources there are at most
    let _tasks = set.tasks();
    let used = set.used_by(i);
    for r in used {
        counts[home(set, *r) as usize] += 1;
    }
}

// Does `i` request another resource of the same home?
fn asks_beside(set: &TaskSet, i: TaskId, q: ResourceId, counts: &[u8]) -> bool
    requires { AreHomeCountsFor set.now i.0 q.0 counts.now }
    ensures { result ≡ requests_beside set.now i.0 q.0 }
{
    counts[home(set, q) as usize] > uses(set, i, q) as u8
}

/// By resource, whether `i` requests another one of its home.
pub fn asked_beside(alloc: Global, set: &TaskSet, i: TaskId) -> Result<Vec<bool>, AllocError>
    requires { i.0 < length set.now.tasks }
    ensures { IfOk result (λ v. AreAskedBeside set.now i.0 v.items) }
{
    let mut counts = [0u8; MOST_PROCESSORS as usize + 1];
    count_homes(set, i, &mut counts);
    let mut beside = Vec::with_capacity(alloc, set.resources() as usize)?;
    for q in 0..set.resources() {
        beside.push(asks_beside(set, i, ResourceId(q), &counts))?;
    }
    Ok(beside)
}

/// May requests of the column's resource block `i` in its way, where they run on the resource's home?
pub fn blocks_at_home(set: &TaskSet, i: TaskId, c: Fragment, beside: &[bool]) -> bool
    requires task { i.0 < length set.now.tasks }
    requires resource { c.resource.0 < length set.now.resources }
    requires beside { AreAskedBeside set.now i.0 beside.now }
    ensures { result ≡ blocks_at_home set.now i.0 c.resource.0 c.class }
{
    match c.class {
        Class::Direct => uses(set, i, c.resource),
        Class::Indirect => beside[c.resource.0 as usize],
        Class::Preemption => home(set, c.resource) == set.processor(i),
    }
}

/// What a column's test asks of its resource, for an analysed task.
#[derive(Clone, Copy)]
pub(crate) struct HomeMark {
    /// Does the task request it?
    pub(crate) asked: bool,
    /// Does the task request another resource of its home?
    pub(crate) beside: bool,
    /// Is its home the task's processor?
    pub(crate) here: bool,
    /// Is its ceiling no lower than the task?
    pub(crate) high: bool,
}

// The mark of resource `q`, where `i` runs on processor `k`.
fn mark(set: &TaskSet, i: TaskId, k: u32, q: ResourceId, counts: &[u8]) -> HomeMark
    requires processor { k ≡ (task_at set.now i.0).processor }
    requires counted { AreHomeCountsFor set.now i.0 q.0 counts.now }
    ensures { result ≡ mark_of set.now i.0 q.0 }
{
    let asked = uses(set, i, q);
    let there = home(set, q);
    HomeMark {
        asked,
        beside: counts[there as usize] > asked as u8,
        here: there == k,
        high: ceiling_place(set, q) <= i.0,
    }
}

/// By resource, what a column's test asks of it.
pub(crate) fn home_marks(
    alloc: Global,
    set: &TaskSet,
    i: TaskId,
) -> Result<Vec<HomeMark>, AllocError>
    requires { i.0 < length set.now.tasks }
    ensures { IfOk result (λ v. AreHomeMarks set.now i.0 v.items) }
{
    let mut counts = [0u8; MOST_PROCESSORS as usize + 1];
    count_homes(set, i, &mut counts);
    let k = set.processor(i);
    let mut marks = Vec::with_capacity(alloc, set.resources() as usize)?;
    for q in 0..set.resources() {
        marks.push(mark(set, i, k, ResourceId(q), &counts))?;
    }
    Ok(marks)
}

// Do requests by a task block in this way, where the resource has this mark? Those of a lower task block indirectly only where its
// ceiling is no lower than `i`.
fn blocks_at(mark: HomeMark, i: TaskId, x: TaskId, class: Class) -> bool
    ensures { result ≡ blocks_marked mark i.0 x.0 class }
{
    match class {
        Class::Direct => mark.asked,
        Class::Indirect => mark.beside && (mark.high || i >= x),
        Class::Preemption => mark.here,
    }
}

/// The columns under DPCP: a test that has by resource what it asks of it.
#[derive(Drop)]
pub(crate) struct HomeTest {
    pub(crate) marks: Vec<HomeMark>,
}

impl ColumnTest for HomeTest {
    ghost use Rattle.blocking_columns.specs.Requested.{linked_requests};

    ghost passes = { λ k set i c. is_column protocol.Dpcp set i c };

    ghost requests = { λ t set i. linked_requests protocol.Dpcp set i };

    ghost fits = { λ k set i x. AreHomeMarks set i k.marks.items };

    fn test(&self, set: &TaskSet, i: TaskId, column: Fragment) -> bool {
        column.task != i
            && blocks_at(
                self.marks[column.resource.0 as usize],
                i,
                column.task,
                column.class,
            )
    }
}

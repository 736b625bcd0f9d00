//! How many requests the higher users of a resource make, summed by processor. What others make on a task's processor is then the sum there
//! less what the task makes itself.

ghost use Rattle.std.specs.Prelude.{◌≡◌, ℕ, ◌<◌, ◌≤◌, false, nat_lt, length, slice_index, IfOk};
ghost use Rattle.number_laws.specs.Sums.{only_if};
ghost use Rattle.sporadic_model.specs.SetDef.{SetDef};
ghost use Rattle.sporadic_model.specs.Users.{is_user};
ghost use Rattle.closer_mpcp.specs.Amounts.{IsAmount};
ghost use Rattle.closer_mpcp.specs.Given.{AreTaskAndResource};
ghost use Rattle.closer_mpcp.specs.Sums.{made_beside, made_away, AreSums, AreSumsOf, AreSumsOfUsed};

use sporadic_model::{ResourceId, TaskId, TaskSet};
use std::alloc::{AllocError, Global};

/// Requests of one kind, as those in a window.
pub(crate) trait Requests {
    /// How many are there, by resource and task?
    ghost made: { Self → SetDef → ℕ → ℕ → ℕ };

    /// Does what they are counted by belong to the set?
    ghost fits: { Self → SetDef → Type 0 };

    /// How many are there of `r` by `y`?
    fn number(&self, set: &TaskSet, r: ResourceId, y: TaskId) -> u64
        requires fits { fits self.now set.now }
        requires request { AreTaskAndResource set.now y.0 r.0 }
        ensures { IsAmount result (made self.now set.now r.0 y.0) 2000000000000 };

    /// A task that doesn't use the resource makes none.
    ghost none: { (k : Self) (set : SetDef) (r y : ℕ) → is_user set r y ≡ false → made k set r y ≡ 0 };
}

/// Requests of a resource by tasks that are higher than the analysed one.
#[derive(Drop)]
pub(crate) struct Sums {
    /// How many each task makes, by its number.
    pub(crate) own: [u64; 64],
    /// How many the tasks of each processor make. Processors are counted from 1.
    pub(crate) on: [u64; 65],
    /// How many all tasks make.
    pub(crate) all: u64,
}

// How many are there of `r` by `y`, if it is higher than `i`?
fn of_higher<R: Requests>(set: &TaskSet, requests: &R, i: TaskId, r: ResourceId, y: TaskId) -> u64
    requires fits { R.fits requests.now set.now }
    requires request { AreTaskAndResource set.now y.0 r.0 }
    ensures { IsAmount result (only_if (nat_lt y.0 i.0) (R.made requests.now set.now r.0 y.0)) 2000000000000 }
{
    if y < i { requests.number(set, r, y) } else { 0 }
}

/// The sums of those of `r` by tasks that are higher than `i`, which may be the number behind all tasks.
pub(crate) fn sums_of<R: Requests>(set: &TaskSet, requests: &R, i: TaskId, r: ResourceId) -> Sums
    requires fits { R.fits requests.now set.now }
    requires limit { i.0 ≤ length set.now.tasks }
    requires resource { r.0 < length set.now.resources }
    ensures { AreSumsOf set.now i.0 (R.made requests.now set.now r.0) result }
{
    // a set has at most 64 tasks, so each sum fits, and at most 64 processors, which are counted from 1
    let _tasks = set.tasks();
    let users = set.users(r);
    let mut own = [0u64; 64];
    let mut on = [0u64; 65];
    let mut all = 0;
    for y in users {
        let made = of_higher(set, requests, i, r, *y);
        own[y.0 as usize] += made;
        on[set.processor(*y) as usize] += made;
        all += made;
    }
    Sums { own, on, all }
}

/// The sums of those of each resource that `i` requests, in their order.
pub(crate) fn sums_of_used<R: Requests>(
    alloc: Global,
    set: &TaskSet,
    requests: &R,
    i: TaskId,
) -> Result<Vec<Sums>, AllocError>
    requires fits { R.fits requests.now set.now }
    requires task { i.0 < length set.now.tasks }
    ensures { IfOk result (λ v. AreSumsOfUsed set.now i.0 (R.made requests.now set.now) v.items) }
{
    let used = set.used_by(i);
    let mut each = Vec::with_capacity(alloc, used.len())?;
    for k in 0..used.len() {
        each.push(sums_of(set, requests, i, used[k]))?;
    }
    Ok(each)
}

/// How many do other tasks of `x`'s processor make?
pub(crate) fn beside(set: &TaskSet, sums: &Sums, x: TaskId) -> u64
    requires task { x.0 < length set.now.tasks }
    requires sums { AreSums set.now sums.now }
    ensures { IsAmount result (made_beside set.now (slice_index sums.now.own) x.0) 128000000000000 }
{
    // a set has at most 64 tasks and 64 processors
    let _tasks = set.tasks();
    sums.on[set.processor(x) as usize] - sums.own[x.0 as usize]
}

/// How many do tasks of other processors make?
pub(crate) fn away(set: &TaskSet, sums: &Sums, x: TaskId) -> u64
    requires task { x.0 < length set.now.tasks }
    requires sums { AreSums set.now sums.now }
    ensures { IsAmount result (made_away set.now (slice_index sums.now.own) x.0) 128000000000000 }
{
    // a set has at most 64 processors
    let _tasks = set.tasks();
    sums.all - sums.on[set.processor(x) as usize]
}

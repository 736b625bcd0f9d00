//! How long the requests of a task last that go first. That doesn't depend on the bounds, or on how long a job waits.

ghost use Rattle.std.specs.Prelude.{◌≡◌, ◌<◌, length};
ghost use Rattle.sporadic_model.specs.SetDef.{task_at};
ghost use Rattle.sporadic_model.specs.Users.{count_of};
ghost use Rattle.blocking_columns.specs.Ceilings.{remote_ceiling_rank};
ghost use Rattle.closer_mpcp.specs.Given.{AreTaskAndResource, AreTaskAndTwoResources};
ghost use Rattle.closer_mpcp.specs.Sums.{AreSumsOfAll};
ghost use Rattle.closer_mpcp.specs.Tables.{AreFirst, AreFirstOf, AreFirstOfResource, AreFirstBeside};

use crate::ceilings::{ceiling_seen, goes_first_of};
use crate::sums::{Requests, Sums, beside, sums_of};
use sporadic_model::{ResourceId, TaskId, TaskSet};

/// How long requests of a task that go first last, in ticks. They go first while another task of its processor holds the resource that is
/// waited for.
#[derive(Clone, Copy, Drop)]
pub(crate) struct FirstTicks {
    /// The longest one.
    pub(crate) longest: u64,
    /// All that one job makes.
    pub(crate) all: u64,
}

// The requests of `r` by `x`, if they go first while another task of `x`'s processor holds `q`, whose ceiling that processor sees so.
fn first_of_resource(
    set: &TaskSet,
    x: TaskId,
    q: ResourceId,
    ceiling: u32,
    r: ResourceId,
) -> FirstTicks
    requires request { AreTaskAndTwoResources set.now x.0 r.0 q.0 }
    requires ceiling { ceiling ≡ remote_ceiling_rank set.now q.0 (task_at set.now x.0).processor }
    ensures { AreFirstOfResource set.now x.0 q.0 r.0 result }
{
    if goes_first_of(set, x, r, q, ceiling) {
        let length = set.length(x, r);
        FirstTicks {
            longest: length,
            all: set.count(x, r) * length,
        }
    } else {
        FirstTicks { longest: 0, all: 0 }
    }
}

// The requests of all resources by `x` that go first while another task of its processor holds `q`.
fn first_ticks(set: &TaskSet, x: TaskId, q: ResourceId) -> FirstTicks
    requires { AreTaskAndResource set.now x.0 q.0 }
    ensures { AreFirstOf set.now x.0 q.0 result }
{
    // a set has at most 32 resources, so the sum fits, and what isn't used has no length
    let _resources = set.resources();
    set.keeps_the_model();
    let used = set.used_by(x);
    let ceiling = ceiling_seen(set, q, set.processor(x));
    let mut longest = 0;
    let mut all = 0;
    for r in used {
        let some = first_of_resource(set, x, q, ceiling, *r);
        longest = some.longest.max(longest);
        all += some.all;
    }
    FirstTicks { longest, all }
}

/// The requests that one job of each task makes.
#[derive(Drop)]
struct OfOneJob;

impl Requests for OfOneJob {
    ghost use Rattle.std.proofs.Common.{arith};
    ghost use Rattle.std.proofs.lemmas.Bool.{ltb-false};

    ghost made = { λ k set r y. count_of set y r };

    ghost fits = { λ k set. Unit {0} };

    fn number(&self, set: &TaskSet, r: ResourceId, y: TaskId) -> u64 {
        set.count(y, r)
    }

    ghost none = { λ k set r y unused. omega (arith, ltb-false 0 (count_of set y r) unused) };
}

// The sums of those of `q`.
fn sums_of_all(set: &TaskSet, q: ResourceId) -> Sums
    requires { q.0 < length set.now.resources }
    ensures { AreSumsOfAll set.now q.0 result }
{
    // no task stands behind the last one, so none is left out
    let tasks = set.tasks();
    sums_of(set, &OfOneJob, TaskId(tasks), q)
}

// The requests by `x` that go first, if another task of its processor can hold `q` at all.
fn first_beside(set: &TaskSet, x: TaskId, q: ResourceId, users: &Sums) -> FirstTicks
    requires request { AreTaskAndResource set.now x.0 q.0 }
    requires users { AreSumsOfAll set.now q.0 users.now }
    ensures { AreFirstBeside set.now x.0 q.0 result }
{
    if beside(set, users, x) > 0 {
        first_ticks(set, x, q)
    } else {
        FirstTicks { longest: 0, all: 0 }
    }
}

/// Such requests of each task, by its number.
pub(crate) fn first_of_tasks(set: &TaskSet, q: ResourceId) -> [FirstTicks; 64]
    requires { q.0 < length set.now.resources }
    ensures { AreFirst set.now q.0 result }
{
    let users = sums_of_all(set, q);
    let mut first = [FirstTicks { longest: 0, all: 0 }; 64];
    for x in 0..set.tasks() {
        first[x as usize] = first_beside(set, TaskId(x), q, &users);
    }
    first
}

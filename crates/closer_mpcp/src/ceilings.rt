//! Which requests may run on a processor before the one of a ready holder.

ghost use Rattle.std.specs.Prelude.{◌≡◌, ◌<◌, length};
ghost use Rattle.sporadic_model.specs.SetDef.{task_at};
ghost use Rattle.blocking_columns.specs.Ceilings.{remote_ceiling_rank};
ghost use Rattle.closer_mpcp_laws.specs.CloserMpcpRows.{goes_first, goes_before};
ghost use Rattle.closer_mpcp.specs.Given.{AreTaskAndResource, AreTaskAndTwoResources, AreTaskAndNamed};
ghost use Rattle.closer_mpcp.specs.Holdings.{passes};

use sporadic_model::{ResourceId, TaskId, TaskSet};

/// The position of the resource's ceiling as processor `k` sees it; the number of tasks where it has no user.
pub(crate) fn ceiling_seen(set: &TaskSet, q: ResourceId, k: u32) -> u32
    requires { q.0 < length set.now.resources }
    ensures { result ≡ remote_ceiling_rank set.now q.0 k }
{
    match set.boost(q, k) {
        Some(highest) => highest.0,
        None => set.tasks(),
    }
}

/// May `x` run a request of `q` on its processor while another task is ready there that holds `r`, whose ceiling that processor sees so?
pub(crate) fn goes_first_of(
    set: &TaskSet,
    x: TaskId,
    q: ResourceId,
    r: ResourceId,
    ceiling: u32,
) -> bool
    requires request { AreTaskAndTwoResources set.now x.0 q.0 r.0 }
    requires ceiling { ceiling ≡ remote_ceiling_rank set.now r.0 (task_at set.now x.0).processor }
    ensures { result ≡ goes_first set.now x.0 q.0 r.0 }
{
    q != r && ceiling_seen(set, q, set.processor(x)) <= ceiling
}

// The same, where that ceiling isn't known yet.
fn goes_first(set: &TaskSet, x: TaskId, q: ResourceId, r: ResourceId) -> bool
    requires { AreTaskAndTwoResources set.now x.0 q.0 r.0 }
    ensures { result ≡ goes_first set.now x.0 q.0 r.0 }
{
    goes_first_of(set, x, q, r, ceiling_seen(set, r, set.processor(x)))
}

// May it run one of its own so?
fn goes_before(set: &TaskSet, x: TaskId, r: ResourceId) -> bool
    requires { AreTaskAndResource set.now x.0 r.0 }
    ensures { result ≡ goes_before set.now x.0 r.0 }
{
    let used = set.used_by(x);
    let ceiling = ceiling_seen(set, r, set.processor(x));
    for q in used {
        if goes_first_of(set, x, *q, r, ceiling) {
            return true;
        }
    }
    false
}

/// May it run its requests of this resource so, or any of its own where none is named?
pub(crate) fn passes(set: &TaskSet, x: TaskId, q: Option<ResourceId>, r: ResourceId) -> bool
    requires { AreTaskAndNamed set.now x.0 q r.0 }
    ensures { result ≡ passes set.now x.0 q r.0 }
{
    match q {
        Some(q) => goes_first(set, x, q, r),
        None => goes_before(set, x, r),
    }
}

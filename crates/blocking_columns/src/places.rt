ghost use Rattle.std.specs.Prelude.{◌≡◌, ◌<◌, length, option_map, unwrap_or};
ghost use Rattle.sporadic_model.specs.Users.{is_user};
ghost use Rattle.sporadic_model.specs.Homes.{home_in};
ghost use Rattle.blocking_columns.specs.Ceilings.{ceiling_rank, remote_ceiling_rank, place_in, may_precede};
ghost use Rattle.blocking_columns.specs.Columns.{have_one_processor, is_lower_local};

use sporadic_model::{Protocol, ResourceId, TaskId, TaskSet};

/// Does the task use the resource?
pub fn uses(set: &TaskSet, x: TaskId, q: ResourceId) -> bool
    requires task { x.0 < length set.now.tasks }
    requires resource { q.0 < length set.now.resources }
    ensures { result ≡ is_user set.now q.0 x.0 }
{
    set.count(x, q) > 0
}

/// Do the two tasks share a processor?
pub fn share_processor(set: &TaskSet, x: TaskId, y: TaskId) -> bool
    requires task { x.0 < length set.now.tasks }
    requires other { y.0 < length set.now.tasks }
    ensures { result ≡ have_one_processor set.now x.0 y.0 }
{
    set.processor(x) == set.processor(y)
}

/// Is `x` a task of lower base priority on `i`'s processor?
pub fn lower_local(set: &TaskSet, i: TaskId, x: TaskId) -> bool
    requires task { i.0 < length set.now.tasks }
    requires other { x.0 < length set.now.tasks }
    ensures { result ≡ is_lower_local set.now i.0 x.0 }
{
    i < x && share_processor(set, x, i)
}

/// The processor at which the resource's requests run; 0, which is no processor, where it has no home.
pub fn home(set: &TaskSet, q: ResourceId) -> u32
    requires { q.0 < length set.now.resources }
    ensures { result ≡ home_in set.now q.0 }
{
    match set.home(q) {
        Some(processor) => processor,
        None => 0,
    }
}

// The position of the task; the number of tasks where there is none.
fn place_of(set: &TaskSet, task: Option<TaskId>) -> u32
    ensures { result ≡ unwrap_or (option_map (λ x. x.0) task) (length set.now.tasks) }
{
    match task {
        Some(task) => task.0,
        None => set.tasks(),
    }
}

/// The position of the resource's highest user; the number of tasks where it has none.
pub fn ceiling_place(set: &TaskSet, q: ResourceId) -> u32
    requires { q.0 < length set.now.resources }
    ensures { result ≡ ceiling_rank set.now q.0 }
{
    place_of(set, set.ceiling(q))
}

// The position of the resource's ceiling as processor `k` sees it; the number of tasks where it has no user.
fn boost_place(set: &TaskSet, q: ResourceId, k: u32) -> u32
    requires { q.0 < length set.now.resources }
    ensures { result ≡ remote_ceiling_rank set.now q.0 k }
{
    place_of(set, set.boost(q, k))
}

/// The place of the resource by which it is told whether a holder of it may run before another one's on processor `k`.
pub(crate) fn place_seen(set: &TaskSet, protocol: Protocol, k: u32, q: ResourceId) -> u32
    requires { q.0 < length set.now.resources }
    ensures { result ≡ place_in protocol set.now k q.0 }
{
    match protocol {
        Protocol::Mpcp => boost_place(set, q, k),
        Protocol::FmlpPlus | Protocol::Dpcp => 0,
    }
}

/// May a holder of a resource with the first place run while one with the second is ready?
pub(crate) fn may_precede(protocol: Protocol, first: u32, second: u32) -> bool
    ensures { result ≡ may_precede protocol first second }
{
    match protocol {
        Protocol::Mpcp => first <= second,
        Protocol::FmlpPlus => true,
        Protocol::Dpcp => false,
    }
}
